//! The command line.

use clap::{Arg, ArgAction, ArgMatches, Command};
use program_words::{Arguments, Asking, Program, WordsFault};
use std::alloc::{AllocError, Global};

/// Where the reports go.
#[derive(Drop)]
pub enum Target {
    /// Into a folder, by the places of the jobs.
    Folder(String),
    /// Beside the files of the jobs.
    Beside,
}

/// What is to be split.
#[derive(Drop)]
pub struct Asked {
    /// The file of the manifest.
    pub manifest: String,
    /// Where the reports go.
    pub target: Target,
    /// Whether the batch that the manifest names is to be looked at.
    pub with_batch: bool,
}

/// The option for the folder of the reports.
fn out_option<'a>(alloc: Global) -> Result<Arg<'a>, AllocError> {
    Arg::new(alloc, "out")
        .long("out")
        .value_name("DIR")
        .help("A new or empty folder for the reports and their list, table.tsv")
        .required_unless_present("beside")
}

/// The option for reports beside the files.
fn beside_option<'a>(alloc: Global) -> Result<Arg<'a>, AllocError> {
    Arg::new(alloc, "beside")
        .long("beside")
        .action(ArgAction::SetTrue)
        .help("Write FILE.report beside each FILE of the manifest")
        .conflicts_with("out")
}

/// The program whose words these are.
pub struct VjobsSplit;

impl Program for VjobsSplit {
    const NAME: &'static str = "vjobs-split";

    fn described<'a>(command: Command<'a>) -> Command<'a> {
        command.about("Gives each packed file the report of its job")
    }

    fn add_arguments<'a>(arguments: &mut Arguments<'a>) -> Result<(), AllocError> {
        arguments.add(out_option(arguments.alloc())?)?;
        arguments.add(beside_option(arguments.alloc())?)?;
        let without = "Don't look whether the batch is the one that the manifest names";
        arguments.flag("without-batch", without)?;
        let manifest = "The manifest of the batch; its report is read from standard input";
        arguments.file("MANIFEST", manifest)
    }
}

impl Asking for VjobsSplit {
    type Asked = Asked;

    fn asked_of(alloc: Global, matches: &ArgMatches<'_>) -> Result<Asked, WordsFault> {
        let manifest = String::from_str(alloc, matches.get_str("file").unwrap_or(""))?;
        let target = match matches.get_str("out") {
            Some(folder) => Target::Folder(String::from_str(alloc, folder)?),
            None => Target::Beside,
        };
        Ok(Asked {
            manifest,
            target,
            with_batch: !matches.get_flag("without-batch"),
        })
    }
}
