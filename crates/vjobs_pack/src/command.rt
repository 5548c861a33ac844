//! The command line.

use clap::{Arg, ArgAction, ArgMatches, Command};
use program_words::{Arguments, Asking, Program, WordsFault};
use std::alloc::{AllocError, Global};
use vcode_base::limits::{MOST_BATCH_BYTES, MOST_WORDS};

/// What a file may have at most.
#[derive(Clone, Copy, Drop)]
pub struct Bounds {
    /// Its bytes.
    pub bytes: u32,
    /// The entries of a function's stack, if they are bounded.
    pub entries: Option<u32>,
}

/// What is to be packed.
#[derive(Drop)]
pub struct Asked {
    /// The folder of the batches and their manifests.
    pub out: String,
    /// The words of the region that the batches are to run in.
    pub region: u32,
    /// What a file may have at most.
    pub bounds: Bounds,
    /// The file with a list of names, if there is one; `-` is standard input.
    pub list: Option<String>,
    /// The names of the files.
    pub files: Vec<String>,
}

/// The most words of a region.
const MOST_REGION: u32 = MOST_WORDS as u32;

/// The same as the text of an argument.
const MOST_REGION_TEXT: &str = "1048576";

/// The most bytes of a file.
const MOST_FILE_BYTES: u32 = MOST_BATCH_BYTES as u32;

/// The same as the text of an argument.
const MOST_FILE_BYTES_TEXT: &str = "16777216";

/// The option for the folder of the batches.
fn out_option<'a>(alloc: Global) -> Arg<'a> {
    Arg::new(alloc, "out")
        .long("out")
        .value_name("DIR")
        .default_value(".")
        .help("The folder of the batches and their manifests")
}

/// The option for a list of files.
fn list_option<'a>(alloc: Global) -> Arg<'a> {
    Arg::new(alloc, "list")
        .long("files-from")
        .value_name("LIST")
        .help("A file with names of more files, a NUL after each; - is standard input")
}

/// The files.
fn file_arguments<'a>(alloc: Global) -> Arg<'a> {
    Arg::new(alloc, "file")
        .value_name("FILE")
        .num_args(0..)
        .action(ArgAction::Append)
        .help("Files of one job each")
}

/// The program whose words these are.
pub struct VjobsPack;

impl Program for VjobsPack {
    const NAME: &'static str = "vjobs-pack";

    fn described<'a>(command: Command<'a>) -> Command<'a> {
        command.about("Packs files of one VCODE job each into batches, each with a manifest")
    }

    fn add_arguments<'a>(arguments: &mut Arguments<'a>) -> Result<(), AllocError> {
        arguments.add(out_option(arguments.alloc()))?;
        let region = "Words of the region that the batches are to run in";
        let words = 1..=i64::from(MOST_REGION);
        arguments.number("region", "N", words, Some(MOST_REGION_TEXT), region)?;
        let most = "Bytes of the longest file that is packed";
        let bytes = 1..=i64::from(MOST_FILE_BYTES);
        arguments.number("most-bytes", "N", bytes, Some(MOST_FILE_BYTES_TEXT), most)?;
        let stack = "Most entries of a function's stack; no bound if it isn't given";
        arguments.number("most-entries", "N", 0..=i64::from(u32::MAX), None, stack)?;
        arguments.add(list_option(arguments.alloc()))?;
        arguments.add(file_arguments(arguments.alloc()))
    }
}

impl Asking for VjobsPack {
    type Asked = Asked;

    fn asked_of(alloc: Global, matches: &ArgMatches<'_>) -> Result<Asked, WordsFault> {
        let files = files_of(alloc, matches)?;
        Ok(asked_over(alloc, matches, files)?)
    }
}

/// The names of the files that were matched.
fn files_of(alloc: Global, matches: &ArgMatches<'_>) -> Result<Vec<String>, AllocError> {
    let mut files = Vec::new(alloc);
    if let Some(names) = matches.get_strs("file") {
        for name in names {
            files.push(String::from_str(alloc, name)?)?;
        }
    }
    Ok(files)
}

/// What was matched, over these files.
fn asked_over(
    alloc: Global,
    matches: &ArgMatches<'_>,
    files: Vec<String>,
) -> Result<Asked, AllocError> {
    let region = matches.get_one::<u32>("region").unwrap_or(MOST_REGION);
    let bytes = matches
        .get_one::<u32>("most-bytes")
        .unwrap_or(MOST_FILE_BYTES);
    let entries = matches.get_one::<u32>("most-entries");
    let out = String::from_str(alloc, matches.get_str("out").unwrap_or("."))?;
    let list = match matches.get_str("list") {
        Some(list) => Some(String::from_str(alloc, list)?),
        None => None,
    };
    Ok(Asked {
        out,
        region,
        bounds: Bounds { bytes, entries },
        list,
        files,
    })
}
