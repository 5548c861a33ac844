//! The command line.

use clap::{ArgMatches, Command};
use kind_finder::MOST_ENTRIES;
use program_words::{Arguments, Asking, Program, WordsFault};
use std::alloc::{AllocError, Global};
use vcode_base::limits::MOST_BATCH_BYTES;

/// What help ends with.
const AFTER_HELP: &str = "\
Exits:
  0  the signatures were printed; also after help
  1  there are no signatures, in a batch for some job
  2  the command line was refused
  3  reading, writing or memory failed";

/// The most bytes of a file.
const MOST_BYTES: u32 = MOST_BATCH_BYTES as u32;

/// The same as the text of an argument.
const MOST_BYTES_TEXT: &str = "16777216";

/// The most entries of a stack if no number is given.
const DEFAULT_ENTRIES: u32 = MOST_ENTRIES as u32;

/// The same as the text of an argument.
const DEFAULT_ENTRIES_TEXT: &str = "67108864";

/// What a file may have at most.
#[derive(Clone, Copy)]
pub struct Bounds {
    /// The bytes of its text.
    pub bytes: u32,
    /// The entries of a function's stack.
    pub entries: u32,
}

/// What a file is.
#[derive(Clone, Copy)]
pub enum Form {
    /// The code of a job alone.
    Code,
    /// A batch.
    Batch,
}

/// What signatures are asked for.
#[derive(Drop)]
pub struct Asked {
    /// The name of the file; `-` is standard input.
    pub file: String,
    /// What it is.
    pub form: Form,
    /// What it may have at most.
    pub bounds: Bounds,
}

/// The program whose words these are.
pub struct VjobsKinds;

impl Program for VjobsKinds {
    const NAME: &'static str = "vjobs-kinds";

    fn described<'a>(command: Command<'a>) -> Command<'a> {
        command
            .about("Prints the signatures of VCODE code that has none")
            .after_help(AFTER_HELP)
    }

    fn add_arguments<'a>(arguments: &mut Arguments<'a>) -> Result<(), AllocError> {
        arguments.flag("batch", "Prints a batch with the signatures of its jobs")?;
        let bytes = "Most bytes of the file";
        let range = 0..=i64::from(MOST_BYTES);
        arguments.number("most-bytes", "N", range, Some(MOST_BYTES_TEXT), bytes)?;
        let entries = "Most entries of a function's stack";
        let range = 0..=i64::from(u32::MAX);
        arguments.number(
            "most-entries",
            "N",
            range,
            Some(DEFAULT_ENTRIES_TEXT),
            entries,
        )?;
        arguments.file("FILE", "The code or the batch, or - for standard input")
    }
}

impl Asking for VjobsKinds {
    type Asked = Asked;

    fn asked_of(alloc: Global, matches: &ArgMatches<'_>) -> Result<Asked, WordsFault> {
        let bytes = matches.get_one::<u32>("most-bytes").unwrap_or(MOST_BYTES);
        let entries = matches
            .get_one::<u32>("most-entries")
            .unwrap_or(DEFAULT_ENTRIES);
        let file = matches.get_str("file").unwrap_or("-");
        let form = if matches.get_flag("batch") {
            Form::Batch
        } else {
            Form::Code
        };
        Ok(Asked {
            file: String::from_str(alloc, file)?,
            form,
            bounds: Bounds { bytes, entries },
        })
    }
}
