//! The command line as clap knows it.

use batch_front::MOST_LANES;
use clap::{Arg, Command, value_parser};
use program_words::{Arguments, Program};
use std::alloc::{AllocError, Global};
use vcode_base::limits::{MOST_WORDS, MOST_WORKERS};

/// The words of a region if no number is given: the most.
pub(crate) const MOST_REGION: u32 = MOST_WORDS as u32;

/// The same as the text of an argument.
const MOST_REGION_TEXT: &str = "1048576";

/// The most workers.
pub(crate) const MOST_THREADS: u32 = MOST_WORKERS as u32;

/// The workers if no number is given.
pub(crate) const DEFAULT_WORKERS: u32 = 4;

/// The same as the text of an argument.
const DEFAULT_WORKERS_TEXT: &str = "4";

/// The most lanes.
pub(crate) const MOST_APART: u32 = MOST_LANES as u32;

/// The lanes if no number is given, as the text of an argument.
const DEFAULT_LANES_TEXT: &str = "1";

/// What help ends with.
const AFTER_HELP: &str = "\
Exits:
  0  every job returned, or there was none; also after help
  1  some job was refused or ended otherwise
  2  the batch or the command line was refused
  3  reading, writing or memory failed

Example:
  vjobs --lanes 4 batch.vcode";

/// The option for the number of lanes.
fn lanes_option<'a>(alloc: Global) -> Result<Arg<'a>, AllocError> {
    Arg::new(alloc, "lanes")
        .long("lanes")
        .value_name("K")
        .value_parser(value_parser!(u32).range(1..=i64::from(MOST_APART)))
        .help("Threads that run jobs apart, each over a region of its own: for many jobs")
        .default_value(DEFAULT_LANES_TEXT)
        .conflicts_with("schedule")
}

/// The program whose words these are.
pub struct Vjobs;

impl Program for Vjobs {
    const NAME: &'static str = "vjobs";

    fn described<'a>(command: Command<'a>) -> Command<'a> {
        command
            .about("Runs a batch of VCODE jobs and prints a report")
            .after_help(AFTER_HELP)
    }

    fn add_arguments<'a>(arguments: &mut Arguments<'a>) -> Result<(), AllocError> {
        let region = "Words of the region that the jobs share, or of each lane's";
        let words = 1..=i64::from(MOST_REGION);
        arguments.number("region", "N", words, Some(MOST_REGION_TEXT), region)?;
        let workers = "Threads that run the jobs if no schedule is given and there is one lane";
        let threads = 1..=i64::from(MOST_THREADS);
        arguments.number("workers", "W", threads, Some(DEFAULT_WORKERS_TEXT), workers)?;
        arguments.add(lanes_option(arguments.alloc())?)?;
        let schedule = "Turns that the jobs take first, as in 1,b2,1,f2";
        arguments.text("schedule", "LIST", schedule)?;
        arguments.file("FILE", "The batch, or - for standard input")
    }
}
