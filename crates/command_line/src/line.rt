//! What a command line asks for.

ghost use Rattle.std.specs.Prelude.{IfOk};
ghost use Rattle.command_line.specs.Lines.{LineFits};

use crate::command::{DEFAULT_WORKERS, MOST_APART, MOST_REGION, MOST_THREADS, Vjobs};
use crate::fault::LineFault;
use batch_front::{Options, parse_schedule};
use clap::ArgMatches;
use program_words::{help_of, matches_of};
use std::alloc::Global;

/// What a command line asks for.
#[derive(Drop)]
pub enum Line {
    /// A run with these options over the file of this name; `-` is standard input.
    Run(Options, String),
    /// The text of help or of the version, to be printed.
    Help(String),
}

/// What was matched.
fn run_of(alloc: Global, matches: &ArgMatches<'_>) -> Result<Line, LineFault>
    ensures { IfOk result LineFits }
{
    let region = matches.get_one::<u32>("region").unwrap_or(MOST_REGION);
    let workers = matches.get_one::<u32>("workers").unwrap_or(DEFAULT_WORKERS);
    let lanes = matches.get_one::<u32>("lanes").unwrap_or(1);
    let schedule = match matches.get_str("schedule") {
        Some(list) => Some(parse_schedule(alloc, list)?),
        None => None,
    };
    let options = Options {
        region: region.clamp(1, MOST_REGION),
        workers: workers.clamp(1, MOST_THREADS),
        lanes: lanes.clamp(1, MOST_APART),
        schedule,
    };
    let file = matches.get_str("file").unwrap_or("-");
    let file = String::from_str(alloc, file).map_err(|_| LineFault::Memory)?;
    Ok(Line::Run(options, file))
}

/// Reads a command line, the program's name first: `vjobs [--region N] [--workers W] [--lanes K] [--schedule LIST]
/// FILE`. Lanes and a schedule together are refused.
///
/// The region is at least 1 word and at most [`MOST_WORDS`](vcode_base::limits::MOST_WORDS), which it is if none is
/// given. The workers are at least 1 and at most [`MOST_WORKERS`](vcode_base::limits::MOST_WORKERS), and 4 if no number
/// is given. The lanes are at least 1 and at most [`MOST_LANES`](batch_front::MOST_LANES), and 1 if no number is
/// given. The schedule is what [`parse_schedule`] reads of the list. A line that asks for help or for the version is
/// [`Line::Help`].
///
/// # Errors
///
/// [`LineFault::Usage`] if the line is refused, with the text of [`help_of`]; [`LineFault::BadSchedule`] if its list is
/// no schedule, and [`LineFault::Memory`] if a growth was refused.
pub fn read_line(alloc: Global, words: &[String]) -> Result<Line, LineFault>
    ensures { IfOk result LineFits }
{
    match matches_of::<Vjobs>(alloc, words) {
        Ok(matches) => run_of(alloc, &matches),
        Err(error) => Ok(Line::Help(help_of::<Vjobs>(alloc, &error, words)?)),
    }
}
