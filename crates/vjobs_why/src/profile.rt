//! The profile of a job: how often its functions and lines were executed, as a text.

use crate::output::{print_more, print_text};
use crate::source_profile::print_sources;
use code_places::Sources;
use job_profile::Profile;
use job_tally::{FunctionHead, FunctionTally, LineCount, LineTally, Tally};
use refusal_notes::Lines;
use std::alloc::Global;
use std::io;
use why_texts::{
    Shown, function_text, functions_head, line_text, lines_head, sorted_functions, sorted_lines,
    words_text,
};

/// The most lines that are shown, unless all are.
const MOST_LINES: usize = 20;

/// Prints functions of a job that executed `whole` instructions.
fn print_rows(
    rt: &HostRuntime,
    rows: &[(FunctionHead, FunctionTally)],
    whole: u64,
) -> io::Result<()> {
    print_text(rt, functions_head(rt.alloc()))?;
    for (function, tally) in rows {
        print_text(rt, function_text(rt.alloc(), function, *tally, whole))?;
    }
    Ok(())
}

/// Prints the functions, those with the most instructions first.
fn print_functions(rt: &HostRuntime, profile: &Profile<Global>, tally: &Tally) -> io::Result<()> {
    let rows = sorted_functions(rt.alloc(), profile, tally)?;
    print_rows(rt, &rows, profile.run().executed())
}

/// Prints the lines that were executed, or the first of them.
fn print_lines(
    rt: &HostRuntime,
    lines: &Lines,
    sources: &Sources,
    rows: &[(LineCount, LineTally)],
    most: usize,
) -> io::Result<()> {
    print_text(rt, lines_head(rt.alloc()))?;
    let shown = rows.get(..most).unwrap_or(rows);
    for (count, tally) in shown {
        print_text(rt, line_text(rt.alloc(), lines, sources, *count, *tally))?;
    }
    print_more(rt, rows.len().saturating_sub(shown.len()) as u64)
}

/// Prints the lines of a job that were executed, and those of its source: all, or the first of them.
fn print_executed(
    rt: &HostRuntime,
    lines: &Lines,
    profile: &Profile<Global>,
    tally: &Tally,
    all: bool,
) -> io::Result<()> {
    let sources = Sources::of(rt.alloc(), lines, profile.run().job().verified().program())?;
    let most = if all { usize::MAX } else { MOST_LINES };
    let printed = print_both(rt, lines, &sources, profile, tally, most);
    drop(sources);
    printed
}

/// Prints the lines of the source of a job and those of its code that were executed, of each at most this many.
fn print_both(
    rt: &HostRuntime,
    lines: &Lines,
    sources: &Sources,
    profile: &Profile<Global>,
    tally: &Tally,
    most: usize,
) -> io::Result<()> {
    print_sources(rt, sources, profile, tally, most)?;
    let rows = sorted_lines(rt.alloc(), profile, tally)?;
    print_lines(rt, lines, sources, &rows, most)
}

/// Prints the profile of a job that has ended, after how it ended; all lines, or the first of them.
pub fn print_profile(rt: &HostRuntime, lines: &Lines, shown: &Shown, all: bool) -> io::Result<()> {
    let (profile, tally) = (shown.survey.profile(), &shown.survey.counts.tally);
    print_text(rt, words_text(rt.alloc(), lines, shown))?;
    print_functions(rt, profile, tally)?;
    print_executed(rt, lines, profile, tally, all)
}
