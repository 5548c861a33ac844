//! Runs batches, and compares each report byte by byte with the wanted one, however the batch is cut into pieces.
//!
//! A line `table NAME` of standard input names a file of `tables/`. Its line of output says how many of its jobs give
//! their reports and exits. A job that doesn't is named above that, with its result.
//!
//! A line `example NAME` names an example of `examples/`. Its name is printed with the number that `vjobs` exits with,
//! and if its report is another one, that report.
//!
//! Any other line is one of a table of calls on machines; the module `machines` says which there are.
#![tactic(auto)]

mod case;
mod cuts;
mod examples;
mod machines;
mod tables;

use examples::show_example;
use machines::{Player, show_call};
use std::io;
use tables::show_table;

/// Runs what a line names, or makes its call.
fn show(rt: &HostRuntime, player: &mut Option<Player>, line: &str) -> io::Result<()> {
    match line.split_once(' ') {
        Some(("table", name)) => show_table(rt, name),
        Some(("example", name)) => show_example(rt, name),
        _ => show_call(rt, player, line),
    }
}

/// Runs what each line names.
fn show_all(rt: &HostRuntime, player: &mut Option<Player>) -> io::Result<()> {
    for line in rt.lines(rt.alloc()) {
        show(rt, player, line?.as_str())?;
    }
    Ok(())
}

fn main(rt: HostRuntime) -> io::Result<()> {
    show_all(&rt, &mut None)
}
