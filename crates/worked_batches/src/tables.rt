//! Tables of cases, each of them a batch with its report.
//!
//! This is a case:
//!
//! ```text
//! === job NAME, region WORDS
//! schedules with blanks or LFs between them, and then a line === batch; or neither
//! the lines of the batch
//! === report, exit NUMBER
//! the lines of the report
//! ```
//!
//! A blank line or the end of the table ends the report, and remarks may follow. In a batch and in a report,
//!
//! - lines between `=== N times` and `=== once` stand there N times, and `#` in them is the number of the time, from 1;
//! - a line between `=== N times on one line` and `=== once` stands there N times without an LF;
//! - `=== open` takes the LF off the line above it.

use crate::case::{Case, case_of, written_out};
use crate::cuts::{Ending, ending_however_cut};
use std::alloc::{AllocError, Global};
use std::io::Write;
use std::{fs, io};

/// Whether a batch gives what its case says.
fn is_wanted(alloc: Global, case: Case<'_>, ending: &Ending) -> Result<bool, AllocError> {
    let mut report = written_out(alloc, case.report)?;
    report.push('\n')?;
    Ok(ending.exit == case.exit && ending.report.as_slice() == report.as_bytes())
}

/// Runs a case by a schedule or without one. Answers whether it gives what it says; if not, prints what it gives.
fn gives_report(rt: &HostRuntime, case: Case<'_>, schedule: Option<&str>) -> io::Result<bool> {
    let name = case.name;
    let batch = written_out(rt.alloc(), case.batch)?;
    let Some(options) = case.options(rt.alloc(), schedule) else {
        println!(rt; "{name} has a schedule that is none")?;
        return Ok(false);
    };
    let Some(ending) = ending_however_cut(rt.alloc(), batch.as_bytes(), &options) else {
        println!(rt; "{name} comes to something else in pieces")?;
        return Ok(false);
    };
    if is_wanted(rt.alloc(), case, &ending)? {
        return Ok(true);
    }
    println!(rt;
        "{name} exits with {} and gives another report:",
        ending.exit
    )?;
    rt.stdout().write_all(&ending.report)?;
    Ok(false)
}

/// Runs a case by each of its schedules, or without one if it has none. Answers whether it always gives what it
/// says.
fn gives_reports(rt: &HostRuntime, case: Case<'_>) -> io::Result<bool> {
    if case.schedules.is_empty() {
        return gives_report(rt, case, None);
    }
    for list in case.schedules.split_whitespace() {
        if !gives_report(rt, case, Some(list))? {
            return Ok(false);
        }
    }
    Ok(true)
}

/// Runs the table of this name, and prints how many of its cases give what they say.
pub fn show_table(rt: &HostRuntime, name: &str) -> io::Result<()> {
    let table = format!(in rt.alloc(); "tables/{name}")?;
    let table = fs::read_to_string(rt, table.as_str())?;
    let mut good: usize = 0;
    for text in table.split("=== job ").skip(1) {
        match case_of(text) {
            Some(case) => {
                if gives_reports(rt, case)? {
                    good = good.saturating_add(1);
                }
            }
            None => println!(rt; "no case: {text}")?,
        }
    }
    println!(rt; "{name}: {good} jobs give their reports")
}
