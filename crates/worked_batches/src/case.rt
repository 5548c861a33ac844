//! The cases of a table.

ghost use Rattle.std.specs.Prelude.{◌≤◌};
ghost use Rattle.vcode_base.specs.declared.limits.TheConstants.{MOST_WORDS};

use batch_front::{Options, parse_schedule};
use std::alloc::{AllocError, Global};
use vcode_base::limits::MOST_WORDS;

/// A batch, and the wanted result.
#[derive(Clone, Copy)]
pub struct Case<'a> {
    pub name: &'a str,
    /// The words of the region.
    region: u32,
    /// The schedules by which it is run, with blanks or LFs between them; none if it is run without one.
    pub schedules: &'a str,
    pub batch: &'a str,
    pub exit: u8,
    /// Without the last LF.
    pub report: &'a str,
    ghost region_fits: { (1 ≤ region) × (region ≤ MOST_WORDS) },
}

impl Case<'_> {
    /// A run by a schedule or without one, if the text of the schedule is one.
    pub fn options(self, alloc: Global, schedule: Option<&str>) -> Option<Options> {
        let schedule = match schedule {
            Some(list) => Some(parse_schedule(alloc, list).ok()?),
            None => None,
        };
        Some(Options {
            region: self.region,
            workers: 1,
            lanes: 1,
            schedule,
        })
    }
}

/// The case that a table has after `=== job `, if it is one.
pub fn case_of(text: &str) -> Option<Case<'_>> {
    let (head, text) = text.split_once('\n')?;
    let (name, region) = head.split_once(", region ")?;
    let (batch, text) = text.split_once("=== report, exit ")?;
    let (schedules, batch) = batch.split_once("=== batch\n").unwrap_or(("", batch));
    let (exit, text) = text.split_once('\n')?;
    let (report, _remarks) = text.split_once("\n\n").unwrap_or((text.trim_end(), ""));
    let region: u32 = region.parse().ok()?;
    if region == 0 || region as usize > MOST_WORDS {
        return None;
    }
    Some(Case {
        name,
        region,
        schedules,
        batch,
        exit: exit.parse().ok()?,
        report,
    })
}

/// The lines of a batch or a report, each as often as the table says.
pub fn written_out(alloc: Global, text: &str) -> Result<String, AllocError> {
    let mut parts = text.split("=== ");
    let mut written = String::from_str(alloc, parts.next().unwrap_or(""))?;
    for part in parts {
        let (head, lines) = part.split_once('\n').unwrap_or((part, ""));
        match head.split_once(' ') {
            Some((count, "times")) => put_times(&mut written, lines, count.parse().unwrap_or(0))?,
            Some((count, "times on one line")) => {
                put_times(&mut written, lines.trim_end(), count.parse().unwrap_or(0))?;
            }
            _ => written.push_str(lines)?,
        }
        if head == "open" {
            written.pop();
        }
    }
    Ok(written)
}

/// Appends lines `count` times.
fn put_times(written: &mut String, lines: &str, count: u32) -> Result<(), AllocError> {
    for number in 0..count {
        put_once(written, lines, number.saturating_add(1))?;
    }
    Ok(())
}

/// Appends lines for the time of this number.
fn put_once(written: &mut String, lines: &str, number: u32) -> Result<(), AllocError> {
    let mut parts = lines.split('#');
    written.push_str(parts.next().unwrap_or(""))?;
    for part in parts {
        write!(written, "{number}")?;
        written.push_str(part)?;
    }
    Ok(())
}
