//! What is shown of a state that is looked for.

use crate::look::show_after;
use crate::output::print_text;
use job_looks::{Batch, Part, Sought, Text, count_to, push_none};
use job_steps::Job;
use std::alloc::Global;
use std::io;

/// Prints that there is no state that was looked for.
fn print_none(rt: &HostRuntime, sought: &Sought) -> io::Result<()> {
    let mut text = Text::new(rt.alloc());
    push_none(&mut text, sought);
    print_text(rt, text)
}

/// Shows this of a state of a job that is looked for, on the line of its name.
pub fn show_sought(
    rt: &HostRuntime,
    batch: Batch<'_>,
    job: Job<Global>,
    sought: &Sought,
    part: Part,
) -> io::Result<()> {
    let (count, job) = count_to(rt.alloc(), batch.rule, job, sought)?;
    match count {
        Some(count) => show_after(rt, batch, job, count, part),
        None => {
            drop(job);
            print_none(rt, sought)
        }
    }
}
