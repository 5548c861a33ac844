//! The instructions of a job that were executed, one by one.

use crate::output::{print_and_clear, print_text};
use code_places::Spans;
use job_looks::{
    Batch, Passed, Step, Text, pass_one, push_made, push_more, push_step, push_step_head,
};
use job_profile::{Run, Uses};
use job_steps::Job;
use refusal_notes::Lines;
use std::alloc::{AllocError, Global};
use std::io;
use vcode_base::Rule;
use why_command::{Picker, Selection};

/// A list of instructions: the lines of the batch, where the instructions are, and how many are chosen in all.
#[derive(Clone, Copy)]
struct Listing<'a> {
    lines: &'a Lines,
    spans: &'a Spans,
    total: u64,
}

/// Executes this many instructions of a run, or all that are left.
fn pass(uses: &mut Uses<Global>, count: u64) {
    for _ in 0..count {
        if !uses.step() {
            return;
        }
    }
}

/// How many instructions of a run that has executed nothing are chosen, but for the first and the last ones.
fn count_chosen(uses: &mut Uses<Global>, selection: Selection) -> u64 {
    let mut picker = Picker::new(selection);
    let before = selection.from.saturating_sub(1);
    pass(uses, before);
    for _ in before..selection.to {
        match pass_one(uses) {
            Some(passed) => picker.takes(passed.line),
            None => break,
        };
    }
    picker.taken
}

/// Where the instructions of a job are.
fn spans_of(alloc: Global, batch: Batch<'_>, job: &Job<Global>) -> Result<Spans, AllocError> {
    Spans::of(alloc, batch.lines, job.verified().program())
}

/// Adds the instruction that a run has executed last and that was chosen, and what it made if that is to be shown, if
/// it is listed. If it is the first that is left out, adds how many are from it on.
fn push_listed(
    text: &mut Text,
    alloc: Global,
    listing: Listing<'_>,
    run: &Run<Global>,
    passed: Passed,
    picker: Picker,
) {
    if !picker.is_listed(listing.total) {
        return push_more(text, picker.left_out(listing.total).unwrap_or(0));
    }
    let step = Step::of(run, passed);
    push_step(text, alloc, listing.lines, listing.spans, step);
    if picker.shows_values() {
        push_made(text, run, step);
    }
}

/// What comes before the instructions.
fn head_text(alloc: Global) -> Text {
    let mut text = Text::new(alloc);
    text.push_str("step by step\n");
    push_step_head(&mut text);
    text
}

/// Prints the instructions of a run that has executed nothing, if this many are chosen in all.
fn print_chosen(
    rt: &HostRuntime,
    batch: Batch<'_>,
    uses: &mut Uses<Global>,
    selection: Selection,
    total: u64,
) -> io::Result<()> {
    print_text(rt, head_text(rt.alloc()))?;
    let spans = spans_of(rt.alloc(), batch, uses.run().job())?;
    let listing = Listing {
        lines: batch.lines,
        spans: &spans,
        total,
    };
    let printed = print_each(rt, listing, uses, selection);
    drop(spans);
    printed
}

/// Prints the same without a head.
fn print_each(
    rt: &HostRuntime,
    listing: Listing<'_>,
    uses: &mut Uses<Global>,
    selection: Selection,
) -> io::Result<()> {
    let (mut text, mut picker) = (Text::new(rt.alloc()), Picker::new(selection));
    let before = selection.from.saturating_sub(1);
    pass(uses, before);
    for _ in before..selection.to {
        let Some(passed) = pass_one(uses) else {
            break;
        };
        if picker.takes(passed.line) {
            push_listed(&mut text, rt.alloc(), listing, uses.run(), passed, picker);
            print_and_clear(rt, &mut text)?;
        }
        if picker.is_done() {
            break;
        }
    }
    Ok(())
}

/// How many instructions of a job are chosen, but for the first and the last ones, and the job.
fn count_steps(
    alloc: Global,
    rule: Rule,
    job: Job<Global>,
    selection: Selection,
) -> Result<(u64, Job<Global>), AllocError> {
    let mut uses = Uses::new(alloc, rule, job)?;
    let total = count_chosen(&mut uses, selection);
    Ok((total, uses.into_job()))
}

/// Prints the instructions of a job, if this many are chosen in all.
fn print_steps(
    rt: &HostRuntime,
    batch: Batch<'_>,
    job: Job<Global>,
    selection: Selection,
    total: u64,
) -> io::Result<()> {
    let mut uses = Uses::new(rt.alloc(), batch.rule, job)?;
    let printed = print_chosen(rt, batch, &mut uses, selection, total);
    drop(uses);
    printed
}

/// Prints the instructions of a job that are chosen, on the line of its name. If the last ones are wanted, it is run
/// once more to count them.
pub fn show_steps(
    rt: &HostRuntime,
    batch: Batch<'_>,
    job: Job<Global>,
    selection: Selection,
) -> io::Result<()> {
    if selection.last.is_none() {
        return print_steps(rt, batch, job, selection, u64::MAX);
    }
    let (total, job) = count_steps(rt.alloc(), batch.rule, job, selection)?;
    print_steps(rt, batch, job, selection, total)
}
