//! A state of a job as data: its calls and its stack, or values of an entry.

use crate::data::{push_comma, push_ending, push_job, push_shown};
use crate::picture_data::{push_picture, push_values};
use job_history::Origin;
use job_looks::{
    Batch, End, MOST_ENTRIES, Part, Picture, State, Text, ValueRange, Watch, count_to, push_number,
    push_size, run_through,
};
use job_steps::Job;
use refusal_notes::{kind_text, printable};
use std::alloc::{AllocError, Global};
use vcode_base::Rule;

/// Where a state of a job is: after how many instructions, if there is such a state, and how the job ends if it is its
/// last one.
#[derive(Clone, Copy, Drop)]
struct Found {
    count: Option<u64>,
    end: Option<End>,
}

/// Where a state of a job is, and the job.
fn find(
    alloc: Global,
    rule: Rule,
    job: Job<Global>,
    state: &State,
) -> Result<(Found, Job<Global>), AllocError> {
    let (count, end, job) = match state {
        State::Last => {
            let (end, job) = run_through(alloc, rule, job)?;
            (Some(end.steps), Some(end), job)
        }
        State::After(count) => (Some(*count), None, job),
        State::At(sought) => {
            let (count, job) = count_to(alloc, rule, job, sought)?;
            (count, None, job)
        }
    };
    Ok((Found { count, end }, job))
}

/// Adds the object of values of an entry that has these words.
fn push_range(text: &mut Text, range: ValueRange, origin: Origin, words: &[i64]) {
    push_size(text, "{\"depth\":", range.depth);
    text.push_str(",\"kind\":\"");
    text.push_str(kind_text(origin.kind));
    push_size(text, "\",\"length\":", words.len());
    push_number(text, ",\"line\":", origin.line);
    push_size(text, ",\"first\":", range.first);
    let values = range.of(words).unwrap_or(&[]);
    push_values(text, origin.kind, values);
    text.push('}');
}

/// Adds the members for values of an entry at the state of a run.
fn push_entry(text: &mut Text, watch: &Watch, range: ValueRange) {
    push_size(text, ",\"entries\":", watch.run().depth());
    text.push_str(",\"entry\":");
    match (watch.run().words(range.depth), watch.origin(range.depth)) {
        (Some(words), Some(origin)) => push_range(text, range, origin, words),
        _ => text.push_str("null"),
    }
}

/// Adds the member for the names of the functions of the job of a run.
fn push_names(text: &mut Text, alloc: Global, watch: &Watch) {
    text.push_str(",\"functions\":[");
    let program = watch.run().job().verified().program();
    for (place, function) in program.functions().iter().enumerate() {
        push_comma(text, place);
        push_shown(text, printable(alloc, function.name()));
    }
    text.push(']');
}

/// Adds the members for the calls and the stack at the state of a run, of which at most this many entries are given.
fn push_stack(text: &mut Text, alloc: Global, watch: &Watch, most: usize) {
    push_names(text, alloc, watch);
    let picture = Picture::of(alloc, &watch.state(), most);
    if let Some(picture) = text.get(picture) {
        push_picture(text, None, &picture);
    }
}

/// Adds the members for this of the state of a run.
fn push_part(text: &mut Text, alloc: Global, watch: &Watch, part: Part) {
    match part {
        Part::Top => push_stack(text, alloc, watch, MOST_ENTRIES),
        Part::All => push_stack(text, alloc, watch, usize::MAX),
        Part::Values(range) => push_entry(text, watch, range),
    }
}

/// How many instructions a job executes in all, if the state of its run is the last one, or up to this state, and the
/// most words.
fn used_at(watch: &Watch, found: Found) -> (u64, usize) {
    match found.end {
        Some(end) => (end.executed, end.words),
        None => (watch.run().executed(), watch.run().peak()),
    }
}

/// Adds the members for the next instruction of a run and for this of its state. If there is no next one, it is `null`.
fn push_next(text: &mut Text, alloc: Global, watch: &Watch, part: Part) {
    match watch.next() {
        Some(next) => {
            push_number(text, ",\"next\":", next.line);
            push_part(text, alloc, watch, part);
        }
        None => text.push_str(",\"next\":null"),
    }
}

/// Adds the members for this of a state, at which a run is. If there is no such state, these are `null`.
fn push_state(text: &mut Text, alloc: Global, watch: &Watch, found: Found, part: Part) {
    if found.count.is_none() {
        text.push_str(",\"instructions\":null,\"peak\":null,\"next\":null");
        return;
    }
    let (executed, peak) = used_at(watch, found);
    push_number(text, ",\"instructions\":", executed);
    push_size(text, ",\"peak\":", peak);
    push_next(text, alloc, watch, part);
}

/// The object of a job of this place, whose run has executed nothing, with this of a state of it.
fn object_at(
    alloc: Global,
    place: u64,
    watch: &mut Watch,
    found: Found,
    part: Part,
) -> Result<String, AllocError> {
    watch.go_to(found.count.unwrap_or(0))?;
    let mut text = Text::new(alloc);
    push_job(&mut text, alloc, place, watch.run().job().name());
    if let Some(end) = found.end {
        push_ending(&mut text, end.ending);
    }
    push_state(&mut text, alloc, watch, found, part);
    text.push('}');
    text.finish()
}

/// This of a state of a job as data. `place` is the job's in the batch, counted from 1. If there is no such state, its
/// members are `null`.
///
/// # Errors
///
/// [`AllocError`] if memory was refused.
pub fn state_object(
    alloc: Global,
    batch: Batch<'_>,
    place: u64,
    job: Job<Global>,
    state: &State,
    part: Part,
) -> Result<String, AllocError> {
    let (found, job) = find(alloc, batch.rule, job, state)?;
    let mut watch = Watch::new(alloc, batch.rule, job)?;
    let object = object_at(alloc, place, &mut watch, found, part);
    drop(watch);
    object
}
