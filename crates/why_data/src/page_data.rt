//! What a page shows beside what was counted: what held the words, and the entries or calls over time.

use crate::data::{push_comma, push_numbers};
use job_history::Trail;
use job_looks::{
    BeforeEnd, End, Last, MOST_ENTRIES, Text, Watch, last_at, push_number, push_size, with_job,
};
use job_steps::Job;
use job_survey::{Again, Holder, Holdings, Levels};
use std::alloc::{AllocError, Global};
use vcode_base::Rule;

/// The most lines that are given of what they hold.
const MOST_HOLDERS: usize = 32;

/// Adds what a line holds.
fn push_holder(text: &mut Text, holder: Holder) {
    push_number(text, "[", holder.line);
    push_size(text, ",", holder.words);
    push_size(text, ",", holder.vectors);
    push_size(text, ",", holder.entries);
    push_size(text, ",", holder.unread);
    text.push(']');
}

/// Adds what lines hold, those with the most words first, and how many lines are left out.
fn push_holders(text: &mut Text, holders: &[Holder]) {
    let shown = holders.get(..MOST_HOLDERS).unwrap_or(holders);
    text.push_str(",\"list\":[");
    for (place, holder) in shown.iter().enumerate() {
        push_comma(text, place);
        push_holder(text, *holder);
    }
    let left = holders.len().saturating_sub(shown.len());
    push_size(text, "],\"left\":", left);
}

/// Adds a number with this text before it, or `null` if there is none.
fn push_optional(text: &mut Text, before: &str, number: Option<usize>) {
    text.push_str(before);
    match number {
        Some(number) => text.push_number(number as u64),
        None => text.push_str("null"),
    }
}

/// Adds the member for what a job held before the instruction of this number.
pub(crate) fn push_held(text: &mut Text, number: u64, holdings: &Holdings) {
    push_number(text, ",\"held\":{\"before\":", number);
    push_number(text, ",\"line\":", holdings.line);
    push_size(text, ",\"words\":", holdings.words);
    push_optional(text, ",\"unread\":", holdings.unread);
    push_holders(text, holdings.holders.as_slice());
    text.push('}');
}

/// Adds the member for the entries or calls over time, with how many there would be at the last instruction.
fn push_levels(text: &mut Text, levels: &Levels, wanted: Option<usize>) {
    text.push_str(",\"levels\":{\"of\":\"");
    text.push_str(levels.counted.name());
    push_numbers(text, "\",\"most\":[", levels.most.as_slice());
    push_optional(text, ",\"wanted\":", wanted);
    text.push('}');
}

/// Adds the member for the entries or calls of a run that has executed nothing, and goes to its last state. Answers
/// that state.
fn push_run(
    text: &mut Text,
    alloc: Global,
    mut levels: Levels,
    watch: &mut Watch,
    end: End,
) -> Result<Last, AllocError> {
    let wanted = levels.go_to(&mut watch.uses, end.steps)?;
    push_levels(text, &levels, wanted);
    last_at(alloc, &watch.state(), end.ending, MOST_ENTRIES)
}

/// Adds the member for the entries or calls of a job over time. The job is run again for that. Answers its last state,
/// and the job.
fn push_again(
    text: &mut Text,
    alloc: Global,
    rule: Rule,
    (trail, job): (Trail<Global>, Job<Global>),
    levels: Levels,
    end: End,
) -> Result<(BeforeEnd, Job<Global>), AllocError> {
    let mut watch = Watch::again(alloc, rule, job, trail)?;
    let pushed = push_run(text, alloc, levels, &mut watch, end);
    let (last, job) = with_job(pushed, watch.into_job())?;
    Ok((BeforeEnd::Noted(last), job))
}

/// Adds the member for the entries or calls of a job over time, if the limit on them ended it. Answers what is known of
/// the last state, and the job.
pub(crate) fn push_found(
    text: &mut Text,
    alloc: Global,
    rule: Rule,
    (before, job): (BeforeEnd, Job<Global>),
    again: Again,
) -> Result<(BeforeEnd, Job<Global>), AllocError> {
    match (Levels::new(alloc, again.end.ending, again.each), before) {
        (Some(levels), BeforeEnd::Trail(trail)) => {
            push_again(text, alloc, rule, (trail, job), levels, again.end)
        }
        (_, before) => Ok((before, job)),
    }
}
