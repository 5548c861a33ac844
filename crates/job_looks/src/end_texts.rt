//! How a job ended, what it used, and within which limits it returns, as texts.

use crate::end::{End, Ending};
use crate::padding::{push_column, push_left};
use crate::pieces::{push_answer, push_number, push_size};
use crate::text::Text;
use crate::wide::{Course, MOST_BEFORE, WideEnd};
use job_steps::Job;
use refusal_notes::printable;
use std::alloc::Global;
use vcode_base::limits::MOST_WORDS;
use vcode_base::{Limits, Rule};

/// Adds the line of a fault and its name.
fn push_fault(text: &mut Text, piece: &str, line: u64, fault: &str) {
    push_number(text, piece, line);
    text.push(' ');
    text.push_str(fault);
    text.push(',');
}

/// Adds how a job ended after this many instructions, as in `FAULT line 13 F4 ZERO_DIVISOR, after 4 instructions`, and
/// an LF.
pub fn push_ending(text: &mut Text, ending: Ending, count: u64) {
    match ending {
        Ending::Returned => text.push_str("RETURNED"),
        Ending::Budget => text.push_str("BUDGET"),
        Ending::Fault(fault, line) => push_fault(text, "FAULT line ", line, fault.text()),
        Ending::Memory(fault, line) => push_fault(text, "MEMORY line ", line, fault.text()),
    }
    push_number(text, " after ", count);
    text.push_str(" instructions\n");
}

/// Adds what a job used beside its limit.
fn push_use(text: &mut Text, name: &str, used: u64, limit: u64) {
    text.push_str("  ");
    push_left(text, name, 12);
    push_column(text, used, 13);
    text.push_str(" of");
    push_column(text, limit, 13);
    text.push('\n');
}

/// The name of a rule.
fn rule_text(rule: Rule) -> &'static str {
    match rule {
        Rule::First => "first",
        Rule::Second => "second",
    }
}

/// Adds what a job used beside its limits, each on a line, after an empty line and a line with the rule.
fn push_used(text: &mut Text, rule: Rule, end: End, limits: Limits) {
    text.push_str("\nused, by the ");
    text.push_str(rule_text(rule));
    text.push_str(" rule\n");
    push_use(text, "instructions", end.executed, limits.budget);
    push_use(text, "words", end.words as u64, limits.words as u64);
    push_use(text, "cells", end.cells as u64, limits.cells as u64);
    push_use(text, "calls", end.calls as u64, limits.calls as u64);
}

/// Adds the least limits within which a job of this name returns, as a JOB line, if they are known. The name may be of
/// any bytes.
fn push_least(text: &mut Text, alloc: Global, name: &[u8], least: Option<Limits>) {
    if let Some(least) = least {
        text.push_str("\nWithin these limits, and no less, it returns: JOB ");
        push_answer(text, printable(alloc, name));
        push_size(text, " ", least.words);
        push_size(text, " ", least.cells);
        push_size(text, " ", least.calls);
        push_number(text, " ", least.budget);
        text.push('\n');
    }
}

/// Adds how a job ends within the widest limits, if it doesn't return there.
fn push_widest(text: &mut Text, end: WideEnd) {
    text.push_str("\nWithin the widest limits it ends so: ");
    push_ending(text, end.ending, end.executed);
    if let Some(wanted) = end.wanted {
        push_size(text, "There ", wanted);
        push_size(
            text,
            " words would be held and needed, and a job has at most ",
            MOST_WORDS,
        );
        text.push('\n');
    }
}

/// Adds how a job of this name goes on within the widest limits.
fn push_course(text: &mut Text, alloc: Global, name: &[u8], course: Course) {
    match course {
        Course::Ends(end) if end.ending == Ending::Returned => {
            push_least(text, alloc, name, end.least);
        }
        Course::Ends(end) => push_widest(text, end),
        Course::GoesOn(work) => {
            let piece = "\nNo limits within which it returns were found within ";
            push_number(text, piece, work.instructions);
            push_number(text, " instructions and ", work.elements);
            text.push_str(" elements\n");
        }
        Course::NotRun => {
            let piece = "\nIt is not run within wider limits, since it executed more than ";
            push_number(text, piece, MOST_BEFORE);
            text.push_str(" instructions\n");
        }
    }
}

/// Adds what a job used, and within which limits it returns. `wide` is how it goes on within the widest limits, if a
/// limit ended it and that was tried.
pub fn push_limits(
    text: &mut Text,
    alloc: Global,
    rule: Rule,
    job: &Job<Global>,
    end: End,
    wide: Option<Course>,
) {
    push_used(text, rule, end, job.limits());
    match wide {
        Some(course) => push_course(text, alloc, job.name(), course),
        None => push_least(text, alloc, job.name(), end.least),
    }
}
