//! The end of a job.

use crate::fault::Fault;
use crate::json::push_shown;
use crate::shown::{Shown, push_state_number};
use job_looks::{
    Course, End, Ending, Text, note_of, push_answer, push_ending, push_limits, push_number,
    run_through, run_wide,
};
use job_steps::Job;
use std::alloc::{AllocError, Global};
use vcode_base::Rule;

/// The end of a job.
#[derive(Clone, Copy, Drop)]
pub struct JobEnd {
    /// How it ended, and what it used.
    pub end: End,
    /// How it goes on within the widest limits, if a limit ended it.
    pub wide: Option<Course>,
}

/// The end of a job by a rule, and the job. It runs to its end for that, and again within the widest limits if a limit
/// ended it.
///
/// # Errors
///
/// [`AllocError`] if memory was refused. The job is gone then.
pub fn end_of_job(
    alloc: Global,
    rule: Rule,
    job: Job<Global>,
) -> Result<(JobEnd, Job<Global>), AllocError> {
    let (end, job) = run_through(alloc, rule, job)?;
    match end.ending {
        Ending::Memory(..) | Ending::Budget => {
            let (wide, job) = run_wide(alloc, rule, job, end)?;
            let wide = Some(wide);
            Ok((JobEnd { end, wide }, job))
        }
        Ending::Returned | Ending::Fault(..) => Ok((JobEnd { end, wide: None }, job)),
    }
}

/// Adds what is said of the end of a job, which ran by this rule, as lines: how it ended, what it used, and the least
/// limits within which it returns, if they are known.
pub fn push_end_text(
    text: &mut Text,
    alloc: Global,
    rule: Rule,
    job: &Job<Global>,
    job_end: JobEnd,
) {
    let JobEnd { end, wide } = job_end;
    push_ending(text, end.ending, end.executed);
    push_limits(text, alloc, rule, job, end, wide);
}

/// Adds an ending with the line of a fault, as in `FAULT line 34 F4 ZERO_DIVISOR`.
fn push_fault(text: &mut Text, piece: &str, line: u64, fault: &str) {
    push_number(text, piece, line);
    text.push(' ');
    text.push_str(fault);
}

/// Adds how a job ended, as a report has it.
fn push_ending_name(text: &mut Text, ending: Ending) {
    match ending {
        Ending::Returned => text.push_str("RETURNED"),
        Ending::Budget => text.push_str("BUDGET"),
        Ending::Fault(fault, line) => push_fault(text, "FAULT line ", line, fault.text()),
        Ending::Memory(fault, line) => push_fault(text, "MEMORY line ", line, fault.text()),
    }
}

/// Why a job ended so at the last state before its end.
fn reason_of(alloc: Global, shown: &Shown<'_>, ending: Ending) -> Result<String, AllocError> {
    if ending != Ending::Budget {
        return note_of(alloc, shown.history, ending);
    }
    let mut reason = Text::new(alloc);
    let budget = shown.history.job().limits().budget;
    push_number(&mut reason, "the budget of ", budget);
    reason.push_str(" instructions is spent");
    reason.finish()
}

/// Adds the body of an `exceptionInfo` at the last state of a job before it ended so: how it ended, as a report has it,
/// and why.
///
/// # Errors
///
/// [`Fault::NoException`] if the job returned, or if the state is another one. Nothing is added then.
pub fn push_exception(
    text: &mut Text,
    alloc: Global,
    shown: Shown<'_>,
    end: End,
) -> Result<(), Fault> {
    if end.ending == Ending::Returned || end.steps != shown.history.at() {
        return Err(Fault::NoException);
    }
    text.push_str("{\"exceptionId\":\"");
    push_ending_name(text, end.ending);
    push_shown(
        text,
        "\",\"description\":",
        reason_of(alloc, &shown, end.ending),
    );
    text.push_str(",\"breakMode\":\"always\"}");
    Ok(())
}

/// Adds the number of the last state of a job before it ended so, how it ended and why, as in
/// `state 12 of the run: FAULT line 34 F4 ZERO_DIVISOR, at place 2 of 5, 3 is divided by 0`. If it returned, as in
/// `state 12 of the run: returns`.
pub fn push_last_line(text: &mut Text, alloc: Global, shown: Shown<'_>, ending: Ending) {
    push_state_number(text, shown.history);
    text.push_str(": ");
    if ending != Ending::Returned {
        push_ending_name(text, ending);
        text.push_str(", ");
    }
    push_answer(text, reason_of(alloc, &shown, ending));
}
