//! All that is known of a job, as data.

use crate::data::{Told, push_survey, push_told};
use crate::page_data::push_found;
use job_looks::{
    Batch, BeforeEnd, Course, End, Ending, MOST_ENTRIES, Text, WideEnd, Work, last_told,
};
use job_steps::Job;
use job_survey::{Survey, Words};
use std::alloc::{AllocError, Global};
use vcode_base::Limits;

/// The least limits within which a job returns, if it returned, or returns within wider ones.
fn least_of(end: End, wide: Option<Course>) -> Option<Limits> {
    match wide {
        Some(Course::Ends(end)) => end.least,
        Some(Course::GoesOn(_) | Course::NotRun) => None,
        None => end.least,
    }
}

/// The work after which a job was not over within the widest limits, if it was given up there.
fn tried_of(wide: Option<Course>) -> Option<Work> {
    match wide? {
        Course::GoesOn(work) => Some(work),
        Course::Ends(_) | Course::NotRun => None,
    }
}

/// How a job ends within the widest limits, if it doesn't return there.
fn widest_of(wide: Option<Course>) -> Option<WideEnd> {
    match wide? {
        Course::Ends(end) if end.ending != Ending::Returned => Some(end),
        Course::Ends(_) | Course::GoesOn(_) | Course::NotRun => None,
    }
}

/// Adds what is said of a job that ended so, and ends its object.
fn push_last(
    text: &mut Text,
    alloc: Global,
    batch: Batch<'_>,
    (before, job): (BeforeEnd, Job<Global>),
    end: End,
) -> Result<(), AllocError> {
    let (last, wide, job) = last_told(alloc, batch, (before, job), end, MOST_ENTRIES)?;
    drop(job);
    let told = Told {
        last,
        least: least_of(end, wide),
        tried: tried_of(wide),
        widest: widest_of(wide),
    };
    push_told(text, end.ending, &told);
    Ok(())
}

/// All that is known of a job, which runs to its end for that. `place` is the job's in the batch, counted from 1.
///
/// # Errors
///
/// [`AllocError`] if memory was refused.
pub fn object_of(
    alloc: Global,
    batch: Batch<'_>,
    place: u64,
    job: Job<Global>,
) -> Result<String, AllocError> {
    let survey = Survey::of(alloc, batch.rule, job, Words::LeftOut)?;
    let again = survey.again();
    let mut text = Text::new(alloc);
    push_survey(&mut text, alloc, batch.lines, place, &survey);
    let (before, job) = push_found(&mut text, alloc, batch.rule, survey.into_parts(), again)?;
    push_last(&mut text, alloc, batch, (before, job), again.end)?;
    text.finish()
}
