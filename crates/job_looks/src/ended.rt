//! The end of a job with all that is said of it.

use crate::batch::Batch;
use crate::end::{End, Ending};
use crate::last::{BeforeEnd, Last, Seen, last_of};
use crate::step::Step;
use crate::wide::{Course, run_wide};
use job_steps::Job;
use std::alloc::{AllocError, Global};

/// How a job goes on within the widest limits if a limit ended it and this is to be tried, and the job.
fn wide_of(
    alloc: Global,
    batch: Batch<'_>,
    job: Job<Global>,
    end: End,
) -> Result<(Option<Course>, Job<Global>), AllocError> {
    match end.ending {
        Ending::Memory(..) | Ending::Budget if batch.tries_least => {
            let (wide, job) = run_wide(alloc, batch.rule, job, end)?;
            Ok((Some(wide), job))
        }
        Ending::Returned | Ending::Fault(..) | Ending::Memory(..) | Ending::Budget => {
            Ok((None, job))
        }
    }
}

/// The last state of a job that ended so, with at most this many entries, how the job goes on within the widest limits
/// if a limit ended it and this is to be tried, and the job.
///
/// # Errors
///
/// [`AllocError`] if memory was refused. The job is gone then.
pub fn last_told(
    alloc: Global,
    batch: Batch<'_>,
    (before, job): (BeforeEnd, Job<Global>),
    end: End,
    most: usize,
) -> Result<(Last, Option<Course>, Job<Global>), AllocError> {
    match wide_of(alloc, batch, job, end) {
        Ok((wide, job)) => last_within(alloc, batch, (before, job), end, wide, most),
        Err(error) => {
            drop(before);
            Err(error)
        }
    }
}

/// The same of a job of which it is known how it goes on within wider limits.
fn last_within(
    alloc: Global,
    batch: Batch<'_>,
    (before, job): (BeforeEnd, Job<Global>),
    end: End,
    wide: Option<Course>,
    most: usize,
) -> Result<(Last, Option<Course>, Job<Global>), AllocError> {
    let (last, job) = last_of(alloc, batch.rule, (before, job), end, most)?;
    Ok((last, wide, job))
}

/// The end of a job with all that is said of it.
#[derive(Drop)]
pub struct Ended {
    /// How it ended, and what it used.
    pub end: End,
    /// The instructions that it executed last, the last one at the end.
    pub steps: Vec<Step>,
    /// Its last state.
    pub last: Last,
    /// How it goes on within the widest limits, if a limit ended it and that was tried.
    pub wide: Option<Course>,
}

/// The end of a job that was seen so, and the job. Of its last state at most this many entries are kept.
///
/// # Errors
///
/// [`AllocError`] if memory was refused. The job is gone then.
pub fn ended_of(
    alloc: Global,
    batch: Batch<'_>,
    seen: Seen,
    job: Job<Global>,
    most: usize,
) -> Result<(Ended, Job<Global>), AllocError> {
    let Seen { end, steps, before } = seen;
    match last_told(alloc, batch, (before, job), end, most) {
        Ok((last, wide, job)) => Ok((
            Ended {
                end,
                steps,
                last,
                wide,
            },
            job,
        )),
        Err(error) => {
            drop(steps);
            Err(error)
        }
    }
}
