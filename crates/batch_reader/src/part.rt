//! A part of a job, whose lines come one after another.

use crate::fault::JobFault;

/// A part of a job, over the type of what reads it.
#[derive(Drop)]
pub enum Part<R> {
    /// Its lines are read.
    Reading(R),
    /// The job is refused already, at this line for this fault, and its lines are passed over.
    Refused(u64, JobFault),
}
