//! The answer to a batch.

use crate::fault::{BatchFault, JobFault};
use job_steps::{Job, JobName};
use vcode_base::{Rule, Sequence};

/// What becomes of a job, over the type of jobs.
#[derive(PartialEq, Eq, Debug, Drop)]
pub enum Fate<J> {
    /// It may run.
    Ready(J),
    /// It is refused, at this line of the batch, for this fault, which is its first.
    Refused(u64, JobFault),
}

/// A job of a batch, over the types of names and of fates.
#[derive(PartialEq, Eq, Debug, Drop)]
pub struct Entry<N, F> {
    /// The name on its JOB line.
    pub name: N,
    /// What becomes of it.
    pub fate: F,
}

/// The answer to a batch, over the type of the list of its jobs.
#[derive(PartialEq, Eq, Debug, Drop)]
pub enum Batch<L> {
    /// It is refused as a whole, at this line, for this fault: the first from the front.
    Refused(u64, BatchFault),
    /// The rule by which its words are counted, and its jobs in the order of their lines.
    Jobs(Rule, L),
}

/// A job that owns its name, and its program if it may run.
pub type JobEntry<A> = Entry<JobName<A>, Fate<Job<A>>>;

/// The jobs of a batch in the order of their lines.
pub type JobEntries<A> = Sequence<JobEntry<A>, A>;
