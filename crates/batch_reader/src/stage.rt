//! The stage of a batch between two of its lines.

use crate::entry::JobEntry;
use crate::fault::BatchFault;
use crate::head::JobHeader;
use crate::part::Part;
use job_steps::JobName;
use signatures::{SigReader, Signatures};
use vcode_base::Rule;
use vcode_reader::CodeReader;

/// The stage of a batch between two lines, over the types of names, of what reads signatures and of what
/// reads code.
#[derive(Drop)]
pub enum Stage<N, S, C> {
    /// Before the first line that isn't blank.
    Fresh,
    /// Between jobs.
    Between,
    /// After a JOB line.
    Headed(JobHeader<N>),
    /// Among the signature lines of a job.
    Signatures(JobHeader<N>, Part<S>),
    /// Among the code lines of a job.
    Code(JobHeader<N>, Part<C>),
    /// The batch is refused, at this line for this fault, and its further lines are passed over.
    Refused(u64, BatchFault),
    /// Memory was refused.
    Failed,
}

/// What a line makes of a stage, over the types of stages and of entries.
#[derive(Drop)]
pub enum StageStep<S, E> {
    /// The new stage.
    To(S),
    /// The job ends, and the batch is between jobs.
    Ends(E),
    /// The batch has this rule, and this is the new stage.
    Begins(Rule, S),
}

/// The signatures of a job, and what reads its code.
pub type CodeReading<A> = (Signatures<A>, CodeReader<A>);

/// A stage that owns the job's name and what reads it.
pub type JobStage<A> = Stage<JobName<A>, SigReader<A>, CodeReading<A>>;

/// A step of such a stage.
pub type JobStep<A> = StageStep<JobStage<A>, JobEntry<A>>;
