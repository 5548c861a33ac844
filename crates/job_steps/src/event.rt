//! What may happen to the jobs of a machine.

/// One thing that may be done with a list of jobs, which are numbered from 1.
///
/// `specs/Events.antt` says when it is open and what the standings of the jobs are after it.
#[derive(Clone, Copy, PartialEq, Eq, Debug)]
pub enum Event {
    /// The first job that waits and fits gets its words, and may begin, unless a job that waits before it was passed by
    /// as often as a job may be. Each job that waits before it is passed by once more.
    Admit,
    /// The next step of this job begins.
    Begin(usize),
    /// The step of this job that has begun is finished.
    Finish(usize),
    /// The step of this job that has begun is given up. The job is as before it.
    Recall(usize),
    /// This job, which has ended, hands over its outcome and gives back its words.
    Collect(usize),
}
