//! The status of a job on a machine.

/// The status of a job.
#[derive(Clone, Copy, PartialEq, Eq, Debug)]
pub enum Status {
    /// It is not admitted: no words are reserved for it.
    Waiting,
    /// It runs, and no step of it has begun.
    Live,
    /// A step of it has begun.
    InFlight,
    /// It is over. Its results, if it returned, and its reservation stay.
    Ended,
    /// Its outcome is stored, and its words are given back.
    Collected,
}
