//! Whose turn it is.

use vcode_base::Rule;

/// The turn of one of the jobs that share a memory.
#[derive(Clone, Copy)]
pub struct Turn {
    /// The rule by which all jobs run.
    pub rule: Rule,
    /// The number of the job, from 1 on.
    pub number: usize,
}
