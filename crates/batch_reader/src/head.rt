//! What is kept of a JOB line.

use vcode_base::Limits;

/// What a good JOB line says, over the type of names, with the number of the line.
#[derive(Drop)]
pub struct JobHeader<N> {
    /// The job's name.
    pub name: N,
    /// What the job may use.
    pub limits: Limits,
    /// The number of the line.
    pub line: u64,
}
