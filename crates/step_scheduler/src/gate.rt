//! What a worker passes in the middle of each step.

/// What a worker calls between the begin and the finish of each step, while it doesn't hold the lock.
pub trait Gate {
    /// `job` is the number of the job, from 1 on, and `step` how many instructions it executed before.
    fn between(&self, job: usize, step: u64);

    /// A worker was to go on with this job, and the job couldn't begin a step. The worker doesn't hold the lock. This
    /// isn't called if each job is with one worker at a time, or left open by the one that had it. So a gate that
    /// counts can show that it is so.
    fn refused(&self, _job: usize) {}

    /// Whether steps may go round this gate, since it does nothing. If so, the calling thread carries out the first
    /// steps of jobs itself, which pass no gate. If not, it starts workers as soon as two jobs can run beside one
    /// another.
    fn is_open(&self) -> bool {
        false
    }
}

/// A gate that does nothing.
#[derive(Clone, Copy)]
pub struct NoGate;

impl Gate for NoGate {
    fn between(&self, _job: usize, _step: u64) {}

    fn is_open(&self) -> bool {
        true
    }
}
