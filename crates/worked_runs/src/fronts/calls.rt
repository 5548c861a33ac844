//! A gate that counts.

use std::sync::atomic::{AtomicU64, Ordering};
use step_scheduler::Gate;

/// Counts the steps that pass, and the jobs that couldn't begin a step.
#[derive(Drop)]
pub struct Calls {
    count: AtomicU64,
    refused: AtomicU64,
}

impl Calls {
    pub(crate) fn new() -> Calls {
        Calls {
            count: AtomicU64::new(0),
            refused: AtomicU64::new(0),
        }
    }

    /// How many steps have passed.
    pub(crate) fn count(&self) -> u64 {
        self.count.load(Ordering::SeqCst)
    }

    /// How often a worker was to go on with a job that couldn't begin a step.
    pub(crate) fn refused_jobs(&self) -> u64 {
        self.refused.load(Ordering::SeqCst)
    }
}

impl Gate for Calls {
    fn between(&self, _job: usize, _step: u64) {
        self.count.fetch_add(1, Ordering::SeqCst);
    }

    fn refused(&self, _job: usize) {
        self.refused.fetch_add(1, Ordering::SeqCst);
    }
}
