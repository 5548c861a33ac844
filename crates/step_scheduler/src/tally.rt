//! What a run by workers answers.

use std::alloc::{AllocError, Allocator};

/// How many instructions each thread of a run has finished: those that were executed, `MAIN`'s `RET` among them. A
/// finish by which a value ended its job, and one that came too late, aren't counted.
#[derive(Drop, Debug)]
pub struct Tally<A: Allocator> {
    /// A number for each worker.
    pub workers: Vec<u64, A>,
    /// Of the calling thread, which runs out what the workers left.
    pub caller: u64,
}

/// Why a run by workers gave up. The machine is dropped then.
#[derive(Clone, Copy, PartialEq, Eq, Debug)]
pub enum RunFault {
    /// The allocator refused memory; if that was for the results of a job, also when the calling thread tried again.
    Memory,
    /// The machine that came back from the workers has another rule or other jobs than the one that was given.
    Mixed,
}

impl From<AllocError> for RunFault {
    ghost use Rattle.std.specs.Prelude.{◌≡◌};
    ghost use Rattle.step_scheduler.specs.declared.tally.RunFault.TheVariants.{Memory};

    ghost from_gives = { λ _ fault. fault ≡ Memory };

    fn from(_error: AllocError) -> RunFault {
        RunFault::Memory
    }
}
