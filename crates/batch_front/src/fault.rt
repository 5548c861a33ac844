//! What can go wrong outside a batch.

use std::alloc::{AllocError, AllocFailed};
use step_scheduler::RunFault;
use thiserror::Error;

/// Why a run gave no status.
#[derive(Clone, Copy, PartialEq, Eq, Debug, Drop, Error)]
pub enum FrontFault {
    /// The reader failed.
    #[error("vjobs: reading failed")]
    Read,
    /// The writer failed.
    #[error("vjobs: writing failed")]
    Write,
    /// A growth of memory was refused.
    #[error("vjobs: out of memory")]
    Memory,
    /// The workers handed back other jobs than they were given.
    #[error("vjobs: workers failed")]
    Mixed,
}

impl From<AllocError> for FrontFault {
    ghost use Rattle.std.specs.Prelude.{◌≡◌};
    ghost use Rattle.batch_front.specs.declared.fault.FrontFault.TheVariants.{Memory};

    ghost from_gives = { λ _ fault. fault ≡ Memory };

    fn from(_: AllocError) -> FrontFault {
        FrontFault::Memory
    }
}

impl From<RunFault> for FrontFault {
    ghost use Rattle.std.specs.Prelude.{◌≡◌};
    ghost use Rattle.batch_front.specs.Exits.{front_fault_of};

    ghost from_gives = { λ fault front_fault. front_fault ≡ front_fault_of fault };

    fn from(fault: RunFault) -> FrontFault {
        match fault {
            RunFault::Memory => FrontFault::Memory,
            RunFault::Mixed => FrontFault::Mixed,
        }
    }
}

/// Why a text gives no schedule.
#[derive(Clone, Copy, PartialEq, Eq, Debug, Drop, Error)]
pub enum ScheduleFault {
    /// The text is no schedule.
    #[error("vjobs: bad schedule")]
    Bad,
    /// A growth of memory was refused.
    #[error("vjobs: out of memory")]
    Memory,
}

impl<T: Drop> From<AllocFailed<T>> for ScheduleFault {
    ghost use Rattle.std.specs.Prelude.{◌≡◌};
    ghost use Rattle.batch_front.specs.declared.fault.ScheduleFault.TheVariants.{Memory};

    ghost from_gives = { λ _ fault. fault ≡ Memory };

    fn from(_: AllocFailed<T>) -> ScheduleFault {
        ScheduleFault::Memory
    }
}
