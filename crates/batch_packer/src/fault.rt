//! Why a file isn't packed.

use batch_reader::{BatchFault, JobFault};
use std::alloc::AllocError;

/// Why a file isn't packed.
#[derive(Clone, Copy, PartialEq, Eq, Debug, Drop)]
pub enum PackFault {
    /// Memory was refused.
    Memory,
    /// The file is no batch: it is refused as one at this line.
    Batch(u64, BatchFault),
    /// It has no job.
    NoJob,
    /// It has more than one job.
    ManyJobs,
    /// Its only job is refused at this line.
    Job(u64, JobFault),
}

impl From<AllocError> for PackFault {
    ghost use Rattle.std.specs.Prelude.{◌≡◌};
    ghost use Rattle.batch_packer.specs.declared.fault.PackFault.TheVariants.{Memory};

    ghost from_gives = { λ _ fault. fault ≡ Memory };

    fn from(_: AllocError) -> PackFault {
        PackFault::Memory
    }
}
