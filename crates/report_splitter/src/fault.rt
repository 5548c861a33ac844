//! Why no report is cut.

use std::alloc::AllocError;

/// Why no report is cut.
#[derive(Clone, Copy, PartialEq, Eq, Debug, Drop)]
pub enum CutFault {
    /// Memory was refused.
    Memory,
    /// The report breaks off: the entry isn't whole, or the line after it isn't.
    BrokenOff,
    /// The report doesn't go on with an entry of this place.
    OtherBatch,
}

impl From<AllocError> for CutFault {
    ghost use Rattle.std.specs.Prelude.{◌≡◌};
    ghost use Rattle.report_splitter.specs.declared.fault.CutFault.TheVariants.{Memory};

    ghost from_gives = { λ _ fault. fault ≡ Memory };

    fn from(_: AllocError) -> CutFault {
        CutFault::Memory
    }
}
