ghost use Rattle.std.specs.Prelude.{◌≡◌};
ghost use Rattle.signatures.specs.Faults.{signature_fault_text};

use std::alloc::{AllocError, AllocFailed};
use vcode_base::TextFault;

/// What is wrong with a line of a signature text.
#[derive(Clone, Copy, PartialEq, Eq, Debug)]
pub enum SignatureFault {
    /// It is neither blank nor `NAME (kinds) -> (kinds)`, or it has a byte that no line has.
    BadLine,
    /// An earlier line has its name.
    NameTwice,
    /// Its name, one of its lists or the number of signatures passes a limit.
    TooLarge,
}

impl SignatureFault {
    /// The name that the report prints.
    pub fn text(self) -> &'static str
        ensures { result.now ≡ signature_fault_text self }
    {
        match self {
            SignatureFault::BadLine => "G1 BAD_LINE",
            SignatureFault::NameTwice => "G2 NAME_TWICE",
            SignatureFault::TooLarge => "G3 TOO_LARGE",
        }
    }
}

/// Why a text gives no signatures: there was no memory for them, or the line of this number is the
/// first with a fault.
pub type SigFault = TextFault<SignatureFault>;

/// Why a line adds no signature: there was no memory for it, or it is wrong.
#[derive(Clone, Copy, PartialEq, Eq, Debug)]
pub(crate) enum EntryFault {
    Memory,
    Wrong(SignatureFault),
}

impl From<AllocError> for EntryFault {
    ghost use Rattle.std.specs.Prelude.{◌≡◌};
    ghost use Rattle.signatures.specs.declared.fault.EntryFault.TheVariants.{Memory};

    ghost from_gives = { λ _ fault. fault ≡ Memory };

    fn from(_: AllocError) -> EntryFault {
        EntryFault::Memory
    }
}

impl<T: Drop> From<AllocFailed<T>> for EntryFault {
    ghost use Rattle.std.specs.Prelude.{◌≡◌};
    ghost use Rattle.signatures.specs.declared.fault.EntryFault.TheVariants.{Memory};

    ghost from_gives = { λ _ fault. fault ≡ Memory };

    fn from(_refused: AllocFailed<T>) -> EntryFault {
        EntryFault::Memory
    }
}
