use signatures::SigFault;
use std::alloc::AllocError;
use thiserror::Error;
use vcode_reader::ReadFault;
use verifier::VerifyFault;

/// Why a case has no value: a fault of its text, or one of the table.
#[derive(Debug, Drop, Error)]
pub enum CaseFault {
    /// The fault of this name, on this line.
    #[error("line {1} {0}")]
    At(&'static str, u64),
    /// The line of the table is no case, or its text is longer than one may be.
    #[error("no case")]
    NoCase,
    /// The text gives something else if it comes in pieces.
    #[error("otherwise in pieces")]
    OtherInPieces,
    /// What was verified isn't the program that was read.
    #[error("another program")]
    OtherProgram,
    #[error(transparent)]
    Memory(#[from] AllocError),
}

impl From<ReadFault> for CaseFault {
    fn from(fault: ReadFault) -> CaseFault {
        match fault {
            ReadFault::Memory => CaseFault::Memory(AllocError),
            ReadFault::At(fault, line) => CaseFault::At(fault.text(), line),
        }
    }
}

impl From<SigFault> for CaseFault {
    fn from(fault: SigFault) -> CaseFault {
        match fault {
            SigFault::Memory => CaseFault::Memory(AllocError),
            SigFault::At(fault, line) => CaseFault::At(fault.text(), line),
        }
    }
}

impl From<VerifyFault> for CaseFault {
    fn from(fault: VerifyFault) -> CaseFault {
        match fault {
            VerifyFault::Memory => CaseFault::Memory(AllocError),
            VerifyFault::At(fault, line) => CaseFault::At(fault.text(), line),
        }
    }
}
