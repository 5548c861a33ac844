//! Why no signatures are printed, or not all.

use program_words::WordsFault;
use shown_text::shown;
use std::alloc::{AllocError, Global};
use std::fmt::Display;
use std::io;
use thiserror::Error;

/// Why no signatures are printed, or not all.
#[derive(Debug, Drop, Error)]
pub enum Fault {
    /// The command line is refused, with the reason as it is to be printed, lines with their ends.
    #[error("{0}")]
    Usage(String),
    /// The code has none: its file, as it may be printed, and what is wrong there.
    #[error("{0}\n")]
    Code(String),
    /// The text is no batch, or some of its jobs have none: why, in whole lines.
    #[error("{0}")]
    Batch(String),
    /// Reading or writing failed, with the reason.
    #[error("vjobs-kinds: {0}\n")]
    Device(String),
    /// Memory was refused.
    #[error("vjobs-kinds: out of memory\n")]
    Memory,
}

impl From<AllocError> for Fault {
    ghost use Rattle.std.specs.Prelude.{◌≡◌};
    ghost use Rattle.vjobs_kinds.specs.declared.fault.Fault.TheVariants.{Memory};

    ghost from_gives = { λ _ fault. fault ≡ Memory };

    fn from(_: AllocError) -> Fault {
        Fault::Memory
    }
}

impl From<WordsFault> for Fault {
    fn from(fault: WordsFault) -> Fault {
        match fault {
            WordsFault::Refused(text) => Fault::Usage(text),
            WordsFault::Memory => Fault::Memory,
        }
    }
}

impl Fault {
    /// That the code in the file of this name has no signatures, for this reason, which comes right after a colon.
    pub fn of_code<D: Display + Drop>(alloc: Global, file: &str, reason: D) -> Fault {
        match of_file(alloc, file, reason) {
            Ok(text) => Fault::Code(text),
            Err(_) => Fault::Memory,
        }
    }

    /// That the file of this name can't be read.
    pub fn of_reading(alloc: Global, file: &str, error: &io::Error) -> Fault {
        if error.kind() == io::ErrorKind::OutOfMemory {
            return Fault::Memory;
        }
        match of_file(alloc, file, format_args!(" {error}")) {
            Ok(text) => Fault::Device(text),
            Err(_) => Fault::Memory,
        }
    }

    /// That standard output can't be written.
    pub fn of_writing(alloc: Global, error: &io::Error) -> Fault {
        match error.to_string(alloc) {
            Ok(text) => Fault::Device(text),
            Err(_) => Fault::Memory,
        }
    }

    /// The number that the program exits with.
    pub fn exit_status(&self) -> u8 {
        match self {
            Fault::Code(_) | Fault::Batch(_) => 1,
            Fault::Usage(_) => 2,
            Fault::Device(_) | Fault::Memory => 3,
        }
    }
}

/// The name of a file as it may be printed, a colon, and a reason.
fn of_file<D: Display + Drop>(alloc: Global, file: &str, reason: D) -> Result<String, AllocError> {
    let name = shown(alloc, file.as_bytes())?;
    format!(in alloc; "{name}:{reason}")
}
