//! Why splitting stops.

use shown_text::named;
use std::alloc::{AllocError, Global};
use std::io;
use std::io::ErrorKind;

/// Why splitting stops before each whole report is given to its owner.
#[derive(Drop)]
pub enum Stop {
    /// Memory was refused.
    Memory,
    /// The manifest isn't one.
    NoManifest(String),
    /// The report or the batch isn't the one that the manifest is for. Nothing is written.
    Other(String),
    /// A file or a folder can't be read or written.
    Named(String),
    /// Standard error can't be written.
    NoErrors,
}

impl From<AllocError> for Stop {
    ghost use Rattle.std.specs.Prelude.{◌≡◌};
    ghost use Rattle.vjobs_split.specs.declared.fault.Stop.TheVariants.{Memory};

    ghost from_gives = { λ _ stop. stop ≡ Memory };

    fn from(_: AllocError) -> Stop {
        Stop::Memory
    }
}

/// What an error at the file of this name says. Refused memory is no file's fault.
pub fn error_text(alloc: Global, name: &str, error: &io::Error) -> Result<String, AllocError> {
    if error.kind() == ErrorKind::OutOfMemory {
        return Err(AllocError);
    }
    let what = format!(in alloc; "{error}")?;
    named(alloc, name, what.as_str())
}

/// The stop for an error at the file of this name.
pub fn stop_at(alloc: Global, name: &str, error: &io::Error) -> Stop {
    match error_text(alloc, name, error) {
        Ok(text) => Stop::Named(text),
        Err(AllocError) => Stop::Memory,
    }
}
