//! Why packing stops.

use shown_text::named;
use std::alloc::{AllocError, Global};
use std::io;
use std::io::ErrorKind;

/// Why packing stops before every file is packed or left out.
#[derive(Drop)]
pub enum Stop {
    /// Memory was refused.
    Memory,
    /// What is wrong, after the name of the file or folder that it is about, as it is to be printed.
    Named(String),
    /// Standard error can't be written.
    NoErrors,
}

impl From<AllocError> for Stop {
    ghost use Rattle.std.specs.Prelude.{◌≡◌};
    ghost use Rattle.vjobs_pack.specs.declared.fault.Stop.TheVariants.{Memory};

    ghost from_gives = { λ _ stop. stop ≡ Memory };

    fn from(_: AllocError) -> Stop {
        Stop::Memory
    }
}

/// The stop for what is wrong with the file of this name.
pub fn stop_by(alloc: Global, name: &str, what: &str) -> Stop {
    match named(alloc, name, what) {
        Ok(text) => Stop::Named(text),
        Err(AllocError) => Stop::Memory,
    }
}

/// The stop for an error at the file of this name. Refused memory is no file's fault.
pub fn stop_at(alloc: Global, name: &str, error: &io::Error) -> Stop {
    if error.kind() == ErrorKind::OutOfMemory {
        return Stop::Memory;
    }
    match format!(in alloc; "{error}") {
        Ok(text) => stop_by(alloc, name, text.as_str()),
        Err(_) => Stop::Memory,
    }
}
