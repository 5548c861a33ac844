//! Why nothing is shown, or not all of it.

use shown_text::shown;
use std::alloc::{AllocError, Global};
use std::fmt::{self, Display, Formatter};
use std::io;
use std::io::ErrorKind;

/// Why nothing is shown, or not all of it.
#[derive(Drop)]
pub enum Failure {
    /// Memory was refused.
    Memory,
    /// What has this name, as it is shown, couldn't be read or written, and why.
    Device(String, io::Error),
}

impl Failure {
    /// The failure of a read or a write of what has this name.
    pub fn of(alloc: Global, name: &str, error: io::Error) -> Failure {
        if error.kind() == ErrorKind::OutOfMemory {
            return Failure::Memory;
        }
        match shown(alloc, name.as_bytes()) {
            Ok(name) => Failure::Device(name, error),
            Err(_) => Failure::Memory,
        }
    }

    /// The failure of a write to standard output.
    pub fn of_output(alloc: Global, error: io::Error) -> Failure {
        Failure::of(alloc, "standard output", error)
    }
}

impl From<AllocError> for Failure {
    ghost use Rattle.std.specs.Prelude.{◌≡◌};
    ghost use Rattle.vjobs_why.specs.declared.failure.Failure.TheVariants.{Memory};

    ghost from_gives = { λ _ failure. failure ≡ Memory };

    fn from(_: AllocError) -> Failure {
        Failure::Memory
    }
}

impl Display for Failure {
    fn fmt<W: fmt::Write>(&self, f: &mut Formatter<W>) -> fmt::Result {
        match self {
            Failure::Memory => f.write_str("out of memory"),
            Failure::Device(name, error) => write!(f, "{name}: {error}"),
        }
    }
}
