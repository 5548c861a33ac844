//! Why a program has no line to run.
ghost use Rattle.std.specs.Prelude.{◌≡◌};
ghost use Rattle.program_words.specs.Faults.{exit_of};

use std::alloc::AllocError;

/// Why a program has no line to run.
#[derive(Debug, Drop)]
pub enum WordsFault {
    /// The words are refused, with the reason as it is to be printed: whole lines.
    Refused(String),
    /// Memory was refused.
    Memory,
}

impl From<AllocError> for WordsFault {
    ghost use Rattle.std.specs.Prelude.{◌≡◌};
    ghost use Rattle.program_words.specs.declared.fault.WordsFault.TheVariants.{Memory};

    ghost from_gives = { λ _ fault. fault ≡ Memory };

    fn from(_: AllocError) -> WordsFault {
        WordsFault::Memory
    }
}

impl WordsFault {
    /// The number that a program exits with: 2 if the words are refused, 3 if memory was refused.
    pub fn exit_status(&self) -> u8
        ensures { result ≡ exit_of self.now }
    {
        match self {
            WordsFault::Refused(_) => 2,
            WordsFault::Memory => 3,
        }
    }
}
