//! Why a command line gives no run.
ghost use Rattle.std.specs.Prelude.{◌≡◌};
ghost use Rattle.command_line.specs.Exits.{line_exit_of};

use batch_front::ScheduleFault;
use program_words::WordsFault;
use thiserror::Error;

/// Why a command line gives no run.
#[derive(Debug, Drop, Error)]
pub enum LineFault {
    /// The line is refused, with the reason as it is to be printed.
    #[error("{0}")]
    Usage(String),
    /// What the line gives as a schedule is none.
    #[error("vjobs: bad schedule")]
    BadSchedule,
    /// A growth of memory was refused.
    #[error("vjobs: out of memory")]
    Memory,
}

impl From<ScheduleFault> for LineFault {
    ghost use Rattle.std.specs.Prelude.{◌≡◌};
    ghost use Rattle.command_line.specs.Exits.{line_fault_of};

    ghost from_gives = { λ fault line_fault. line_fault ≡ line_fault_of fault };

    fn from(fault: ScheduleFault) -> LineFault {
        match fault {
            ScheduleFault::Bad => LineFault::BadSchedule,
            ScheduleFault::Memory => LineFault::Memory,
        }
    }
}

impl From<WordsFault> for LineFault {
    fn from(fault: WordsFault) -> LineFault {
        match fault {
            WordsFault::Refused(text) => LineFault::Usage(text),
            WordsFault::Memory => LineFault::Memory,
        }
    }
}

impl LineFault {
    /// The number that the program exits with: 2 if the line or its schedule is refused, 3 if memory was refused.
    pub fn exit_status(&self) -> u8
        ensures { result ≡ line_exit_of self.now }
    {
        match self {
            LineFault::Usage(_) | LineFault::BadSchedule => 2,
            LineFault::Memory => 3,
        }
    }
}
