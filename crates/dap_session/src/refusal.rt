//! Why a request isn't followed.

use dap_views::Fault;
use std::alloc::AllocError;

/// Why a request isn't followed.
#[derive(Clone, Copy, PartialEq, Eq, Drop)]
pub(crate) enum Refusal {
    /// Memory was refused.
    Memory,
    /// It came before.
    Again,
    /// No job is launched.
    NoJob,
    /// The job hasn't begun.
    NotBegun,
    /// The job moves.
    Moves,
    /// The job is over.
    Over,
    /// Memory was refused for the run.
    NoRun,
    /// There is nothing like it at the state.
    NotThere(Fault),
}

impl Refusal {
    /// The sentence that says it.
    pub(crate) fn why(self) -> &'static str {
        match self {
            Refusal::Memory => "out of memory",
            Refusal::Again => "this request came before, and is followed once",
            Refusal::NoJob => "no job is launched",
            Refusal::NotBegun => "the job begins after configurationDone",
            Refusal::Moves => "the job moves, and pause stops it",
            Refusal::Over => "the job is over",
            Refusal::NoRun => "the run is gone, since it was out of memory",
            Refusal::NotThere(fault) => fault.why(),
        }
    }
}

impl From<AllocError> for Refusal {
    fn from(_: AllocError) -> Refusal {
        Refusal::Memory
    }
}

impl From<Fault> for Refusal {
    fn from(fault: Fault) -> Refusal {
        Refusal::NotThere(fault)
    }
}
