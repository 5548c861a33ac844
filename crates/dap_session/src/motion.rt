//! Moves over the states of a run.

/// A move that is made.
#[derive(Clone, Copy, PartialEq, Eq, Drop)]
pub(crate) enum Motion {
    /// One state on.
    Step,
    /// On to a breakpoint, or to a state with at most this many calls.
    Until(usize),
    /// One state back.
    Back,
    /// Back to a breakpoint, or to the first state.
    BackToBreakpoint,
    /// To the state of this number, or to the last one before the end.
    To(u64),
}

impl Motion {
    /// Whether it leads only to later states.
    pub(crate) fn is_forward(self) -> bool {
        match self {
            Motion::Step | Motion::Until(_) => true,
            Motion::Back | Motion::BackToBreakpoint | Motion::To(_) => false,
        }
    }
}

/// Why a run stops at a state.
#[derive(Clone, Copy, PartialEq, Eq, Drop)]
pub(crate) enum Cause {
    /// The job begins.
    Entry,
    /// A move forward has come there.
    Step,
    /// A move back has come there.
    Back,
    /// The client named it.
    Goto,
    /// The client stopped the move.
    Pause,
    /// The run ends after it.
    End,
}

/// How far a move has come.
#[derive(Clone, Copy, PartialEq, Eq, Drop)]
pub(crate) enum Progress {
    /// It goes on.
    GoesOn,
    /// It is where it leads to.
    Stopped(Cause),
    /// The run is over.
    Ended,
}
