//! What the halves of a step take and answer, and a step in one go.

use job_steps::{Desk, Ticket};
use std::alloc::Allocator;

/// What a begin answers.
#[derive(Drop)]
pub enum Begun<A: Allocator> {
    /// A step has begun.
    Began(Ticket<A>),
    /// The job ended before its next instruction: by its budget, a shape or a limit.
    Ended(Desk<A>),
    /// The job waits, a step of it has begun, or it is over. Nothing changed.
    NotReady(Desk<A>),
    /// The desk has fewer words than the job. Nothing changed.
    SmallDesk(Desk<A>),
}

/// What a finish compares of a step that was computed with the step that its job awaits.
#[derive(Clone, Copy)]
pub enum Compare {
    /// Its number alone: the step is known to ask what its job's run asks at that number.
    Number,
    /// Its number, its instruction and its operands.
    Operands,
}

/// What a finish answers.
#[derive(Clone, Copy, PartialEq, Eq, Debug)]
pub enum Finished {
    /// The instruction is executed, and the job goes on.
    Done,
    /// The job is over.
    Ended,
    /// The step is not the one that has begun. Nothing changed.
    Stale,
}

/// What a step in one go answers.
#[derive(Clone, Copy, PartialEq, Eq, Debug)]
pub enum Stepped {
    /// The instruction is executed, and the job goes on.
    Done,
    /// The job is over.
    Ended,
    /// The job waits, a step of it has begun, or it is over. Nothing changed.
    NotReady,
    /// The room has fewer words than the job. Nothing changed.
    SmallDesk,
}
