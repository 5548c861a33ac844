//! A step between its begin and its computation.

ghost use Rattle.std.specs.Prelude.{◌≡◌, ◌<◌, length};
ghost use Rattle.vcode_base.specs.Meaning.{operand};

use crate::desk::Desk;
use crate::step::Step;
use std::alloc::Allocator;
use std::marker::Model;
use vcode_base::Op;

/// A step between its begin and its computation: the job, the number of instructions that it
/// executed before, the instruction, and copies of its operands, or of the list of a `CONST`.
///
/// The operands are of the instruction's kinds, their shapes fit, and the desk has room for the
/// results.
#[derive(Drop)]
pub struct Ticket<A: Allocator> {
    pub(crate) begun: Step<A>,
}

impl<A: Allocator> Model for Ticket<A> {
    ghost use Rattle.job_steps.specs.Tickets.{Asked, asked_by, question_by, CanAnswer};

    ghost Value = { Asked };

    ghost view = { λ t.
        let step = t.begun in
        asked_by step.job step.number step.op step.buffers.value.operands.lists step.buffers.value.words };

    ghost invariant = { λ t. CanAnswer t.begun.buffers.value.words
        (question_by t.begun.op t.begun.buffers.value.operands.lists) };
}

impl<A: Allocator> Ticket<A> {
    /// The number of the job, from 1 on.
    pub fn job(&self) -> usize
        ensures { result ≡ self.now.job }
    {
        self.begun.job
    }

    /// How many instructions the job executed before.
    pub fn step(&self) -> u64
        ensures { result ≡ self.now.step }
    {
        self.begun.number
    }

    /// The instruction without its list.
    pub fn op(&self) -> Op
        ensures { result ≡ self.now.question.op }
    {
        self.begun.op
    }

    /// How many operands were copied: for `CONST` one, its list, and none for a motion of the stack,
    /// `CALL` and `RET`.
    pub fn operand_count(&self) -> usize
        ensures { result ≡ length self.now.question.sources }
    {
        self.begun.buffers.operands.count()
    }

    /// The words of the operand at this place, counted from 0 and from the bottom of the stack up.
    pub fn operand(&self, place: usize) -> &[i64]
        requires { place < length self.now.question.sources }
        ensures { result.now ≡ operand self.now.question.sources place }
    {
        self.begun.buffers.operands.list(place)
    }

    /// The desk again.
    pub fn into_desk(self) -> Desk<A>
        ensures { result ≡ self.words }
    {
        let Ticket { begun } = self;
        let Step { buffers, .. } = begun;
        Desk { buffers }
    }
}
