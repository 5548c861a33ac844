//! A step with its results.

ghost use Rattle.std.specs.Prelude.{◌≡◌, ◌+◌, ◌<◌, ◌≤◌, ◌↔◌, IsTrue, IfOk, length};
ghost use Rattle.std.specs.Prelude.{MatchResult, Some, vec_len, vec_capacity};
ghost use Rattle.vcode_base.specs.declared.op.Op.{Op};
ghost use Rattle.vcode_base.specs.Meaning.{need, operand, value_fault};
ghost use Rattle.vcode_base.specs.Operands.{contents};
ghost use Rattle.job_steps.specs.Questions.{Question};
ghost use Rattle.job_steps.specs.Flows.{flow_of};
ghost use Rattle.job_steps.specs.Tickets.{CanAnswer, IsAnswer, AreResults, question_by};

use crate::desk::Desk;
use crate::flow::Flow;
use crate::operations::{fill, need};
use crate::step::{Buffers, Step};
use crate::ticket::Ticket;
use std::alloc::Allocator;
use std::marker::Model;
use vcode_base::{DataFault, Op};

/// A step with what its instruction means: its results, or the fault that its operands' values have.
#[derive(Drop)]
pub struct Filled<A: Allocator> {
    computed: Step<A>,
    /// The lengths of the results, which lie one after the other.
    answer: Result<(usize, usize), DataFault>,
}

impl<A: Allocator> Model for Filled<A> {
    ghost use Rattle.job_steps.specs.Tickets.{Asked, asked_by, question_by, IsAnswer};

    ghost Value = { Asked };

    ghost view = { λ f.
        let step = f.computed in
        asked_by step.job step.number step.op step.buffers.value.operands.lists step.buffers.value.words };

    ghost invariant = { λ f.
        let buffers = f.computed.buffers.value in
        IsAnswer (question_by f.computed.op buffers.operands.lists) f.answer buffers.results.items };
}

impl<A: Allocator> Filled<A> {
    /// The number of the job, from 1 on.
    pub fn job(&self) -> usize
        ensures { result ≡ self.now.job }
    {
        self.computed.job
    }

    /// How many instructions the job executed before.
    pub fn step(&self) -> u64
        ensures { result ≡ self.now.step }
    {
        self.computed.number
    }

    /// The instruction without its list.
    pub fn op(&self) -> Op
        ensures { result ≡ self.now.question.op }
    {
        self.computed.op
    }

    /// How many operands were copied: for `CONST` one, its list, and none for a motion of the stack,
    /// `CALL` and `RET`.
    fn operand_count(&self) -> usize
        ensures { result ≡ length self.now.question.sources }
    {
        self.computed.buffers.operands.count()
    }

    /// The words of the operand at this place, counted from 0 and from the bottom of the stack up.
    fn operand(&self, place: usize) -> &[i64]
        requires { place < length self.now.question.sources }
        ensures { result.now ≡ operand self.now.question.sources place }
    {
        self.computed.buffers.operands.list(place)
    }

    /// Whether the step asks what this instruction makes of these operands.
    ///
    /// `operands` are as for [`Desk::ask`](crate::Desk::ask).
    pub fn asks(&self, op: Op, operands: &[&[i64]]) -> bool
        ensures { IsTrue result ↔ (self.now.question ≡ question_by op (contents operands.now)) }
    {
        if !is_same_op(self.computed.op, op) {
            return false;
        }
        self.computed.buffers.operands.holds(operands)
    }

    /// How the calls of the job go on after it.
    pub fn flow(&self) -> Flow
        ensures { result ≡ flow_of self.now.question }
    {
        let operands = &self.computed.buffers.operands;
        let lists = operands.lists();
        Flow::of(self.computed.op, &lists[..operands.count()])
    }

    /// The words of the first and of the second result, empty if there is none.
    ///
    /// # Errors
    ///
    /// The fault that the values of the operands have, as
    /// [`fill`](crate::fill) answers it.
    pub fn answer(&self) -> Result<(&[i64], &[i64]), DataFault>
        ensures { MatchResult result
            (λ results. AreResults self.now.question results.0.now results.1.now)
            (λ fault. value_fault self.now.question.op self.now.question.sources ≡ Some fault) }
    {
        results_in(self.answer, self.computed.buffers.results.as_slice())
    }

    /// The desk again.
    pub fn into_desk(self) -> Desk<A>
        ensures { result ≡ self.words }
    {
        let Filled { computed, .. } = self;
        let Step { buffers, .. } = computed;
        Desk { buffers }
    }
}

/// Computes the step of a ticket.
pub fn compute<A: Allocator>(ticket: Ticket<A>) -> Filled<A>
    ensures { result ≡ ticket }
{
    let Ticket { mut begun } = ticket;
    let answer = fill_results(begun.op, &mut begun.buffers);
    Filled {
        computed: begun,
        answer,
    }
}

/// Writes what the instruction makes of the operands to the front of the room, and answers the results' lengths.
fn fill_results<A: Allocator>(op: Op, buffers: &mut Buffers<A>) -> Result<(usize, usize), DataFault>
    requires { CanAnswer buffers.old.words (question_by op buffers.old.operands.lists) }
    ensures answer { IsAnswer (question_by op buffers.old.operands.lists) result buffers.new.results.items }
    ensures words { buffers.new.words ≡ buffers.old.words }
    ensures operands { buffers.new.operands ≡ buffers.old.operands }
{
    let lists = buffers.operands.lists();
    let count = buffers.operands.count();
    let operands = &lists[..count];
    fill_front(op, operands, need(op, operands), &mut buffers.results)
}

/// The words of the first and of the second result, which are at the front of a room with these lengths, or the fault
/// in their place.
#[inline(always)]
pub(crate) fn results_in(
    answer: Result<(usize, usize), DataFault>,
    room: &[i64],
) -> Result<(&[i64], &[i64]), DataFault>
    requires within { IfOk answer (λ lengths. lengths.0 + lengths.1 ≤ length room.now) }
    ensures { (q : Question) → IsAnswer q answer room.now → MatchResult result
        (λ results. AreResults q results.0.now results.1.now)
        (λ fault. value_fault q.op q.sources ≡ Some fault) }
{
    match answer {
        Err(fault) => Err(fault),
        Ok((first_len, second_len)) => {
            let (first, rest) = room.split_at(first_len);
            let (second, _) = rest.split_at(second_len);
            Ok((first, second))
        }
    }
}

/// Writes the results of the instruction, which have the lengths `needed`, to the front of a room, one after the other,
/// and answers the lengths. The room has at least as many words reserved as the results have together. It becomes so
/// long, if it is shorter. Takes no memory.
#[inline(always)]
pub(crate) fn fill_front<A: Allocator>(
    op: Op,
    ops: &[&[i64]],
    needed: (u64, u64),
    room: &mut Vec<i64, A>,
) -> Result<(usize, usize), DataFault>
    requires can { CanAnswer (vec_capacity room.old) (question_by op (contents ops.now)) }
    requires needed { needed ≡ need op (contents ops.now) }
    ensures answer { IsAnswer (question_by op (contents ops.now)) result room.new.items }
    ensures capacity { vec_capacity room.old ≤ vec_capacity room.new }
{
    let (first_words, second_words) = needed;
    let first_len = first_words as usize;
    let second_len = second_words as usize;
    lengthen(room, first_len + second_len);
    let (first, rest) = room.as_mut_slice().split_at_mut(first_len);
    let (second, _) = rest.split_at_mut(second_len);
    fill(op, ops, first, second)?;
    Ok((first_len, second_len))
}

/// Makes a list at least so long within what is reserved for it. Only words that it did not have before are written.
#[inline(always)]
pub(crate) fn lengthen<A: Allocator>(list: &mut Vec<i64, A>, len: usize)
    requires { len ≤ vec_capacity list.old }
    ensures len { len ≤ vec_len list.new }
    ensures capacity { vec_capacity list.old ≤ vec_capacity list.new }
{
    if list.len() < len {
        let Ok(()) = list.resize(len, 0) else {
            unreachable!()
        };
    }
}

/// Whether two instructions are equal.
fn is_same_op(left: Op, right: Op) -> bool
    ensures { IsTrue result ↔ (left ≡ right) }
{
    left == right
}
