//! What a step takes with it between its begin and its finish.

ghost use Rattle.std.specs.Borrow.{sem};
ghost use Rattle.std.specs.Prelude.{◌≡◌, ◌≤◌, length, IfOk, MatchResult, Some};
ghost use Rattle.vcode_base.specs.declared.limits.TheConstants.{MOST_WORDS};
ghost use Rattle.vcode_base.specs.Meaning.{need, value_fault};
ghost use Rattle.vcode_base.specs.Operands.{contents};
ghost use Rattle.job_steps.specs.Buffers.{HaveAtMost};
ghost use Rattle.job_steps.specs.Rooms.{KeepsWords, LendsWords};
ghost use Rattle.job_steps.specs.Tickets.{AreResults, CanAnswer, question_by, asked_by};

use crate::filled::{fill_front, lengthen, results_in};
use crate::operands::{MOST_OPERANDS, OperandBuffer};
use crate::step::{Buffers, Step};
use crate::ticket::Ticket;
use std::alloc::{AllocError, Allocator};
use std::marker::Model;
use vcode_base::{DataFault, Op};

/// Room for the operands and the results of one step. All its memory is taken when it is made. A word of it is written
/// only when a step uses it.
///
/// In a contract a desk is the number of words that it was made with.
#[derive(Drop)]
pub struct Desk<A: Allocator> {
    pub(crate) buffers: Box<Buffers<A>, A>,
}

impl<A: Allocator> Model for Desk<A> {
    ghost use Rattle.std.specs.Prelude.{ℕ};

    ghost Value = { ℕ };

    ghost view = { λ d. d.buffers.value.words };
}

impl<A: Allocator + Clone> Desk<A> {
    /// A desk for vectors of at most `words` words, which are reserved six times: for five operands
    /// and for the results. None of them is written.
    ///
    /// # Errors
    ///
    /// [`AllocError`] if there is no memory for them. No other call takes memory.
    pub fn new(alloc: A, words: usize) -> Result<Desk<A>, AllocError>
        requires { words ≤ MOST_WORDS }
        ensures { IfOk result (λ d. d ≡ words) }
    {
        let operands = OperandBuffer::new(alloc.clone()?, MOST_OPERANDS * words)?;
        let results = Vec::with_capacity(alloc.clone()?, words)?;
        let buffers = Buffers {
            words,
            operands,
            results,
        };
        let buffers = Box::new(alloc, buffers)?;
        Ok(Desk { buffers })
    }
}

impl<A: Allocator> Desk<A> {
    /// The words that it was made with.
    #[inline(always)]
    pub fn words(&self) -> usize
        ensures { result ≡ self.now }
    {
        self.buffers.words
    }

    /// Writes the results of an instruction into the room for them, and lends them: the words of the first and of the
    /// second, empty if there is none. Takes no memory.
    ///
    /// `op` and `operands` are as for [`lengths`](crate::lengths), and `needed` is what it has answered. The desk has
    /// at least as many words as the results together.
    ///
    /// # Errors
    ///
    /// The fault that the values of the operands have, as [`fill`](crate::fill) answers it.
    #[inline(always)]
    pub fn fill(
        &mut self,
        op: Op,
        operands: &[&[i64]],
        needed: (u64, u64),
    ) -> Result<(&[i64], &[i64]), DataFault>
        requires can { CanAnswer self.old (question_by op (contents operands.now)) }
        requires needed { needed ≡ need op (contents operands.now) }
        ensures* keeps_words { sem 𝓛 (KeepsWords A.row A.Allocator self.entry) }
        ensures answer { MatchResult result
            (λ results. AreResults (question_by op (contents operands.now)) results.0.now results.1.now)
            (λ fault. value_fault op (contents operands.now) ≡ Some fault) }
    {
        let answer = fill_front(op, operands, needed, &mut self.buffers.results);
        results_in(answer, &self.buffers.results)
    }

    /// Lends `len` words of the room for results. What they are is not specified. Takes no memory.
    #[inline(always)]
    pub fn lend(&mut self, len: usize) -> &mut [i64]
        requires { len ≤ self.old }
        ensures* keeps_words { sem 𝓛 (LendsWords A.row A.Allocator self.entry result) }
        ensures len { length result.now ≡ len }
    {
        let buffers = &mut *self.buffers;
        let results = &mut buffers.results;
        lengthen(results, len);
        results.slice_mut(..len)
    }

    /// The ticket of a step, with copies of its operands.
    ///
    /// `job` is the number of the job, from 1 on, and `step` how many instructions it executed before.
    /// `operands` has the operands of `op` from the bottom of the stack up, as [`lengths`](crate::lengths) takes them,
    /// which has answered `Ok`. None of them has more words than the desk, and neither have the results, together.
    #[tactic(auto, using(crate::proofs::OperandLemmas::few_lent))]
    pub fn ask(self, job: usize, step: u64, op: Op, operands: &[&[i64]]) -> Ticket<A>
        requires can { CanAnswer self (question_by op (contents operands.now)) }
        requires room { HaveAtMost self (contents operands.now) }
        ensures { result ≡ asked_by job step op (contents operands.now) self }
    {
        let Desk { mut buffers } = self;
        buffers.operands.load(operands);
        Ticket {
            begun: Step {
                job,
                number: step,
                op,
                buffers,
            },
        }
    }
}
