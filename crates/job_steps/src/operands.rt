//! Copies of the operands of a step.

ghost use Rattle.std.specs.Prelude.{◌≡◌, ◌+◌, ◌<◌, ◌≤◌, ◌++◌, ◌↔◌, IsTrue, IfOk, [], length, map, take, sum};
ghost use Rattle.std.specs.Prelude.{vec_len, vec_capacity};
ghost use Rattle.vcode_base.specs.Meaning.{operand};
ghost use Rattle.vcode_base.specs.Operands.{contents};
ghost use Rattle.job_steps.specs.Buffers.{in_a_row, length_of_all};

use std::alloc::{AllocError, Allocator};
use std::marker::Model;

/// The most operands of an instruction: those of `DPERMUTE`.
pub const MOST_OPERANDS: usize = 5;

/// The operands of a step, copied one after another into a buffer. All its memory is taken when it is made. A word of
/// it is written only when an operand is copied there.
///
/// In a contract it is the lists that were loaded, and the room: the words that were reserved.
#[derive(Drop)]
pub(crate) struct OperandBuffer<A: Allocator> {
    room: usize,
    buffer: Vec<i64, A>,
    lengths: [usize; MOST_OPERANDS],
    count: usize,
}

impl<A: Allocator> Model for OperandBuffer<A> {
    ghost use Rattle.std.specs.Prelude.{◌≤◌, length, vec_capacity};
    ghost use Rattle.job_steps.specs.Buffers.{OperandLists, LengthsFit, lists_in};

    ghost Value = { OperandLists };

    ghost view = { λ o. record { room = o.room; lists = lists_in o.count o.lengths o.buffer.items } };

    ghost invariant = { λ o. LengthsFit (length o.buffer.items) o.count o.lengths × (o.room ≤ vec_capacity o.buffer) };
}

impl<A: Allocator> OperandBuffer<A> {
    /// A buffer with room for `room` words, in which nothing is loaded.
    ///
    /// # Errors
    ///
    /// [`AllocError`] if there is no memory for them. No other call takes memory.
    pub(crate) fn new(alloc: A, room: usize) -> Result<OperandBuffer<A>, AllocError>
        ensures { IfOk result (λ o. o ≡ record { room = room; lists = [] }) }
    {
        let buffer = Vec::with_capacity(alloc, room)?;
        Ok(OperandBuffer {
            room,
            buffer,
            lengths: [0; MOST_OPERANDS],
            count: 0,
        })
    }

    /// Copies these lists in place of those that were loaded before. Takes no memory.
    pub(crate) fn load(&mut self, lists: &[&[i64]])
        requires few { length lists.now ≤ MOST_OPERANDS }
        requires room { length_of_all (contents lists.now) ≤ self.old.room }
        ensures { self.new ≡ record { room = self.old.room; lists = contents lists.now } }
    {
        self.lengths = lengths_of(lists);
        self.count = lists.len();
        self.buffer.clear();
        append_in_a_row(lists, &mut self.buffer);
    }

    /// How many lists are loaded.
    #[tactic(auto, using(crate::proofs::OperandLemmas::how_many))]
    pub(crate) fn count(&self) -> usize
        ensures { result ≡ length self.now.lists }
    {
        self.count
    }

    /// The lists, and after them whatever words the buffer has there.
    #[tactic(auto, using(crate::proofs::OperandLemmas::of_lists))]
    pub(crate) fn lists(&self) -> [&[i64]; MOST_OPERANDS]
        ensures { take (length self.now.lists) (contents result) ≡ self.now.lists }
    {
        let [first_len, second_len, third_len, fourth_len, fifth_len] = self.lengths;
        let (first, rest) = self.buffer.as_slice().split_at(first_len);
        let (second, rest) = rest.split_at(second_len);
        let (third, rest) = rest.split_at(third_len);
        let (fourth, rest) = rest.split_at(fourth_len);
        let (fifth, _) = rest.split_at(fifth_len);
        [first, second, third, fourth, fifth]
    }

    /// Whether these are the lists.
    pub(crate) fn holds(&self, lists: &[&[i64]]) -> bool
        ensures { IsTrue result ↔ (self.now.lists ≡ contents lists.now) }
    {
        let held = self.lists();
        &held[..self.count()] == lists
    }

    /// The list at this place, counted from 0.
    pub(crate) fn list(&self, place: usize) -> &[i64]
        requires { place < length self.now.lists }
        ensures { result.now ≡ operand self.now.lists place }
    {
        self.lists()[place]
    }
}

/// The lengths of the lists, and 0 at the places after them.
fn lengths_of(lists: &[&[i64]]) -> [usize; MOST_OPERANDS]
    requires { length lists.now ≤ MOST_OPERANDS }
    ensures lengths { take (length lists.now) result ≡ map length (contents lists.now) }
    ensures sum { sum result ≡ length_of_all (contents lists.now) }
{
    [
        length_at(lists, 0),
        length_at(lists, 1),
        length_at(lists, 2),
        length_at(lists, 3),
        length_at(lists, 4),
    ]
}

/// The length of the list at this place, or 0 after the last.
fn length_at(lists: &[&[i64]], place: usize) -> usize
    ensures { result ≡ length (operand (contents lists.now) place) }
{
    match lists.get(place) {
        Some(list) => list.len(),
        None => 0,
    }
}

/// Puts the lists, one after another, after the words of a buffer that has room for them.
fn append_in_a_row<A: Allocator>(lists: &[&[i64]], buffer: &mut Vec<i64, A>)
    requires { vec_len buffer.old + length_of_all (contents lists.now) ≤ vec_capacity buffer.old }
    ensures items { buffer.new.items ≡ buffer.old.items ++ in_a_row (contents lists.now) }
    ensures capacity { vec_capacity buffer.old ≤ vec_capacity buffer.new }
{
    let Some((first, others)) = lists.split_first() else {
        return;
    };
    append(first, buffer);
    append_in_a_row(others, buffer);
}

/// Puts words after those of a buffer that has room for them. One word alone, as of a scalar, costs no call.
fn append<A: Allocator>(words: &[i64], buffer: &mut Vec<i64, A>)
    requires { vec_len buffer.old + length words.now ≤ vec_capacity buffer.old }
    ensures items { buffer.new.items ≡ buffer.old.items ++ words.now }
    ensures len { vec_len buffer.new ≡ vec_len buffer.old + length words.now }
    ensures capacity { vec_capacity buffer.old ≤ vec_capacity buffer.new }
{
    match words {
        [word] => buffer.push_reserved(*word),
        _ => {
            let Ok(()) = buffer.extend_from_slice(words) else {
                unreachable!()
            };
        }
    }
}
