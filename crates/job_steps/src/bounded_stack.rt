//! Entries one on another.

ghost use Rattle.std.specs.Prelude.{◌≡◌, ◌^◌, ◌+◌, ◌<◌, ◌≤◌, [], ◌∷◌, ◌++◌, length, take, drop, reverse, slice_get};
ghost use Rattle.std.specs.Prelude.{Some, IfOk, vec_len, vec_capacity};
ghost use Rattle.job_steps.specs.Motions.{stack_after_move, depth_after_move};

use std::alloc::{AllocError, Allocator};
use std::marker::Model;
use vcode_base::StackMove;

/// A bounded stack: entries one on another, with room for a fixed number. Only [`new`](BoundedStack::new) takes memory.
#[derive(Drop)]
pub(crate) struct BoundedStack<T, A: Allocator> {
    /// The top last.
    entries: Vec<T, A>,
    room: usize,
}

impl<T, A: Allocator> Model for BoundedStack<T, A> {
    ghost use Rattle.std.specs.Prelude.{reverse, length, vec_capacity};
    ghost use Rattle.job_steps.specs.Piles.{PileState, HasRoom};

    ghost Value = { PileState T };

    ghost view = { λ p. record { entries = reverse p.entries.items; room = p.room } };

    ghost invariant = { λ p. HasRoom (length p.entries.items) p.room (vec_capacity p.entries) };
}

impl<T: Copy, A: Allocator> BoundedStack<T, A> {
    /// No entry, with room for `room` entries.
    pub(crate) fn new(alloc: A, room: usize) -> Result<BoundedStack<T, A>, AllocError>
        ensures { IfOk result (λ p. p ≡ record { entries = []; room = room }) }
    {
        let entries = Vec::with_capacity(alloc, room)?;
        Ok(BoundedStack { entries, room })
    }

    /// How many entries there are.
    #[inline(always)]
    pub(crate) fn len(&self) -> usize
        ensures len { result ≡ length self.now.entries }
        ensures within { result ≤ self.now.room }
        ensures fits { self.now.room < 2 ^ 64 }
    {
        let _room = self.room;
        self.entries.len()
    }

    /// The entry at a depth, 0 at the top.
    #[inline(always)]
    pub(crate) fn at(&self, depth: usize) -> T
        requires { depth < length self.now.entries }
        ensures { slice_get self.now.entries depth ≡ Some result }
    {
        self.entries[self.entries.len() - 1 - depth]
    }

    /// All entries, from the bottom up.
    #[tactic(auto, using(crate::proofs::Turns::of_slice))]
    #[inline(always)]
    pub(crate) fn as_slice(&self) -> &[T]
        ensures { result.now ≡ reverse self.now.entries }
    {
        &self.entries
    }

    /// Takes all entries off.
    pub(crate) fn clear(&mut self)
        ensures { self.new ≡ record self.old { entries = [] } }
    {
        self.entries.clear();
    }

    /// Puts one entry on the others.
    #[inline(always)]
    pub(crate) fn push(&mut self, entry: T)
        requires { length self.old.entries < self.old.room }
        ensures { self.new ≡ record self.old { entries = entry ∷ self.old.entries } }
    {
        self.entries.push_reserved(entry);
    }

    /// Puts these on the others, the last of them at the top.
    #[inline(always)]
    pub(crate) fn extend(&mut self, entries: &[T])
        requires { length self.old.entries + length entries.now ≤ self.old.room }
        ensures { self.new ≡ record self.old { entries = reverse entries.now ++ self.old.entries } }
    {
        for entry in entries {
            self.push(*entry);
        }
    }

    /// Takes `count` entries off the top.
    #[inline(always)]
    pub(crate) fn lower(&mut self, count: usize)
        requires { count ≤ length self.old.entries }
        ensures { self.new ≡ record self.old { entries = drop count self.old.entries } }
    {
        let below = self.entries.len() - count;
        self.entries.truncate(below);
    }

    /// Moves the `lower` entries that lie below the top `upper`.
    #[inline(always)]
    pub(crate) fn shift(&mut self, motion: StackMove, lower: usize, upper: usize)
        requires there { lower + upper ≤ length self.old.entries }
        requires room { depth_after_move motion lower (length self.old.entries) ≤ self.old.room }
        ensures { self.new ≡ record self.old { entries = stack_after_move motion lower upper self.old.entries } }
    {
        let below = self.entries.len() - (lower + upper);
        match motion {
            StackMove::Copy => copy_lower(&mut self.entries, below, lower),
            StackMove::Pop => remove_range(&mut self.entries, below, lower),
            StackMove::MoveToTop => turn(&mut self.entries, below, lower),
        }
    }
}

/// Puts the first `lower` entries from the place `below` on after all entries once more. There is room for them.
#[inline(always)]
fn copy_lower<T: Copy, A: Allocator>(entries: &mut Vec<T, A>, below: usize, lower: usize)
    requires there { below + lower ≤ vec_len entries.old }
    requires room { vec_len entries.old + lower ≤ vec_capacity entries.old }
    ensures items { entries.new.items ≡ entries.old.items ++ take lower (drop below entries.old.items) }
    ensures len { vec_len entries.new ≡ vec_len entries.old + lower }
    ensures capacity { vec_capacity entries.old ≤ vec_capacity entries.new }
{
    if lower == 1 {
        let entry = entries[below];
        entries.push_reserved(entry);
        return;
    }
    let Ok(()) = entries.extend_from_within(below..below + lower) else {
        unreachable!()
    };
}

/// Takes out `count` entries from the place `below` on.
#[inline(always)]
fn remove_range<T: Copy, A: Allocator>(entries: &mut Vec<T, A>, below: usize, count: usize)
    requires { below + count ≤ vec_len entries.old }
    ensures items { entries.new.items ≡ take below entries.old.items ++ drop (below + count) entries.old.items }
    ensures len { vec_len entries.new + count ≡ vec_len entries.old }
    ensures capacity { vec_capacity entries.new ≡ vec_capacity entries.old }
{
    let len = entries.len();
    entries
        .as_mut_slice()
        .copy_within(below + count..len, below);
    entries.truncate(len - count);
}

/// Moves the first `lower` entries from the place `below` on after the others.
#[inline(always)]
fn turn<T: Copy, A: Allocator>(entries: &mut Vec<T, A>, below: usize, lower: usize)
    requires { below + lower ≤ vec_len entries.old }
    ensures items { entries.new.items
        ≡ take below entries.old.items
        ++ (drop lower (drop below entries.old.items) ++ take lower (drop below entries.old.items)) }
    ensures len { vec_len entries.new ≡ vec_len entries.old }
    ensures capacity { vec_capacity entries.old ≤ vec_capacity entries.new }
{
    if lower == 1 {
        first_to_last(&mut entries[below..]);
        return;
    }
    if lower <= entries.capacity() - entries.len() {
        turn_by_copy(entries, below, lower);
        return;
    }
    entries[below..].rotate_left(lower);
}

/// The same, through the room after all entries.
#[tactic(auto, using(crate::proofs::Turns::turned_by_copy))]
#[inline(always)]
fn turn_by_copy<T: Copy, A: Allocator>(entries: &mut Vec<T, A>, below: usize, lower: usize)
    requires there { below + lower ≤ vec_len entries.old }
    requires room { vec_len entries.old + lower ≤ vec_capacity entries.old }
    ensures items { entries.new.items
        ≡ take below entries.old.items
        ++ (drop lower (drop below entries.old.items) ++ take lower (drop below entries.old.items)) }
    ensures len { vec_len entries.new ≡ vec_len entries.old }
    ensures capacity { vec_capacity entries.old ≤ vec_capacity entries.new }
{
    copy_lower(entries, below, lower);
    remove_range(entries, below, lower);
}

/// Moves the first entry after the others.
#[tactic(auto, using(crate::proofs::Turns::moved_one, crate::proofs::Turns::moved_all))]
#[inline(always)]
fn first_to_last<T: Copy>(entries: &mut [T])
    requires { 0 < length entries.old }
    ensures { entries.new ≡ drop 1 entries.old ++ take 1 entries.old }
{
    let last = entries.len() - 1;
    if last == 1 {
        entries.swap(0, 1);
        return;
    }
    let first = entries[0];
    for place in 0..last {
        entries[place] = entries[place + 1];
    }
    entries[last] = first;
}
