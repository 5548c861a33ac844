//! The entries of the stack of a run, whose vectors are shared by the states that are kept.

ghost use Rattle.std.specs.Prelude.{◌≡◌, ◌+◌, ◌≤◌, ◌++◌, ℤ, IfOk, List, OnOk, [], ◌∷◌};
ghost use Rattle.std.specs.Prelude.{drop, length, reverse, slice_index_or, take};
ghost use Rattle.job_steps.specs.Motions.{stack_after_move};
ghost use Rattle.job_profile.specs.Walks.{lists_in, progress_of};
ghost use Rattle.job_history.specs.Nexts.{Follows};

use crate::next::Next;
use crate::trail::Origin;
use crate::walk::Walk;
use job_profile::Run;
use std::alloc::{AllocError, Allocator};
use std::marker::Model;
use std::rc::Rc;
use vcode_base::{Op, StackMove};

/// A vector that a run has made: its words, where it comes from, and the number of its block.
#[derive(Drop)]
struct Made<A: Allocator> {
    words: Vec<i64, A>,
    origin: Option<Origin>,
    block: Option<usize>,
}

/// An entry of the stack. Copies of it share its vector.
///
/// In a contract it is its words.
#[derive(Drop)]
pub(crate) struct Entry<A: Allocator> {
    made: Rc<Made<A>, A>,
}

impl<A: Allocator> Model for Entry<A> {
    ghost use Rattle.std.specs.Prelude.{ℤ, List};

    ghost Value = { List ℤ };

    ghost view = { λ e. e.made.value.words.items };
}

impl<A: Allocator + Clone> Entry<A> {
    /// The entry at a depth of a run, 0 at the top.
    fn of(alloc: &A, walk: &Walk<A>, depth: usize) -> Result<Entry<A>, AllocError>
        ensures { IfOk result (λ entry. entry ≡ slice_index_or (lists_in (progress_of walk.now.run)) depth []) }
    {
        let words = copy_of(alloc, words_at(&walk.run, depth))?;
        let made = Made {
            words,
            origin: walk.trail.origin(&walk.run, depth),
            block: walk.run.block(depth),
        };
        let entry = share(alloc.clone()?, made)?;
        Ok(entry)
    }
}

/// The words of the entry at a depth of a run, and none if there is no entry.
fn words_at<A: Allocator>(run: &Run<A>, depth: usize) -> &[i64]
    ensures { result.now ≡ slice_index_or (lists_in (progress_of run.now)) depth [] }
{
    match run.words(depth) {
        Some(words) => words,
        None => &[],
    }
}

/// The entry of a vector.
fn share<A: Allocator>(alloc: A, made: Made<A>) -> Result<Entry<A>, AllocError>
    ensures { IfOk result (λ entry. entry ≡ made.words.items) }
{
    let made = Rc::new(alloc, made)?;
    Ok(Entry { made })
}

impl<A: Allocator> Entry<A> {
    /// The words.
    pub(crate) fn words(&self) -> &[i64]
        ensures { result.now ≡ self.now }
    {
        &self.made.words
    }

    /// Where it comes from.
    pub(crate) fn origin(&self) -> Option<Origin> {
        self.made.origin
    }

    /// Whether it is a copy of another entry of the same state.
    pub(crate) fn is_copy(&self, other: &Entry<A>) -> bool {
        self.made.block == other.made.block
    }

    /// The same entry.
    fn copy(&self) -> Result<Entry<A>, AllocError>
        ensures { IfOk result (λ entry. entry ≡ self.now) }
    {
        Ok(Entry {
            made: self.made.clone()?,
        })
    }
}

/// The entries of a run, from the bottom up, and how many words of vectors were made since that was last asked.
#[derive(Drop)]
pub(crate) struct Mirror<A: Allocator> {
    alloc: A,
    entries: Vec<Entry<A>, A>,
    made: usize,
}

impl<A: Allocator + Clone> Mirror<A> {
    /// Those of a run that has executed nothing.
    pub(crate) fn new(alloc: &A) -> Result<Mirror<A>, AllocError>
        ensures { IfOk result (λ mirror. mirror.entries.items ≡ []) }
    {
        let entries = Vec::new(alloc.clone()?);
        Ok(Mirror {
            alloc: alloc.clone()?,
            entries,
            made: 0,
        })
    }

    /// The entries after an instruction that a run has executed.
    pub(crate) fn follow(&mut self, next: Option<Next>, walk: &Walk<A>) -> Result<(), AllocError>
        requires { Follows next (reverse self.old.entries.items) (lists_in (progress_of walk.now.run)) }
        ensures { OnOk result (reverse self.new.entries.items ≡ lists_in (progress_of walk.now.run)) }
    {
        match next {
            Some(
                Next {
                    op: Op::Move(motion, lower, upper),
                    ..
                },
            ) => shift(&mut self.entries, motion, lower as usize, upper as usize),
            Some(next) => self.replace(next.op.operand_kinds().len(), walk),
            None => Ok(()),
        }
    }

    /// Takes off as many entries as were operands, and puts on those that the run has in their place.
    fn replace(&mut self, operands: usize, walk: &Walk<A>) -> Result<(), AllocError>
        requires { (results : List (List ℤ)) × (lists_in (progress_of walk.now.run)
            ≡ reverse results ++ drop operands (reverse self.old.entries.items)) }
        ensures { OnOk result (reverse self.new.entries.items ≡ lists_in (progress_of walk.now.run)) }
    {
        let left = self.entries.len().saturating_sub(operands);
        self.entries.truncate(left);
        let results = walk.run.depth().saturating_sub(left);
        for done in 0..results {
            self.push(walk, results - 1 - done)?;
        }
        Ok(())
    }

    /// Puts on the entry that a run has at a depth.
    fn push(&mut self, walk: &Walk<A>, depth: usize) -> Result<(), AllocError>
        ensures { OnOk result (self.new.entries.items
            ≡ self.old.entries.items ++ slice_index_or (lists_in (progress_of walk.now.run)) depth [] ∷ []) }
    {
        let entry = Entry::of(&self.alloc, walk, depth)?;
        self.made = self.made.saturating_add(entry.words().len());
        self.entries.push(entry)?;
        Ok(())
    }

    /// How many words of vectors were made since this was last asked.
    pub(crate) fn take_made(&mut self) -> usize
        ensures { self.new.entries.items ≡ self.old.entries.items }
    {
        let made = self.made;
        self.made = 0;
        made
    }

    /// The entries.
    pub(crate) fn entries(&self) -> Result<Vec<Entry<A>, A>, AllocError>
        ensures { IfOk result (λ entries. entries.items ≡ self.now.entries.items) }
    {
        copies(self.alloc.clone()?, &self.entries)
    }
}

/// The same items.
pub(crate) fn copy_of<T: Copy, A: Allocator + Clone>(
    alloc: &A,
    items: &[T],
) -> Result<Vec<T, A>, AllocError>
    ensures { IfOk result (λ copy. copy.items ≡ items.now) }
{
    Vec::from_slice(alloc.clone()?, items)
}

/// The same entries.
fn copies<A: Allocator>(alloc: A, entries: &[Entry<A>]) -> Result<Vec<Entry<A>, A>, AllocError>
    ensures { IfOk result (λ copies. copies.items ≡ entries.now) }
{
    let mut copies = Vec::with_capacity(alloc, entries.len())?;
    for entry in entries {
        copies.push(entry.copy()?)?;
    }
    Ok(copies)
}

/// Puts the first `lower` entries from the place `below` on after all entries once more.
fn copy_lower<A: Allocator>(
    entries: &mut Vec<Entry<A>, A>,
    below: usize,
    lower: usize,
) -> Result<(), AllocError>
    requires { below + lower ≤ length entries.old.items }
    ensures { OnOk result (entries.new.items ≡ entries.old.items ++ take lower (drop below entries.old.items)) }
{
    for place in below..below + lower {
        let entry = entries[place].copy()?;
        entries.push(entry)?;
    }
    Ok(())
}

/// Moves the first `lower` entries from the place `below` on after the others.
fn turn<A: Allocator>(entries: &mut Vec<Entry<A>, A>, below: usize, lower: usize)
    requires { below + lower ≤ length entries.old.items }
    ensures { entries.new.items ≡ take below entries.old.items
        ++ (drop lower (drop below entries.old.items) ++ take lower (drop below entries.old.items)) }
{
    entries[below..].rotate_left(lower);
}

/// Moves the `lower` entries that lie below the top `upper`.
fn shift<A: Allocator>(
    entries: &mut Vec<Entry<A>, A>,
    motion: StackMove,
    lower: usize,
    upper: usize,
) -> Result<(), AllocError>
    requires { lower + upper ≤ length entries.old.items }
    ensures { OnOk result (reverse entries.new.items
        ≡ stack_after_move motion lower upper (reverse entries.old.items)) }
{
    let depth = entries.len();
    let below = depth - (lower + upper);
    match motion {
        StackMove::Copy => {
            copy_lower(entries, below, lower)?;
            Ok(())
        }
        StackMove::Pop => {
            turn(entries, below, lower);
            entries.truncate(depth - lower);
            Ok(())
        }
        StackMove::MoveToTop => {
            turn(entries, below, lower);
            Ok(())
        }
    }
}
