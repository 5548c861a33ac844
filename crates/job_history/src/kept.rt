//! A state that is kept.

ghost use Rattle.std.specs.Prelude.{◌≡◌, true, IfOk, option_copied, option_map, reverse, slice_get};
ghost use Rattle.job_profile.specs.Walks.{goes_on, lists_in, progress_of};
ghost use Rattle.job_history.specs.Kept.{Shows};

use crate::counts::{Counts, Needs};
use crate::mirror::{Entry, Mirror, copy_of};
use crate::next::{Next, callee_of};
use crate::trail::{Caller, Origin};
use crate::walk::Walk;
use job_steps::{Frame, Frames};
use std::alloc::{AllocError, Allocator};
use std::marker::Model;

/// What there is at a state that goes on: the entries, from the bottom up; the frames, and where their calls were made;
/// the next instruction, and the name that it calls; the numbers. `size` is how many words all of this takes, without
/// the vectors that an earlier state has.
#[derive(Drop)]
pub(crate) struct Kept<A: Allocator> {
    entries: Vec<Entry<A>, A>,
    frames: Vec<Frame, A>,
    callers: Vec<Caller, A>,
    callee: Option<Vec<u8, A>>,
    next: Option<Next>,
    counts: Counts,
    needs: Needs,
    size: usize,
}

impl<A: Allocator> Model for Kept<A> {
    ghost use Rattle.std.specs.Prelude.{option_map, reverse};
    ghost use Rattle.job_history.specs.Kept.{KeptState};

    ghost Value = { KeptState };

    ghost view = { λ k. record {
      lists = reverse k.entries.items;
      frames = k.frames.items;
      next = k.next;
      callee = option_map (λ name. name.items) k.callee;
      counts = k.counts;
      needs = k.needs;
    } };
}

/// The bytes of a name, if there is one.
fn copied<A: Allocator + Clone>(
    alloc: &A,
    name: Option<&[u8]>,
) -> Result<Option<Vec<u8, A>>, AllocError>
    ensures { IfOk result (λ copy. option_map (λ name. name.items) copy ≡ option_copied name.entry) }
{
    match name {
        Some(name) => Ok(Some(copy_of(alloc, name)?)),
        None => Ok(None),
    }
}

impl<A: Allocator + Clone> Kept<A> {
    /// The state of a run that goes on, and that has these entries. Since the state before, vectors of `made` words
    /// were made.
    pub(crate) fn of(
        alloc: &A,
        walk: &Walk<A>,
        mirror: &Mirror<A>,
        made: usize,
    ) -> Result<Kept<A>, AllocError>
        requires on { goes_on (progress_of walk.now.run) ≡ true }
        requires entries { reverse mirror.now.entries.items ≡ lists_in (progress_of walk.now.run) }
        ensures { IfOk result (Shows walk.now.run.task (progress_of walk.now.run)) }
    {
        let stand = walk.run.frames();
        let frames = stand.copied(alloc.clone()?)?;
        let callers = copy_of(alloc, walk.trail.callers())?;
        let callee = copied(alloc, callee_of(&walk.run))?;
        let entries = mirror.entries()?;
        let counts = Counts::of(&walk.run);
        Ok(Kept {
            entries,
            frames,
            callers,
            callee,
            next: Next::of(&walk.run),
            counts,
            needs: Needs::of(&walk.run),
            size: counts.size().saturating_add(made),
        })
    }
}

impl<A: Allocator> Kept<A> {
    /// How many words it takes, without the vectors that an earlier state has.
    pub(crate) fn size(&self) -> usize {
        self.size
    }

    /// The entry at a depth, 0 at the top, if there is one.
    fn entry(&self, depth: usize) -> Option<&Entry<A>>
        ensures { option_copied result ≡ slice_get self.now.lists depth }
    {
        if depth >= self.entries.len() {
            return None;
        }
        Some(&self.entries[self.entries.len() - 1 - depth])
    }

    /// The words of the entry at a depth, 0 at the top, if there is one.
    pub(crate) fn words(&self, depth: usize) -> Option<&[i64]>
        ensures { option_copied result ≡ slice_get self.now.lists depth }
    {
        Some(self.entry(depth)?.words())
    }

    /// Where the entry at a depth comes from, 0 at the top, if there is one.
    pub(crate) fn origin(&self, depth: usize) -> Option<Origin> {
        self.entry(depth)?.origin()
    }

    /// Whether the entries at these depths are there and have one block.
    pub(crate) fn are_copies(&self, depth: usize, other: usize) -> bool {
        match (self.entry(depth), self.entry(other)) {
            (Some(entry), Some(other)) => entry.is_copy(other),
            _ => false,
        }
    }

    /// Where the call was made that the call at this place made, that of `MAIN` at 0. `None` if it is the innermost.
    pub(crate) fn caller(&self, place: usize) -> Option<Caller> {
        Some(*self.callers.get(place)?)
    }

    /// The places at which the active calls go on, that of the innermost last.
    pub(crate) fn frames(&self) -> Frames<'_>
        ensures { result ≡ self.now.frames }
    {
        Frames::of(&self.frames)
    }

    /// The next instruction.
    pub(crate) fn next(&self) -> Option<Next>
        ensures { result ≡ self.now.next }
    {
        self.next
    }

    /// The name of the function that the next instruction calls, if it is a `CALL`.
    pub(crate) fn callee(&self) -> Option<&[u8]>
        ensures { option_copied result ≡ self.now.callee }
    {
        match &self.callee {
            Some(name) => Some(name),
            None => None,
        }
    }

    /// The numbers.
    pub(crate) fn counts(&self) -> Counts
        ensures { result ≡ self.now.counts }
    {
        self.counts
    }

    /// What the next instruction needs.
    pub(crate) fn needs(&self) -> Needs
        ensures { result ≡ self.now.needs }
    {
        self.needs
    }
}
