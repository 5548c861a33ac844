//! The free words of a region: its holes, and ranges that were given back lately.
ghost use Rattle.std.specs.Prelude.{◌≡◌, ◌+◌, ◌<◌, ◌≤◌, length, replicate, slice_set, true, Some, None};
ghost use Rattle.std.specs.Prelude.{IfOk, IfSome, IfNone};
ghost use Rattle.holes.specs.FreeWords.{NoneFree, free_from, given_to};
ghost use Rattle.block_memory.specs.Layout.{content_of};
ghost use Rattle.block_memory.specs.Table.{value_at};
ghost use Rattle.block_memory.specs.Places.{ArePlaces, AreAllEmpty, IsTaken, slots_of, with_kept};
ghost use Rattle.block_memory.specs.Region.{IsRegion, HasRoom};

use crate::blocks::Blocks;
use crate::pack::pack_region;
use crate::packing::{MoveCounts, Packing};
use holes::laws::no_more_holes_than_words;
use holes::{Holes, LONGEST_REGION};
use std::alloc::{AllocError, Allocator};
use std::marker::Model;

/// How many sets of ranges are kept. The rest of a range's length says in which it is.
const SETS: usize = 16;

/// How many ranges are in a set.
const WAYS: usize = 4;

const KEPT: usize = SETS * WAYS;

/// A longer range isn't kept, so that long blocks lie low.
const LONGEST_KEPT: usize = 1024;

/// A range of words.
#[derive(Clone, Copy, Debug)]
pub(crate) struct WordRange {
    pub(crate) place: usize,
    pub(crate) len: usize,
}

/// The free words of a region. Ranges that were given back lately are kept for the next blocks of their lengths, which
/// get them without a look at the holes. All other free words are in holes. They get the ranges that are kept before
/// blocks move.
#[derive(Drop)]
pub(crate) struct Places<A: Allocator> {
    holes: Holes<A>,
    kept: [Option<WordRange>; KEPT],
    // Which range of a set that is full goes to the holes next.
    next: usize,
}

impl<A: Allocator> Model for Places<A> {
    ghost use Rattle.holes.specs.FreeWords.{Region};
    ghost use Rattle.block_memory.specs.Places.{ArePlaces, slots_of, with_kept};

    ghost Value = { Region };

    ghost view = { λ p. with_kept p.holes p.kept };

    ghost invariant = { λ p. ArePlaces p.holes (slots_of p.kept) };
}

// The index of a range of this length that is kept, and its place, if one is kept.
#[inline(always)]
fn find_kept(kept: &[Option<WordRange>; KEPT], len: usize) -> Option<(usize, usize)>
    ensures { IfSome result (λ found. value_at kept.now found.0 ≡ Some (record { place = found.1; len = len })) }
{
    let first = len % SETS * WAYS;
    for index in first..first + WAYS {
        if let Some(range) = kept[index] {
            if range.len == len {
                return Some((index, range.place));
            }
        }
    }
    None
}

// Where in its set a range of this length may be kept: at an index where none is, if there is one.
#[inline(always)]
fn index_for(kept: &[Option<WordRange>; KEPT], len: usize, next: usize) -> usize
    ensures { result < KEPT }
{
    let first = len % SETS * WAYS;
    for index in first..first + WAYS {
        if kept[index].is_none() {
            return index;
        }
    }
    first + next % WAYS
}

// Gives the range that is kept at an index, if one is, back to the holes.
#[inline(always)]
#[tactic(auto, using(crate::proofs::PlacesLemmas::for_give_back))]
fn give_back<A: Allocator>(holes: &mut Holes<A>, kept: &mut [Option<WordRange>], index: usize)
    requires places { ArePlaces holes.old (slots_of kept.old) }
    requires index { index < length kept.old }
    ensures places { ArePlaces holes.new (slots_of kept.new) }
    ensures same_words { with_kept holes.new kept.new ≡ with_kept holes.old kept.old }
    ensures emptied { kept.new ≡ slice_set kept.old index None }
{
    no_more_holes_than_words();
    if let Some(range) = kept[index] {
        holes.give(range.place, range.len);
        kept[index] = None;
    }
}

// Gives all ranges that are kept back to the holes.
#[inline(never)]
#[tactic(auto, using(crate::proofs::PlacesLemmas::for_give_all_back))]
fn give_all_back<A: Allocator>(holes: &mut Holes<A>, kept: &mut [Option<WordRange>])
    requires { ArePlaces holes.old (slots_of kept.old) }
    ensures holes { holes.new ≡ with_kept holes.old kept.old }
    ensures emptied { AreAllEmpty kept.new }
{
    for index in 0..kept.len() {
        give_back(holes, kept, index);
    }
}

// No range is kept.
fn nothing_kept() -> [Option<WordRange>; KEPT]
    ensures { AreAllEmpty result }
{
    [None; KEPT]
}

impl<A: Allocator> Places<A> {
    /// A region of `size` words, all free.
    #[tactic(auto, using(crate::proofs::PlacesLemmas::for_new))]
    pub(crate) fn new(alloc: A, size: usize) -> Result<Self, AllocError>
    where
        A: Clone,
        requires { size ≤ LONGEST_REGION }
        ensures { IfOk result (λ places. places ≡ record { free = replicate size true; most = size + 1 }) }
    {
        let holes = Holes::new(alloc, size, size + 1)?;
        Ok(Places {
            holes,
            kept: nothing_kept(),
            next: 0,
        })
    }

    // Takes words from a range of this length that is kept, or else from the lowest hole that has as many. None if
    // neither is there: then nothing changes.
    #[inline(always)]
    #[tactic(auto, using(crate::proofs::PlacesLemmas::for_take))]
    fn take(&mut self, len: usize) -> Option<usize>
        requires { 1 ≤ len }
        ensures taken { IfSome result (λ place. IsTaken self.old self.new place len) }
        ensures unchanged { IfNone result (self.new ≡ self.old) }
    {
        if let Some((index, place)) = find_kept(&self.kept, len) {
            self.kept[index] = None;
            return Some(place);
        }
        self.holes.take(len)
    }

    // Takes words for which neither a range nor a hole is wide enough: blocks move.
    #[inline(never)]
    #[tactic(auto, using(crate::proofs::PlacesLemmas::for_make_room))]
    fn make_room<P: Packing>(
        &mut self,
        blocks: &mut Blocks<A>,
        covered: usize,
        len: usize,
        counts: &mut MoveCounts,
    ) -> usize
        requires region { IsRegion blocks.old self.old covered }
        requires some { 1 ≤ len }
        requires fits { covered + len ≤ blocks.old.size }
        ensures size { blocks.new.size ≡ blocks.old.size }
        ensures content { content_of blocks.new.slots ≡ content_of blocks.old.slots }
        ensures room { HasRoom blocks.new self.new covered result len }
    {
        give_all_back(&mut self.holes, &mut self.kept);
        if let Some(place) = self.holes.take(len) {
            return place;
        }
        P::make_room(blocks, &mut self.holes, covered, len, counts)
    }

    /// Takes the words for a block of `len` words, and answers the place of the first. They are those of a range of
    /// this length that is kept, or of the lowest hole that has as many. If there is neither, blocks move first, and
    /// what moves is counted.
    #[inline(always)]
    #[tactic(auto, using(crate::proofs::PlacesLemmas::room_of))]
    pub(crate) fn take_room<P: Packing>(
        &mut self,
        blocks: &mut Blocks<A>,
        covered: usize,
        len: usize,
        counts: &mut MoveCounts,
    ) -> usize
        requires region { IsRegion blocks.old self.old covered }
        requires fits { covered + len ≤ blocks.old.size }
        ensures size { blocks.new.size ≡ blocks.old.size }
        ensures content { content_of blocks.new.slots ≡ content_of blocks.old.slots }
        ensures room { HasRoom blocks.new self.new covered result len }
    {
        counts.last = 0;
        if len == 0 {
            return 0;
        }
        if let Some(place) = self.take(len) {
            return place;
        }
        self.make_room::<P>(blocks, covered, len, counts)
    }

    /// Gives words back, which are free then. They are kept for the next block of this length, unless it is long.
    #[inline(never)]
    #[tactic(auto, using(crate::proofs::PlacesLemmas::for_give))]
    pub(crate) fn give(&mut self, place: usize, len: usize)
        requires some { 1 ≤ len }
        requires within { place + len ≤ length self.old.free }
        requires none_free { NoneFree self.old.free place len }
        ensures { self.new ≡ given_to self.old place len }
    {
        if len > LONGEST_KEPT {
            no_more_holes_than_words();
            self.holes.give(place, len);
            return;
        }
        let index = index_for(&self.kept, len, self.next);
        self.next = index + 1;
        give_back(&mut self.holes, &mut self.kept, index);
        self.kept[index] = Some(WordRange { place, len });
    }

    /// Moves the blocks to the front of the region, so that the free words are one hole after them.
    #[tactic(auto, using(crate::proofs::PlacesLemmas::for_pack))]
    pub(crate) fn pack(&mut self, blocks: &mut Blocks<A>, covered: usize)
        requires { IsRegion blocks.old self.old covered }
        ensures size { blocks.new.size ≡ blocks.old.size }
        ensures content { content_of blocks.new.slots ≡ content_of blocks.old.slots }
        ensures region { IsRegion blocks.new self.new covered }
        ensures packed { self.new.free ≡ free_from covered blocks.new.size }
    {
        give_all_back(&mut self.holes, &mut self.kept);
        pack_region(blocks, &mut self.holes, covered);
    }
}
