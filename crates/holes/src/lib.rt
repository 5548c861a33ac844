//! The free words of a region of memory, kept as its holes.
//!
//! A region is `size` words, at the places `0..size`. A hole is a greatest range of free words: no free word is right
//! before it or right after it. Contracts see a `Holes` as the set of the free words (at each place whether the word
//! there is free), and not as a list of holes.
#![tactic(auto)]

ghost use Rattle.std.specs.Prelude.{◌≡◌, ◌+◌, ◌*◌, ◌<◌, ◌≤◌, ◌↔◌, length, replicate, true};
ghost use Rattle.std.specs.Prelude.{IfOk, IfSome, IsNone, IfNone, MatchBool};
ghost use Rattle.holes.specs.FreeWords.{NoneFree, IsLowestFit, taken_from, given_to, free_from, free_count};
ghost use Rattle.holes.specs.FreeWords.{hole_count, lowest_free, widest};
ghost use Rattle.holes.specs.Tree.{IsPowerOfTwo, lowest_fit};

mod bitmap;
pub mod laws;
mod summary;
mod tree;

use bitmap::WORDS;
use std::alloc::{AllocError, Allocator};
use std::marker::Model;
use summary::Summary;
use tree::{Changed, LEAF, LEAF_WORDS};

/// The free words of a region.
///
/// They are kept as a tree over the words, of which each node knows the widest hole among its words and how many
/// words are free at their two ends. Room for it is reserved once, when it is made, so no other call takes memory.
#[derive(Debug, Drop)]
pub struct Holes<A: Allocator> {
    /// The free words as bitmaps. None is free from `size` on.
    bits: Vec<u64, A>,
    /// The nodes of the tree over the bitmaps.
    nodes: Vec<Summary, A>,
    /// The leaves whose words may have changed after the nodes were joined.
    changed: Changed,
    /// A bitmap before which no word is free.
    near: usize,
    /// The words of the region.
    size: usize,
    /// How many of them are free.
    free: usize,
    /// How many holes there is room for.
    most: usize,
}

impl<A: Allocator> Model for Holes<A> {
    ghost use Rattle.holes.specs.FreeWords.{Region};

    ghost Value = { Region };

    ghost use Rattle.holes.specs.Tree.{IsHoles, words_from, word_at};

    ghost view = { λ a. record { free = words_from (word_at a.bits.items) 0 a.size; most = a.most } };

    ghost invariant = { λ a. IsHoles a.bits.items a.nodes.items a.changed a.near a.size a.free a.most };
}

/// The most words of a region, a quarter of the numbers of 32 bits.
pub const LONGEST_REGION: usize = 1 << 30;

/// The number of leaves for a region of this number of words, a power of two.
fn leaves_for(size: usize) -> usize
    ensures power { IsPowerOfTwo result }
    ensures enough { size ≤ 256 * result }
    ensures few { 128 * result < size + 256 }
{
    let mut leaves = 1;
    while leaves < size.div_ceil(LEAF_WORDS) {
        leaves *= 2;
    }
    leaves
}

impl<A: Allocator> Holes<A> {
    /// A region of `size` words, all free, with room for `most` holes. It has at most [`LONGEST_REGION`] words.
    ///
    /// An error means that the allocator refused the room.
    pub fn new(alloc: A, size: usize, most: usize) -> Result<Self, AllocError>
    where
        A: Clone,
        requires some { 1 ≤ most }
        requires region { size ≤ LONGEST_REGION }
        ensures { IfOk result (λ holes. holes ≡ record { free = replicate size true; most = most }) }
    {
        let leaves = leaves_for(size);
        let nodes = vec![in alloc.clone()?; Summary::TAKEN; 2 * leaves]?;
        let bits = vec![in alloc; 0; LEAF * leaves]?;
        let mut holes = Self {
            bits,
            nodes,
            changed: Changed::NONE,
            near: 0,
            size,
            free: 0,
            most,
        };
        holes.reset(0);
        Ok(holes)
    }

    /// Answers where the lowest hole of at least `len` words begins. No word changes.
    fn find(&mut self, len: usize) -> Option<usize>
        requires { 1 ≤ len }
        ensures none { IsNone result ↔ (widest self.old.free < len) }
        ensures lowest { IfSome result (λ place. place ≡ lowest_fit len self.old.free) }
        ensures unchanged { self.new ≡ self.old }
    {
        if let Some(place) = tree::find_near(&self.bits, self.near, len) {
            return Some(place);
        }
        tree::join_changed(&self.bits, &mut self.nodes, self.changed);
        self.changed = Changed::NONE;
        self.near = tree::later_near(&self.bits, &self.nodes, self.near);
        tree::find(&self.bits, &self.nodes, len)
    }

    /// Takes the lowest free word if the bitmap `near` has it and its leaf changed: no node needs a change then. Else
    /// nothing changes.
    #[inline(always)]
    fn take_near(&mut self) -> Option<usize>
        ensures fits { IfSome result (λ place. 1 ≤ widest self.old.free) }
        ensures lowest { IfSome result (λ place. place ≡ lowest_fit 1 self.old.free) }
        ensures taken { IfSome result (λ place. self.new ≡ taken_from self.old place 1) }
        ensures unchanged { IfNone result (self.new ≡ self.old) }
    {
        if !self.changed.has(self.near / LEAF) {
            return None;
        }
        let place = tree::take_lowest(&mut self.bits, self.near)?;
        self.free -= 1;
        Some(place)
    }

    /// Takes words as `take` does, if no word is at hand: it looks at some bitmaps, and then at the tree.
    #[inline(never)]
    fn take_far(&mut self, len: usize) -> Option<usize>
        requires { 1 ≤ len }
        ensures lowest { IfSome result (IsLowestFit self.old.free len) }
        ensures within { IfSome result (λ place. place + len ≤ length self.old.free) }
        ensures taken { IfSome result (λ place. self.new ≡ taken_from self.old place len) }

        ensures none { IsNone result ↔ (widest self.old.free < len) }
        ensures unchanged { IfNone result (self.new ≡ self.old) }
    {
        let place = self.find(len)?;
        self.near = tree::near_after(&self.bits, self.near, place, len);
        self.changed = tree::fill(
            &mut self.bits,
            &mut self.nodes,
            self.changed,
            place,
            len,
            false,
        );
        self.free -= len;
        Some(place)
    }

    /// First fit: takes `len` words from the front of the lowest hole that has as many, and answers where they begin.
    /// Exactly these words stop being free.
    ///
    /// The answer is None exactly if every hole is shorter; then nothing changes.
    #[inline(always)]
    #[tactic(auto, using(crate::proofs::Runs::lowest_is_lowest, crate::proofs::Runs::lowest_within))]
    pub fn take(&mut self, len: usize) -> Option<usize>
        requires { 1 ≤ len }
        ensures lowest { IfSome result (IsLowestFit self.old.free len) }
        ensures within { IfSome result (λ place. place + len ≤ length self.old.free) }
        ensures taken { IfSome result (λ place. self.new ≡ taken_from self.old place len) }

        ensures none { IsNone result ↔ (widest self.old.free < len) }
        ensures unchanged { IfNone result (self.new ≡ self.old) }
    {
        if len == 1 {
            if let Some(place) = self.take_near() {
                return Some(place);
            }
        }
        self.take_far(len)
    }

    /// Gives one word back if its leaf changed, and answers whether it did: no node needs a change then. Else nothing
    /// changes.
    #[inline(always)]
    fn give_near(&mut self, place: usize) -> bool
        requires within { place + 1 ≤ length self.old.free }
        requires none_free { NoneFree self.old.free place 1 }
        requires room { hole_count self.old.free < self.old.most }
        ensures { MatchBool result (self.new ≡ given_to self.old place 1) (self.new ≡ self.old) }
    {
        if !self.changed.has(place / LEAF_WORDS) {
            return false;
        }
        tree::give_word(&mut self.bits, place);
        self.near = self.near.min(place / WORDS);
        self.free += 1;
        true
    }

    /// Gives words back as `give` does, if they aren't one word at hand.
    #[inline(never)]
    fn give_far(&mut self, place: usize, len: usize)
        requires some { 1 ≤ len }
        requires within { place + len ≤ length self.old.free }
        requires none_free { NoneFree self.old.free place len }
        requires room { hole_count self.old.free < self.old.most }
        ensures { self.new ≡ given_to self.old place len }
    {
        self.changed = tree::fill(
            &mut self.bits,
            &mut self.nodes,
            self.changed,
            place,
            len,
            true,
        );
        self.near = self.near.min(place / WORDS);
        self.free += len;
    }

    /// Gives the words `place..place + len` back: they are free again, in one hole with the free words right before and
    /// right after them. No other word changes.
    ///
    /// The range lies in the region, has at least one word and covers no free word. There is room for one more hole,
    /// whether or not the range makes one.
    #[inline(always)]
    pub fn give(&mut self, place: usize, len: usize)
        requires some { 1 ≤ len }
        requires within { place + len ≤ length self.old.free }
        requires none_free { NoneFree self.old.free place len }
        requires room { hole_count self.old.free < self.old.most }
        ensures { self.new ≡ given_to self.old place len }
    {
        if len == 1 && self.give_near(place) {
            return;
        }
        self.give_far(place, len);
    }

    /// Makes exactly the words `from..size` free.
    pub fn reset(&mut self, from: usize)
        requires { from ≤ length self.old.free }
        ensures { self.new ≡ record { free = free_from from (length self.old.free); most = self.old.most } }
    {
        self.free = self.size - from;
        self.near = (from / WORDS).min(self.bits.len() - 1);
        self.changed = tree::fill(
            &mut self.bits,
            &mut self.nodes,
            self.changed,
            0,
            from,
            false,
        );
        self.changed = tree::fill(
            &mut self.bits,
            &mut self.nodes,
            self.changed,
            from,
            self.free,
            true,
        );
    }

    /// The number of free words.
    pub fn free(&self) -> usize
        ensures value { result ≡ free_count self.now.free }
        ensures within { result ≤ length self.now.free }
    {
        self.free
    }

    /// The lowest free word, or the number of words if none is free.
    ///
    /// After a `take` that answered None it costs one look if a word is free. After other calls it may look at all
    /// words, 64 at a time.
    pub fn lowest_free(&self) -> usize
        ensures { result ≡ lowest_free self.now.free }
    {
        match tree::find_in(&self.bits, self.near, self.bits.len(), 1) {
            Some(place) => place,
            None => self.size,
        }
    }

    /// The number of words of the widest hole, 0 if no word is free.
    pub fn widest(&self) -> usize
        ensures { result ≡ widest self.now.free }
    {
        tree::summary(&self.bits, 0, self.bits.len()).longest as usize
    }

    /// The number of holes.
    pub fn count(&self) -> usize
        ensures value { result ≡ hole_count self.now.free }
        ensures within { result ≤ self.now.most }
    {
        tree::count(&self.bits, self.size)
    }

    /// The number of words of the region, free or not.
    #[tactic(auto, using(crate::proofs::Bits::lengths))]
    pub fn size(&self) -> usize
        ensures { result ≡ length self.now.free }
    {
        self.size
    }

    /// The number of holes for which there is room.
    pub fn most(&self) -> usize
        ensures { result ≡ self.now.most }
    {
        self.most
    }
}
