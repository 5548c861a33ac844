//! Holes beside a plain list of which words are free.

ghost use Rattle.std.specs.Prelude.{◌≡◌, ◌+◌, ◌<◌, ◌≤◌, ◌↔◌, length, replicate, true, false, All, IsTrue};
ghost use Rattle.std.specs.Prelude.{IfOk, IfSome, IsNone, IfNone};
ghost use Rattle.holes.specs.FreeWords.{NoneFree, IsLowestFit, widest, free_from, hole_count, set_range};
ghost use Rattle.holes.specs.FreeWords.{taken_from, given_to};

use holes::{Holes, LONGEST_REGION};
use std::alloc::{AllocError, Global};
use std::marker::Model;

/// The free words of a region, as holes and as a plain list that is looked at word by word. Both tell the same words.
#[derive(Drop)]
pub struct FreeWords {
    holes: Holes<Global>,
    words: Vec<bool>,
}

impl Model for FreeWords {
    ghost use Rattle.holes.specs.FreeWords.{Region};

    ghost Value = { Region };

    ghost use Rattle.std.specs.Prelude.{◌≡◌};

    ghost view = { λ a. a.holes };

    ghost invariant = { λ a. a.words.items ≡ a.holes.free };
}

impl FreeWords {
    /// `size` words, all free, with room for `most` holes.
    pub fn new(alloc: Global, size: usize, most: usize) -> Result<Self, AllocError>
        requires some { 1 ≤ most }
        requires region { size ≤ LONGEST_REGION }
        ensures { IfOk result (λ words. words ≡ record { free = replicate size true; most = most }) }
    {
        let words = vec![in alloc; true; size]?;
        let holes = Holes::new(alloc, size, most)?;
        Ok(FreeWords { holes, words })
    }

    /// Takes `len` words, and answers their place.
    pub fn take(&mut self, len: usize) -> Option<usize>
        requires { 1 ≤ len }
        ensures lowest { IfSome result (IsLowestFit self.old.free len) }
        ensures taken { IfSome result (λ place. self.new ≡ taken_from self.old place len) }
        ensures none { IsNone result ↔ (widest self.old.free < len) }
        ensures unchanged { IfNone result (self.new ≡ self.old) }
    {
        let place = self.holes.take(len)?;
        set_words(&mut self.words, place, len, false);
        Some(place)
    }

    /// Whether these words may be given back: there are some, all of them lie in the region, none is free, and there is
    /// room for one more hole.
    pub fn may_give(&self, place: usize, len: usize) -> bool
        ensures some { IsTrue result → 1 ≤ len }
        ensures within { IsTrue result → place + len ≤ length self.now.free }
        ensures none_free { IsTrue result → NoneFree self.now.free place len }
        ensures room { IsTrue result → hole_count self.now.free < self.now.most }
    {
        if len == 0 || len > self.words.len() || place > self.words.len() - len {
            return false;
        }
        none_free(&self.words, place, len) && self.holes.count() < self.holes.most()
    }

    /// Gives words back.
    pub fn give(&mut self, place: usize, len: usize)
        requires some { 1 ≤ len }
        requires within { place + len ≤ length self.old.free }
        requires none_free { NoneFree self.old.free place len }
        requires room { hole_count self.old.free < self.old.most }
        ensures { self.new ≡ given_to self.old place len }
    {
        self.holes.give(place, len);
        set_words(&mut self.words, place, len, true);
    }

    /// Makes exactly the words from a place on free.
    pub fn reset(&mut self, place: usize)
        requires { place ≤ length self.old.free }
        ensures { self.new ≡ record { free = free_from place (length self.old.free); most = self.old.most } }
    {
        self.holes.reset(place);
        set_from(&mut self.words, place);
    }

    /// How many words there are, free or not.
    pub fn size(&self) -> usize
        ensures { result ≡ length self.now.free }
    {
        self.words.len()
    }

    /// The holes, which see the same words.
    pub fn holes(&self) -> &Holes<Global>
        ensures { result.now ≡ self.now }
    {
        &self.holes
    }
}

/// Makes words free, or not free.
fn set_words(words: &mut [bool], place: usize, len: usize, value: bool)
    requires { place + len ≤ length words.old }
    ensures { words.new ≡ set_range words.old place len value }
{
    words[place..place + len].fill(value);
}

/// Makes exactly the words from a place on free.
fn set_from(words: &mut [bool], place: usize)
    requires { place ≤ length words.old }
    ensures { words.new ≡ free_from place (length words.old) }
{
    let (below, behind) = words.split_at_mut(place);
    below.fill(false);
    behind.fill(true);
}

/// Whether none of these words is free.
fn are_taken(words: &[bool]) -> bool
    ensures { IsTrue result ↔ All (λ word. word ≡ false) words.now }
{
    words.iter().all(|word| !*word)
}

/// Whether no word of a range is free.
fn none_free(words: &[bool], place: usize, len: usize) -> bool
    requires { place + len ≤ length words.now }
    ensures { IsTrue result → NoneFree words.now place len }
{
    are_taken(&words[place..place + len])
}
