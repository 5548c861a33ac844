ghost use Rattle.std.specs.Prelude.{◌≡◌, ◌+◌, ◌<◌, ◌≤◌, ◌++◌, ◌-◌, ◌%◌, ◌↔◌};
ghost use Rattle.std.specs.Prelude.{[], length, take, drop, IsTrue, IfOk, OnOk, OnErr};

use crate::bits::{WORD_DIGITS, digits_at, digits_below, high_word, low_word, word_at};
use crate::chunk::Chunk;
use std::alloc::{AllocError, Allocator};
use std::marker::Model;
use vcode_base::Kind;

/// A list of kinds, which takes two bits for each.
///
/// If the list grows and memory for it is refused, it stays as it was, unless the call says otherwise.
#[derive(Drop)]
pub struct KindList<A: Allocator> {
    /// The kinds as digits of base 4, the first lowest, 32 in each word.
    words: Vec<u64, A>,
    /// The digits of those that don't fill a word.
    last: u64,
    /// How many kinds there are.
    len: usize,
}

impl<A: Allocator> Model for KindList<A> {
    ghost use Rattle.std.specs.Prelude.{List};
    ghost use Rattle.vcode_base.specs.declared.kind.Kind.{Kind};
    ghost use Rattle.kind_list.specs.Lists.{kinds_in, AreInWords};

    ghost Value = { List Kind };

    ghost view = { λ l. kinds_in l.len l.words.items l.last };

    ghost invariant = { λ l. AreInWords l.len l.words.items l.last };
}

impl<A: Allocator> KindList<A> {
    /// No kinds. No memory is taken.
    #[tactic(auto, unfolding(crate::specs::Packed::digits_of, crate::specs::Words::number_of))]
    pub fn new(alloc: A) -> KindList<A>
        ensures { result ≡ [] }
    {
        KindList {
            words: Vec::new(alloc),
            last: 0,
            len: 0,
        }
    }

    /// These kinds.
    pub fn from_slice(alloc: A, kinds: &[Kind]) -> Result<KindList<A>, AllocError>
        ensures { IfOk result (λ list. list ≡ kinds.now) }
    {
        let mut list = KindList::new(alloc);
        list.extend_from_slice(kinds)?;
        Ok(list)
    }

    /// What gives the list its memory.
    pub fn allocator(&self) -> &A {
        self.words.allocator()
    }

    /// How many kinds there are.
    #[inline(always)]
    #[tactic(auto, using(crate::proofs::Digits::length_kinds))]
    pub fn len(&self) -> usize
        ensures { result ≡ length self.now }
    {
        self.len
    }

    /// Drops the kinds after the first `len`.
    #[inline(always)]
    #[tactic(auto, using(crate::proofs::Digits::lengths))]
    pub fn truncate(&mut self, len: usize)
        ensures { self.new ≡ take len self.old }
    {
        if self.len <= len {
            return;
        }
        let full = len / WORD_DIGITS;
        self.last = digits_below(word_at(&self.words, self.last, full), len % WORD_DIGITS);
        self.words.truncate(full);
        self.len = len;
    }

    /// The `count` kinds from a place on: at least 1, and at most 32.
    #[inline(always)]
    #[tactic(auto, using(crate::proofs::Digits::length_kinds))]
    pub fn chunk(&self, from: usize, count: usize) -> Chunk
        requires some { 0 < count }
        requires few { count ≤ 32 }
        requires within { from + count ≤ length self.now }
        ensures { result ≡ take count (drop from self.now) }
    {
        Chunk::from_digits(digits_at(&self.words, self.last, from, count), count)
    }

    /// Whether the kinds from a place on begin with those of a chunk.
    #[inline(always)]
    pub fn has_chunk_at(&self, from: usize, chunk: &Chunk) -> bool
        requires { from + length chunk.now ≤ length self.now }
        ensures { IsTrue result ↔ (take (length chunk.now) (drop from self.now) ≡ chunk.now) }
    {
        let count = chunk.len();
        count == 0 || self.chunk(from, count).equals(chunk)
    }

    /// Whether the last kinds are these.
    #[inline(always)]
    pub fn ends_with(&self, kinds: &[Kind]) -> bool
        requires { length kinds.now ≤ length self.now }
        ensures { IsTrue result ↔ (drop (length self.now - length kinds.now) self.now ≡ kinds.now) }
    {
        if kinds.len() <= WORD_DIGITS {
            self.last_chunk(kinds.len()).equals(&Chunk::new(kinds))
        } else {
            self.has_many_at(self.len() - kinds.len(), kinds)
        }
    }

    /// Whether the kinds from a place on begin with these.
    #[inline(always)]
    pub fn has_at(&self, from: usize, kinds: &[Kind]) -> bool
        requires { from + length kinds.now ≤ length self.now }
        ensures { IsTrue result ↔ (take (length kinds.now) (drop from self.now) ≡ kinds.now) }
    {
        if kinds.len() <= WORD_DIGITS {
            self.has_chunk_at(from, &Chunk::new(kinds))
        } else {
            self.has_many_at(from, kinds)
        }
    }

    #[inline(never)]
    #[tactic(auto, using(crate::proofs::ListLemmas::pieces))]
    fn has_many_at(&self, from: usize, kinds: &[Kind]) -> bool
        requires { from + length kinds.now ≤ length self.now }
        ensures { IsTrue result ↔ (take (length kinds.now) (drop from self.now) ≡ kinds.now) }
    {
        let _len = self.len();
        let mut place = 0;
        while place < kinds.len() {
            let end = kinds.len().min(place + WORD_DIGITS);
            if !self.has_chunk_at(from + place, &Chunk::new(&kinds[place..end])) {
                return false;
            }
            place = end;
        }
        true
    }

    /// Whether these are the kinds of a slice.
    pub fn equals(&self, kinds: &[Kind]) -> bool
        ensures { IsTrue result ↔ (self.now ≡ kinds.now) }
    {
        self.len() == kinds.len() && self.has_at(0, kinds)
    }

    /// Whether the kinds from a place on are those of another list.
    #[tactic(auto, using(crate::proofs::ListLemmas::pieces))]
    pub fn ends_with_list(&self, from: usize, other: &KindList<A>) -> bool
        requires { from ≤ length self.now }
        ensures { IsTrue result ↔ (drop from self.now ≡ other.now) }
    {
        if self.len() - from != other.len() {
            return false;
        }
        let mut place = 0;
        while place < other.len() {
            let step = WORD_DIGITS.min(other.len() - place);
            if !self.has_chunk_at(from + place, &other.chunk(place, step)) {
                return false;
            }
            place += step;
        }
        true
    }

    /// The last kinds: at most 32.
    #[inline(always)]
    #[tactic(auto, using(crate::proofs::Digits::lengths))]
    pub fn last_chunk(&self, count: usize) -> Chunk
        requires few { count ≤ 32 }
        requires within { count ≤ length self.now }
        ensures { result ≡ drop (length self.now - count) self.now }
    {
        let rest = self.len % WORD_DIGITS;
        if count <= rest {
            Chunk::from_digits(self.last >> (2 * (rest - count)), count)
        } else {
            self.chunk(self.len - count, count)
        }
    }

    /// Adds the kinds of a chunk at the end.
    #[inline(always)]
    #[tactic(auto, using(crate::proofs::Digits::length_kinds))]
    pub fn push_chunk(&mut self, chunk: &Chunk) -> Result<(), AllocError>
        ensures pushed { OnOk result (self.new ≡ self.old ++ chunk.now) }
        ensures unchanged { OnErr result (self.new ≡ self.old) }
    {
        let rest = self.len % WORD_DIGITS;
        let count = chunk.len();
        if rest + count < WORD_DIGITS {
            self.last = low_word(self.last, rest, chunk.digits());
            self.len += count;
            return Ok(());
        }
        self.push_over(chunk)
    }

    #[inline(never)]
    fn push_over(&mut self, chunk: &Chunk) -> Result<(), AllocError>
        requires { 32 ≤ length self.old % 32 + length chunk.now }
        ensures pushed { OnOk result (self.new ≡ self.old ++ chunk.now) }
        ensures unchanged { OnErr result (self.new ≡ self.old) }
    {
        self.push_word(chunk)
    }

    /// Adds the kinds of a chunk at the end, if they fill a word.
    #[inline(always)]
    #[tactic(auto, using(crate::proofs::Digits::length_kinds))]
    fn push_word(&mut self, chunk: &Chunk) -> Result<(), AllocError>
        requires { 32 ≤ length self.old % 32 + length chunk.now }
        ensures pushed { OnOk result (self.new ≡ self.old ++ chunk.now) }
        ensures unchanged { OnErr result (self.new ≡ self.old) }
    {
        let Some(len) = self.len.checked_add(chunk.len()) else {
            return Err(AllocError);
        };
        let rest = self.len % WORD_DIGITS;
        let digits = chunk.digits();
        self.words.push(low_word(self.last, rest, digits))?;
        self.last = high_word(rest, digits);
        self.len = len;
        Ok(())
    }

    /// Adds these kinds at the end.
    #[inline(always)]
    pub fn extend_from_slice(&mut self, kinds: &[Kind]) -> Result<(), AllocError>
        ensures added { OnOk result (self.new ≡ self.old ++ kinds.now) }
        ensures unchanged { OnErr result (self.new ≡ self.old) }
    {
        if kinds.len() <= WORD_DIGITS {
            self.push_chunk(&Chunk::new(kinds))
        } else {
            self.extend_by_many(kinds)
        }
    }

    #[inline(never)]
    #[tactic(auto, using(crate::proofs::ListLemmas::pieces))]
    fn extend_by_many(&mut self, kinds: &[Kind]) -> Result<(), AllocError>
        ensures added { OnOk result (self.new ≡ self.old ++ kinds.now) }
        ensures unchanged { OnErr result (self.new ≡ self.old) }
    {
        let len = self.len();
        let mut place = 0;
        while place < kinds.len() {
            let end = kinds.len().min(place + WORD_DIGITS);
            match self.push_chunk(&Chunk::new(&kinds[place..end])) {
                Ok(()) => {}
                Err(refused) => {
                    self.truncate(len);
                    return Err(refused);
                }
            }
            place = end;
        }
        Ok(())
    }

    /// Whether the last kinds are these. If they are, others take their place. If memory is refused, kinds after the
    /// rest are lost.
    #[inline(always)]
    pub fn replace_end(&mut self, kinds: &[Kind], others: &[Kind]) -> Result<bool, AllocError>
        ensures same { IfOk result (λ same. IsTrue same
            ↔ (drop (length self.old - length kinds.now) self.old ≡ kinds.now)) }
        ensures replaced { IfOk result (λ same. IsTrue same
            → self.new ≡ take (length self.old - length kinds.now) self.old ++ others.now) }
        ensures below { take (length self.old - length kinds.now) self.new
            ≡ take (length self.old - length kinds.now) self.old }
    {
        let count = kinds.len();
        if count <= self.len() % WORD_DIGITS
            && others.len() <= count
            && self.last_chunk(count).equals(&Chunk::new(kinds))
        {
            self.replace_in_word(count, &Chunk::new(others));
            return Ok(true);
        }
        self.replace_many(kinds, others)
    }

    /// Takes off the last `count` kinds, and adds those of a chunk, if no word is filled and none but the last changes.
    #[inline(always)]
    #[tactic(auto, using(crate::proofs::Digits::length_kinds))]
    fn replace_in_word(&mut self, count: usize, chunk: &Chunk)
        requires few { count ≤ length self.old % 32 }
        requires room { length self.old % 32 + length chunk.now < 32 + count }
        ensures { self.new ≡ take (length self.old - count) self.old ++ chunk.now }
    {
        let rest = self.len % WORD_DIGITS - count;
        self.last = low_word(digits_below(self.last, rest), rest, chunk.digits());
        self.len = self.len - count + chunk.len();
    }

    #[inline(never)]
    fn replace_many(&mut self, kinds: &[Kind], others: &[Kind]) -> Result<bool, AllocError>
        ensures same { IfOk result (λ same. IsTrue same
            ↔ (drop (length self.old - length kinds.now) self.old ≡ kinds.now)) }
        ensures replaced { IfOk result (λ same. IsTrue same
            → self.new ≡ take (length self.old - length kinds.now) self.old ++ others.now) }
        ensures below { take (length self.old - length kinds.now) self.new
            ≡ take (length self.old - length kinds.now) self.old }
    {
        if self.len() < kinds.len() || !self.ends_with(kinds) {
            return Ok(false);
        }
        self.truncate(self.len() - kinds.len());
        self.extend_from_slice(others)?;
        Ok(true)
    }

    /// Adds the kinds of a chunk, which are 32, at the end.
    #[inline(always)]
    fn push_full(&mut self, chunk: &Chunk) -> Result<(), AllocError>
        requires { length chunk.now ≡ 32 }
        ensures pushed { OnOk result (self.new ≡ self.old ++ chunk.now) }
        ensures unchanged { OnErr result (self.new ≡ self.old) }
    {
        self.push_word(chunk)
    }

    /// Adds the kinds of a chunk at the end, in few steps if they are 32.
    #[inline(always)]
    pub(crate) fn push_mostly_full(&mut self, chunk: &Chunk) -> Result<(), AllocError>
        ensures pushed { OnOk result (self.new ≡ self.old ++ chunk.now) }
        ensures unchanged { OnErr result (self.new ≡ self.old) }
    {
        if chunk.len() == WORD_DIGITS {
            self.push_full(chunk)
        } else {
            self.push_chunk(chunk)
        }
    }

    /// Adds the `count` kinds from a place of another list on at the end.
    #[inline(never)]
    #[tactic(auto, using(crate::proofs::ListLemmas::pieces))]
    pub fn append_range(
        &mut self,
        other: &KindList<A>,
        from: usize,
        count: usize,
    ) -> Result<(), AllocError>
        requires { from + count ≤ length other.now }
        ensures added { OnOk result (self.new ≡ self.old ++ take count (drop from other.now)) }
        ensures unchanged { OnErr result (self.new ≡ self.old) }
    {
        let len = self.len();
        let _available = other.len();
        let mut place = 0;
        while count - place >= WORD_DIGITS {
            match self.push_full(&other.chunk(from + place, WORD_DIGITS)) {
                Ok(()) => {}
                Err(refused) => {
                    self.truncate(len);
                    return Err(refused);
                }
            }
            place += WORD_DIGITS;
        }
        if place == count {
            return Ok(());
        }
        match self.push_chunk(&other.chunk(from + place, count - place)) {
            Ok(()) => Ok(()),
            Err(refused) => {
                self.truncate(len);
                Err(refused)
            }
        }
    }

    /// Adds the `count` kinds from a place on at the end once more.
    #[inline(always)]
    pub fn repeat_range(&mut self, from: usize, count: usize) -> Result<(), AllocError>
        requires { from + count ≤ length self.old }
        ensures added { OnOk result (self.new ≡ self.old ++ take count (drop from self.old)) }
        ensures unchanged { OnErr result (self.new ≡ self.old) }
    {
        let rest = self.len() % WORD_DIGITS;
        let above = self.len() - from;
        if above <= rest && rest + count < WORD_DIGITS {
            let chunk = self.last_chunk(above).first(count);
            return self.push_chunk(&chunk);
        }
        self.repeat_many(from, count)
    }

    /// The same of at least 1, and at most 32.
    #[inline(always)]
    fn repeat_chunk(&mut self, from: usize, count: usize) -> Result<(), AllocError>
        requires some { 0 < count }
        requires few { count ≤ 32 }
        requires within { from + count ≤ length self.old }
        ensures added { OnOk result (self.new ≡ self.old ++ take count (drop from self.old)) }
        ensures unchanged { OnErr result (self.new ≡ self.old) }
    {
        if count == WORD_DIGITS {
            let chunk = self.chunk(from, WORD_DIGITS);
            self.push_full(&chunk)
        } else {
            let chunk = self.chunk(from, count);
            self.push_chunk(&chunk)
        }
    }

    #[inline(never)]
    #[tactic(auto, using(crate::proofs::ListLemmas::pieces))]
    fn repeat_many(&mut self, from: usize, count: usize) -> Result<(), AllocError>
        requires { from + count ≤ length self.old }
        ensures added { OnOk result (self.new ≡ self.old ++ take count (drop from self.old)) }
        ensures unchanged { OnErr result (self.new ≡ self.old) }
    {
        let len = self.len();
        let mut place = 0;
        while place < count {
            let step = WORD_DIGITS.min(count - place);
            match self.repeat_chunk(from + place, step) {
                Ok(()) => {}
                Err(refused) => {
                    self.truncate(len);
                    return Err(refused);
                }
            }
            place += step;
        }
        Ok(())
    }
}

impl<A: Allocator + Clone> KindList<A> {
    /// Takes out `count` kinds, from a place on. If memory is refused, kinds after this place are lost.
    #[inline(always)]
    pub fn remove_range(&mut self, from: usize, count: usize) -> Result<(), AllocError>
        requires { from + count ≤ length self.old }
        ensures removed { OnOk result (self.new ≡ take from self.old ++ drop (from + count) self.old) }
        ensures below { OnErr result (take from self.new ≡ take from self.old) }
    {
        let above = self.len() - (from + count);
        if above + count <= self.len() % WORD_DIGITS {
            let top = self.last_chunk(above);
            self.replace_in_word(above + count, &top);
            return Ok(());
        }
        self.remove_many(from, count)
    }

    #[inline(never)]
    fn remove_many(&mut self, from: usize, count: usize) -> Result<(), AllocError>
        requires { from + count ≤ length self.old }
        ensures removed { OnOk result (self.new ≡ take from self.old ++ drop (from + count) self.old) }
        ensures below { OnErr result (take from self.new ≡ take from self.old) }
    {
        let above = self.len() - (from + count);
        if above <= WORD_DIGITS {
            let top = self.last_chunk(above);
            self.truncate(from);
            return self.push_chunk(&top);
        }
        self.lower_many(from, from + count, above)
    }

    /// Moves the `count` kinds from a place up to a lower place.
    #[inline(never)]
    fn lower_many(&mut self, to: usize, from: usize, count: usize) -> Result<(), AllocError>
        requires lower { to ≤ from }
        requires all { from + count ≡ length self.old }
        ensures lowered { OnOk result (self.new ≡ take to self.old ++ drop from self.old) }
        ensures below { OnErr result (take to self.new ≡ take to self.old) }
    {
        let mut top = KindList::new(self.allocator().clone()?);
        top.append_range(self, from, count)?;
        self.truncate(to);
        self.append_range(&top, 0, count)
    }

    /// Moves `count` kinds, from a place on, to the end. If memory is refused, kinds after this place are lost.
    #[inline(always)]
    pub fn move_to_end(&mut self, from: usize, count: usize) -> Result<(), AllocError>
        requires { from + count ≤ length self.old }
        ensures moved { OnOk result (self.new ≡ take from self.old
            ++ (drop count (drop from self.old) ++ take count (drop from self.old))) }
        ensures below { OnErr result (take from self.new ≡ take from self.old) }
    {
        let above = self.len() - from;
        if count == 0 || above == count {
            return Ok(());
        }
        if above <= self.len() % WORD_DIGITS {
            let top = self.last_chunk(above).rotated(count);
            self.replace_in_word(above, &top);
            return Ok(());
        }
        self.move_many_to_end(from, count)
    }

    #[inline(never)]
    fn move_many_to_end(&mut self, from: usize, count: usize) -> Result<(), AllocError>
        requires some { 0 < count }
        requires within { from + count < length self.old }
        ensures moved { OnOk result (self.new ≡ take from self.old
            ++ (drop count (drop from self.old) ++ take count (drop from self.old))) }
        ensures below { OnErr result (take from self.new ≡ take from self.old) }
    {
        let above = self.len() - from;
        if above <= WORD_DIGITS {
            let top = self.last_chunk(above).rotated(count);
            self.truncate(from);
            return self.push_chunk(&top);
        }
        let mut top = KindList::new(self.allocator().clone()?);
        top.append_range(self, from + count, above - count)?;
        top.append_range(self, from, count)?;
        self.truncate(from);
        self.append_range(&top, 0, above)
    }
}
