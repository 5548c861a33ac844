//! Bitmaps of 64 words. The lowest bit is the first word, and a set bit is a free word.

ghost use Rattle.std.specs.Prelude.{◌≡◌, ◌≢◌, ℕ, ◌+◌, ◌-◌, ◌<◌, ◌≤◌, ◌↔◌, IsTrue, true, false, if◌then◌else◌, nat_le};
ghost use Rattle.std.specs.Prelude.{nat_lt};
ghost use Rattle.holes.specs.FreeWords.{front_run, widest};
ghost use Rattle.holes.specs.Tree.{lowest_fit, summary, is_set, words_of_bits, back_run};

use crate::summary::Summary;

/// The words of a bitmap.
pub const WORDS: usize = 64;

/// How many words are free in a row from the front of a bitmap on.
#[inline(always)]
#[tactic(auto, using(crate::proofs::Bitmaps::front_of))]
pub(crate) fn front(bits: u64) -> u32
    ensures { result ≡ front_run (words_of_bits bits) }
{
    bits.trailing_ones()
}

/// How many words are free in a row up to the end of a bitmap.
#[inline(always)]
#[tactic(auto, using(crate::proofs::Bitmaps::back_of))]
pub(crate) fn back(bits: u64) -> u32
    ensures { result ≡ back_run (words_of_bits bits) }
{
    bits.leading_ones()
}

/// The number of words of the widest hole of a bitmap.
#[tactic(auto, using(crate::proofs::Bitmaps::whole))]
pub(crate) fn longest(bits: u64) -> u32
    ensures { result ≡ widest (words_of_bits bits) }
{
    if bits == u64::MAX {
        return WORDS as u32;
    }
    let mut rest = bits;
    let mut longest = 0;
    while rest != 0 {
        rest >>= rest.trailing_zeros();
        let run = rest.trailing_ones();
        rest >>= run;
        longest = longest.max(run);
    }
    longest
}

/// The summary of the words of a bitmap.
#[tactic(auto, using(crate::proofs::Bitmaps::all_of))]
pub(crate) fn summary(bits: u64) -> Summary
    ensures { result ≡ summary (words_of_bits bits) }
{
    Summary {
        front: front(bits),
        back: back(bits),
        longest: longest(bits),
        whole: bits == u64::MAX,
    }
}

/// Whether a bitmap has a hole of at least `len` words. The free words are counted first, which is quick.
#[inline(always)]
#[tactic(auto, using(crate::proofs::Bitmaps::widest_few))]
pub(crate) fn fits(bits: u64, len: usize) -> bool
    ensures { IsTrue result ↔ (len ≤ widest (words_of_bits bits)) }
{
    len <= bits.count_ones() as usize && len <= longest(bits) as usize
}

/// Answers where the lowest hole of at least `len` words begins in a bitmap that has one.
#[tactic(auto, using(crate::proofs::Bitmaps::whole))]
pub(crate) fn lowest_fit(bits: u64, len: usize) -> usize
    requires some { 1 ≤ len }
    requires fits { len ≤ widest (words_of_bits bits) }
    ensures value { result ≡ lowest_fit len (words_of_bits bits) }
    ensures within { result + len ≤ 64 }
{
    if bits == u64::MAX {
        return 0;
    }
    let mut rest = bits;
    let mut place = 0;
    while rest != 0 {
        let gap = rest.trailing_zeros();
        rest >>= gap;
        place += gap as usize;
        let run = rest.trailing_ones();
        if len <= run as usize {
            return place;
        }
        rest >>= run;
        place += run as usize;
    }
    place
}

/// A bitmap with the words `from..to` free or not free, and the others as they were.
#[tactic(auto, using(crate::proofs::Bits::masks))]
pub(crate) fn with_range(bits: u64, from: usize, to: usize, value: bool) -> u64
    requires some { from < to }
    requires within { to ≤ 64 }
    ensures inside { (word : ℕ) → from ≤ word → word < to → is_set result word ≡ value }
    ensures before { (word : ℕ) → word < from → is_set result word ≡ is_set bits word }
    ensures behind { (word : ℕ) → to ≤ word → word < 64 → is_set result word ≡ is_set bits word }
{
    let mask = (u64::MAX << from) & (u64::MAX >> (WORDS - to));
    if value { bits | mask } else { bits & !mask }
}

/// A bitmap with one word free or not free, and the others as they were.
#[inline(always)]
pub(crate) fn with_word(bits: u64, word: usize, value: bool) -> u64
    requires { word < 64 }
    ensures here { is_set result word ≡ value }
    ensures others { (other : ℕ) → other < 64 → other ≢ word → is_set result other ≡ is_set bits other }
{
    if value {
        bits | (1 << word)
    } else {
        bits & !(1 << word)
    }
}
