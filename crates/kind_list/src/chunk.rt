ghost use Rattle.std.specs.Prelude.{◌≡◌, ◌+◌, ◌*◌, ◌<◌, ◌≤◌, ◌^◌, ◌++◌, ◌↔◌, IsTrue, [], length, take, drop};
ghost use Rattle.kind_list.specs.Packed.{digit_of, packed, kinds_of, IsChunk};

use crate::bits::digits_below;
use std::marker::Model;
use vcode_base::Kind;

/// At most 32 kinds in a word.
#[derive(Drop)]
pub struct Chunk {
    digits: u64,
    len: usize,
}

impl Model for Chunk {
    ghost use Rattle.std.specs.Prelude.{List};
    ghost use Rattle.vcode_base.specs.declared.kind.Kind.{Kind};
    ghost use Rattle.kind_list.specs.Packed.{kinds_of, IsChunk};

    ghost Value = { List Kind };

    ghost view = { λ c. kinds_of c.len c.digits };

    ghost invariant = { λ c. IsChunk c.len c.digits };
}

/// The digit of a kind.
#[inline(always)]
fn digit_of(kind: Kind) -> u64
    ensures is { result ≡ digit_of kind }
    ensures small { result < 3 }
{
    match kind {
        Kind::Int => 0,
        Kind::Bool => 1,
        Kind::Segdes => 2,
    }
}

/// The digits of the kinds, that of the first lowest.
#[inline(always)]
#[tactic(auto, unfolding(crate::specs::Packed::packed))]
fn packed(kinds: &[Kind]) -> u64
    requires { length kinds.now ≤ 32 }
    ensures is { result ≡ packed kinds.now }
    ensures fits { result < 2 ^ (2 * length kinds.now) }
{
    match kinds {
        [] => 0,
        [first] => digit_of(*first),
        [first, second] => digit_of(*second) * 4 + digit_of(*first),
        [first, second, third] => {
            (digit_of(*third) * 4 + digit_of(*second)) * 4 + digit_of(*first)
        }
        _ => packed_many(kinds),
    }
}

/// The same of any kinds. Few instructions have more than three.
#[inline(never)]
#[tactic(auto, using(crate::proofs::Digits::packed_steps), unfolding(crate::specs::Packed::packed))]
fn packed_many(kinds: &[Kind]) -> u64
    requires { length kinds.now ≤ 32 }
    ensures is { result ≡ packed kinds.now }
    ensures fits { result < 2 ^ (2 * length kinds.now) }
{
    let mut place = kinds.len();
    let mut digits = 0;
    while place > 0 {
        place -= 1;
        digits = digits * 4 + digit_of(kinds[place]);
    }
    digits
}

/// The digits of two chunks, one after the other.
#[inline(always)]
fn joined(low: u64, len: usize, high: u64, more: usize) -> u64
    requires low { low < 2 ^ (2 * len) }
    requires high { high < 2 ^ (2 * more) }
    requires few { len + more ≤ 32 }
    ensures { result ≡ high * 2 ^ (2 * len) + low }
{
    if more == 0 {
        return low;
    }
    high << (2 * len) | low
}

impl Chunk {
    /// No kinds.
    #[inline(always)]
    #[tactic(auto, unfolding(crate::specs::Packed::digits_of))]
    pub fn empty() -> Chunk
        ensures { result ≡ [] }
    {
        Chunk { digits: 0, len: 0 }
    }

    /// These kinds.
    #[inline(always)]
    #[tactic(auto, using(crate::proofs::Digits::known))]
    pub fn new(kinds: &[Kind]) -> Chunk
        requires { length kinds.now ≤ 32 }
        ensures { result ≡ kinds.now }
    {
        Chunk {
            digits: packed(kinds),
            len: kinds.len(),
        }
    }

    /// The kinds of these digits.
    #[inline(always)]
    pub(crate) fn from_digits(digits: u64, len: usize) -> Chunk
        requires { IsChunk len digits }
        ensures { result ≡ kinds_of len digits }
    {
        Chunk { digits, len }
    }

    /// The kinds as digits, that of the first lowest.
    #[inline(always)]
    #[tactic(auto, using(crate::proofs::Digits::known))]
    pub(crate) fn digits(&self) -> u64
        ensures is { kinds_of (length self.now) result ≡ self.now }
        ensures chunk { IsChunk (length self.now) result }
    {
        self.digits
    }

    /// How many kinds there are.
    #[inline(always)]
    #[tactic(auto, using(crate::proofs::Digits::length_kinds))]
    pub fn len(&self) -> usize
        ensures is { result ≡ length self.now }
        ensures few { result ≤ 32 }
    {
        self.len
    }

    /// Whether these are the kinds of the other chunk.
    #[inline(always)]
    #[tactic(auto, using(crate::proofs::Digits::known))]
    pub fn equals(&self, other: &Chunk) -> bool
        ensures { IsTrue result ↔ (self.now ≡ other.now) }
    {
        self.len == other.len && self.digits == other.digits
    }

    /// These kinds, and those of the other chunk after them. They are at most 32.
    #[inline(always)]
    #[tactic(auto, using(crate::proofs::Digits::length_kinds))]
    pub fn then(&self, other: &Chunk) -> Chunk
        requires { length self.now + length other.now ≤ 32 }
        ensures { result ≡ self.now ++ other.now }
    {
        Chunk {
            digits: joined(self.digits, self.len, other.digits, other.len),
            len: self.len + other.len,
        }
    }

    /// The first `count` kinds.
    #[inline(always)]
    #[tactic(auto, using(crate::proofs::Digits::length_kinds))]
    pub fn first(&self, count: usize) -> Chunk
        requires few { count < 32 }
        requires within { count ≤ length self.now }
        ensures { result ≡ take count self.now }
    {
        Chunk {
            digits: digits_below(self.digits, count),
            len: count,
        }
    }

    /// The kinds, of which the first `count` have been moved to the end.
    #[inline(always)]
    #[tactic(auto, using(crate::proofs::Digits::length_kinds))]
    pub fn rotated(&self, count: usize) -> Chunk
        requires some { 0 < count }
        requires within { count < length self.now }
        ensures { result ≡ drop count self.now ++ take count self.now }
    {
        let low = digits_below(self.digits, count);
        let rest = self.len - count;
        Chunk {
            digits: joined(self.digits >> (2 * count), rest, low, count),
            len: self.len,
        }
    }
}
