//! A stretch of the digits of the number that words make, the lowest word first. The digits are those of base 4, two
//! bits each.

ghost use Rattle.std.specs.Prelude.{◌≡◌, ℕ, ◌+◌, ◌-◌, ◌*◌, ◌/◌, ◌%◌, ◌^◌, ◌<◌, ◌≤◌, ◌++◌, ◌∷◌, [], length, slice_index};
ghost use Rattle.kind_list.specs.Words.{number_of};

/// The bits of a word.
const WORD_BITS: usize = 64;

/// The digits of a word.
pub(crate) const WORD_DIGITS: usize = 32;

/// The lowest bits: at least 1 of them, and at most all.
#[inline(always)]
#[tactic(auto, using(crate::proofs::Numbers::masks))]
fn first_bits(bits: u64, count: usize) -> u64
    requires some { 0 < count }
    requires few { count ≤ 64 }
    ensures { result ≡ bits % 2 ^ count }
{
    bits & u64::MAX >> (WORD_BITS - count)
}

/// The digits below a place of the word.
#[inline(always)]
#[tactic(auto, using(crate::proofs::Numbers::masks))]
pub(crate) fn digits_below(digits: u64, place: usize) -> u64
    requires { place < 32 }
    ensures { result ≡ digits % 2 ^ (2 * place) }
{
    digits & ((1 << (2 * place)) - 1)
}

/// The word at a place, of these words and a last one.
#[inline(always)]
pub(crate) fn word_at(words: &[u64], last: u64, place: usize) -> u64
    requires { place ≤ length words.now }
    ensures { result ≡ slice_index (words.now ++ last ∷ []) place }
{
    if place == words.len() {
        last
    } else {
        words[place]
    }
}

/// The `count` digits from a place on, of these words and a last one.
#[inline(always)]
#[tactic(auto, using(crate::proofs::Numbers::reads))]
pub(crate) fn digits_at(words: &[u64], last: u64, place: usize, count: usize) -> u64
    requires some { 0 < count }
    requires few { count ≤ 32 }
    requires within { place + count ≤ 32 * (length words.now + 1) }
    ensures { result ≡ number_of (words.now ++ last ∷ []) / 2 ^ (2 * place) % 2 ^ (2 * count) }
{
    let word = place / WORD_DIGITS;
    let shift = 2 * (place % WORD_DIGITS);
    let low = word_at(words, last, word) >> shift;
    if shift + 2 * count <= WORD_BITS {
        return first_bits(low, 2 * count);
    }
    let next = word_at(words, last, word + 1);
    first_bits(low | next << (WORD_BITS - shift), 2 * count)
}

/// The low word of these digits after those that a word has, of which there are `place`.
#[inline(always)]
pub(crate) fn low_word(word: u64, place: usize, digits: u64) -> u64
    requires place { place < 32 }
    requires fits { word < 2 ^ (2 * place) }
    ensures { result ≡ digits % 2 ^ (64 - 2 * place) * 2 ^ (2 * place) + word }
{
    digits << (2 * place) | word
}

/// What of these digits doesn't fit into a word that has `place` others below them.
#[inline(always)]
pub(crate) fn high_word(place: usize, digits: u64) -> u64
    requires { place < 32 }
    ensures { result ≡ digits / 2 ^ (64 - 2 * place) }
{
    if place == 0 {
        0
    } else {
        digits >> (WORD_BITS - 2 * place)
    }
}
