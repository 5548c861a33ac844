//! The words of an entry of a manifest.

ghost use Rattle.std.specs.Prelude.{◌≡◌, ◌≢◌, ◌<◌, ◌^◌, ◌++◌, ◌∷◌, ℕ, List, All, decimal, MatchOption};
ghost use Rattle.report_splitter.specs.Fronts.{IsSplitAt};

use crate::ending::parse_digits;
use memchr::memchr;

/// What comes before the first of this byte in a text, and what comes after it.
pub(crate) fn split_first(text: &[u8], byte: u8) -> Option<(&[u8], &[u8])>
    ensures { MatchOption result
        (All (λ other. other ≢ byte) text.now)
        (λ r. IsSplitAt byte text.now r.0.now r.1.now) }
{
    match memchr(byte, text) {
        Some(at) => Some((&text[..at], &text[at + 1..])),
        None => None,
    }
}

/// What comes before the first blank of a text, and what comes after it.
pub(crate) fn split_word(text: &[u8]) -> Option<(&[u8], &[u8])>
    ensures { (word rest : List ℕ) → All (λ byte. byte ≢ 32) word → text.now ≡ word ++ (32 ∷ rest)
        → MatchOption result ⊥ (λ r. (r.0.now ≡ word) × (r.1.now ≡ rest)) }
{
    split_first(text, b' ')
}

/// The number that begins a text, and what comes after the blank that ends it.
#[tactic(auto, using(crate::proofs::EntryLemmas::blank_apart))]
pub(crate) fn split_number_word(text: &[u8]) -> Option<(u64, &[u8])>
    ensures { (number : ℕ) (rest : List ℕ) → number < 2 ^ 64 → text.now ≡ decimal number ++ (32 ∷ rest)
        → MatchOption result ⊥ (λ r. (r.0 ≡ number) × (r.1.now ≡ rest)) }
{
    match split_word(text) {
        Some((digits, rest)) => match parse_digits(digits) {
            Some(number) => Some((number, rest)),
            None => None,
        },
        None => None,
    }
}
