//! Numbers and truth values.

ghost use Rattle.std.specs.Prelude.{◌≡◌, Some};
ghost use Rattle.vcode_reader.specs.Numbers.{natural_of, negative, number_of, positive, truth_of, value_of};

use vcode_base::{Scalar, decimal};

/// The number of this value, if it fits.
#[inline(always)]
pub(crate) fn positive(value: u64) -> Option<i64>
    ensures { result ≡ positive (Some value) }
{
    0i64.checked_add_unsigned(value)
}

/// The number that is this much less than 0, if it fits.
#[inline(always)]
pub(crate) fn negative(value: u64) -> Option<i64>
    ensures { result ≡ negative (Some value) }
{
    0i64.checked_sub_unsigned(value)
}

/// The number that a word is.
#[tactic(auto, unfolding(crate::specs::Numbers::number_of))]
pub(crate) fn number_of(word: &[u8]) -> Option<i64>
    ensures { result ≡ number_of word.now }
{
    match word {
        [b'-', digits @ ..] => negative(decimal(digits)?),
        _ => positive(decimal(word)?),
    }
}

/// The number of a word, if it isn't negative.
#[tactic(auto, unfolding(crate::specs::Numbers::natural_of))]
pub(crate) fn natural_of(word: &[u8]) -> Option<u64>
    ensures { result ≡ natural_of word.now }
{
    let number = number_of(word)?;
    if number < 0 {
        return None;
    }
    Some(number.unsigned_abs())
}

/// 1 for `T`, 0 for `F`.
#[tactic(auto, unfolding(crate::specs::Numbers::truth_of))]
fn truth_of(word: &[u8]) -> Option<i64>
    ensures { result ≡ truth_of word.now }
{
    match word {
        b"T" => Some(1),
        b"F" => Some(0),
        _ => None,
    }
}

/// The value of this kind that a word is.
pub(crate) fn value_of(kind: Scalar, word: &[u8]) -> Option<i64>
    ensures { result ≡ value_of kind word.now }
{
    match kind {
        Scalar::Int => number_of(word),
        Scalar::Bool => truth_of(word),
    }
}
