//! Words that are whole at the front of a text: short ones after a blank, and numbers.

ghost use Rattle.std.specs.Prelude.{[], ◌∷◌, codes, drop, IsTrue, IfSome};
ghost use Rattle.vcode_reader.specs.Ahead.{HasDigits, HasInt, HasNumber, HasWord, IsDigit};

use crate::number::{negative, positive};
use vcode_base::number_at_front;

/// The digit, if a blank and a word of one digit are at the front of a text, before a blank or a control byte.
#[inline(always)]
#[tactic(auto, using(crate::proofs::Pieces::digit_word))]
fn digit_ahead(text: &[u8]) -> Option<u8>
    ensures word { IfSome result (λ digit. HasWord text.now (digit ∷ [])) }
    ensures digit { IfSome result IsDigit }
{
    if text.len() < 3 {
        return None;
    }
    let (blank, digit, next) = (text[0], text[1], text[2]);
    if blank != b' ' {
        return None;
    }
    if digit < b'0' {
        return None;
    }
    if digit > b'9' {
        return None;
    }
    if next > b' ' {
        return None;
    }
    Some(digit)
}

/// The digits, if two such words are at the front of a text.
#[inline(always)]
pub(crate) fn digits_ahead(text: &[u8]) -> Option<(u8, u8)>
    ensures first { IfSome result (λ digits. HasWord text.now (digits.0 ∷ [])) }
    ensures second { IfSome result (λ digits. HasWord (drop 2 text.now) (digits.1 ∷ [])) }
    ensures digits { IfSome result (λ digits. IsDigit digits.0 × IsDigit digits.1) }
{
    let first = digit_ahead(text)?;
    let (_, rest) = text.split_at(2);
    let second = digit_ahead(rest)?;
    Some((first, second))
}

/// Whether a blank and the word `INT` are at the front of a text, before a blank or a control byte.
#[inline(always)]
#[tactic(auto, using(crate::proofs::Pieces::int_word))]
pub(crate) fn is_int_ahead(text: &[u8]) -> bool
    ensures { IsTrue result → HasWord text.now (codes "INT") }
{
    if text.len() < 5 {
        return false;
    }
    if text[0] != b' ' {
        return false;
    }
    if text[1] != b'I' {
        return false;
    }
    if text[2] != b'N' {
        return false;
    }
    if text[3] != b'T' {
        return false;
    }
    if text[4] > b' ' {
        return false;
    }
    true
}

/// The number, if a blank, the word `INT`, a blank and a number are at the front of a text, before a blank or a control
/// byte, and how many bytes they have.
#[inline(always)]
pub(crate) fn int_ahead(text: &[u8]) -> Option<(i64, usize)>
    ensures { IfSome result (λ found. HasInt text.now found.0 found.1) }
{
    if !is_int_ahead(text) {
        return None;
    }
    if text[4] != b' ' {
        return None;
    }
    let (_, rest) = text.split_at(5);
    let (number, len) = number_ahead(rest)?;
    Some((number, len + 5))
}

/// The number at the front of a text, and how many bytes it has, if a blank or a control byte follows it.
#[inline(always)]
#[tactic(auto, using(crate::proofs::Numerals::signed_back, crate::proofs::Numerals::positive_found))]
pub(crate) fn number_ahead(text: &[u8]) -> Option<(i64, usize)>
    ensures { IfSome result (λ found. HasNumber text.now found.0 found.1) }
{
    if text.is_empty() {
        return None;
    }
    if text[0] == b'-' {
        let (_, digits) = text.split_at(1);
        let (value, len) = value_ahead(digits)?;
        let number = negative(value)?;
        return Some((number, len + 1));
    }
    let (value, len) = value_ahead(text)?;
    let number = positive(value)?;
    Some((number, len))
}

/// The value of the digits at the front of a text, and how many they are, if there is one, its value fits, and a blank
/// or a control byte follows.
#[inline(always)]
fn value_ahead(text: &[u8]) -> Option<(u64, usize)>
    ensures { IfSome result (λ found. HasDigits text.now found.0 found.1) }
{
    let (value, len) = number_at_front(text)?;
    if len >= text.len() {
        return None;
    }
    if text[len] > b' ' {
        return None;
    }
    Some((value, len))
}
