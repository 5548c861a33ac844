//! Bytes that every reader takes alike: visible ones, and decimal digits.

ghost use Rattle.std.specs.Prelude.{◌≡◌, ◌≤◌, ◌^◌, ◌+◌, ◌-◌, ◌*◌, Some, MatchOption};
ghost use Rattle.vcode_base.specs.Bytes.{below, decimal, is_digit, is_visible, HasNoNumberAtFront, IsNumberAtFront};

/// Whether a byte is a printable one of ASCII other than the blank: 33 to 126.
#[inline(always)]
pub fn is_visible(byte: u8) -> bool
    ensures { result ≡ is_visible byte }
{
    33 <= byte && byte <= 126
}

/// Whether a byte is a decimal digit.
#[inline(always)]
fn is_digit(byte: u8) -> bool
    ensures { result ≡ is_digit byte }
{
    b'0' <= byte && byte <= b'9'
}

/// The value of digits of this value and one digit more, if it fits.
#[inline(always)]
fn with_digit(value: u64, digit: u8) -> Option<u64>
    requires { 48 ≤ digit }
    ensures { result ≡ below (2 ^ 64) (Some (10 * value + (digit - 48))) }
{
    // So there is room for a digit more, without a test of the product.
    if value < 1_800_000_000_000_000_000 {
        return Some(10 * value + u64::from(digit - b'0'));
    }
    value.checked_mul(10)?.checked_add(u64::from(digit - b'0'))
}

/// The value of the decimal digits at the front of a text, and how many they are; `None` if there is no digit or the
/// value doesn't fit.
#[tactic(auto, using(crate::proofs::Digits::digit_steps))]
#[inline(always)]
pub fn number_at_front(text: &[u8]) -> Option<(u64, usize)>
    ensures { MatchOption result (HasNoNumberAtFront (2 ^ 64) text.now) (λ found. IsNumberAtFront
        (2 ^ 64) text.now found.0 found.1) }
{
    let mut value: u64 = 0;
    for (place, byte) in text.iter().enumerate() {
        if !is_digit(*byte) {
            if place == 0 {
                return None;
            }
            return Some((value, place));
        }
        let Some(longer) = with_digit(value, *byte) else {
            return None;
        };
        value = longer;
    }
    if text.is_empty() {
        return None;
    }
    Some((value, text.len()))
}

/// The value of a text of one decimal digit or more and nothing else, if it fits.
#[tactic(auto, using(crate::proofs::Digits::decimal_steps))]
pub fn decimal(text: &[u8]) -> Option<u64>
    ensures { result ≡ below (2 ^ 64) (decimal text.now) }
{
    let Some((value, len)) = number_at_front(text) else {
        return None;
    };
    if len < text.len() {
        return None;
    }
    Some(value)
}
