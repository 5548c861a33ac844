#![tactic(auto, using(std::proofs::lemmas::Int::wraps, crate::proofs::Lists::none_refused))]

ghost use Rattle.std.specs.Prelude.{◌≡◌, ◌<◌, length, pos, slice_index_or, true, false, MatchResult, None, Some};
ghost use Rattle.std.specs.List.{list_any};
ghost use Rattle.vector_ops.specs.Alike.{AreAll};
ghost use Rattle.vcode_base.specs.declared.fault.DataFault.TheVariants.{BadShift};
ghost use Rattle.vcode_base.specs.Meaning.{two_by_two};
ghost use Rattle.vcode_base.specs.Elements.{arithmetic, arithmetic_fault, is_outside, is_zero};
ghost use Rattle.vcode_base.specs.declared.op.Arith.TheVariants.{Subtract, Divide};
ghost use Rattle.vcode_base.specs.declared.op.Arith.TheVariants.{Remainder as ArithRemainder, ShiftLeft};
ghost use Rattle.vcode_base.specs.declared.op.Arith.TheVariants.{ShiftRight};

use crate::steps::{ElementTest, PairStep, are_all, fill_by, fill_pairs, fill_pairs_unless};
use vcode_base::element::{Combine, Product, Sum};
use vcode_base::{Arith, DataFault};

/// Of fewer shifts it is not tested whether they are all one number.
const MANY: usize = 128;

/// Shifts that differ mostly do so among this many.
const FIRST: usize = 8;

/// Writes the elements of an arithmetic instruction.
///
/// The fault is `ZeroDivisor` for a quotient or a remainder if a right element is 0, and
/// `BadShift` for a shift if one is outside 0..=63.
pub(crate) fn fill_arith(
    op: Arith,
    left: &[i64],
    right: &[i64],
    out: &mut [i64],
) -> Result<(), DataFault>
    requires same { length right.now ≡ length left.now }
    requires room { length out.old ≡ length left.now }
    ensures { MatchResult result
        (λ _. (arithmetic_fault op right.now ≡ None)
        × (out.new ≡ two_by_two (arithmetic op) left.now right.now))
        (λ fault. arithmetic_fault op right.now ≡ Some fault) }
{
    let zero = DataFault::ZeroDivisor;
    match op {
        Arith::Add => fill_pairs::<Sum>(left, right, out),
        Arith::Subtract => fill_pairs::<Difference>(left, right, out),
        Arith::Multiply => fill_pairs::<Product>(left, right, out),
        Arith::Divide => return fill_pairs_unless::<IsZero, Quotient>(zero, left, right, out),
        Arith::Remainder => return fill_pairs_unless::<IsZero, Remainder>(zero, left, right, out),
        Arith::ShiftLeft => return fill_shifts::<LeftShift>(left, right, out),
        Arith::ShiftRight => return fill_shifts::<RightShift>(left, right, out),
    }
    Ok(())
}

/// Writes the shifted elements. If all shifts are one number, a loop reads it once.
///
/// The fault is `BadShift`, if a shift is outside 0..=63.
fn fill_shifts<S: PairStep>(left: &[i64], right: &[i64], out: &mut [i64]) -> Result<(), DataFault>
    requires same { length right.now ≡ length left.now }
    requires room { length out.old ≡ length left.now }
    requires tested { list_any S.refuses right.now ≡ list_any (is_outside 64) right.now }
    ensures { MatchResult result
        (λ _. (list_any (is_outside 64) right.now ≡ false)
        × (out.new ≡ two_by_two S.gives left.now right.now))
        (λ fault. (list_any (is_outside 64) right.now ≡ true) × (fault ≡ BadShift)) }
{
    if !is_one_shift(right) {
        return fill_pairs_unless::<IsBadShift, S>(DataFault::BadShift, left, right, out);
    }
    fill_by::<S>(left, right[0], out);
    Ok(())
}

/// Whether these are many numbers, all of them are one, and it is a shift.
fn is_one_shift(shifts: &[i64]) -> bool
    ensures many { result ≡ true → 0 < length shifts.now }
    ensures shift { result ≡ true → is_outside 64 (slice_index_or shifts.now 0 (pos 0)) ≡ false }
    ensures alike { result ≡ true → AreAll (slice_index_or shifts.now 0 (pos 0)) shifts.now }
{
    if shifts.len() < MANY {
        return false;
    }
    if IsBadShift::test(shifts[0]) {
        return false;
    }
    if !are_all(&shifts[..FIRST], shifts[0]) {
        return false;
    }
    are_all(shifts, shifts[0])
}

/// The difference, modulo 2^64.
struct Difference;

impl Combine for Difference {
    ghost combination = { arithmetic Subtract };

    fn combine(left: i64, right: i64) -> i64 {
        left.wrapping_sub(right)
    }
}

/// The quotient, rounded towards zero. That of the least number by -1 is the least number.
struct Quotient;

impl PairStep for Quotient {
    ghost gives = { arithmetic Divide };

    ghost refuses = { is_zero };

    #[tactic(auto, using(crate::proofs::Wrapping::quotients))]
    fn apply(left: i64, right: i64) -> i64 {
        left.wrapping_div(right)
    }
}

/// The remainder, which has the sign of the dividend.
struct Remainder;

impl PairStep for Remainder {
    ghost gives = { arithmetic ArithRemainder };

    ghost refuses = { is_zero };

    fn apply(left: i64, right: i64) -> i64 {
        left.wrapping_rem(right)
    }
}

/// The left number times 2 to the right one, modulo 2^64.
struct LeftShift;

impl PairStep for LeftShift {
    ghost gives = { arithmetic ShiftLeft };

    ghost refuses = { is_outside 64 };

    #[tactic(auto, using(crate::proofs::Wrapping::shifts))]
    fn apply(left: i64, right: i64) -> i64 {
        left.wrapping_shl(right as u32)
    }
}

/// The left number divided by 2 to the right one, rounded down so that the sign stays.
struct RightShift;

impl PairStep for RightShift {
    ghost gives = { arithmetic ShiftRight };

    ghost refuses = { is_outside 64 };

    fn apply(left: i64, right: i64) -> i64 {
        left >> right
    }
}

/// Whether a divisor is 0.
struct IsZero;

impl ElementTest for IsZero {
    ghost holds = { is_zero };

    fn test(element: i64) -> bool {
        element == 0
    }
}

/// Whether a shift is outside 0..=63.
struct IsBadShift;

impl ElementTest for IsBadShift {
    ghost holds = { is_outside 64 };

    fn test(element: i64) -> bool {
        !(0..64).contains(&element)
    }
}
