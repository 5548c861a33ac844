#![tactic(auto, using(crate::proofs::Lists::none_refused))]

ghost use Rattle.std.specs.Prelude.{◌≡◌, length};
ghost use Rattle.vcode_base.specs.Meaning.{two_by_two};
ghost use Rattle.vcode_base.specs.Elements.{comparison};
ghost use Rattle.vcode_base.specs.declared.op.Comparison.TheVariants.{Less, LessOrEqual, Greater};
ghost use Rattle.vcode_base.specs.declared.op.Comparison.TheVariants.{GreaterOrEqual, Equal, NotEqual};

use crate::steps::fill_pairs;
use vcode_base::Comparison;
use vcode_base::element::Combine;

/// Writes 1 for each pair of which the comparison holds, and 0 for each other.
pub(crate) fn fill_comparison(op: Comparison, left: &[i64], right: &[i64], out: &mut [i64])
    requires same { length right.now ≡ length left.now }
    requires room { length out.old ≡ length left.now }
    ensures { out.new ≡ two_by_two (comparison op) left.now right.now }
{
    match op {
        Comparison::Less => fill_pairs::<IsLess>(left, right, out),
        Comparison::LessOrEqual => fill_pairs::<IsLessOrEqual>(left, right, out),
        Comparison::Greater => fill_pairs::<IsGreater>(left, right, out),
        Comparison::GreaterOrEqual => fill_pairs::<IsGreaterOrEqual>(left, right, out),
        Comparison::Equal => fill_pairs::<IsEqual>(left, right, out),
        Comparison::NotEqual => fill_pairs::<IsNotEqual>(left, right, out),
    }
}

/// Whether the left number is less than the right one.
struct IsLess;

impl Combine for IsLess {
    ghost combination = { comparison Less };

    fn combine(left: i64, right: i64) -> i64 {
        i64::from(left < right)
    }
}

/// Whether the left number is at most the right one.
struct IsLessOrEqual;

impl Combine for IsLessOrEqual {
    ghost combination = { comparison LessOrEqual };

    fn combine(left: i64, right: i64) -> i64 {
        i64::from(left <= right)
    }
}

/// Whether the left number is greater than the right one.
struct IsGreater;

impl Combine for IsGreater {
    ghost combination = { comparison Greater };

    fn combine(left: i64, right: i64) -> i64 {
        i64::from(left > right)
    }
}

/// Whether the left number is at least the right one.
struct IsGreaterOrEqual;

impl Combine for IsGreaterOrEqual {
    ghost combination = { comparison GreaterOrEqual };

    fn combine(left: i64, right: i64) -> i64 {
        i64::from(left >= right)
    }
}

/// Whether the two are equal.
struct IsEqual;

impl Combine for IsEqual {
    ghost combination = { comparison Equal };

    fn combine(left: i64, right: i64) -> i64 {
        i64::from(left == right)
    }
}

/// Whether the two differ.
struct IsNotEqual;

impl Combine for IsNotEqual {
    ghost combination = { comparison NotEqual };

    fn combine(left: i64, right: i64) -> i64 {
        i64::from(left != right)
    }
}
