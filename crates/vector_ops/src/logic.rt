#![tactic(auto, using(crate::proofs::Lists::none_refused))]

ghost use Rattle.std.specs.Prelude.{◌≡◌, length, map};
ghost use Rattle.vcode_base.specs.Meaning.{two_by_two};
ghost use Rattle.vcode_base.specs.Elements.{logic, negation};
ghost use Rattle.vcode_base.specs.declared.kind.Scalar.TheVariants.{Int as Numbers, Bool as Flags};

use crate::steps::{ElementStep, fill_each, fill_pairs};
use vcode_base::element::{And, Or, Xor};
use vcode_base::{Logic, Scalar};

/// Writes the two elements joined bit by bit, which on flags is the connective.
pub(crate) fn fill_logic(op: Logic, left: &[i64], right: &[i64], out: &mut [i64])
    requires same { length right.now ≡ length left.now }
    requires room { length out.old ≡ length left.now }
    ensures { out.new ≡ two_by_two (logic op) left.now right.now }
{
    match op {
        Logic::And => fill_pairs::<And>(left, right, out),
        Logic::Or => fill_pairs::<Or>(left, right, out),
        Logic::Xor => fill_pairs::<Xor>(left, right, out),
    }
}

/// Writes the complements of numbers, or the other truth values of flags.
pub(crate) fn fill_not(elements: Scalar, operand: &[i64], out: &mut [i64])
    requires room { length out.old ≡ length operand.now }
    ensures { out.new ≡ map (negation elements) operand.now }
{
    match elements {
        Scalar::Int => fill_each::<Complement>(operand, out),
        Scalar::Bool => fill_each::<OtherFlag>(operand, out),
    }
}

/// The number with every bit turned.
struct Complement;

impl ElementStep for Complement {
    ghost gives = { negation Numbers };

    fn apply(element: i64) -> i64 {
        !element
    }
}

/// T for F, and F for T.
struct OtherFlag;

impl ElementStep for OtherFlag {
    ghost gives = { negation Flags };

    fn apply(element: i64) -> i64 {
        i64::from(element == 0)
    }
}
