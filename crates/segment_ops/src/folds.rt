ghost use Rattle.std.specs.Prelude.{◌≡◌, ℕ, ℤ, List, length};
ghost use Rattle.vcode_base.specs.Elements.{fold_step, identity};
ghost use Rattle.vcode_base.specs.Kinds.{AreLengths};
ghost use Rattle.vcode_base.specs.Segments.{total, segments};
ghost use Rattle.vcode_base.specs.declared.op.Fold.TheVariants.{Max as FoldMax, Min as FoldMin};

use vcode_base::element::{And, Combine, Or, Product, Sum, Xor};
use vcode_base::{Fold, Logic, Scalar};

/// A reduction or a scan of segments, by any combination.
///
/// `written` is its result, by the combination, the number that each segment starts from, and the segments. `room` is
/// the length of the result, by the elements and their descriptor.
pub(crate) trait OverSegments {
    ghost room: { List ℤ → List ℤ → ℕ };

    ghost written: { (ℤ → ℤ → ℤ) → ℤ → List (List ℤ) → List ℤ };

    /// Writes the result. Each segment starts again from `start`.
    fn write<S: Combine>(elements: &[i64], descriptor: &[i64], start: i64, out: &mut [i64])
        requires lengths { AreLengths descriptor.now }
        requires whole { length elements.now ≡ total descriptor.now }
        requires room { length out.old ≡ room elements.now descriptor.now }
        ensures { out.new ≡ written S.combination start (segments descriptor.now elements.now) };
}

/// Writes the reduction or scan by this fold: by its combination, from its identity.
pub(crate) fn by_fold<W: OverSegments>(
    fold: Fold,
    elements: &[i64],
    descriptor: &[i64],
    out: &mut [i64],
)
    requires lengths { AreLengths descriptor.now }
    requires whole { length elements.now ≡ total descriptor.now }
    requires room { length out.old ≡ W.room elements.now descriptor.now }
    ensures { out.new ≡ W.written (fold_step fold) (identity fold) (segments descriptor.now elements.now) }
{
    let start = identity_of(fold);
    match fold {
        Fold::Sum => W::write::<Sum>(elements, descriptor, start, out),
        Fold::Product => W::write::<Product>(elements, descriptor, start, out),
        Fold::Max => W::write::<Max>(elements, descriptor, start, out),
        Fold::Min => W::write::<Min>(elements, descriptor, start, out),
        Fold::Logic(logic, _) => match logic {
            Logic::And => W::write::<And>(elements, descriptor, start, out),
            Logic::Or => W::write::<Or>(elements, descriptor, start, out),
            Logic::Xor => W::write::<Xor>(elements, descriptor, start, out),
        },
    }
}

/// The fold of no elements, from which every fold starts.
fn identity_of(fold: Fold) -> i64
    ensures { result ≡ identity fold }
{
    match fold {
        Fold::Sum => 0,
        Fold::Product => 1,
        Fold::Max => i64::MIN,
        Fold::Min => i64::MAX,
        Fold::Logic(Logic::And, Scalar::Int) => -1,
        Fold::Logic(Logic::And, Scalar::Bool) => 1,
        Fold::Logic(Logic::Or | Logic::Xor, _) => 0,
    }
}

/// The greater of two numbers.
pub struct Max;

impl Combine for Max {
    ghost combination = { fold_step FoldMax };

    fn combine(left: i64, right: i64) -> i64 {
        left.max(right)
    }
}

/// The lesser of two numbers.
pub struct Min;

impl Combine for Min {
    ghost combination = { fold_step FoldMin };

    fn combine(left: i64, right: i64) -> i64 {
        left.min(right)
    }
}
