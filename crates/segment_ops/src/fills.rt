ghost use Rattle.std.specs.Prelude.{◌≡◌, length, MatchResult, None, Some};
ghost use Rattle.vcode_base.specs.Kinds.{HaveKinds, segmented_operands};
ghost use Rattle.vcode_base.specs.Meaning.{segmented_shape, segmented_need, segmented_fault};
ghost use Rattle.vcode_base.specs.Meaning.{segmented_result, segmented_second};
ghost use Rattle.vcode_base.specs.Operands.{contents};

use crate::descriptors::{lengths, make_descriptor};
use crate::distributions::{distribute, index};
use crate::extractions::extract;
use crate::gathers::back_permute;
use crate::overlays::overlay;
use crate::packs::pack;
use crate::permutations::permute;
use crate::reductions::reduce;
use crate::replacements::replace;
use crate::scans::scan;
use vcode_base::{DataFault, Segmented};

/// Writes the results of the instruction.
///
/// `op` and `ops` are as for [`shape`](crate::shape), which has answered `Ok`, and `first` and
/// `second` have the lengths that [`need`](crate::need) answers.
///
/// # Errors
///
/// [`BadIndex`](DataFault::BadIndex) if an index is outside its segment, else
/// [`IndexTwice`](DataFault::IndexTwice) if two elements of a segment go to one index.
/// [`BadLength`](DataFault::BadLength) if a descriptor is made of a negative length or of lengths
/// whose total is above 4,294,967,295. What the results then hold is not specified.
#[inline(always)]
pub fn fill(
    op: Segmented,
    ops: &[&[i64]],
    first: &mut [i64],
    second: &mut [i64],
) -> Result<(), DataFault>
    requires kinds { HaveKinds (segmented_operands op) (contents ops.now) }
    requires shape { segmented_shape op (contents ops.now) ≡ None }
    requires room { segmented_need op (contents ops.now) ≡ (length first.old, length second.old) }
    ensures { MatchResult result
        (λ _. (segmented_fault op (contents ops.now) ≡ None)
        × (first.new ≡ segmented_result op (contents ops.now))
        × (second.new ≡ segmented_second op (contents ops.now)))
        (λ fault. segmented_fault op (contents ops.now) ≡ Some fault) }
{
    match op {
        Segmented::Permute(_) => return permute(ops[0], ops[1], ops[2], first),
        Segmented::BackPermute(_) => return back_permute(ops[0], ops[1], ops[2], ops[3], first),
        Segmented::DefaultPermute(_) => {
            first.copy_from_slice(ops[2]);
            return overlay(ops[0], ops[1], ops[3], ops[4], first);
        }
        Segmented::Extract(_) => return extract(ops[0], ops[1], ops[2], first),
        Segmented::Replace(_) => return replace(ops[0], ops[1], ops[2], ops[3], first),
        Segmented::MakeSegdes => return make_descriptor(ops[0], first),
        Segmented::Scan(fold) => scan(fold, ops[0], ops[1], first),
        Segmented::Reduce(fold) => reduce(fold, ops[0], ops[1], first),
        Segmented::Distribute(_) => distribute(ops[0], ops[1], first),
        Segmented::Index => index(ops[0], ops[1], ops[2], first),
        Segmented::Pack(_) => pack(ops[0], ops[1], ops[2], first, second),
        Segmented::Lengths => lengths(ops[0], first),
    }
    Ok(())
}
