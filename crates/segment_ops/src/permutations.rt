ghost use Rattle.std.specs.Prelude.{◌≡◌, ◌≤◌, length, [], ◌∷◌};
ghost use Rattle.segment_ops.specs.Results.{HasResultOrFault};
ghost use Rattle.vcode_base.specs.Kinds.{AreLengths};
ghost use Rattle.vcode_base.specs.Segments.{total};
ghost use Rattle.vcode_base.specs.declared.kind.Scalar.TheVariants.{Int};
ghost use Rattle.vcode_base.specs.declared.op.Segmented.TheVariants.{Permute};
ghost use Rattle.vcode_base.specs.declared.limits.TheConstants.{MOST_TOTAL};

use crate::overlays::overlay;
use vcode_base::DataFault;

/// `PERMUTE`: writes each element at its index of the same segment.
///
/// `elements`, `indices` and `out` are in the segments of `descriptor`. The clauses name INT, and
/// BOOL means the same.
///
/// # Errors
///
/// [`BadIndex`](DataFault::BadIndex) if an index is outside its segment, else
/// [`IndexTwice`](DataFault::IndexTwice) if two of a segment are equal. Then `out` holds no
/// result.
#[tactic(auto, using(crate::proofs::SegmentLemmas::permuted_pieces))]
pub(crate) fn permute(
    elements: &[i64],
    indices: &[i64],
    descriptor: &[i64],
    out: &mut [i64],
) -> Result<(), DataFault>
    requires lengths { AreLengths descriptor.now }
    requires small { total descriptor.now ≤ MOST_TOTAL }
    requires whole { length elements.now ≡ total descriptor.now }
    requires index_whole { length indices.now ≡ total descriptor.now }
    requires room { length out.old ≡ length elements.now }
    ensures { HasResultOrFault (Permute Int) (elements.now ∷ indices.now ∷ descriptor.now ∷ []) result out.new }
{
    // If there is a result, each place is named, and so none of these zeros is in it.
    out.fill(0);
    overlay(elements, indices, descriptor, descriptor, out)
}
