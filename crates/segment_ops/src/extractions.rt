ghost use Rattle.std.specs.Prelude.{◌≡◌, length, [], ◌∷◌};
ghost use Rattle.segment_ops.specs.Results.{HasResultOrFault};
ghost use Rattle.vcode_base.specs.Kinds.{AreLengths};
ghost use Rattle.vcode_base.specs.Segments.{total};
ghost use Rattle.vcode_base.specs.declared.kind.Scalar.TheVariants.{Int};
ghost use Rattle.vcode_base.specs.declared.op.Segmented.TheVariants.{Extract};

use crate::descriptors::end_of;
use crate::indices::is_outside;
use vcode_base::DataFault;

/// `EXTRACT`: writes the element of each segment at the segment's index.
///
/// `elements` are in the segments of `descriptor`; `indices` and `out` have one element a segment.
/// The clauses name INT, and BOOL means the same.
///
/// # Errors
///
/// [`BadIndex`](DataFault::BadIndex) if an index is outside its segment, so always if a segment is
/// empty. Then `out` holds no result.
#[tactic(auto, using(crate::proofs::SegmentLemmas::walks, crate::proofs::SegmentLemmas::place_within))]
pub(crate) fn extract(
    elements: &[i64],
    indices: &[i64],
    descriptor: &[i64],
    out: &mut [i64],
) -> Result<(), DataFault>
    requires lengths { AreLengths descriptor.now }
    requires whole { length elements.now ≡ total descriptor.now }
    requires single { length indices.now ≡ length descriptor.now }
    requires room { length out.old ≡ length descriptor.now }
    ensures { HasResultOrFault (Extract Int) (elements.now ∷ indices.now ∷ descriptor.now ∷ []) result out.new }
{
    let mut begin = 0;
    for segment in 0..descriptor.len() {
        if is_outside(descriptor[segment], indices[segment]) {
            return Err(DataFault::BadIndex);
        }
        out[segment] = elements[begin + indices[segment] as usize];
        begin = end_of(descriptor, segment, begin);
    }
    Ok(())
}
