ghost use Rattle.std.specs.Prelude.{◌≡◌, length, [], ◌∷◌};
ghost use Rattle.segment_ops.specs.Results.{HasResultOrFault};
ghost use Rattle.vcode_base.specs.Kinds.{AreLengths};
ghost use Rattle.vcode_base.specs.Segments.{total};
ghost use Rattle.vcode_base.specs.declared.kind.Scalar.TheVariants.{Int};
ghost use Rattle.vcode_base.specs.declared.op.Segmented.TheVariants.{Replace};

use crate::descriptors::end_of;
use crate::indices::is_outside;
use vcode_base::DataFault;

/// `REPLACE`: writes the elements with the one at the index of each segment replaced.
///
/// `elements` and `out` are in the segments of `descriptor`; `indices` and `replacements` have one
/// element a segment. The clauses name INT, and BOOL means the same.
///
/// # Errors
///
/// [`BadIndex`](DataFault::BadIndex) if an index is outside its segment, so always if a segment is
/// empty. Then `out` holds no result.
#[tactic(auto, using(crate::proofs::SegmentLemmas::edits))]
pub(crate) fn replace(
    elements: &[i64],
    indices: &[i64],
    replacements: &[i64],
    descriptor: &[i64],
    out: &mut [i64],
) -> Result<(), DataFault>
    requires lengths { AreLengths descriptor.now }
    requires whole { length elements.now ≡ total descriptor.now }
    requires single { length indices.now ≡ length descriptor.now }
    requires single_replacement { length replacements.now ≡ length descriptor.now }
    requires room { length out.old ≡ length elements.now }
    ensures { HasResultOrFault (Replace Int)
        (elements.now ∷ indices.now ∷ replacements.now ∷ descriptor.now ∷ []) result out.new }
{
    out.copy_from_slice(elements);
    let mut begin = 0;
    for segment in 0..descriptor.len() {
        if is_outside(descriptor[segment], indices[segment]) {
            return Err(DataFault::BadIndex);
        }
        out[begin + indices[segment] as usize] = replacements[segment];
        begin = end_of(descriptor, segment, begin);
    }
    Ok(())
}
