ghost use Rattle.std.specs.Prelude.{◌≡◌, ◌≤◌, length, [], ◌∷◌, map, true, false, MatchResult};
ghost use Rattle.segment_ops.specs.Indices.{some_outside};
ghost use Rattle.segment_ops.specs.Results.{HasResultOrFault};
ghost use Rattle.vcode_base.specs.Kinds.{AreLengths};
ghost use Rattle.vcode_base.specs.Segments.{total, element};
ghost use Rattle.vcode_base.specs.declared.fault.DataFault.TheVariants.{BadIndex};
ghost use Rattle.vcode_base.specs.declared.kind.Scalar.TheVariants.{Int};
ghost use Rattle.vcode_base.specs.declared.op.Segmented.TheVariants.{BackPermute};
ghost use Rattle.vcode_base.specs.declared.limits.TheConstants.{MOST_TOTAL};

use crate::descriptors::end_of;
use crate::indices::is_outside;
use vcode_base::DataFault;

/// `BPERMUTE`: writes at each position the element that its index names.
///
/// `elements` are in the segments of `source`, `indices` and `out` in those of `target`, and an
/// index counts in the segment of `elements` with the number of its own. The clauses name INT, and
/// BOOL means the same.
///
/// # Errors
///
/// [`BadIndex`](DataFault::BadIndex) if an index is outside that segment. Then `out` holds no
/// result.
pub(crate) fn back_permute(
    elements: &[i64],
    indices: &[i64],
    source: &[i64],
    target: &[i64],
    out: &mut [i64],
) -> Result<(), DataFault>
    requires source_lengths { AreLengths source.now }
    requires source_small { total source.now ≤ MOST_TOTAL }
    requires target_lengths { AreLengths target.now }
    requires matched { length source.now ≡ length target.now }
    requires whole { length elements.now ≡ total source.now }
    requires index_whole { length indices.now ≡ total target.now }
    requires room { length out.old ≡ total target.now }
    ensures { HasResultOrFault (BackPermute Int)
        (elements.now ∷ indices.now ∷ source.now ∷ target.now ∷ []) result out.new }
{
    let mut begin = 0;
    let mut target_begin = 0;
    for segment in 0..source.len() {
        let end = end_of(source, segment, begin);
        let target_end = end_of(target, segment, target_begin);
        gather(
            &elements[begin..end],
            &indices[target_begin..target_end],
            &mut out[target_begin..target_end],
        )?;
        begin = end;
        target_begin = target_end;
    }
    Ok(())
}

/// Writes the element that each index names.
///
/// # Errors
///
/// [`BadIndex`](DataFault::BadIndex) if an index is outside `elements`. Then `out` holds no result.
#[tactic(auto, using(crate::proofs::FoldLemmas::folds))]
fn gather(elements: &[i64], indices: &[i64], out: &mut [i64]) -> Result<(), DataFault>
    requires small { length elements.now ≤ MOST_TOTAL }
    requires room { length out.old ≡ length indices.now }
    ensures { MatchResult result
        (λ _. (some_outside (length elements.now) indices.now ≡ false)
        × (out.new ≡ map (element elements.now) indices.now))
        (λ fault. (some_outside (length elements.now) indices.now ≡ true) × (fault ≡ BadIndex)) }
{
    let size = elements.len() as i64;
    for place in 0..indices.len() {
        let index = indices[place];
        if is_outside(size, index) {
            return Err(DataFault::BadIndex);
        }
        out[place] = elements[index as usize];
    }
    Ok(())
}
