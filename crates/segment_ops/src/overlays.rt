ghost use Rattle.std.specs.Prelude.{◌≡◌, ◌≤◌, length, [], ◌∷◌, MatchResult, None, Some};
ghost use Rattle.vcode_base.specs.Kinds.{AreLengths};
ghost use Rattle.vcode_base.specs.Meaning.{segmented_result, segmented_fault};
ghost use Rattle.vcode_base.specs.Segments.{total};
ghost use Rattle.vcode_base.specs.declared.kind.Scalar.TheVariants.{Int};
ghost use Rattle.vcode_base.specs.declared.limits.TheConstants.{MOST_TOTAL};
ghost use Rattle.vcode_base.specs.declared.op.Segmented.TheVariants.{DefaultPermute};

use crate::descriptors::end_of;
use crate::scatters::scatter;
use vcode_base::DataFault;

/// `DPERMUTE` into the words of its default: writes each element over the word at its index, and leaves
/// the other words of `out` as they are.
///
/// `elements` and `indices` are in the segments of `source` and `out` in those of `target`, and an index
/// counts in the segment of `out` with the number of its own. The clauses name INT, and BOOL means the
/// same.
///
/// # Errors
///
/// [`BadIndex`](DataFault::BadIndex) if an index is outside that segment, else
/// [`IndexTwice`](DataFault::IndexTwice) if two of a segment are equal. Then `out` holds no
/// result.
pub fn overlay(
    elements: &[i64],
    indices: &[i64],
    source: &[i64],
    target: &[i64],
    out: &mut [i64],
) -> Result<(), DataFault>
    requires source_lengths { AreLengths source.now }
    requires source_small { total source.now ≤ MOST_TOTAL }
    requires target_lengths { AreLengths target.now }
    requires target_small { total target.now ≤ MOST_TOTAL }
    requires matched { length source.now ≡ length target.now }
    requires whole { length elements.now ≡ total source.now }
    requires index_whole { length indices.now ≡ total source.now }
    requires room { length out.old ≡ total target.now }
    ensures { let operands = elements.now ∷ indices.now ∷ out.old ∷ source.now ∷ target.now ∷ []
        in MatchResult result
        (λ _. (segmented_fault (DefaultPermute Int) operands ≡ None)
        × (out.new ≡ segmented_result (DefaultPermute Int) operands))
        (λ fault. segmented_fault (DefaultPermute Int) operands ≡ Some fault) }
{
    let mut twice = false;
    let mut begin = 0;
    let mut target_begin = 0;
    for segment in 0..source.len() {
        let end = end_of(source, segment, begin);
        let target_end = end_of(target, segment, target_begin);
        twice |= scatter(
            &elements[begin..end],
            &indices[begin..end],
            &mut out[target_begin..target_end],
        )?;
        begin = end;
        target_begin = target_end;
    }
    // An index outside its segment, in any of them, goes before two that are equal.
    if twice {
        return Err(DataFault::IndexTwice);
    }
    Ok(())
}
