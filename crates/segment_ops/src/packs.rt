ghost use Rattle.std.specs.Prelude.{◌≡◌, ◌≤◌, pos, length, take, count_by, [], ◌∷◌};
ghost use Rattle.std.specs.List.{All};
ghost use Rattle.vcode_base.specs.Elements.{is_set};
ghost use Rattle.vcode_base.specs.Kinds.{AreLengths, IsFlag};
ghost use Rattle.vcode_base.specs.declared.limits.TheConstants.{MOST_TOTAL};
ghost use Rattle.vcode_base.specs.Meaning.{flagged_elements, segmented_result, segmented_second};
ghost use Rattle.vcode_base.specs.Segments.{total};
ghost use Rattle.vcode_base.specs.declared.kind.Scalar.TheVariants.{Int};
ghost use Rattle.vcode_base.specs.declared.op.Segmented.TheVariants.{Pack};

use crate::descriptors::end_of;

/// `PACK`: writes the elements whose flag is T, in order, and how many of each segment they are.
///
/// `elements` and `flags` are in the segments of `descriptor`; `out` has an element for each flag
/// that is T, and `counts` one a segment. The clauses name INT, and BOOL means the same.
pub(crate) fn pack(
    elements: &[i64],
    flags: &[i64],
    descriptor: &[i64],
    out: &mut [i64],
    counts: &mut [i64],
)
    requires lengths { AreLengths descriptor.now }
    requires bounded { total descriptor.now ≤ MOST_TOTAL }
    requires whole { length elements.now ≡ total descriptor.now }
    requires flag_whole { length flags.now ≡ total descriptor.now }
    requires kind { All IsFlag flags.now }
    requires room { length out.old ≡ count_by is_set flags.now }
    requires count_room { length counts.old ≡ length descriptor.now }
    ensures packed { let operands = elements.now ∷ flags.now ∷ descriptor.now ∷ []
        in out.new ≡ segmented_result (Pack Int) operands }
    ensures counted { let operands = elements.now ∷ flags.now ∷ descriptor.now ∷ []
        in counts.new ≡ segmented_second (Pack Int) operands }
{
    let mut begin = 0;
    let mut kept = 0;
    for segment in 0..descriptor.len() {
        let end = end_of(descriptor, segment, begin);
        let more = pack_segment(&elements[begin..end], &flags[begin..end], &mut out[kept..]);
        counts[segment] = more as i64;
        kept += more;
        begin = end;
    }
}

/// Writes the elements of a segment whose flag is T to the front of `out`, in order, and answers how
/// many they are.
///
/// Each element is written at the place of the next element that is kept, so that a step has no branch on a
/// flag.
#[tactic(auto, using(crate::proofs::PackLemmas::packs))]
fn pack_segment(elements: &[i64], flags: &[i64], out: &mut [i64]) -> usize
    requires same { length flags.now ≡ length elements.now }
    requires kind { All IsFlag flags.now }
    requires room { count_by is_set flags.now ≤ length out.old }
    ensures counted { result ≡ count_by is_set flags.now }
    ensures packed { take result out.new ≡ flagged_elements elements.now flags.now }
{
    let mut kept = 0;
    for place in 0..elements.len() {
        if kept == out.len() {
            // None of the flags that are left is T.
            return kept;
        }
        out[kept] = elements[place];
        kept += flags[place] as usize;
    }
    kept
}

/// How many flags are T, which is their sum. It is a call of its own, so that [`need`](crate::need) stays short.
#[inline(never)]
pub(crate) fn count_set(flags: &[i64]) -> u64
    requires kind { All IsFlag flags.now }
    ensures counted { result ≡ count_by is_set flags.now }
    ensures at_most_all { result ≤ length flags.now }
{
    let mut sum: u64 = 0;
    for flag in flags {
        sum += *flag as u64;
    }
    sum
}
