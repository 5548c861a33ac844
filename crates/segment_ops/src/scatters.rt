ghost use Rattle.std.specs.Prelude.{◌≡◌, ◌≤◌, length, false, true, MatchResult};
ghost use Rattle.segment_ops.specs.Indices.{AreWithin, some_outside, HoldsClaims, IsSameBeside};
ghost use Rattle.vcode_base.specs.Segments.{scatter_of, has_twice};
ghost use Rattle.vcode_base.specs.declared.fault.DataFault.TheVariants.{BadIndex};
ghost use Rattle.vcode_base.specs.declared.limits.TheConstants.{MOST_TOTAL};

use crate::indices::{is_outside, rise_within};
use vcode_base::DataFault;

/// Writes each element at its index of `out`, whose other places stay as they are, and says whether two of
/// the indices are equal. If they are, `out` holds no result.
///
/// # Errors
///
/// [`BadIndex`](DataFault::BadIndex) if an index is outside `out`. Then it holds no result.
#[tactic(auto, using(crate::proofs::PlaceLemmas::scattered_over))]
pub(crate) fn scatter(elements: &[i64], indices: &[i64], out: &mut [i64]) -> Result<bool, DataFault>
    requires same { length indices.now ≡ length elements.now }
    requires few { length indices.now ≤ MOST_TOTAL }
    requires small { length out.old ≤ MOST_TOTAL }
    ensures { MatchResult result
        (λ twice. (some_outside (length out.old) indices.now ≡ false)
        × (twice ≡ has_twice indices.now)
        × (twice ≡ false → out.new ≡ scatter_of elements.now indices.now out.old))
        (λ fault. (some_outside (length out.old) indices.now ≡ true) × (fault ≡ BadIndex)) }
{
    if rise_within(indices, out.len() as i64) {
        write_each(elements, indices, out);
        return Ok(false);
    }
    claim(indices, out)?;
    Ok(settle(elements, indices, out))
}

/// Writes each element at its index; the other places of `out` stay as they are.
#[tactic(auto, using(crate::proofs::PlaceLemmas::moves))]
fn write_each(elements: &[i64], indices: &[i64], out: &mut [i64])
    requires same { length indices.now ≡ length elements.now }
    requires within { AreWithin (length out.old) indices.now }
    ensures { out.new ≡ scatter_of elements.now indices.now out.old }
{
    for place in 0..elements.len() {
        out[indices[place] as usize] = elements[place];
    }
}

/// Writes at each index its number among the indices, so that of equal ones the last number stays.
///
/// # Errors
///
/// [`BadIndex`](DataFault::BadIndex) if an index is outside `out`.
fn claim(indices: &[i64], out: &mut [i64]) -> Result<(), DataFault>
    requires few { length indices.now ≤ MOST_TOTAL }
    requires small { length out.old ≤ MOST_TOTAL }
    ensures { MatchResult result
        (λ _. (some_outside (length out.old) indices.now ≡ false)
        × (HoldsClaims (length indices.now) indices.now out.new)
        × (IsSameBeside indices.now out.old out.new))
        (λ fault. (some_outside (length out.old) indices.now ≡ true) × (fault ≡ BadIndex)) }
{
    let size = out.len() as i64;
    for place in 0..indices.len() {
        let index = indices[place];
        if is_outside(size, index) {
            return Err(DataFault::BadIndex);
        }
        out[index as usize] = place as i64;
    }
    Ok(())
}

/// Writes each element over the number of its index, and says whether some index finds a later one's
/// number, which is so if two of the indices are equal.
#[tactic(auto, using(crate::proofs::PlaceLemmas::moves))]
fn settle(elements: &[i64], indices: &[i64], out: &mut [i64]) -> bool
    requires same { length indices.now ≡ length elements.now }
    requires few { length indices.now ≤ MOST_TOTAL }
    requires within { AreWithin (length out.old) indices.now }
    requires claimed { HoldsClaims (length indices.now) indices.now out.old }
    ensures twice { result ≡ has_twice indices.now }
    ensures moved { result ≡ false → out.new ≡ scatter_of elements.now indices.now out.old }
{
    for place in 0..indices.len() {
        let index = indices[place] as usize;
        if out[index] != place as i64 {
            return true;
        }
        out[index] = elements[place];
    }
    false
}
