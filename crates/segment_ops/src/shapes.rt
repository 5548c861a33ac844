ghost use Rattle.std.specs.Prelude.{◌≡◌, ◌==◌, ◌≤◌, not, length, MatchResult, None, Some};
ghost use Rattle.std.specs.List.{list_any};
ghost use Rattle.vcode_base.specs.Kinds.{AreLengths, HaveKinds, segmented_operands};
ghost use Rattle.vcode_base.specs.declared.limits.TheConstants.{MOST_TOTAL};
ghost use Rattle.vcode_base.specs.Meaning.{segmented_shape, shape_in, shape_between};
ghost use Rattle.vcode_base.specs.Segments.{total};
ghost use Rattle.vcode_base.specs.Operands.{contents};

use crate::descriptors::total_of;
use vcode_base::{DataFault, Segmented};

/// Whether the operands' lengths fit one another. It looks at no element but the segment lengths.
///
/// `ops` has the operands of `op` from the bottom of the stack up, each of the kind that the
/// instruction takes, which [`have_kinds`](vcode_base::have_kinds) tests.
///
/// # Errors
///
/// [`DataFault::SegmentCount`] if the number of an operand's elements isn't the number of segments, or two
/// descriptors have different numbers of segments; else [`DataFault::SegmentTotal`] if the number of an
/// operand's words isn't the total of its descriptor.
#[inline(always)]
pub fn shape(op: Segmented, ops: &[&[i64]]) -> Result<(), DataFault>
    requires kinds { HaveKinds (segmented_operands op) (contents ops.now) }
    ensures { MatchResult result
        (λ _. segmented_shape op (contents ops.now) ≡ None)
        (λ fault. segmented_shape op (contents ops.now) ≡ Some fault) }
{
    match op {
        Segmented::Scan(_) | Segmented::Reduce(_) => shape_in(ops[1], &[], &[ops[0]]),
        Segmented::Distribute(_) => shape_in(ops[1], &[ops[0]], &[]),
        Segmented::Index => shape_in(ops[2], &[ops[0], ops[1]], &[]),
        Segmented::Permute(_) | Segmented::Pack(_) => shape_in(ops[2], &[], &[ops[0], ops[1]]),
        Segmented::Extract(_) => shape_in(ops[2], &[ops[1]], &[ops[0]]),
        Segmented::Replace(_) => shape_in(ops[3], &[ops[1], ops[2]], &[ops[0]]),
        Segmented::BackPermute(_) => shape_between(ops[2], ops[3], &[ops[0]], &[ops[1]]),
        Segmented::DefaultPermute(_) => {
            shape_between(ops[3], ops[4], &[ops[0], ops[1]], &[ops[2]])
        }
        Segmented::MakeSegdes | Segmented::Lengths => Ok(()),
    }
}

/// Whether each of the vectors `each` has one element a segment, and each of `whole` as many as
/// the segments together.
fn shape_in(descriptor: &[i64], each: &[&[i64]], whole: &[&[i64]]) -> Result<(), DataFault>
    requires lengths { AreLengths descriptor.now }
    requires small { total descriptor.now ≤ MOST_TOTAL }
    ensures { MatchResult result
        (λ _. shape_in descriptor.now (contents each.now) (contents whole.now) ≡ None)
        (λ fault. shape_in descriptor.now (contents each.now) (contents whole.now) ≡ Some fault) }
{
    if any_of_other_length(each, descriptor.len() as u64) {
        return Err(DataFault::SegmentCount);
    }
    if any_of_other_length(whole, total_of(descriptor)) {
        return Err(DataFault::SegmentTotal);
    }
    Ok(())
}

/// Whether two descriptors have equally many segments, and each of the vectors `of_source` and
/// `of_target` as many elements as the segments of its own together.
fn shape_between(
    source: &[i64],
    target: &[i64],
    of_source: &[&[i64]],
    of_target: &[&[i64]],
) -> Result<(), DataFault>
    requires source_lengths { AreLengths source.now }
    requires source_small { total source.now ≤ MOST_TOTAL }
    requires target_lengths { AreLengths target.now }
    requires target_small { total target.now ≤ MOST_TOTAL }
    ensures { MatchResult result
        (λ _. shape_between source.now target.now (contents of_source.now) (contents of_target.now) ≡ None)
        (λ fault. shape_between source.now target.now (contents of_source.now) (contents of_target.now) ≡ Some fault) }
{
    if source.len() != target.len() {
        return Err(DataFault::SegmentCount);
    }
    if any_of_other_length(of_source, total_of(source))
        || any_of_other_length(of_target, total_of(target))
    {
        return Err(DataFault::SegmentTotal);
    }
    Ok(())
}

/// Whether a vector has another number of elements.
fn any_of_other_length(vectors: &[&[i64]], len: u64) -> bool
    ensures { result ≡ list_any (λ x. not (length x == len)) (contents vectors.now) }
{
    vectors.iter().any(|vector| vector.len() as u64 != len)
}
