//! What every instruction computes, over slices that the caller lends.
//!
//! An instruction runs in two calls: [`lengths`] says whether the lengths of its operands fit, and how many words its
//! results have, and [`fill`] writes them. Neither takes memory. `IF` has no result; the motions of the stack, `CALL`
//! and `RET` read no operand and have none either.

ghost use Rattle.std.specs.Prelude.{◌≡◌, length, MatchResult, None, Some};
ghost use Rattle.vcode_base.specs.Kinds.{HaveKinds, source_kinds};
ghost use Rattle.vcode_base.specs.Meaning.{shape, need, value_fault, result_of, second_result_of};
ghost use Rattle.vcode_base.specs.Operands.{contents};

use vcode_base::{DataFault, Op};

/// The lengths of the first and of the second result, in words, 0 if there is none, if the operands' lengths fit one
/// another. No element is looked at but segment lengths, flags of packs and lengths to be made descriptors of, and
/// nothing is made: the length of a result that no memory could hold is found as fast as any.
///
/// `ops` has the operands of `op` from the bottom of the stack up, each of the kind that the
/// instruction takes, which [`have_kinds`](vcode_base::have_kinds) tests: for `CONST` its list alone,
/// and none for a motion of the stack, `CALL` and `RET`.
///
/// # Errors
///
/// [`LengthsDiffer`](DataFault::LengthsDiffer) if the operands of an elementwise instruction are
/// not all of one length. [`NotSingle`](DataFault::NotSingle) if the flag of an `IF` is not a single
/// one. [`SegmentCount`](DataFault::SegmentCount) if the number of an operand's elements isn't the number of
/// segments, or two descriptors have different numbers of segments; else
/// [`SegmentTotal`](DataFault::SegmentTotal) if the number of an operand's words isn't the total of its
/// descriptor.
#[inline(always)]
pub fn lengths(op: Op, ops: &[&[i64]]) -> Result<(u64, u64), DataFault>
    requires kinds { HaveKinds (source_kinds op) (contents ops.now) }
    ensures { MatchResult result
        (λ needed. (shape op (contents ops.now) ≡ None) × (needed ≡ need op (contents ops.now)))
        (λ fault. shape op (contents ops.now) ≡ Some fault) }
{
    shape(op, ops)?;
    Ok(need(op, ops))
}

/// Whether the operands' lengths fit one another.
#[inline(always)]
#[tactic(auto, unfolding(vcode_base::specs::Meaning::shape))]
fn shape(op: Op, ops: &[&[i64]]) -> Result<(), DataFault>
    requires kinds { HaveKinds (source_kinds op) (contents ops.now) }
    ensures { MatchResult result
        (λ _. shape op (contents ops.now) ≡ None)
        (λ fault. shape op (contents ops.now) ≡ Some fault) }
{
    match op {
        Op::Elementwise(op) => vector_ops::shape(op, ops),
        Op::Segmented(op) => segment_ops::shape(op, ops),
        Op::If if ops[0].len() != 1 => Err(DataFault::NotSingle),
        Op::Const(_) | Op::If | Op::Move(..) | Op::Call | Op::Return => Ok(()),
    }
}

/// The lengths of the results of operands that fit one another.
#[inline(always)]
#[tactic(auto, unfolding(vcode_base::specs::Meaning::need))]
pub(crate) fn need(op: Op, ops: &[&[i64]]) -> (u64, u64)
    requires kinds { HaveKinds (source_kinds op) (contents ops.now) }
    requires shape { shape op (contents ops.now) ≡ None }
    ensures { result ≡ need op (contents ops.now) }
{
    match op {
        Op::Const(_) => (ops[0].len() as u64, 0),
        Op::Elementwise(op) => (vector_ops::need(op, ops), 0),
        Op::Segmented(op) => segment_ops::need(op, ops),
        Op::If | Op::Move(..) | Op::Call | Op::Return => (0, 0),
    }
}

/// Writes the results of the instruction.
///
/// `op` and `ops` are as for [`lengths`], and `first` and `second` have the lengths that it has answered.
///
/// # Errors
///
/// [`ZeroDivisor`](DataFault::ZeroDivisor) for a quotient or a remainder if a divisor is 0, and
/// [`BadShift`](DataFault::BadShift) for a shift if one is outside `0..=63`.
/// [`BadIndex`](DataFault::BadIndex) if an index is outside its segment, else
/// [`IndexTwice`](DataFault::IndexTwice) if two elements of a segment go to one index.
/// [`BadLength`](DataFault::BadLength) if a descriptor is made of a negative length or of lengths
/// whose total is above [`MOST_TOTAL`](vcode_base::limits::MOST_TOTAL). What the results then hold is
/// not specified.
#[tactic(auto, unfolding(vcode_base::specs::Meaning::shape, vcode_base::specs::Meaning::need))]
#[inline(always)]
pub fn fill(op: Op, ops: &[&[i64]], first: &mut [i64], second: &mut [i64]) -> Result<(), DataFault>
    requires kinds { HaveKinds (source_kinds op) (contents ops.now) }
    requires shape { shape op (contents ops.now) ≡ None }
    requires room { need op (contents ops.now) ≡ (length first.old, length second.old) }
    ensures { MatchResult result
        (λ _. (value_fault op (contents ops.now) ≡ None)
        × (first.new ≡ result_of op (contents ops.now))
        × (second.new ≡ second_result_of op (contents ops.now)))
        (λ fault. value_fault op (contents ops.now) ≡ Some fault) }
{
    match op {
        Op::Const(_) => {
            vector_ops::copy(ops[0], first);
            Ok(())
        }
        Op::Elementwise(op) => vector_ops::fill(op, ops, first),
        Op::Segmented(op) => segment_ops::fill(op, ops, first, second),
        Op::If | Op::Move(..) | Op::Call | Op::Return => Ok(()),
    }
}
