ghost use Rattle.std.specs.Prelude.{◌≡◌, length, MatchResult, None, Some};
ghost use Rattle.vcode_base.specs.Kinds.{HaveKinds, elementwise_operands};
ghost use Rattle.vcode_base.specs.Meaning.{operand, elementwise_shape, elementwise_fault, elementwise_result};
ghost use Rattle.vcode_base.specs.Operands.{contents};

use crate::arithmetic::fill_arith;
use crate::comparisons::fill_comparison;
use crate::logic::{fill_logic, fill_not};
use crate::selection::{IsSet, select};
use crate::steps::fill_each;
use vcode_base::{DataFault, Elementwise};

/// Writes the result of the instruction to `out`, which has the length that [`need`](crate::need) answers.
///
/// `op` and `ops` are as for [`shape`](crate::shape), which has answered `Ok`.
///
/// # Errors
///
/// [`ZeroDivisor`](DataFault::ZeroDivisor) for a quotient or a remainder if a divisor is 0, and
/// [`BadShift`](DataFault::BadShift) for a shift if one is outside `0..=63`. What `out` then holds
/// is not specified.
#[inline(always)]
pub fn fill(op: Elementwise, ops: &[&[i64]], out: &mut [i64]) -> Result<(), DataFault>
    requires kinds { HaveKinds (elementwise_operands op) (contents ops.now) }
    requires shape { elementwise_shape (contents ops.now) ≡ None }
    requires room { length out.old ≡ length (operand (contents ops.now) 0) }
    ensures { MatchResult result
        (λ _. (elementwise_fault op (contents ops.now) ≡ None)
        × (out.new ≡ elementwise_result op (contents ops.now)))
        (λ fault. elementwise_fault op (contents ops.now) ≡ Some fault) }
{
    match op {
        Elementwise::Arith(op) => return fill_arith(op, ops[0], ops[1], out),
        Elementwise::Compare(op) => fill_comparison(op, ops[0], ops[1], out),
        Elementwise::Logic(op, _) => fill_logic(op, ops[0], ops[1], out),
        Elementwise::Not(elements) => fill_not(elements, ops[0], out),
        Elementwise::Select(_) => select(ops[0], ops[1], ops[2], out),
        Elementwise::IntToBool => fill_each::<IsSet>(ops[0], out),
        Elementwise::BoolToInt => copy(ops[0], out),
    }
    Ok(())
}

/// Copies the words, as `CONST` does those of its list. One word alone costs no call.
#[inline(always)]
#[tactic(auto, using(crate::proofs::Lists::one_place))]
pub fn copy(words: &[i64], out: &mut [i64])
    requires { length out.old ≡ length words.now }
    ensures { out.new ≡ words.now }
{
    match words {
        [word] => out[0] = *word,
        _ => out.copy_from_slice(words),
    }
}
