ghost use Rattle.std.specs.Prelude.{◌≡◌, ◌<◌, length, MatchResult, None, Some};
ghost use Rattle.std.specs.List.{list_any};
ghost use Rattle.vcode_base.specs.Kinds.{HaveKinds, elementwise_operands};
ghost use Rattle.vcode_base.specs.Meaning.{elementwise_shape, operand, wrong_length};
ghost use Rattle.vcode_base.specs.Operands.{contents};

use vcode_base::{DataFault, Elementwise};

/// Whether the operands are of one length. It looks at no element.
///
/// `ops` has the operands of `op` from the bottom of the stack up, each of the kind that the
/// instruction takes, which [`have_kinds`](vcode_base::have_kinds) tests.
///
/// # Errors
///
/// [`LengthsDiffer`](DataFault::LengthsDiffer) if the operands are not all of one length.
#[inline(always)]
pub fn shape(op: Elementwise, ops: &[&[i64]]) -> Result<(), DataFault>
    requires kinds { HaveKinds (elementwise_operands op) (contents ops.now) }
    ensures { MatchResult result
        (λ _. elementwise_shape (contents ops.now) ≡ None)
        (λ fault. elementwise_shape (contents ops.now) ≡ Some fault) }
{
    if lengths_differ(ops) {
        return Err(DataFault::LengthsDiffer);
    }
    Ok(())
}

/// Whether an operand has another length than the first.
fn lengths_differ(ops: &[&[i64]]) -> bool
    requires { 0 < length ops.now }
    ensures { let xs = contents ops.now in
        result ≡ list_any (λ x. wrong_length x (length (operand xs 0))) xs }
{
    let first = ops[0].len();
    ops.iter().any(|operand| operand.len() != first)
}

/// The length of the result, in words, which is that of each operand.
///
/// `op` and `ops` are as for [`shape`], which has answered `Ok`.
pub fn need(op: Elementwise, ops: &[&[i64]]) -> u64
    requires kinds { HaveKinds (elementwise_operands op) (contents ops.now) }
    ensures { result ≡ length (operand (contents ops.now) 0) }
{
    ops[0].len() as u64
}
