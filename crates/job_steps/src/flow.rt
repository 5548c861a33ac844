//! How the calls of a job go on after an instruction.

ghost use Rattle.std.specs.Prelude.{◌≡◌, pos, slice_index_or};
ghost use Rattle.vcode_base.specs.Elements.{is_set};
ghost use Rattle.vcode_base.specs.Meaning.{operand};
ghost use Rattle.vcode_base.specs.Operands.{contents};
ghost use Rattle.job_steps.specs.Flows.{flow_of};
ghost use Rattle.job_steps.specs.Tickets.{question_by};

use vcode_base::Op;

/// How the calls of a job go on after an instruction.
#[derive(Clone, Copy, PartialEq, Eq, Debug)]
pub enum Flow {
    /// The innermost call goes on at what follows the instruction.
    Next,
    /// It goes on at the part of an `IF` that this flag chooses: at the first, if it is true.
    Choose(bool),
    /// It calls a function.
    Call,
    /// It returns.
    Return,
}

impl Flow {
    /// The flow of an instruction. `ops` has its operands from the bottom of the stack up, of which that of an `IF` is
    /// read.
    #[inline(always)]
    pub fn of(op: Op, ops: &[&[i64]]) -> Flow
        ensures { result ≡ flow_of (question_by op (contents ops.now)) }
    {
        match op {
            Op::If => Flow::Choose(flag(ops)),
            Op::Call => Flow::Call,
            Op::Return => Flow::Return,
            Op::Const(_) | Op::Elementwise(_) | Op::Segmented(_) | Op::Move(..) => Flow::Next,
        }
    }
}

/// Whether the first word of the first operand is other than 0, if there is one.
#[inline(always)]
fn flag(ops: &[&[i64]]) -> bool
    ensures { result ≡ is_set (slice_index_or (operand (contents ops.now) 0) 0 (pos 0)) }
{
    match ops.first() {
        Some(words) => is_set(words),
        None => false,
    }
}

/// Whether the first of these words is other than 0, if there is one.
#[inline(always)]
fn is_set(words: &[i64]) -> bool
    ensures { result ≡ is_set (slice_index_or words.now 0 (pos 0)) }
{
    match words {
        [first, ..] => *first != 0,
        [] => false,
    }
}
