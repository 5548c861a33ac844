//! A step with the words that it works on.

ghost use Rattle.std.specs.Prelude.{◌≡◌, ◌*◌, ◌≤◌, vec_capacity};
ghost use Rattle.job_steps.specs.declared.operands.TheConstants.{MOST_OPERANDS};

use crate::operands::OperandBuffer;
use std::alloc::Allocator;
use vcode_base::Op;

/// The words of a desk: copies of operands, and room for results. All are reserved, and are written when a step uses
/// them.
#[derive(Drop)]
pub(crate) struct Buffers<A: Allocator> {
    pub(crate) words: usize,
    pub(crate) operands: OperandBuffer<A>,
    pub(crate) results: Vec<i64, A>,
    ghost operand_room: { operands.room ≡ MOST_OPERANDS * words },
    ghost result_room: { words ≤ vec_capacity results },
}

/// A step that was begun, with copies of its operands.
#[derive(Drop)]
pub(crate) struct Step<A: Allocator> {
    pub(crate) job: usize,
    /// How many instructions the job executed before.
    pub(crate) number: u64,
    pub(crate) op: Op,
    pub(crate) buffers: Box<Buffers<A>, A>,
}
