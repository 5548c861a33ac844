//! What the words of an instruction give, after its first.

ghost use Rattle.std.specs.Prelude.{◌≡◌, IfOk};
ghost use Rattle.vcode_reader.specs.Keywords.{no_parts};

use std::alloc::{AllocError, Allocator};
use vcode_base::{FunctionName, Scalar, Words};

/// What the words so far gave, over the types of a list and of a name.
#[derive(Drop)]
pub struct Parts<L, N> {
    /// The kind that is written after the first word.
    pub kind: Scalar,
    /// The count `i` of a motion of the stack.
    pub lower: u16,
    /// The count `j` of a motion of the stack.
    pub upper: u16,
    /// The list of a constant.
    pub numbers: L,
    /// The name of the function that is called.
    pub callee: N,
}

/// Parts that own their list and their name.
pub type InstructionParts<A> = Parts<Words<A>, FunctionName<A>>;

/// Before the first of the words.
pub(crate) fn no_parts<A: Allocator + Clone>(alloc: &A) -> Result<InstructionParts<A>, AllocError>
    ensures { IfOk result (λ parts. parts ≡ no_parts) }
{
    Ok(Parts {
        kind: Scalar::Int,
        lower: 0,
        upper: 0,
        numbers: Words::from_vec(Vec::new(alloc.clone()?)),
        callee: FunctionName::from_vec(Vec::new(alloc.clone()?)),
    })
}

/// Makes these what they are before the first of the words.
pub(crate) fn clear<A: Allocator>(parts: &mut InstructionParts<A>)
    ensures { parts.new ≡ no_parts }
{
    parts.kind = Scalar::Int;
    parts.lower = 0;
    parts.upper = 0;
    parts.numbers.clear();
    parts.callee.clear();
}
