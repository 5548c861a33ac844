//! The text of signatures.

use signatures::FunctionType;
use std::alloc::{AllocError, Allocator};
use vcode_base::Kind;

/// The word of a kind.
fn word_of(kind: Kind) -> &'static [u8] {
    match kind {
        Kind::Int => b"INT",
        Kind::Bool => b"BOOL",
        Kind::Segdes => b"SEGDES",
    }
}

/// Appends kinds in parentheses.
fn put_kinds<A: Allocator>(text: &mut Vec<u8, A>, kinds: &[Kind]) -> Result<(), AllocError> {
    text.push(b'(')?;
    for (i, kind) in kinds.iter().enumerate() {
        if i > 0 {
            text.push(b' ')?;
        }
        text.extend_from_slice(word_of(*kind))?;
    }
    text.push(b')')?;
    Ok(())
}

/// Appends the line of a function of this name.
pub(crate) fn put_signature<A: Allocator>(
    text: &mut Vec<u8, A>,
    name: &[u8],
    kinds: &FunctionType<A>,
) -> Result<(), AllocError> {
    text.extend_from_slice(name)?;
    text.push(b' ')?;
    put_kinds(text, kinds.operands())?;
    text.extend_from_slice(b" -> ")?;
    put_kinds(text, kinds.results())?;
    text.push(b'\n')?;
    Ok(())
}
