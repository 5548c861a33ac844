//! What may come next in a text that has a fault, by the readers of code and of signatures themselves.

use signatures::SignatureFault;
use std::alloc::{AllocError, Global};
use vcode_base::TextFault;
use vcode_base::laws::line_feeds_are_few;
use vcode_reader::{CodeReader, MOST_CODE_BYTES};

/// A name that hardly any function has.
const SOME_NAME: &[u8] = b"?";

/// Words that may come next in code, but for names and numbers, and what stands for each.
const CODE_WORDS: &[(&[u8], &str)] = &[
    (b"FUNC", "FUNC"),
    (b"LENGTHS", "an instruction"),
    (b"ELSE", "ELSE"),
    (b"ENDIF", "ENDIF"),
    (b"RET", "RET"),
    (b"INT", "INT"),
    (b"BOOL", "BOOL"),
    (b"T", "T or F"),
    (b"(", "("),
    (b")", ")"),
];

/// What may come next in a signature, and the words with which it is then whole.
const SIGNATURE_ENDS: &[(&[u8], &str)] = &[
    (b"", "the end of the line"),
    (b")", "a kind or )"),
    (b"( )", "("),
    (b"-> ( )", "->"),
    (b") -> ( )", "a kind or )"),
    (b"( ) -> ( )", "("),
    (b"f ( ) -> ( )", "a name"),
];

/// The first text, a blank and the second text.
fn joined(alloc: Global, first: &[u8], second: &[u8]) -> Result<Vec<u8>, AllocError> {
    let mut text = first.to_vec(alloc)?;
    text.push(b' ')?;
    text.extend_from_slice(second)?;
    Ok(text)
}

/// Whether code that begins so has a fault, unless it is too large.
fn is_fault(alloc: Global, code: &[u8]) -> Result<bool, AllocError> {
    if code.len() > MOST_CODE_BYTES {
        return Ok(false);
    }
    line_feeds_are_few();
    let mut reader = CodeReader::new(alloc, 1)?;
    let fed = reader.feed(code);
    let is_fault = reader.fault().is_some();
    drop(reader);
    fed?;
    Ok(is_fault)
}

/// Whether code that begins so has a fault if this word is next.
pub(crate) fn is_fault_next(alloc: Global, front: &[u8], word: &[u8]) -> Result<bool, AllocError> {
    let mut text = joined(alloc, front, word)?;
    text.push(b' ')?;
    is_fault(alloc, &text)
}

/// Whether a signature that begins so is one with these words after it, or too large.
fn is_signature(alloc: Global, front: &[u8], end: &[u8]) -> Result<bool, AllocError> {
    let text = joined(alloc, front, end)?;
    line_feeds_are_few();
    match signatures::read(alloc, &text, 1) {
        Ok(found) => Ok(!found.is_empty()),
        Err(TextFault::At(SignatureFault::BadLine, _)) => Ok(false),
        Err(TextFault::At(..)) => Ok(true),
        Err(TextFault::Memory) => Err(AllocError),
    }
}

/// What may come next in a signature that begins so, if it is the beginning of one.
pub(crate) fn expected_in_signature(
    alloc: Global,
    front: &[u8],
) -> Result<Option<&'static str>, AllocError> {
    for (end, name) in SIGNATURE_ENDS {
        if is_signature(alloc, front, end)? {
            return Ok(Some(*name));
        }
    }
    Ok(None)
}

/// Adds an alternative to a text.
fn push_alternative(text: &mut String, name: &str) -> Result<(), AllocError> {
    if !text.is_empty() {
        text.push_str(", ")?;
    }
    text.push_str(name)
}

/// What stands for a number that may come next in code: a count isn't negative.
fn number_name(alloc: Global, front: &[u8]) -> Result<Option<&'static str>, AllocError> {
    if is_fault_next(alloc, front, b"0")? {
        return Ok(None);
    }
    if is_fault_next(alloc, front, b"-1")? {
        return Ok(Some("a count from 0 to 4096"));
    }
    Ok(Some("a number from -9223372036854775808 to 9223372036854775807"))
}

/// Whether a name comes next in code that begins so.
pub(crate) fn is_name_next(alloc: Global, front: &[u8]) -> Result<bool, AllocError> {
    Ok(!is_fault_next(alloc, front, SOME_NAME)?)
}

/// What may come next in code that begins so.
pub(crate) fn expected_in_code(alloc: Global, front: &[u8]) -> Result<String, AllocError> {
    if is_name_next(alloc, front)? {
        return String::from_str(alloc, "a name");
    }
    let mut text = String::new(alloc);
    if let Some(name) = number_name(alloc, front)? {
        push_alternative(&mut text, name)?;
    }
    for (word, name) in CODE_WORDS {
        if !is_fault_next(alloc, front, word)? {
            push_alternative(&mut text, name)?;
        }
    }
    Ok(text)
}
