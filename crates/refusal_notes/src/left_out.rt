//! What the profile of the language leaves out of it.

use crate::expected::is_fault_next;
use crate::lines::printable;
use std::alloc::{AllocError, Global};

/// The instructions that are left out.
const INSTRUCTIONS: &[&[u8]] = &[
    b"MAX",
    b"MIN",
    b"RAND",
    b"I_TO_F",
    b"FLOOR",
    b"CEIL",
    b"TRUNC",
    b"ROUND",
    b"LOG",
    b"SQRT",
    b"EXP",
    b"SIN",
    b"COS",
    b"TAN",
    b"ASIN",
    b"ACOS",
    b"ATAN",
    b"SINH",
    b"COSH",
    b"TANH",
    b"FPERMUTE",
    b"BFPERMUTE",
    b"DFPERMUTE",
    b"RANK_UP",
    b"RANK_DOWN",
    b"PAIR",
    b"UNPAIR",
    b"READ",
    b"WRITE",
    b"FOPEN",
    b"FCLOSE",
    b"FREAD",
    b"FWRITE",
    b"SPAWN",
    b"START_TIMER",
    b"STOP_TIMER",
    b"EXIT",
];

/// The kinds that are left out.
const KINDS: &[&[u8]] = &[b"FLOAT", b"CHAR"];

/// The instructions of which BOOL is left out, but no other kind.
const COMPARISONS: &[&[u8]] = &[b"<", b"<=", b">", b">=", b"=", b"!="];

/// Whether a word is one of a list.
fn is_among(words: &[&[u8]], word: &[u8]) -> bool {
    words.iter().any(|other| *other == word)
}

/// An instruction that isn't left out, and a kind.
const SOME_INSTRUCTION: &[u8] = b"LENGTHS";

const SOME_KIND: &[u8] = b"INT";

/// That these words are left out.
fn note(alloc: Global, words: &[u8]) -> Result<String, AllocError> {
    let words = printable(alloc, words)?;
    format!(in alloc; "left out of this profile: {words}\n")
}

/// Whether an instruction is left out for a kind that isn't.
fn is_left_out_for(word: &[u8], kind: &[u8]) -> bool {
    if word == b"CONST".as_slice() {
        return kind == b"SEGDES".as_slice();
    }
    kind == b"BOOL".as_slice() && is_among(COMPARISONS, word)
}

/// What is said of a word in place of a kind, after this word.
fn kind_note(alloc: Global, before: &[u8], kind: &[u8]) -> Result<String, AllocError> {
    if is_left_out_for(before, kind) {
        let (word, kind) = (printable(alloc, before)?, printable(alloc, kind)?);
        return format!(in alloc; "left out of this profile: {word} {kind}\n");
    }
    left_out_kind(alloc, kind)
}

/// That a kind is left out, or nothing if it isn't.
pub(crate) fn left_out_kind(alloc: Global, kind: &[u8]) -> Result<String, AllocError> {
    if is_among(KINDS, kind) {
        return note(alloc, kind);
    }
    Ok(String::new(alloc))
}

/// That a word that can't come after this front of a code is left out there, or nothing if it isn't. The last word of
/// the front is `before`.
pub(crate) fn left_out_word(
    alloc: Global,
    front: &[u8],
    before: &[u8],
    word: &[u8],
) -> Result<String, AllocError> {
    let is_instruction = is_among(INSTRUCTIONS, word);
    let same = if is_instruction {
        SOME_INSTRUCTION
    } else {
        SOME_KIND
    };
    if is_fault_next(alloc, front, same)? {
        return Ok(String::new(alloc));
    }
    if is_instruction {
        return note(alloc, word);
    }
    kind_note(alloc, before, word)
}
