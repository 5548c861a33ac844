//! What was expected at a fault of a signature.

use crate::expected::expected_in_signature;
use crate::left_out::left_out_kind;
use crate::lines::Lines;
use crate::parts::Parts;
use crate::words::{Text, Word, first_fault, words_of};
use signatures::SignatureFault;
use std::alloc::{AllocError, Global};
use vcode_base::limits::{LONGEST_NAME, MOST_FUNCTIONS, MOST_KINDS};
use vcode_base::{LineWords, Parentheses};

/// The first word of the line of a signature.
fn name_of(line: &[u8]) -> &[u8] {
    let mut words = LineWords::new(line, Parentheses::AreWords);
    words.next().unwrap_or(&[])
}

/// The first word with which a line can't be a signature, if there is one.
fn find_misplaced(alloc: Global, text: &[u8]) -> Result<Option<Word>, AllocError> {
    let words = words_of(alloc, Text::Signature, text)?;
    match first_fault(alloc, Text::Signature, text, &words)? {
        Some(place) => Ok(words.get(place).copied()),
        None => Ok(None),
    }
}

/// What may come next in a signature that begins so, if it is the beginning of one.
fn expected_note(alloc: Global, front: &[u8], place: &str) -> Result<String, AllocError> {
    match expected_in_signature(alloc, front)? {
        Some(expected) => format!(in alloc; "expected {place}: {expected}\n"),
        None => Ok(String::new(alloc)),
    }
}

/// What may come after this front of a signature in place of a word, and that the word is a kind that is left out, if
/// it is one.
fn misplaced_note(alloc: Global, front: &[u8], word: &[u8]) -> Result<String, AllocError> {
    let expected = expected_note(alloc, front, "here")?;
    let left_out = left_out_kind(alloc, word)?;
    format!(in alloc; "{expected}{left_out}")
}

/// The line of a fault with carets below the word with which it can't be a signature, and what was expected there.
fn bad_line(alloc: Global, lines: &Lines, line: u64, note: &str) -> Result<String, AllocError> {
    let text = lines.bytes(line).unwrap_or(&[]);
    let (around, expected) = match find_misplaced(alloc, text)? {
        Some(word) => {
            let front = text.get(..word.begin).unwrap_or(text);
            let around = lines.around_word(alloc, line, line, word, note)?;
            (around, misplaced_note(alloc, front, word.of(text))?)
        }
        None => {
            let around = lines.around(alloc, line, note)?;
            (around, expected_note(alloc, text, "after it")?)
        }
    };
    format!(in alloc; "{around}{expected}")
}

/// Where the first signature with the name of a line is.
fn first_note(alloc: Global, lines: &Lines, parts: Parts, line: u64) -> Result<String, AllocError> {
    let name = name_of(lines.bytes(line).unwrap_or(&[]));
    for earlier in parts.signatures.first..line {
        if name_of(lines.bytes(earlier).unwrap_or(&[])) == name {
            return format!(in alloc; "the first signature of this name is at line {earlier}\n");
        }
    }
    Ok(String::new(alloc))
}

/// How many lines of signatures are before a line.
fn signatures_before(lines: &Lines, parts: Parts, line: u64) -> usize {
    let mut count: usize = 0;
    for earlier in parts.signatures.first..line {
        if !name_of(lines.bytes(earlier).unwrap_or(&[])).is_empty() {
            count = count.saturating_add(1);
        }
    }
    count
}

/// Which limit a signature passes.
fn limit_note(alloc: Global, lines: &Lines, parts: Parts, line: u64) -> Result<String, AllocError> {
    let len = name_of(lines.bytes(line).unwrap_or(&[])).len();
    if len > LONGEST_NAME {
        return format!(in alloc; "a name has at most {LONGEST_NAME} bytes, and this has {len}\n");
    }
    if signatures_before(lines, parts, line) >= MOST_FUNCTIONS {
        return format!(in alloc; "a job has at most {MOST_FUNCTIONS} signatures\n");
    }
    format!(in alloc; "a list has at most {MOST_KINDS} kinds\n")
}

/// The line of a fault of the signatures, and what was expected there.
pub(crate) fn signature_fault(
    alloc: Global,
    lines: &Lines,
    parts: Parts,
    line: u64,
    fault: SignatureFault,
    note: &str,
) -> Result<String, AllocError> {
    let expected = match fault {
        SignatureFault::BadLine => return bad_line(alloc, lines, line, note),
        SignatureFault::NameTwice => first_note(alloc, lines, parts, line)?,
        SignatureFault::TooLarge => limit_note(alloc, lines, parts, line)?,
    };
    let around = lines.around(alloc, line, note)?;
    format!(in alloc; "{around}{expected}")
}
