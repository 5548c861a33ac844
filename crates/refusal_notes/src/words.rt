//! The words of a text, and the first of them with which it can't go on.

use crate::expected::{expected_in_signature, is_fault_next};
use std::alloc::{AllocError, Global};

/// What a text is.
#[derive(Clone, Copy, PartialEq, Eq, Drop)]
pub enum Text {
    Code,
    /// The line of a signature.
    Signature,
}

/// A word: the place of its first byte, and the place after its last.
#[derive(Clone, Copy, Drop)]
pub struct Word {
    pub begin: usize,
    pub end: usize,
}

impl Word {
    /// The bytes of the word in its text.
    pub fn of(self, text: &[u8]) -> &[u8] {
        match text.get(self.begin..self.end) {
            Some(bytes) => bytes,
            None => &[],
        }
    }
}

/// Whether a byte separates words.
fn is_separator(byte: u8) -> bool {
    byte == b' ' || byte == b'\t' || byte == b'\r' || byte == b'\n'
}

/// Whether a word goes on with a byte.
fn goes_on(kind: Text, byte: u8) -> bool {
    if is_separator(byte) || byte == b'(' || byte == b')' {
        return false;
    }
    match kind {
        Text::Code => byte > 32 && byte < 127 && byte != b'{' && byte != b'}',
        Text::Signature => true,
    }
}

/// The place at which the first word from a place on begins.
fn word_begin(kind: Text, text: &[u8], from: usize) -> Option<usize> {
    let mut is_comment = false;
    for place in from..text.len() {
        let byte = text[place];
        if is_comment {
            is_comment = byte != b'}';
        } else if byte == b'{' && kind == Text::Code {
            is_comment = true;
        } else if !is_separator(byte) {
            return Some(place);
        }
    }
    None
}

/// The place after the word that begins at a place. A byte with which no word goes on is a word by itself.
fn word_end(kind: Text, text: &[u8], begin: usize) -> usize {
    for place in begin..text.len() {
        if !goes_on(kind, text[place]) {
            return place.max(begin.saturating_add(1));
        }
    }
    text.len()
}

/// The words of a text.
pub fn words_of(alloc: Global, kind: Text, text: &[u8]) -> Result<Vec<Word>, AllocError> {
    let mut words = Vec::new(alloc);
    let mut from: usize = 0;
    for _ in 0..text.len() {
        let Some(begin) = word_begin(kind, text, from) else {
            break;
        };
        from = word_end(kind, text, begin);
        words.push(Word { begin, end: from })?;
    }
    Ok(words)
}

/// The place at which the comment begins that is open at the end of a code, if one is.
pub(crate) fn open_comment(code: &[u8]) -> Option<usize> {
    let mut open = None;
    for place in 0..code.len() {
        match open {
            Some(_) if code[place] == b'}' => open = None,
            None if code[place] == b'{' => open = Some(place),
            _ => {}
        }
    }
    open
}

/// Whether a text can't go on after this front of it.
fn is_fault(alloc: Global, kind: Text, front: &[u8]) -> Result<bool, AllocError> {
    match kind {
        Text::Code => is_fault_next(alloc, front, b""),
        Text::Signature => Ok(expected_in_signature(alloc, front)?.is_none()),
    }
}

/// The place among the words of a text of the first with which it can't go on.
pub(crate) fn first_fault(
    alloc: Global,
    kind: Text,
    text: &[u8],
    words: &[Word],
) -> Result<Option<usize>, AllocError> {
    let mut low: usize = 0;
    let mut high = words.len();
    for _ in 0..u64::BITS {
        if low >= high {
            break;
        }
        let middle = low + (high - low) / 2;
        let Some(word) = words.get(middle) else {
            return Ok(None);
        };
        let front = text.get(..word.end).unwrap_or(text);
        if is_fault(alloc, kind, front)? {
            high = middle;
        } else {
            low = middle + 1;
        }
    }
    if low < words.len() {
        return Ok(Some(low));
    }
    Ok(None)
}
