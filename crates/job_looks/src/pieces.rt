//! The pieces of which texts are made.

use crate::text::Text;
use std::alloc::AllocError;

/// Adds a piece, and a number after it in decimal digits.
pub fn push_number(text: &mut Text, piece: &str, number: u64) {
    text.push_str(piece);
    text.push_number(number);
}

/// Adds a piece, and a size after it.
pub fn push_size(text: &mut Text, piece: &str, size: usize) {
    push_number(text, piece, size as u64);
}

/// Adds a piece, and a number after it that may have a sign.
pub fn push_signed(text: &mut Text, piece: &str, number: i64) {
    text.push_str(piece);
    if number < 0 {
        text.push('-');
    }
    text.push_number(number.unsigned_abs());
}

/// Adds what an answer has. If memory was refused for it, the text keeps that.
pub fn push_answer(text: &mut Text, answer: Result<String, AllocError>) {
    if let Some(piece) = text.get(answer) {
        text.push_str(piece.as_str());
    }
}

/// Adds a line for how many more there are than are shown. Adds nothing for 0.
pub fn push_more(text: &mut Text, more: u64) {
    if more > 0 {
        push_number(text, "  .. and ", more);
        text.push_str(" more\n");
    }
}
