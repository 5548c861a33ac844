//! Pieces of JSON.

use dap_messages::{Text, push_json};
use std::alloc::AllocError;

/// Adds a comma before each item of a list but the first, which is at this place.
pub(crate) fn push_comma(text: &mut Text, place: usize, first: usize) {
    if place > first {
        text.push(',');
    }
}

/// Adds a piece, and after it a text that takes memory as a JSON string.
pub(crate) fn push_shown(text: &mut Text, piece: &str, shown: Result<String, AllocError>) {
    text.push_str(piece);
    if let Some(shown) = text.get(shown) {
        push_json(text, shown.as_str());
    }
}
