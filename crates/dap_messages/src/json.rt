//! Strings of JSON.

use std::alloc::Global;
use string_builder::StringBuilder;

/// A text that grows.
pub type Text = StringBuilder<Global>;

/// Adds a hexadecimal digit.
fn push_digit(text: &mut Text, digit: u32) {
    text.push(char::from_digit(digit, 16).unwrap_or('0'));
}

/// Adds a control character as its code.
fn push_code(text: &mut Text, code: u32) {
    text.push_str("\\u00");
    push_digit(text, code / 16);
    push_digit(text, code % 16);
}

/// Adds a character of a string.
fn push_character(text: &mut Text, character: char) {
    match character {
        '"' => text.push_str("\\\""),
        '\\' => text.push_str("\\\\"),
        '\n' => text.push_str("\\n"),
        '\r' => text.push_str("\\r"),
        '\t' => text.push_str("\\t"),
        '\0'..='\u{1f}' | '\u{7f}' => push_code(text, u32::from(character)),
        _ => text.push(character),
    }
}

/// Adds a text as a string of JSON, with its quotes and escapes.
pub fn push_json(text: &mut Text, value: &str) {
    text.push('"');
    for character in value.chars() {
        push_character(text, character);
    }
    text.push('"');
}
