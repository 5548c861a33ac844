//! The columns of a text. What stands in them is ASCII, so that each byte is a character.

use crate::text::Text;

/// More blanks than a column is wide.
const BLANKS: &str = "                                ";

/// Adds this many blanks.
fn push_blanks(text: &mut Text, count: usize) {
    text.push_str(BLANKS.get(..count).unwrap_or(BLANKS));
}

/// How many digits a number has.
fn digit_count(number: u64) -> usize {
    let more = number.checked_ilog10().unwrap_or(0) as usize;
    more.saturating_add(1)
}

/// Adds a part at the left of a column of this many characters. A part that is wider is added as it is.
pub(crate) fn push_left(text: &mut Text, part: &str, width: usize) {
    text.push_str(part);
    push_blanks(text, width.saturating_sub(part.len()));
}

/// Adds a part at the right of a column of this many characters. A part that is wider is added as it is.
pub fn push_text_right(text: &mut Text, part: &str, width: usize) {
    push_blanks(text, width.saturating_sub(part.len()));
    text.push_str(part);
}

/// Adds a number in decimal digits at the right of a column of this many characters.
pub fn push_right(text: &mut Text, number: u64, width: usize) {
    push_blanks(text, width.saturating_sub(digit_count(number)));
    text.push_number(number);
}

/// Adds a blank, and a number at the right of a column of this many characters.
pub fn push_column(text: &mut Text, number: u64, width: usize) {
    text.push(' ');
    push_right(text, number, width);
}
