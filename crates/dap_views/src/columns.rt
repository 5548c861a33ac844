//! The columns of a line, as the protocol counts them.

use refusal_notes::{Lines, Word};

/// How many code units of UTF-16 a text has. One that isn't UTF-8 has as many as it has bytes.
fn unit_count(bytes: &[u8]) -> usize {
    let Ok(text) = str::from_utf8(bytes) else {
        return bytes.len();
    };
    let mut count: usize = 0;
    for letter in text.chars() {
        count = count.saturating_add(if letter > '\u{ffff}' { 2 } else { 1 });
    }
    count
}

/// The columns of a line at which a word begins and ends, counted from 0, in code units of UTF-16. The places of the
/// word are counted in the lines from `first` on. A word of several lines ends with this one here. `None` if it doesn't
/// begin in this line.
pub(crate) fn columns_of(
    lines: &Lines,
    line: u64,
    first: u64,
    word: Word,
) -> Option<(usize, usize)> {
    let before = lines.between(first, line).len();
    let text = lines.between(first, line.saturating_add(1));
    if word.begin >= text.len() {
        return None;
    }
    let end = word.end.min(text.len().saturating_sub(1));
    let (begin, end) = (text.get(before..word.begin)?, text.get(before..end)?);
    Some((unit_count(begin), unit_count(end)))
}
