//! The values of an entry of the stack.

use crate::stack::push_value;
use crate::text::Text;
use vcode_base::Kind;

/// What is shown of a stack.
#[derive(Clone, Copy, Drop)]
pub enum Part {
    /// The entries at its top.
    Top,
    /// All entries.
    All,
    /// Values of an entry.
    Values(ValueRange),
}

/// The values of an entry from one place to another.
#[derive(Clone, Copy, Drop)]
pub struct ValueRange {
    /// The depth of the entry, 0 at the top.
    pub depth: usize,
    /// The place of the first value, counted from 0.
    pub first: usize,
    /// The place of the last value, which may be after the end of the entry.
    pub last: usize,
}

/// A number, if a text is one.
fn number(text: &str) -> Option<usize> {
    match text.parse::<usize>() {
        Ok(number) => Some(number),
        Err(_) => None,
    }
}

/// The values `D`, `D:A` or `D:A-B`, where A isn't above B. `None` if a text is none of these.
pub fn value_range(text: &str) -> Option<ValueRange> {
    let Some((depth, places)) = text.split_once(':') else {
        return Some(ValueRange {
            depth: number(text)?,
            first: 0,
            last: usize::MAX,
        });
    };
    let (first, last) = places.split_once('-').unwrap_or((places, places));
    let range = ValueRange {
        depth: number(depth)?,
        first: number(first)?,
        last: number(last)?,
    };
    if range.first > range.last {
        return None;
    }
    Some(range)
}

impl ValueRange {
    /// Those of an entry with these words. `None` if the first place is after the end of the entry.
    pub fn of(self, words: &[i64]) -> Option<&[i64]> {
        let end = self.last.saturating_add(1).min(words.len());
        words.get(self.first..end)
    }
}

/// Adds values of a kind with a blank between them.
pub fn push_list(text: &mut Text, kind: Kind, values: &[i64]) {
    for (place, value) in values.iter().enumerate() {
        if place > 0 {
            text.push(' ');
        }
        push_value(text, kind, *value);
    }
}
