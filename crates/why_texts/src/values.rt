//! The values of an entry of the stack, as texts.

use job_history::Origin;
use job_looks::{Text, ValueRange, push_column, push_line, push_list, push_number, push_size};
use refusal_notes::{Lines, kind_text};
use std::alloc::Global;
use vcode_base::Kind;

/// Adds a line of values of a kind, the first of which has this place in its entry.
pub fn push_row(text: &mut Text, kind: Kind, place: usize, values: &[i64]) {
    text.push(' ');
    push_column(text, place as u64, 9);
    text.push_str("  ");
    push_list(text, kind, values);
    text.push('\n');
}

/// What comes before values of an entry that has `count` values and this origin.
pub fn head_text(
    alloc: Global,
    lines: &Lines,
    range: ValueRange,
    origin: Origin,
    count: usize,
) -> Text {
    let mut text = Text::new(alloc);
    push_size(&mut text, "\nentry ", range.depth);
    text.push_str(": ");
    text.push_str(kind_text(origin.kind));
    push_size(&mut text, ", ", count);
    push_number(&mut text, " values, line ", origin.line);
    text.push_str("  ");
    push_line(&mut text, alloc, lines, origin.line);
    text
}

/// What is said if an entry has no place of this number.
pub fn no_place_text(alloc: Global, place: usize) -> Text {
    let mut text = Text::new(alloc);
    push_size(&mut text, "  there is no place ", place);
    text.push('\n');
    text
}

/// What is said if a stack of this many entries has none at a depth.
pub fn no_entry_text(alloc: Global, depth: usize, entries: usize) -> Text {
    let mut text = Text::new(alloc);
    push_size(&mut text, "\nthere is no entry ", depth);
    push_size(&mut text, " on the stack: ", entries);
    text.push_str(" entries\n");
    text
}
