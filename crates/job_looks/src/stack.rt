//! The stack and the calls of a run, as they are shown.

use crate::padding::{push_column, push_left, push_right, push_text_right};
use crate::picture::{Picture, ShownCall, ShownEntry};
use crate::pieces::{push_answer, push_more, push_number, push_signed, push_size};
use crate::text::Text;
use code_places::{Sources, push_place};
use job_history::Next;
use refusal_notes::{Lines, kind_text, operand_names, printable};
use std::alloc::{AllocError, Global};
use vcode_base::Kind;
use vcode_reader::Program;

/// The most entries that are shown unless all are.
pub const MOST_ENTRIES: usize = 24;

/// The most values of an entry that are shown.
const MOST_VALUES: usize = 6;

/// Adds a value of a kind: `T` or `F`, or a number.
pub fn push_value(text: &mut Text, kind: Kind, word: i64) {
    match kind {
        Kind::Bool if word == 0 => text.push('F'),
        Kind::Bool => text.push('T'),
        Kind::Int | Kind::Segdes => push_signed(text, "", word),
    }
}

/// Adds the first of `count` values of a kind that begin so, in parentheses, and `..` if there are more.
pub fn push_values(text: &mut Text, kind: Kind, count: usize, words: &[i64]) {
    text.push('(');
    for (place, word) in words.iter().enumerate() {
        if place > 0 {
            text.push(' ');
        }
        if place == MOST_VALUES {
            break;
        }
        push_value(text, kind, *word);
    }
    if count > MOST_VALUES {
        text.push_str("..");
    }
    text.push(')');
}

/// Adds what is shown of the values of an entry.
fn push_held(text: &mut Text, entry: &ShownEntry) {
    match entry.copy {
        Some(above) => push_size(text, "a copy of entry ", above),
        None => push_values(text, entry.kind, entry.length, &entry.values),
    }
    if let (None, Some(total)) = (entry.copy, entry.total) {
        push_signed(text, ", total ", total);
    }
}

/// What is shown of the values of an entry.
fn held_text(alloc: Global, entry: &ShownEntry) -> Result<String, AllocError> {
    let mut text = Text::new(alloc);
    push_held(&mut text, entry);
    text.finish()
}

/// Adds the line of the batch of this number without the blanks at its ends, and an LF.
pub fn push_line(text: &mut Text, alloc: Global, lines: &Lines, line: u64) {
    if let Some(line) = text.get(lines.line(alloc, line)) {
        text.push_str(line.as_str().trim_ascii());
    }
    text.push('\n');
}

/// Adds an entry at a depth, with its name as an operand and the line that made it.
fn push_entry(
    text: &mut Text,
    alloc: Global,
    lines: &Lines,
    depth: usize,
    name: &str,
    entry: &ShownEntry,
) {
    text.push(' ');
    push_column(text, depth as u64, 4);
    text.push_str("  ");
    push_text_right(text, name, 4);
    text.push_str("  ");
    push_text_right(text, kind_text(entry.kind), 6);
    push_column(text, entry.length as u64, 9);
    text.push_str("  line ");
    push_right(text, entry.line, 6);
    text.push_str("  ");
    if let Some(held) = text.get(held_text(alloc, entry)) {
        push_left(text, held.as_str(), 20);
    }
    text.push_str("  ");
    push_line(text, alloc, lines, entry.line);
}

/// The name of the entry at a depth, 0 at the top, as an operand of the next instruction. `None` if it is no operand,
/// or there is no next instruction.
pub fn name_at(next: Option<Next>, depth: usize) -> Option<&'static str> {
    let names = operand_names(next?.op);
    let place = names.len().checked_sub(depth.checked_add(1)?)?;
    Some(*names.get(place)?)
}

/// Adds how many of `count` are left out if `shown` are shown.
fn push_left_out(text: &mut Text, count: usize, shown: usize) {
    push_more(text, count.saturating_sub(shown) as u64);
}

/// Adds the stack as a picture has it, an entry on each line, with the lines of the batch that made them.
pub fn push_stack(text: &mut Text, alloc: Global, lines: &Lines, picture: &Picture) {
    push_size(text, "\nthe stack, its top first: ", picture.depth);
    push_size(text, " entries, ", picture.held);
    text.push_str(" words\n");
    for (depth, entry) in picture.entries.iter().enumerate() {
        let name = name_at(picture.next, depth).unwrap_or("");
        push_entry(text, alloc, lines, depth, name, entry);
    }
    push_left_out(text, picture.depth, picture.entries.len());
}

/// Adds which entries belong to a call.
fn push_owned(text: &mut Text, call: ShownCall) {
    let first = call.first;
    match call.entries.checked_sub(1) {
        None => text.push_str("no entries"),
        Some(0) => push_size(text, "entry ", first),
        Some(more) => {
            push_size(text, "entries ", first);
            push_size(text, " to ", first.saturating_add(more));
        }
    }
}

/// Adds a call.
fn push_call(
    text: &mut Text,
    alloc: Global,
    program: &Program<Global>,
    sources: &Sources,
    call: ShownCall,
) {
    text.push_str("  ");
    if let Some(function) = program.functions().get(call.function) {
        push_answer(text, printable(alloc, function.name()));
    }
    push_number(text, " at line ", call.line);
    text.push_str(": ");
    push_owned(text, call);
    if let Some(source) = sources.at(call.line) {
        text.push_str(", ");
        push_place(text, sources, source);
    }
    text.push('\n');
}

/// Adds the calls that are active, the innermost first, with the lines of the source if the code names some.
pub fn push_calls(
    text: &mut Text,
    alloc: Global,
    program: &Program<Global>,
    sources: &Sources,
    picture: &Picture,
) {
    text.push_str("the calls, the innermost first\n");
    for call in &picture.list {
        push_call(text, alloc, program, sources, *call);
    }
    push_left_out(text, picture.calls, picture.list.len());
}
