//! Entries of the stack and their values, as variables.

use crate::json::push_comma;
use crate::page::Page;
use crate::reference::Reference;
use crate::shown::Shown;
use job_history::Origin;
use job_looks::{
    ShownEntry, Text, entry_at, name_at, push_number, push_signed, push_size, push_value,
    push_values,
};
use refusal_notes::kind_text;
use std::alloc::Global;
use vcode_base::Kind;

/// Adds the member for the type of an entry: its kind, how many values it has, and the line that made it.
pub(crate) fn push_type(text: &mut Text, kind: Kind, length: usize, line: u64) {
    text.push_str(",\"type\":\"");
    text.push_str(kind_text(kind));
    push_size(text, ", ", length);
    text.push_str(if length == 1 { " value" } else { " values" });
    push_number(text, ", line ", line);
    text.push('"');
}

/// Adds the members for the values of the entry at a depth, of which there are as many.
pub(crate) fn push_reference(text: &mut Text, depth: usize, length: usize) {
    match Reference::of_entry(depth) {
        Some(reference) if length > 0 => {
            push_size(text, ",\"indexedVariables\":", length);
            push_number(text, ",\"variablesReference\":", reference.number());
        }
        _ => text.push_str(",\"variablesReference\":0"),
    }
}

/// Adds the member for the name of the entry at a depth, but for its end.
fn push_name(text: &mut Text, shown: &Shown<'_>, depth: usize) {
    push_size(text, "{\"name\":\"", depth);
    if let Some(name) = name_at(shown.history.next(), depth) {
        text.push(' ');
        text.push_str(name);
    }
}

/// Adds what is shown of the values of an entry.
fn push_held(text: &mut Text, entry: &ShownEntry) {
    if let Some(above) = entry.copy {
        push_size(text, "a copy of entry ", above);
        text.push(' ');
    }
    push_values(text, entry.kind, entry.length, &entry.values);
    if let Some(total) = entry.total {
        push_signed(text, ", total ", total);
    }
}

/// Adds the object of the entry at a depth.
fn push_entry(text: &mut Text, shown: &Shown<'_>, depth: usize, entry: &ShownEntry) {
    push_name(text, shown, depth);
    text.push_str("\",\"value\":\"");
    push_held(text, entry);
    push_size(text, "\",\"evaluateName\":\"", depth);
    text.push('"');
    push_type(text, entry.kind, entry.length, entry.line);
    push_reference(text, depth, entry.length);
    text.push('}');
}

/// Adds the objects of these of `count` entries, the first of which is at the depth `top`.
pub(crate) fn push_entries(
    text: &mut Text,
    alloc: Global,
    shown: &Shown<'_>,
    (top, count): (usize, usize),
    page: Page,
) {
    let places = page.places(count);
    let first = places.start;
    for place in places {
        let depth = top.saturating_add(place);
        push_comma(text, place, first);
        if let Some(Some(entry)) = text.get(entry_at(alloc, shown.history, depth)) {
            push_entry(text, shown, depth, &entry);
        }
    }
}

/// Adds the object of a value at a place of the entry at a depth.
fn push_variable(text: &mut Text, kind: Kind, depth: usize, place: usize, value: i64) {
    push_size(text, "{\"name\":\"", place);
    text.push_str("\",\"value\":\"");
    push_value(text, kind, value);
    push_size(text, "\",\"evaluateName\":\"", depth);
    push_size(text, ":", place);
    text.push_str("\",\"variablesReference\":0}");
}

/// Adds the objects of these values of the entry at a depth, which has this origin and these words.
pub(crate) fn push_elements(
    text: &mut Text,
    origin: Origin,
    depth: usize,
    words: &[i64],
    page: Page,
) {
    let places = page.places(words.len());
    let first = places.start;
    for place in places {
        push_comma(text, place, first);
        if let Some(value) = words.get(place) {
            push_variable(text, origin.kind, depth, place, *value);
        }
    }
}
