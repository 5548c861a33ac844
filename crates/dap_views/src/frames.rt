//! The calls at a state.

use crate::columns::columns_of;
use crate::json::{push_comma, push_shown};
use crate::shown::Shown;
use code_places::push_place;
use dap_messages::push_json;
use job_looks::{ShownCall, Text, call_at, push_answer, push_number, push_size};
use refusal_notes::printable;
use std::alloc::{AllocError, Global};

/// The columns at which the instruction of the call at a place begins and ends in its line, counted from 0: its next
/// instruction if it is the innermost, and else its `CALL`. `None` if they aren't known.
fn columns(shown: &Shown<'_>, place: usize, line: u64) -> Option<(usize, usize)> {
    let frame = shown.history.frames().get(place)?;
    let item = match shown.history.caller(place) {
        Some(_) => frame.place.checked_sub(1)?,
        None => frame.place,
    };
    let word = shown.spans.at(frame.function, item)?;
    columns_of(shown.lines, line, shown.spans.first, word)
}

/// Adds the members for the columns of the call at a place, and for its last line.
fn push_columns(text: &mut Text, shown: &Shown<'_>, place: usize, line: u64) {
    match columns(shown, place, line) {
        Some((begin, end)) => {
            push_number(text, ",\"column\":", shown.column(begin));
            push_number(text, ",\"endLine\":", shown.line(line));
            push_number(text, ",\"endColumn\":", shown.column(end));
        }
        None => push_number(text, ",\"column\":", shown.column(0)),
    }
}

/// The name of a call: that of its function, and in parentheses its line of the source, if it is of one.
fn name_of(alloc: Global, shown: &Shown<'_>, call: ShownCall) -> Result<String, AllocError> {
    let mut name = Text::new(alloc);
    let program = shown.history.job().verified().program();
    if let Some(function) = program.functions().get(call.function) {
        push_answer(&mut name, printable(alloc, function.name()));
    }
    if let Some(source) = shown.sources.at(call.line) {
        name.push_str(" (");
        push_place(&mut name, shown.sources, source);
        name.push(')');
    }
    name.finish()
}

/// Adds the member for the file of the batch.
fn push_file(text: &mut Text, shown: &Shown<'_>) {
    text.push_str(",\"source\":{\"name\":");
    push_json(text, shown.file());
    text.push_str(",\"path\":");
    push_json(text, shown.path);
    text.push('}');
}

/// Adds the object of the call at a place.
fn push_call(text: &mut Text, alloc: Global, shown: &Shown<'_>, place: usize, call: ShownCall) {
    push_size(text, "{\"id\":", place.saturating_add(1));
    push_shown(text, ",\"name\":", name_of(alloc, shown, call));
    push_number(text, ",\"line\":", shown.line(call.line));
    push_columns(text, shown, place, call.line);
    push_file(text, shown);
    text.push('}');
}

/// Adds the objects of calls, the innermost first: `count` of them, after `first` that are left out.
fn push_calls(text: &mut Text, alloc: Global, shown: &Shown<'_>, first: usize, count: usize) {
    let calls = shown.history.calls();
    for before in first..first.saturating_add(count).min(calls) {
        let place = calls.saturating_sub(before).saturating_sub(1);
        push_comma(text, before, first);
        if let Some(call) = call_at(shown.history, place) {
            push_call(text, alloc, shown, place, call);
        }
    }
}

/// Adds the body of a `stackTrace`: the calls at the state, the innermost first, and how many there are. Of these are
/// given `count` after the first `first`; all after these if `count` is 0.
///
/// The id of a call is its place and 1, that of `MAIN` being 0. Its line is that of its next instruction if it is the
/// innermost, and else that of its `CALL`.
pub fn push_stack_trace(
    text: &mut Text,
    alloc: Global,
    shown: Shown<'_>,
    first: usize,
    count: usize,
) {
    let count = if count == 0 { usize::MAX } else { count };
    text.push_str("{\"stackFrames\":[");
    push_calls(text, alloc, &shown, first, count);
    push_size(text, "],\"totalFrames\":", shown.history.calls());
    text.push('}');
}
