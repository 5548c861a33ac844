//! The last state of a job as data: its calls and its stack.

use crate::data::push_comma;
use job_looks::{
    Ending, MOST_ENTRIES, MOST_KEPT_VALUES, MOST_SHOWN_CALLS, Picture, ShownEntry, Text, name_at,
    push_list, push_number, push_signed, push_size,
};
use refusal_notes::kind_text;
use vcode_base::Kind;

/// Adds the member for the most entries, calls and values that are shown.
fn push_most(text: &mut Text) {
    push_size(text, ",\"most\":{\"entries\":", MOST_ENTRIES);
    push_size(text, ",\"calls\":", MOST_SHOWN_CALLS);
    push_size(text, ",\"values\":", MOST_KEPT_VALUES);
    text.push('}');
}

/// Adds the calls, the innermost first.
fn push_call_list(text: &mut Text, picture: &Picture) {
    for (place, call) in picture.list.iter().enumerate() {
        push_comma(text, place);
        push_size(text, "[", call.function);
        push_number(text, ",", call.line);
        push_size(text, ",", call.entries);
        text.push(']');
    }
}

/// Adds the member for the calls.
fn push_active(text: &mut Text, picture: &Picture) {
    let left = picture.calls.saturating_sub(picture.list.len());
    push_size(text, ",\"active\":{\"calls\":", picture.calls);
    push_size(text, ",\"left\":", left);
    text.push_str(",\"list\":[");
    push_call_list(text, picture);
    text.push_str("]}");
}

/// Adds the member for values of a kind.
pub(crate) fn push_values(text: &mut Text, kind: Kind, values: &[i64]) {
    text.push_str(",\"values\":\"");
    push_list(text, kind, values);
    text.push('"');
}

/// Adds the first values of an entry, and how many are left out, or the entry that it is a copy of.
fn push_content(text: &mut Text, entry: &ShownEntry) {
    match entry.copy {
        Some(above) => push_size(text, ",\"copy\":", above),
        None => {
            push_values(text, entry.kind, &entry.values);
            let left = entry.length.saturating_sub(entry.values.len());
            push_size(text, ",\"left\":", left);
        }
    }
}

/// Adds the object of an entry, which has this name if it is an operand.
fn push_entry(text: &mut Text, name: Option<&'static str>, entry: &ShownEntry) {
    text.push_str("{\"kind\":\"");
    text.push_str(kind_text(entry.kind));
    push_size(text, "\",\"length\":", entry.length);
    push_number(text, ",\"line\":", entry.line);
    if let Some(name) = name {
        text.push_str(",\"name\":\"");
        text.push_str(name);
        text.push('"');
    }
    if let Some(total) = entry.total {
        push_signed(text, ",\"total\":", total);
    }
    push_content(text, entry);
    text.push('}');
}

/// Adds the entries, the top first.
fn push_entries(text: &mut Text, picture: &Picture) {
    for (depth, entry) in picture.entries.iter().enumerate() {
        push_comma(text, depth);
        push_entry(text, name_at(picture.next, depth), entry);
    }
}

/// Adds the member for the stack. At the end of a job that returned it has the results.
fn push_stack(text: &mut Text, ending: Option<Ending>, picture: &Picture) {
    text.push_str(if ending == Some(Ending::Returned) {
        ",\"results\":{"
    } else {
        ",\"stack\":{"
    });
    push_size(text, "\"entries\":", picture.depth);
    push_size(text, ",\"words\":", picture.held);
    let left = picture.depth.saturating_sub(picture.entries.len());
    push_size(text, ",\"left\":", left);
    text.push_str(",\"list\":[");
    push_entries(text, picture);
    text.push_str("]}");
}

/// Adds the members for the last state of a job that ended so, or for a state on the way.
pub(crate) fn push_picture(text: &mut Text, ending: Option<Ending>, picture: &Picture) {
    push_most(text);
    push_active(text, picture);
    push_stack(text, ending, picture);
}
