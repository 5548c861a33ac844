//! The scopes of a call.

use crate::fault::Fault;
use crate::reference::Reference;
use crate::shown::Shown;
use job_looks::{ShownCall, Text, call_at, push_number, push_size};

/// The most entries that a scope has whose variables a client may fetch unasked.
const MOST_CHEAP: usize = 256;

/// Adds the members for the name of a scope and for the reference to its variables.
fn push_scope(text: &mut Text, name: &str, reference: Reference) {
    text.push_str("{\"name\":\"");
    text.push_str(name);
    push_number(text, "\",\"variablesReference\":", reference.number());
}

/// Adds the object of a scope that has this many entries.
fn push_entries(text: &mut Text, name: &str, reference: Reference, count: usize) {
    push_scope(text, name, reference);
    push_size(text, ",\"indexedVariables\":", count);
    text.push_str(if count > MOST_CHEAP {
        ",\"expensive\":true}"
    } else {
        ",\"expensive\":false}"
    });
}

/// The place of the call of an id, and the call.
fn call_of(shown: &Shown<'_>, frame: u64) -> Option<(Reference, ShownCall)> {
    let Ok(place) = usize::try_from(frame.checked_sub(1)?) else {
        return None;
    };
    Some((Reference::of_call(place)?, call_at(shown.history, place)?))
}

/// Adds the body of a `scopes` of the call of this id: the entries that belong to it, all entries of the stack, and the
/// numbers of the run.
///
/// # Errors
///
/// [`Fault::NoFrame`] if no call has this id. Nothing is added then.
pub fn push_scopes(text: &mut Text, shown: Shown<'_>, frame: u64) -> Result<(), Fault> {
    let (own, call) = call_of(&shown, frame).ok_or(Fault::NoFrame)?;
    text.push_str("{\"scopes\":[");
    push_entries(text, "Entries", own, call.entries);
    text.push(',');
    push_entries(text, "Stack", Reference::Stack, shown.history.depth());
    text.push(',');
    push_scope(text, "Run", Reference::Run);
    text.push_str(",\"expensive\":false}]}");
    Ok(())
}
