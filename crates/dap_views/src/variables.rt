//! The variables that a reference has.

use crate::entries::{push_elements, push_entries};
use crate::fault::Fault;
use crate::numbers::push_numbers;
use crate::page::Page;
use crate::reference::Reference;
use crate::shown::Shown;
use job_history::{History, Origin};
use job_looks::{Text, call_at};
use std::alloc::Global;

/// What a reference has at a state.
#[derive(Clone, Copy)]
enum Variables<'a> {
    /// As many entries, the first of which is at the depth `top`.
    Entries {
        top: usize,
        count: usize,
    },
    /// The numbers of the run.
    Numbers,
    /// The values of the entry at a depth.
    Values {
        depth: usize,
        origin: Origin,
        words: &'a [i64],
    },
}

/// What a reference has at the state of a run.
fn variables_of<'a>(history: &'a History<Global>, reference: Reference) -> Option<Variables<'a>> {
    match reference {
        Reference::Stack => Some(Variables::Entries {
            top: 0,
            count: history.depth(),
        }),
        Reference::Run => Some(Variables::Numbers),
        Reference::Entries(place) => entries_of(history, usize::from(place)),
        Reference::Values(depth) => values_of(history, usize::from(depth)),
    }
}

/// The entries that belong to the call at a place.
fn entries_of<'a>(history: &'a History<Global>, place: usize) -> Option<Variables<'a>> {
    let call = call_at(history, place)?;
    Some(Variables::Entries {
        top: call.first,
        count: call.entries,
    })
}

/// The values of the entry at a depth.
fn values_of<'a>(history: &'a History<Global>, depth: usize) -> Option<Variables<'a>> {
    Some(Variables::Values {
        depth,
        origin: history.origin(depth)?,
        words: history.words(depth)?,
    })
}

/// Adds the body of a `variables`: `count` of those that this reference has, after the first `first`. All that are left
/// after these if `count` is 0, and at most [`MOST_VARIABLES`](crate::MOST_VARIABLES).
///
/// An entry is compared with all entries above it, to find whether it is a copy. So the time is that of the entries
/// that are shown times those above them, of which there are at most 4,096.
///
/// # Errors
///
/// [`Fault::NoReference`] if there is nothing of this reference at the state. Nothing is added then.
pub fn push_variables(
    text: &mut Text,
    alloc: Global,
    shown: Shown<'_>,
    reference: u64,
    first: usize,
    count: usize,
) -> Result<(), Fault> {
    let reference = Reference::of(reference).ok_or(Fault::NoReference)?;
    let variables = variables_of(shown.history, reference).ok_or(Fault::NoReference)?;
    let page = Page { first, count };
    text.push_str("{\"variables\":[");
    match variables {
        Variables::Entries { top, count } => push_entries(text, alloc, &shown, (top, count), page),
        Variables::Numbers => push_numbers(text, &shown, page),
        Variables::Values {
            depth,
            origin,
            words,
        } => push_elements(text, origin, depth, words, page),
    }
    text.push_str("]}");
    Ok(())
}
