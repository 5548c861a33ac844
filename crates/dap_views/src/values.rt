//! The values that an expression names.

use crate::entries::{push_reference, push_type};
use crate::fault::Fault;
use crate::shown::Shown;
use job_history::{History, Origin};
use job_looks::{Text, ValueRange, push_list, value_range};
use std::alloc::Global;

/// The most values that are shown of an expression.
pub const MOST_TEXT_VALUES: usize = 4_096;

/// Values of an entry.
#[derive(Clone, Copy)]
struct Values<'a> {
    origin: Origin,
    /// The words of the entry.
    words: &'a [i64],
    /// Those that the expression names.
    named: &'a [i64],
}

/// The entry at a depth: where it comes from, and its words.
fn entry_of(history: &History<Global>, depth: usize) -> Option<(Origin, &[i64])> {
    Some((history.origin(depth)?, history.words(depth)?))
}

/// The values of a range at the state of a run.
fn values_of<'a>(history: &'a History<Global>, range: ValueRange) -> Result<Values<'a>, Fault> {
    let (origin, words) = entry_of(history, range.depth).ok_or(Fault::NoEntry)?;
    let named = range.of(words).ok_or(Fault::NoPlace)?;
    Ok(Values {
        origin,
        words,
        named,
    })
}

/// Adds values with a blank between them, and `..` if there are more than are shown.
fn push_named(text: &mut Text, values: Values<'_>) {
    let shown = values.named.get(..MOST_TEXT_VALUES).unwrap_or(values.named);
    push_list(text, values.origin.kind, shown);
    if shown.len() < values.named.len() {
        text.push_str(" ..");
    }
}

/// Adds the body of an `evaluate` of an expression `D`, `D:A` or `D:A-B`: the values of the entry at the depth D, 0 at
/// the top, the one at the place A, or those at the places A to B. At most [`MOST_TEXT_VALUES`] are shown. The
/// reference is that of all values of the entry.
///
/// # Errors
///
/// [`Fault::NotUnderstood`] if the expression has another form, [`Fault::NoEntry`] if there is no entry at this depth,
/// and [`Fault::NoPlace`] if the place A is after the end of the entry. Nothing is added then.
pub fn push_values_of(text: &mut Text, shown: Shown<'_>, expression: &str) -> Result<(), Fault> {
    let range = value_range(expression.trim_ascii()).ok_or(Fault::NotUnderstood)?;
    let values = values_of(shown.history, range)?;
    let (origin, length) = (values.origin, values.words.len());
    text.push_str("{\"result\":\"");
    push_named(text, values);
    text.push('"');
    push_type(text, origin.kind, length, origin.line);
    push_reference(text, range.depth, length);
    text.push('}');
    Ok(())
}
