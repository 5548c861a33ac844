//! The values of an entry of the stack, as they are printed.

use crate::output::{print_and_clear, print_text};
use job_history::Origin;
use job_looks::{Text, ValueRange, Watch};
use refusal_notes::Lines;
use std::io;
use vcode_base::Kind;
use why_texts::{head_text, no_entry_text, no_place_text, push_row};

/// The values that are shown on a line.
const ON_A_LINE: usize = 8;

/// Prints values of a kind, each line with the place of its first value. The first of all has this place.
fn print_list(rt: &HostRuntime, kind: Kind, first: usize, values: &[i64]) -> io::Result<()> {
    let (mut text, mut place) = (Text::new(rt.alloc()), first);
    for row in values.chunks(ON_A_LINE) {
        push_row(&mut text, kind, place, row);
        print_and_clear(rt, &mut text)?;
        place = place.saturating_add(ON_A_LINE);
    }
    Ok(())
}

/// Prints values of an entry that has these words.
fn print_range(
    rt: &HostRuntime,
    lines: &Lines,
    range: ValueRange,
    origin: Origin,
    words: &[i64],
) -> io::Result<()> {
    print_text(rt, head_text(rt.alloc(), lines, range, origin, words.len()))?;
    match range.of(words) {
        Some(values) => print_list(rt, origin.kind, range.first, values),
        None => print_text(rt, no_place_text(rt.alloc(), range.first)),
    }
}

/// Prints values of an entry at the state of a run.
pub fn print_values(
    rt: &HostRuntime,
    lines: &Lines,
    watch: &Watch,
    range: ValueRange,
) -> io::Result<()> {
    match (watch.run().words(range.depth), watch.origin(range.depth)) {
        (Some(words), Some(origin)) => print_range(rt, lines, range, origin, words),
        _ => print_text(
            rt,
            no_entry_text(rt.alloc(), range.depth, watch.run().depth()),
        ),
    }
}
