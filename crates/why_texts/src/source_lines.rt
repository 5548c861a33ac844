//! What the lines of a source did, as texts.

use crate::shares::push_share;
use code_places::{Sources, push_source};
use job_looks::{Text, push_column};
use job_profile::Profile;
use job_tally::{SourceTotal, Tally, totals_of};
use std::alloc::{AllocError, Global};

/// The lines that did something, those of the most elements first, and of these those with the most instructions.
///
/// # Errors
///
/// [`AllocError`] if memory was refused.
pub fn sorted_totals(
    alloc: Global,
    sources: &Sources,
    profile: &Profile<Global>,
    tally: &Tally,
) -> Result<Vec<SourceTotal>, AllocError> {
    let mut totals = totals_of(alloc, sources, profile, tally)?;
    totals.retain(|total| total.instructions > 0);
    totals.sort_by_key(|total| u64::MAX - total.instructions)?;
    totals.sort_by_key(|total| u64::MAX - total.elements)?;
    Ok(totals)
}

/// What a line of a source did in a job that executed `whole` instructions, on a line.
pub fn total_text(alloc: Global, sources: &Sources, total: SourceTotal, whole: u64) -> Text {
    let mut text = Text::new(alloc);
    if let Some(source) = sources.lines.get(total.place) {
        text.push(' ');
        push_column(&mut text, total.instructions, 12);
        push_share(&mut text, total.instructions, whole);
        text.push(' ');
        push_column(&mut text, total.elements, 12);
        push_column(&mut text, total.most as u64, 12);
        text.push_str("  ");
        push_source(&mut text, sources, source);
        text.push('\n');
    }
    text
}

/// What comes before the lines of a source.
pub fn totals_head(alloc: Global) -> Text {
    let mut text = Text::new(alloc);
    text.push_str("\nthe lines of the source, by the elements of their operands and results\n");
    text.push_str("  instructions   share      elements   most words  line\n");
    text
}
