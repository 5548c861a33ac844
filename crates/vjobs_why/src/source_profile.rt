//! What the lines of a source did.

use crate::output::{print_more, print_text};
use code_places::Sources;
use job_profile::Profile;
use job_tally::{SourceTotal, Tally};
use std::alloc::Global;
use std::io;
use why_texts::{sorted_totals, total_text, totals_head};

/// Prints what lines of a source did, at most this many.
fn print_totals(
    rt: &HostRuntime,
    sources: &Sources,
    totals: &[SourceTotal],
    whole: u64,
    most: usize,
) -> io::Result<()> {
    print_text(rt, totals_head(rt.alloc()))?;
    let shown = totals.get(..most).unwrap_or(totals);
    for total in shown {
        print_text(rt, total_text(rt.alloc(), sources, *total, whole))?;
    }
    print_more(rt, totals.len().saturating_sub(shown.len()) as u64)
}

/// Prints what the lines of the source of a job did, all or at most this many, if it names some.
pub fn print_sources(
    rt: &HostRuntime,
    sources: &Sources,
    profile: &Profile<Global>,
    tally: &Tally,
    most: usize,
) -> io::Result<()> {
    if sources.is_empty() {
        return Ok(());
    }
    let totals = sorted_totals(rt.alloc(), sources, profile, tally)?;
    print_totals(rt, sources, &totals, profile.run().executed(), most)
}
