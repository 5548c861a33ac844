//! What the lines of a source did.

use crate::tally::{LineTally, Tally};
use code_places::{Mark, Sources};
use job_looks::total;
use job_profile::Profile;
use std::alloc::{AllocError, Global};

/// What the code of a line of a source did.
#[derive(Clone, Copy, Drop)]
pub struct SourceTotal {
    /// The place of the line among those of its [`Sources`].
    pub place: usize,
    /// How many instructions were executed there.
    pub instructions: u64,
    /// How many elements their operands and results had.
    pub elements: u64,
    /// The most words that were held and needed at one of them.
    pub most: usize,
}

impl SourceTotal {
    /// The line at a place did nothing.
    fn new(place: usize) -> SourceTotal {
        SourceTotal {
            place,
            instructions: 0,
            elements: 0,
            most: 0,
        }
    }

    /// Adds instructions, and what the lines of the code did on which they were.
    fn add(&mut self, instructions: u64, lines: LineTally) {
        self.instructions = self.instructions.saturating_add(instructions);
        self.elements = self.elements.saturating_add(lines.elements);
        self.most = self.most.max(lines.most);
    }
}

/// Adds what was executed on the lines of the code that a mark holds for.
fn add_mark(
    totals: &mut [SourceTotal],
    profile: &Profile<Global>,
    tally: &Tally,
    mark: Mark,
    count: usize,
) {
    let first = mark.line as usize;
    let instructions = profile.instructions(first, count);
    if let Some(place) = mark.place {
        if let Some(total) = totals.get_mut(place) {
            total.add(instructions, tally.between(first, count));
        }
    }
}

/// What each line of the source of a job did, in their order.
///
/// # Errors
///
/// [`AllocError`] if memory was refused.
pub fn totals_of(
    alloc: Global,
    sources: &Sources,
    profile: &Profile<Global>,
    tally: &Tally,
) -> Result<Vec<SourceTotal>, AllocError> {
    let mut totals = Vec::new(alloc);
    for place in 0..sources.lines.len() {
        totals.push(SourceTotal::new(place))?;
    }
    for (place, mark) in sources.marks.iter().enumerate() {
        add_mark(
            &mut totals,
            profile,
            tally,
            *mark,
            sources.reach(place) as usize,
        );
    }
    Ok(totals)
}
