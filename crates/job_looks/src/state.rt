//! A state of a job, as far as something is said of it.

use job_history::{Caller, Next, Origin, Trail};
use job_profile::Run;
use job_steps::{Frames, Job};
use std::alloc::Global;
use vcode_base::Rule;

/// A state of a job: what there is after some of its instructions.
///
/// Entries are named by their depth, 0 at the top of the stack, and calls by their place, 0 for that of `MAIN`. At a
/// state that is an end there are no entries and no calls.
pub trait JobState {
    /// The rule by which the job runs.
    fn rule(&self) -> Rule;

    /// The job.
    fn job(&self) -> &Job<Global>;

    /// How many entries the stack has.
    fn depth(&self) -> usize;

    /// How many calls are active.
    fn calls(&self) -> usize;

    /// The words that are held.
    fn held(&self) -> usize;

    /// The words of the results of the next instruction, or 0 if its operands don't fit one another.
    fn need(&self) -> usize;

    /// The words that are held and needed at the next instruction, as the limit on words counts them.
    fn demand(&self) -> usize;

    /// The words of the entry at a depth. `None` if there is none.
    fn words(&self, depth: usize) -> Option<&[i64]>;

    /// Whether the entries at two depths are there and are copies of one another.
    fn are_copies(&self, depth: usize, other: usize) -> bool;

    /// The places at which the active calls go on, that of the innermost last.
    fn frames(&self) -> Frames<'_>;

    /// The next instruction. `None` if the job doesn't go on.
    fn next(&self) -> Option<Next>;

    /// Where the entry at a depth comes from. `None` if there is none.
    fn origin(&self, depth: usize) -> Option<Origin>;

    /// Where the call was made that the call at a place made. `None` if the call at that place is the innermost, or if
    /// there is none.
    fn caller(&self, place: usize) -> Option<Caller>;
}

/// The state of a run, with the trail that leads to it.
#[derive(Clone, Copy)]
pub struct Traced<'a> {
    /// The run.
    pub run: &'a Run<Global>,
    /// Where its vectors come from, and where its calls were made.
    pub trail: &'a Trail<Global>,
}

impl JobState for Traced<'_> {
    fn rule(&self) -> Rule {
        self.run.rule()
    }

    fn job(&self) -> &Job<Global> {
        self.run.job()
    }

    fn depth(&self) -> usize {
        self.run.depth()
    }

    fn calls(&self) -> usize {
        self.run.calls()
    }

    fn held(&self) -> usize {
        self.run.held()
    }

    fn need(&self) -> usize {
        self.run.need()
    }

    fn demand(&self) -> usize {
        self.run.demand()
    }

    fn words(&self, depth: usize) -> Option<&[i64]> {
        self.run.words(depth)
    }

    fn are_copies(&self, depth: usize, other: usize) -> bool {
        self.run.are_copies(depth, other)
    }

    fn frames(&self) -> Frames<'_> {
        self.run.frames()
    }

    fn next(&self) -> Option<Next> {
        Next::of(self.run)
    }

    fn origin(&self, depth: usize) -> Option<Origin> {
        self.trail.origin(self.run, depth)
    }

    fn caller(&self, place: usize) -> Option<Caller> {
        self.trail.caller(place)
    }
}

/// The function of the innermost of these calls, counted from 0 in the order of the code, and the place of its next
/// item there. Both are 0 if there are no calls.
#[inline(always)]
pub fn place_of(frames: &Frames<'_>) -> (usize, usize) {
    match frames.last() {
        Some(frame) => (frame.function, frame.place),
        None => (0, 0),
    }
}
