//! The state at which a history is.

use crate::state::JobState;
use job_history::{Caller, History, Next, Origin};
use job_steps::{Frames, Job};
use std::alloc::Global;
use vcode_base::Rule;

impl JobState for History<Global> {
    fn rule(&self) -> Rule {
        self.rule()
    }

    fn job(&self) -> &Job<Global> {
        self.job()
    }

    fn depth(&self) -> usize {
        self.depth()
    }

    fn calls(&self) -> usize {
        self.calls()
    }

    fn held(&self) -> usize {
        self.held()
    }

    fn need(&self) -> usize {
        self.need()
    }

    fn demand(&self) -> usize {
        self.demand()
    }

    fn words(&self, depth: usize) -> Option<&[i64]> {
        self.words(depth)
    }

    fn are_copies(&self, depth: usize, other: usize) -> bool {
        self.are_copies(depth, other)
    }

    fn frames(&self) -> Frames<'_> {
        self.frames()
    }

    fn next(&self) -> Option<Next> {
        self.next()
    }

    fn origin(&self, depth: usize) -> Option<Origin> {
        self.origin(depth)
    }

    fn caller(&self, place: usize) -> Option<Caller> {
        self.caller(place)
    }
}
