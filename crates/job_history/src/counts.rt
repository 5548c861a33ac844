//! The numbers that a run shows at a state.

ghost use Rattle.job_profile.specs.Walks.{progress_of};
ghost use Rattle.job_history.specs.Kept.{AreCounts, AreNeeds};

use job_profile::Run;
use std::alloc::Allocator;

/// How many words a state takes beside its entries and calls.
const FIXED_WORDS: usize = 64;

/// How many instructions were executed, the most words that were held and needed at one of them, the words that are
/// held, and how many entries and calls there are.
#[derive(Clone, Copy)]
pub(crate) struct Counts {
    pub(crate) executed: u64,
    pub(crate) peak: usize,
    pub(crate) held: usize,
    pub(crate) depth: usize,
    pub(crate) calls: usize,
}

/// The words that the next instruction holds and needs, and those of its results.
#[derive(Clone, Copy)]
pub(crate) struct Needs {
    pub(crate) demand: usize,
    pub(crate) need: usize,
}

impl Counts {
    /// Those of a run.
    pub(crate) fn of<A: Allocator>(run: &Run<A>) -> Counts
        ensures { AreCounts (progress_of run.now) result }
    {
        Counts {
            executed: run.executed(),
            peak: run.peak(),
            held: run.held(),
            depth: run.depth(),
            calls: run.calls(),
        }
    }

    /// How many words a state with these takes when it is kept, without the vectors of its entries.
    pub(crate) fn size(self) -> usize {
        let lists = self.calls.saturating_mul(4).saturating_add(self.depth);
        lists.saturating_add(FIXED_WORDS)
    }
}

impl Needs {
    /// Those of a run.
    pub(crate) fn of<A: Allocator>(run: &Run<A>) -> Needs
        ensures { AreNeeds run.now.task (progress_of run.now) result }
    {
        Needs {
            demand: run.demand(),
            need: run.need(),
        }
    }
}
