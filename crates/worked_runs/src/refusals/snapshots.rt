//! What a machine of two jobs shows of them.

use job_machine::{Machine, Status};
use std::alloc::Allocator;
use vcode_base::Outcome;

/// The state of a job.
#[derive(Clone, Copy, PartialEq, Eq)]
pub struct Standing {
    pub status: Option<Status>,
    pub executed: Option<u64>,
    pub peak: Option<usize>,
}

/// The states of both jobs, and the words that they hold.
#[derive(Clone, Copy, PartialEq, Eq)]
pub struct Snapshot {
    pub first: Standing,
    pub second: Standing,
    pub used: usize,
}

/// The state of the job of this number.
fn standing_of<A: Allocator>(machine: &Machine<A>, job: usize) -> Standing {
    Standing {
        status: machine.status(job),
        executed: machine.executed(job),
        peak: machine.peak(job),
    }
}

impl Standing {
    /// Whether a job has this status, and has executed this number of instructions.
    pub(crate) fn is(&self, status: Status, executed: u64) -> bool {
        self.status == Some(status) && self.executed == Some(executed)
    }
}

/// What a machine shows.
pub(crate) fn snapshot_of<A: Allocator>(machine: &Machine<A>) -> Snapshot {
    Snapshot {
        first: standing_of(machine, 1),
        second: standing_of(machine, 2),
        used: machine.used(),
    }
}

/// Whether a job is collected and has returned this word alone.
fn has_returned<A: Allocator>(machine: &Machine<A>, job: usize, word: i64) -> bool {
    let Some(Outcome::Returned(values)) = machine.outcome(job) else {
        return false;
    };
    let [value] = values.as_slice() else {
        return false;
    };
    let mut words = [0];
    if value.words.len() != words.len() {
        return false;
    }
    value.words.copy_from(0, &mut words);
    words == [word]
}

/// Whether the first of the two jobs is collected and has returned what it returns.
pub(crate) fn first_has_returned<A: Allocator>(machine: &Machine<A>) -> bool {
    has_returned(machine, 1, 7)
}

/// The same of both.
pub(crate) fn both_have_returned<A: Allocator>(machine: &Machine<A>) -> bool {
    first_has_returned(machine) && has_returned(machine, 2, 3)
}
