//! The entries or calls that a job had over time, if the limit on them ended it.

use job_history::Next;
use job_looks::{Ending, depth_after};
use job_profile::{Run, Uses};
use std::alloc::{AllocError, Global};
use vcode_base::MemoryFault;

/// What is counted over time: the entries of the stack, or the active calls.
#[derive(Clone, Copy, Drop)]
pub enum Counted {
    /// The entries.
    Entries,
    /// The calls.
    Calls,
}

/// The entries or calls of a run over time. A column is of `each` instructions that follow one another, and the last
/// has room for those up to the number `end`. What there is before the first instruction counts in the first column.
#[derive(Drop)]
pub struct Levels {
    /// What is counted.
    pub counted: Counted,
    /// The most that there were after the instructions of each column.
    pub most: Vec<usize>,
    each: u64,
    end: u64,
}

impl Counted {
    /// What is counted of a job that ended so.
    fn of(ending: Ending) -> Option<Counted> {
        match ending {
            Ending::Memory(MemoryFault::Cells, _) => Some(Counted::Entries),
            Ending::Memory(MemoryFault::Calls, _) => Some(Counted::Calls),
            Ending::Returned | Ending::Fault(..) | Ending::Memory(..) | Ending::Budget => None,
        }
    }

    /// How many there are in a run.
    fn count(self, run: &Run<Global>) -> usize {
        match self {
            Counted::Entries => run.depth(),
            Counted::Calls => run.calls(),
        }
    }

    /// How many there would be after the next instruction of a run, which the limit refuses.
    fn wanted(self, run: &Run<Global>) -> Option<usize> {
        let next = Next::of(run)?;
        match self {
            Counted::Entries => Some(depth_after(next.op, run.depth())),
            Counted::Calls => Some(run.calls().saturating_add(1)),
        }
    }

    /// Its name in data.
    pub fn name(self) -> &'static str {
        match self {
            Counted::Entries => "entries",
            Counted::Calls => "calls",
        }
    }
}

impl Levels {
    /// Those of a run that has executed nothing, in columns of `each` instructions. `None` unless the limit on entries
    /// or calls ends the job so.
    pub fn new(alloc: Global, ending: Ending, each: u64) -> Option<Levels> {
        let counted = Counted::of(ending)?;
        Some(Levels {
            counted,
            most: Vec::new(alloc),
            each,
            end: each,
        })
    }

    /// Counts what there is at the state of a run, one instruction after the state that was counted last.
    #[inline(always)]
    fn note(&mut self, run: &Run<Global>) -> Result<(), AllocError> {
        let count = self.counted.count(run);
        if run.executed() > self.end {
            self.end = self.end.saturating_add(self.each);
            self.most.push(count)?;
            return Ok(());
        }
        match self.most.last_mut() {
            Some(most) => *most = (*most).max(count),
            None => {
                self.most.push(count)?;
            }
        }
        Ok(())
    }

    /// Counts what there is at the states of a run that has executed nothing, up to the one after this many
    /// instructions, and goes there. Answers how many there would be after the next instruction, which the limit
    /// refuses, if there is a next one.
    ///
    /// # Errors
    ///
    /// [`AllocError`] if memory was refused.
    pub fn go_to(
        &mut self,
        uses: &mut Uses<Global>,
        count: u64,
    ) -> Result<Option<usize>, AllocError> {
        for _ in 0..count {
            self.note(uses.run())?;
            uses.step();
        }
        self.note(uses.run())?;
        Ok(self.counted.wanted(uses.run()))
    }
}
