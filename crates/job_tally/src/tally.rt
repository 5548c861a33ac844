//! What the functions and the lines of a job did.

use crate::chains::{Chain, innermost};
use job_profile::Run;
use std::alloc::{AllocError, Global};

/// What was executed.
#[derive(Clone, Copy, Drop)]
pub struct Count {
    /// How many instructions.
    pub instructions: u64,
    /// How many elements their operands and results had.
    pub elements: u64,
}

/// The elements that a run has had, and what it had executed when the call began or went on that is the innermost now.
#[derive(Clone, Copy, Drop)]
pub struct Stretch {
    elements: u64,
    since: Count,
}

/// What a function did.
#[derive(Clone, Copy, Drop)]
pub struct FunctionTally {
    /// How often it was called.
    pub calls: u64,
    /// What its calls executed themselves.
    pub own: Count,
    /// What was executed while it was active: by its calls, and by those of the functions that they called.
    pub whole: Count,
    /// The most words that were held and needed at one of its own instructions.
    pub most: usize,
    /// How many of its calls are active, and what the job had executed when the first of them began.
    active: usize,
    since: Count,
}

/// What a line did.
#[derive(Clone, Copy, Drop)]
pub struct LineTally {
    /// The elements that its operands and its results had.
    pub elements: u64,
    /// The most words that were held and needed at it.
    pub most: usize,
}

/// What the functions and the lines of a run did.
#[derive(Drop)]
pub struct Tally {
    functions: Vec<FunctionTally>,
    lines: Vec<LineTally>,
}

impl Count {
    /// Nothing.
    pub const NONE: Count = Count {
        instructions: 0,
        elements: 0,
    };

    /// Adds another count.
    #[inline(always)]
    pub fn join(&mut self, other: Count) {
        self.instructions = self.instructions.wrapping_add(other.instructions);
        self.elements = self.elements.wrapping_add(other.elements);
    }

    /// What was executed from an earlier count on.
    #[inline(always)]
    fn after(self, earlier: Count) -> Count {
        Count {
            instructions: self.instructions.wrapping_sub(earlier.instructions),
            elements: self.elements.wrapping_sub(earlier.elements),
        }
    }
}

impl Stretch {
    /// Nothing was executed.
    pub const NONE: Stretch = Stretch {
        elements: 0,
        since: Count::NONE,
    };

    /// Adds the elements of an instruction.
    #[inline(always)]
    pub fn add(&mut self, elements: u64) {
        self.elements = self.elements.wrapping_add(elements);
    }

    /// What a run has executed.
    #[inline(always)]
    pub fn all(&self, run: &Run<Global>) -> Count {
        Count {
            instructions: run.executed(),
            elements: self.elements,
        }
    }

    /// What was executed in the innermost call since it began or went on, if the run has executed this. It is to count
    /// anew from now on.
    #[inline(always)]
    pub fn end(&mut self, all: Count) -> Count {
        let count = all.after(self.since);
        self.since = all;
        count
    }
}

impl FunctionTally {
    /// It did nothing.
    fn new() -> FunctionTally {
        FunctionTally {
            calls: 0,
            own: Count::NONE,
            whole: Count::NONE,
            most: 0,
            active: 0,
            since: Count::NONE,
        }
    }

    /// Counts a call that begins when the job has executed this.
    #[inline(always)]
    fn enter(&mut self, all: Count) {
        self.calls = self.calls.wrapping_add(1);
        if self.active == 0 {
            self.since = all;
        }
        self.active = self.active.wrapping_add(1);
    }

    /// Counts the end of a call when the job has executed this.
    #[inline(always)]
    fn leave(&mut self, all: Count) {
        self.active = self.active.saturating_sub(1);
        if self.active == 0 {
            self.whole.join(all.after(self.since));
        }
    }

    /// Counts the ends of its active calls when the job has executed this.
    fn leave_all(&mut self, all: Count) {
        if self.active > 0 {
            self.active = 1;
            self.leave(all);
        }
    }
}

impl LineTally {
    /// It did nothing.
    fn new() -> LineTally {
        LineTally {
            elements: 0,
            most: 0,
        }
    }
}

impl Tally {
    /// The tally of a run that has executed nothing.
    ///
    /// # Errors
    ///
    /// [`AllocError`] if memory was refused.
    pub fn new(alloc: Global, run: &Run<Global>) -> Result<Tally, AllocError> {
        let mut functions = Vec::new(alloc);
        for _ in run.job().verified().program().functions() {
            functions.push(FunctionTally::new())?;
        }
        let mut tally = Tally {
            functions,
            lines: Vec::new(alloc),
        };
        tally.enter(innermost(run), Count::NONE);
        Ok(tally)
    }

    /// Counts a call of a function that begins when the job has executed this.
    #[inline(always)]
    pub fn enter(&mut self, function: usize, all: Count) {
        if let Some(tally) = self.functions.get_mut(function) {
            tally.enter(all);
        }
    }

    /// Counts the end of a call of a function when the job has executed this.
    #[inline(always)]
    pub fn leave(&mut self, function: usize, all: Count) {
        if let Some(tally) = self.functions.get_mut(function) {
            tally.leave(all);
        }
    }

    /// Makes room for the line of this number.
    #[inline(always)]
    fn reach(&mut self, line: usize) -> Result<(), AllocError> {
        for _ in self.lines.len()..=line {
            self.lines.push(LineTally::new())?;
        }
        Ok(())
    }

    /// Counts the elements of an instruction of a line that was executed.
    ///
    /// # Errors
    ///
    /// [`AllocError`] if memory was refused. The elements aren't counted then.
    #[inline(always)]
    pub fn count(&mut self, line: u64, elements: u64) -> Result<(), AllocError> {
        if elements == 0 {
            return Ok(());
        }
        let line = line as usize;
        self.reach(line)?;
        if let Some(tally) = self.lines.get_mut(line) {
            tally.elements = tally.elements.saturating_add(elements);
        }
        Ok(())
    }

    /// Counts the words that were held and needed at an instruction of a line and a function that was executed.
    ///
    /// # Errors
    ///
    /// [`AllocError`] if memory was refused. The words aren't counted then.
    #[inline(always)]
    pub fn count_words(
        &mut self,
        line: u64,
        function: usize,
        words: usize,
    ) -> Result<(), AllocError> {
        let line = line as usize;
        self.reach(line)?;
        if let Some(tally) = self.lines.get_mut(line) {
            tally.most = tally.most.max(words);
        }
        if let Some(tally) = self.functions.get_mut(function) {
            tally.most = tally.most.max(words);
        }
        Ok(())
    }

    /// Counts what a function has executed itself.
    #[inline(always)]
    pub fn count_own(&mut self, function: usize, own: Count) {
        if let Some(tally) = self.functions.get_mut(function) {
            tally.own.join(own);
        }
    }

    /// Counts what functions have executed themselves in these chains, but for those that are rests.
    pub fn count_chains(&mut self, chains: &[Chain]) {
        for chain in chains {
            self.count_own(chain.function, chain.count);
        }
    }

    /// Counts the ends of the calls that are still active when the job has executed this.
    pub fn leave_all(&mut self, all: Count) {
        for tally in self.functions.iter_mut() {
            tally.leave_all(all);
        }
    }

    /// What the function at this place of the code did, counted from 0. It is nothing if there is no such function.
    pub fn function(&self, place: usize) -> FunctionTally {
        match self.functions.get(place) {
            Some(tally) => *tally,
            None => FunctionTally::new(),
        }
    }

    /// What `count` lines did, of which the first has this number.
    pub fn between(&self, first: usize, count: usize) -> LineTally {
        let mut all = LineTally::new();
        let rest = self.lines.get(first..).unwrap_or(&[]);
        for line in rest.get(..count).unwrap_or(rest) {
            all.elements = all.elements.saturating_add(line.elements);
            all.most = all.most.max(line.most);
        }
        all
    }

    /// What the line of this number did, counted from 1 in the batch. It is nothing if there is no such line.
    pub fn line(&self, number: usize) -> LineTally {
        match self.lines.get(number) {
            Some(tally) => *tally,
            None => LineTally::new(),
        }
    }
}
