//! One run of a job, with all that is counted on the way.

use crate::holders::{Holdings, Holds};
use job_history::Trail;
use job_looks::{
    BeforeEnd, End, Ending, MOST_ENTRIES, Picture, Traced, before_of, end_of, ending_of,
};
use job_profile::{Coming, Effect, Profile, Run};
use job_steps::{Frame, Job};
use job_tally::{Bands, Chains, Stretch, Tally, innermost};
use std::alloc::{AllocError, Global};
use vcode_base::{MemoryFault, Rule};

/// Whether the words that are held and needed at each instruction are counted for its line and its function.
#[derive(Clone, Copy, PartialEq, Eq)]
pub enum Words {
    /// They are counted.
    Counted,
    /// They aren't.
    LeftOut,
}

/// Where an instruction is: its line, and its frame.
#[derive(Clone, Copy, Drop)]
pub struct LastPlace {
    /// Its line.
    pub line: u64,
    /// Its frame.
    pub frame: Frame,
}

/// What is counted of a run.
#[derive(Drop)]
pub struct Counts {
    /// What its functions and lines did.
    pub tally: Tally,
    /// Its chains of functions.
    pub chains: Chains,
    /// Which functions ran most in each column.
    pub bands: Bands,
    stretch: Stretch,
    words: Words,
}

/// A run of a job, with what was counted on the way: also its trail and what it holds, how many instructions lead to
/// the last state before its end, and that state if the end was foreseen there.
#[derive(Drop)]
pub struct Survey {
    profile: Profile<Global>,
    /// What was counted.
    pub counts: Counts,
    trail: Trail<Global>,
    holds: Holds,
    steps: u64,
    picture: Option<Picture>,
    /// Where the last instruction is that was next, if there was one.
    pub last: Option<LastPlace>,
}

/// How a job ended, and of what more is shown.
#[derive(Clone, Copy, Drop)]
pub struct Again {
    /// How it ended, and what it used.
    pub end: End,
    /// The number of the instruction before which it is shown what was held, counted from 1: the one that the limit on
    /// words refused, or the first at the peak.
    pub number: u64,
    /// How many instructions each column has.
    pub each: u64,
}

impl Counts {
    /// The counts of a run that has executed nothing.
    fn new(alloc: Global, run: &Run<Global>, words: Words) -> Result<Counts, AllocError> {
        Ok(Counts {
            tally: Tally::new(alloc, run)?,
            chains: Chains::new(alloc, run)?,
            bands: Bands::new(alloc, run)?,
            stretch: Stretch::NONE,
            words,
        })
    }

    /// Counts the words that were held and needed at an instruction of a line and a function, if words are counted.
    #[inline(always)]
    fn count_words(&mut self, line: u64, function: usize, words: usize) -> Result<(), AllocError> {
        match self.words {
            Words::Counted => self.tally.count_words(line, function, words),
            Words::LeftOut => Ok(()),
        }
    }

    /// Counts what the innermost call of a run, which is of a function, has executed itself since it began or went on.
    /// Columns are of `each` instructions now.
    #[inline(always)]
    fn end_stretch(
        &mut self,
        function: usize,
        each: u64,
        run: &Run<Global>,
    ) -> Result<(), AllocError> {
        let all = self.stretch.all(run);
        let own = self.stretch.end(all);
        if !self.chains.count(own) {
            self.tally.count_own(function, own);
        }
        self.bands
            .count(function, own.instructions, all.instructions, each)
    }

    /// Counts a CALL that a run has executed in a function.
    #[inline(always)]
    fn call(&mut self, function: usize, each: u64, run: &Run<Global>) -> Result<(), AllocError> {
        self.end_stretch(function, each, run)?;
        let callee = innermost(run);
        self.tally.enter(callee, self.stretch.all(run));
        self.chains.call(callee)
    }

    /// Counts a RET that a run has executed in a function.
    #[inline(always)]
    fn leave(&mut self, function: usize, each: u64, run: &Run<Global>) -> Result<(), AllocError> {
        self.end_stretch(function, each, run)?;
        self.tally.leave(function, self.stretch.all(run));
        self.chains.leave();
        Ok(())
    }

    /// Counts the elements of an instruction of a line.
    #[inline(always)]
    fn add(&mut self, line: u64, elements: u64) -> Result<(), AllocError> {
        self.stretch.add(elements);
        self.tally.count(line, elements)
    }

    /// Counts the ends of all calls of a run, of which the innermost is of a function.
    fn end_all(&mut self, function: usize, each: u64, run: &Run<Global>) -> Result<(), AllocError> {
        self.end_stretch(function, each, run)?;
        self.tally.count_chains(self.chains.chains());
        self.tally.leave_all(self.stretch.all(run));
        self.bands.end()
    }
}

/// The counts of a run that has executed nothing, and what it holds.
fn first_parts(
    alloc: Global,
    run: &Run<Global>,
    words: Words,
) -> Result<(Counts, Holds), AllocError> {
    let holds = Holds::new(alloc, run)?;
    match Counts::new(alloc, run, words) {
        Ok(counts) => Ok((counts, holds)),
        Err(error) => {
            drop(holds);
            Err(error)
        }
    }
}

impl Survey {
    /// The survey of a job that has executed nothing.
    fn new(
        alloc: Global,
        rule: Rule,
        job: Job<Global>,
        words: Words,
    ) -> Result<Survey, AllocError> {
        let profile = Profile::new(alloc, rule, job)?;
        match Trail::new(alloc) {
            Ok(trail) => Survey::begin(alloc, profile, trail, words),
            Err(error) => {
                drop(profile);
                Err(error)
            }
        }
    }

    /// The survey of a run that has executed nothing.
    fn begin(
        alloc: Global,
        profile: Profile<Global>,
        trail: Trail<Global>,
        words: Words,
    ) -> Result<Survey, AllocError> {
        match first_parts(alloc, profile.run(), words) {
            Ok((counts, holds)) => Ok(Survey {
                profile,
                counts,
                trail,
                holds,
                steps: 0,
                picture: None,
                last: None,
            }),
            Err(error) => {
                drop(trail);
                drop(profile);
                Err(error)
            }
        }
    }

    /// The line of the last instruction that was next, or 0 if there was none.
    pub fn last_line(&self) -> u64 {
        match self.last {
            Some(last) => last.line,
            None => 0,
        }
    }

    /// The run, with the counts of lines and the words over time.
    pub fn profile(&self) -> &Profile<Global> {
        &self.profile
    }

    /// The run.
    fn run(&self) -> &Run<Global> {
        self.profile.run()
    }

    /// Counts and follows an instruction of a function that was executed.
    #[inline(always)]
    fn follow(&mut self, coming: Coming, function: usize) -> Result<(), AllocError> {
        let (each, _) = self.profile.columns();
        let run = self.profile.run();
        match coming.effect {
            Effect::Calls => {
                self.counts.call(function, each, run)?;
                self.trail.call(coming.line, run)
            }
            Effect::Returns => {
                self.counts.leave(function, each, run)?;
                self.trail.leave();
                Ok(())
            }
            Effect::Makes | Effect::MakesTwo | Effect::Chooses => self.follow_work(coming.line),
            Effect::Moves(_) | Effect::Nothing => Ok(()),
        }
    }

    /// Counts and follows an instruction of a line that takes operands or makes results, and that was executed.
    fn follow_work(&mut self, line: u64) -> Result<(), AllocError> {
        let run = self.profile.run();
        let taken = self.holds.release(&self.trail, run, line)?;
        let mut elements = taken.elements;
        for (place, kind) in taken.results.iter().enumerate() {
            let depth = taken.results.len().saturating_sub(place).saturating_sub(1);
            if let (Some(block), Some(words)) = (run.block(depth), run.words(depth)) {
                self.holds.put(block, words.len())?;
                self.trail.put(block, *kind, line)?;
                elements = elements.saturating_add(words.len() as u64);
            }
        }
        self.counts.add(line, elements)
    }

    /// Executes and follows the next instruction, which does this on its line; true if the job goes on.
    #[inline(always)]
    fn step(&mut self, coming: Coming, frame: Frame) -> Result<bool, AllocError> {
        let run = self.profile.run();
        self.holds.look(&self.trail, run, coming.effect, frame)?;
        let stepped = self.profile.step()?;
        if let Some(words) = stepped.words {
            self.counts.count_words(coming.line, frame.function, words)?;
            self.follow(coming, frame.function)?;
        }
        if !stepped.goes_on {
            let line = coming.line;
            self.last = Some(LastPlace { line, frame });
        }
        Ok(stepped.goes_on)
    }

    /// Keeps the state of the run, which is the last before its end.
    fn keep_last(&mut self, alloc: Global) -> Result<(), AllocError> {
        let run = self.profile.run();
        let state = Traced {
            run,
            trail: &self.trail,
        };
        self.picture = Some(Picture::of(alloc, &state, MOST_ENTRIES)?);
        self.holds.read_all(&self.trail, run)?;
        self.steps = run.executed();
        Ok(())
    }

    /// Executes and follows the next instruction, and keeps the state before it if it is the last RET; true if the job
    /// goes on.
    #[inline(always)]
    fn advance(&mut self, alloc: Global) -> Result<bool, AllocError> {
        let coming = self.profile.coming();
        let Some(frame) = self.run().frames().last() else {
            return Ok(false);
        };
        if self.trail.ends_with(coming.effect) {
            self.keep_last(alloc)?;
        }
        self.step(coming, frame)
    }

    /// Executes and follows all instructions, and keeps the last state if the end is foreseen there: before the last
    /// RET, or when the budget is spent.
    fn go_to_end(&mut self, alloc: Global) -> Result<(), AllocError> {
        let budget = self.run().job().limits().budget;
        for number in 0..=budget {
            if number == budget {
                self.keep_last(alloc)?;
            }
            if !self.advance(alloc)? {
                break;
            }
        }
        Ok(())
    }

    /// Executes and counts all instructions.
    fn run_out(&mut self, alloc: Global) -> Result<(), AllocError> {
        self.go_to_end(alloc)?;
        if self.picture.is_none() {
            self.steps = self.run().executed();
        }
        let function = match self.last {
            Some(last) => last.frame.function,
            None => 0,
        };
        let (each, _) = self.profile.columns();
        self.counts.end_all(function, each, self.profile.run())?;
        self.profile.collect()
    }

    /// What was held before the first instruction at the peak.
    ///
    /// # Errors
    ///
    /// [`AllocError`] if memory was refused.
    pub fn at_peak(&self, alloc: Global) -> Result<Holdings, AllocError> {
        let returned = ending_of(self.run()) == Ending::Returned;
        self.holds.at_peak(alloc, &self.trail, returned)
    }

    /// What was held before the instruction that the limit on words refused, or before the first at the peak.
    ///
    /// # Errors
    ///
    /// [`AllocError`] if memory was refused.
    pub fn holdings(&self, alloc: Global) -> Result<Holdings, AllocError> {
        match ending_of(self.run()) {
            Ending::Memory(MemoryFault::Words, _) => {
                self.holds.at_end(alloc, &self.trail, self.last_line())
            }
            Ending::Returned | Ending::Fault(..) | Ending::Memory(..) | Ending::Budget => {
                self.at_peak(alloc)
            }
        }
    }

    /// How the job ended, and of what more is shown.
    pub fn again(&self) -> Again {
        let end = self.end();
        let (each, _) = self.profile.columns();
        let number = match end.ending {
            Ending::Memory(MemoryFault::Words, _) => end.steps.saturating_add(1),
            Ending::Returned | Ending::Fault(..) | Ending::Memory(..) | Ending::Budget => {
                self.profile().peak_after()
            }
        };
        Again { end, number, each }
    }

    /// How the job ended.
    pub fn end(&self) -> End {
        end_of(self.profile().uses(), self.steps)
    }

    /// What is known of the last state, and the job.
    pub fn into_parts(self) -> (BeforeEnd, Job<Global>) {
        let Survey {
            profile,
            counts,
            trail,
            holds,
            steps: _,
            picture,
            last: _,
        } = self;
        drop(holds);
        drop(counts);
        (before_of(picture, trail), profile.into_job())
    }

    /// The survey of a job that has run to its end by a rule.
    ///
    /// # Errors
    ///
    /// [`AllocError`] if memory was refused. The job is gone then.
    pub fn of(
        alloc: Global,
        rule: Rule,
        job: Job<Global>,
        words: Words,
    ) -> Result<Survey, AllocError> {
        let mut survey = Survey::new(alloc, rule, job, words)?;
        match survey.run_out(alloc) {
            Ok(()) => Ok(survey),
            Err(error) => {
                drop(survey);
                Err(error)
            }
        }
    }
}
