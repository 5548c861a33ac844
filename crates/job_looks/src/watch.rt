//! A run that is watched: for each vector that it holds where it comes from, and for each call where it was made.

use crate::state::Traced;
use crate::step::line_at;
use job_history::{Next, Origin, Trail, op_of};
use job_profile::{Coming, Effect, Run, Uses};
use job_steps::{Frame, Job};
use std::alloc::{AllocError, Global};
use vcode_base::{Op, Rule};

/// The instruction at a frame of a run.
fn op_at(run: &Run<Global>, frame: Frame) -> Option<Op> {
    let line = line_at(run.job().verified().program(), frame)?;
    Some(op_of(&line))
}

/// A run with its trail.
#[derive(Drop)]
pub struct Watch {
    /// The run, and what it uses.
    pub uses: Uses<Global>,
    /// Where its vectors come from, and where its calls were made.
    pub trail: Trail<Global>,
}

impl Watch {
    /// A run of a job by a rule, which has executed nothing.
    ///
    /// # Errors
    ///
    /// [`AllocError`] if memory was refused. The job is gone then.
    pub fn new(alloc: Global, rule: Rule, job: Job<Global>) -> Result<Watch, AllocError> {
        match Trail::new(alloc) {
            Ok(trail) => Watch::again(alloc, rule, job, trail),
            Err(error) => {
                drop(job);
                Err(error)
            }
        }
    }

    /// A run of a job, which has executed nothing and is known to have this trail where it will be looked at.
    ///
    /// # Errors
    ///
    /// [`AllocError`] if memory was refused. The job and the trail are gone then.
    pub fn again(
        alloc: Global,
        rule: Rule,
        job: Job<Global>,
        trail: Trail<Global>,
    ) -> Result<Watch, AllocError> {
        match Uses::new(alloc, rule, job) {
            Ok(uses) => Ok(Watch { uses, trail }),
            Err(error) => {
                drop(trail);
                Err(error)
            }
        }
    }

    /// The run.
    pub fn run(&self) -> &Run<Global> {
        self.uses.run()
    }

    /// The state of the run.
    pub fn state(&self) -> Traced<'_> {
        Traced {
            run: self.run(),
            trail: &self.trail,
        }
    }

    /// The next instruction, if the job goes on.
    pub fn next(&self) -> Option<Next> {
        Next::of(self.run())
    }

    /// The origin of the entry at a depth, 0 at the top. `None` if there is none.
    pub fn origin(&self, depth: usize) -> Option<Origin> {
        self.trail.origin(self.run(), depth)
    }

    /// Executes the next instruction, which is at this frame and does this on its line; true if the job goes on.
    ///
    /// # Errors
    ///
    /// [`AllocError`] if memory was refused. The trail isn't that of the run then.
    #[inline(always)]
    pub fn take(&mut self, coming: Coming, frame: Frame) -> Result<bool, AllocError> {
        if !self.uses.step() {
            return Ok(false);
        }
        match coming.effect {
            Effect::Calls => self.trail.call(coming.line, self.uses.run())?,
            Effect::Returns => self.trail.leave(),
            Effect::Makes | Effect::MakesTwo => self.make(coming.line, frame)?,
            Effect::Chooses | Effect::Moves(_) | Effect::Nothing => {}
        }
        Ok(true)
    }

    /// Follows an instruction with results that was executed, which is at a frame and on a line.
    fn make(&mut self, line: u64, frame: Frame) -> Result<(), AllocError> {
        let run = self.uses.run();
        match op_at(run, frame) {
            Some(op) => self.trail.make(op, line, run),
            None => Ok(()),
        }
    }

    /// Executes the next instruction; true if the job goes on.
    ///
    /// # Errors
    ///
    /// As of [`Watch::take`].
    pub fn step(&mut self) -> Result<bool, AllocError> {
        let run = self.run();
        let coming = run.coming();
        match run.frames().last() {
            Some(frame) => self.take(coming, frame),
            None => Ok(false),
        }
    }

    /// Executes `count` instructions, or all that are left before the end.
    ///
    /// # Errors
    ///
    /// As of [`Watch::take`].
    pub fn go_to(&mut self, count: u64) -> Result<(), AllocError> {
        for _ in 0..count {
            if !self.step()? {
                return Ok(());
            }
        }
        Ok(())
    }

    /// The job, and the trail as far as the run has come.
    pub fn into_parts(self) -> (Trail<Global>, Job<Global>) {
        let Watch { uses, trail } = self;
        (trail, uses.into_job())
    }

    /// The job.
    pub fn into_job(self) -> Job<Global> {
        self.uses.into_job()
    }
}
