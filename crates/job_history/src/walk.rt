//! The run of a job with its trail, and the number of its state.

ghost use Rattle.std.specs.Prelude.{◌≡◌, ◌+◌, true, IfOk, OnOk};
ghost use Rattle.job_steps.specs.States.{ruled};
ghost use Rattle.job_profile.specs.Walks.{first_run, goes_on, progress_of};
ghost use Rattle.job_history.specs.Nexts.{next_in};
ghost use Rattle.job_history.specs.Sound.{Advances, HasGone, IsAt, IsFirst};

use crate::next::Next;
use crate::trail::Trail;
use job_profile::Run;
use job_steps::Job;
use job_steps::laws::reached;
use std::alloc::{AllocError, Allocator};
use vcode_base::Rule;

/// A run with its trail, at the state of a number. How it ended is collected if it is over.
#[derive(Drop)]
pub(crate) struct Walk<A: Allocator> {
    pub(crate) run: Run<A>,
    pub(crate) trail: Trail<A>,
    pub(crate) at: u64,
}

/// Executes the next instruction of a run, and collects how it ended if it is over.
fn advance<A: Allocator + Clone>(run: &mut Run<A>) -> Result<(), AllocError>
    ensures { OnOk result (Advances run.old run.new) }
{
    if run.step() {
        return Ok(());
    }
    run.collect()?;
    Ok(())
}

impl<A: Allocator> Walk<A> {
    /// The rule and the job.
    pub(crate) fn into_parts(self) -> (Rule, Job<A>)
        ensures { ruled result.0 result.1 ≡ self.run.task }
    {
        let Walk { run, trail, .. } = self;
        drop(trail);
        (run.rule(), run.into_job())
    }
}

impl<A: Allocator + Clone> Walk<A> {
    /// The run of a job by a rule, at its first state.
    pub(crate) fn new(alloc: &A, rule: Rule, job: Job<A>) -> Result<Walk<A>, AllocError>
        ensures first { IfOk result (λ walk. IsFirst walk.run walk.at) }
        ensures run { IfOk result (λ walk. walk.run ≡ first_run (ruled rule job)) }
    {
        let _verified = job.verified();
        let run = Run::new(alloc.clone()?, rule, job)?;
        match Trail::first(alloc) {
            Ok(trail) => Ok(Walk { run, trail, at: 0 }),
            Err(error) => {
                drop(run);
                Err(error)
            }
        }
    }

    /// Executes the next instruction of a job that goes on. Answers which it was.
    pub(crate) fn step(&mut self) -> Result<Option<Next>, AllocError>
        requires at { IsAt self.old.run self.old.at }
        requires on { goes_on (progress_of self.old.run) ≡ true }
        ensures gone { OnOk result (HasGone 1 self.old.run self.old.at self.new.run self.new.at) }
        ensures one { OnOk result (self.new.at ≡ self.old.at + 1) }
        ensures next { IfOk result (λ next. next ≡ next_in (progress_of self.old.run)) }
    {
        reached();
        let next = Next::of(&self.run);
        advance(&mut self.run)?;
        self.at += 1;
        self.trail.follow_next(next, &self.run)?;
        Ok(next)
    }

    /// Executes this many instructions, or all that are left before the end.
    pub(crate) fn go_on(&mut self, count: u64) -> Result<(), AllocError>
        requires { IsAt self.old.run self.old.at }
        ensures { OnOk result (HasGone count self.old.run self.old.at self.new.run self.new.at) }
    {
        for _ in 0..count {
            if !self.run.goes_on() {
                return Ok(());
            }
            let _next = self.step()?;
        }
        Ok(())
    }
}
