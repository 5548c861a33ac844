//! What a run uses of each limit.

ghost use Rattle.std.specs.Prelude.{◌≡◌, max, IfOk, MatchOption, OnErr, OnOk};
ghost use Rattle.job_steps.specs.LeastLimits.{calls_in, cells_in};
ghost use Rattle.job_steps.specs.Runs.{executed_count_in, peak_in, progress_from};
ghost use Rattle.job_steps.specs.States.{ruled};
ghost use Rattle.job_profile.specs.Walks.{HasCome, HasGoneOn, ending_at, ending_of, first_run, goes_on, progress_of};
ghost use Rattle.job_profile.specs.Stops.{IsStopped};
ghost use Rattle.job_profile.specs.Used.{AreLeast, HasNotReturned, most_so_far};

use crate::run::{Run, steps_move};
use crate::stop::{Stop, holds, left_after};
use job_steps::Job;
use job_steps::laws::{reached, used_are_least};
use std::alloc::{AllocError, Allocator};
use std::marker::Model;
use vcode_base::{Elements, Limits, Outcome, Rule};

/// A run of one job alone, with the most entries that its stack had and the most calls that were active.
///
/// In a contract it is its run, from which both numbers follow.
#[derive(Drop)]
pub struct Uses<A: Allocator> {
    run: Run<A>,
    cells: usize,
    calls: usize,
}

impl<A: Allocator> Model for Uses<A> {
    ghost use Rattle.job_profile.specs.Walks.{RunState, progress_of};
    ghost use Rattle.job_profile.specs.Used.{AreUses};

    ghost Value = { RunState };

    ghost use Rattle.std.specs.Coded.{codes};
    ghost use Rattle.job_steps.specs.Jobs.{job_code};
    ghost use Rattle.job_profile.specs.Walks.{run_code};

    ghost coded = { run_code (Prim.hlevel codes)
        (job_code (Prim.hlevel codes) (Prim.hlevel codes) (Prim.hlevel codes)) (Prim.hlevel codes) };

    ghost view = { λ u. u.run };

    ghost invariant = { λ u. AreUses u.run.task (progress_of u.run) u.cells u.calls };
}

/// The most so far, of which there are this many now.
#[inline(always)]
fn raise(most: &mut usize, now: usize)
    ensures { most.new ≡ max most.old now }
{
    if *most < now {
        *most = now;
    }
}

impl<A: Allocator + Clone> Uses<A> {
    /// A job that hasn't executed anything. Takes memory for the run, and an error means that the allocator refused it.
    #[tactic(auto, using(crate::proofs::Used::first_uses))]
    pub fn new(alloc: A, rule: Rule, job: Job<A>) -> Result<Uses<A>, AllocError>
        ensures { IfOk result (λ uses. uses ≡ first_run (ruled rule job)) }
    {
        let _verified = job.verified();
        let run = Run::new(alloc, rule, job)?;
        let (cells, calls) = (run.depth(), run.calls());
        Ok(Uses { run, cells, calls })
    }

    /// Stores how the job ended, with copies of its results, if its run is over. Else nothing changes.
    ///
    /// # Errors
    ///
    /// [`AllocError`] if memory for the results was refused. Nothing changes then.
    pub fn collect(&mut self) -> Result<(), AllocError>
        ensures run { HasCome self.old.task (progress_of self.old) self.new }
        ensures collected { OnOk result (ending_of self.new ≡ ending_at (progress_of self.old)) }
        ensures unchanged { OnErr result (self.new ≡ self.old) }
    {
        self.run.collect()
    }
}

impl<A: Allocator> Uses<A> {
    /// Executes the next instruction; true if the job goes on. A job whose run is over stays as it is. Takes no memory.
    #[inline(always)]
    pub fn step(&mut self) -> bool
        ensures run { HasCome self.old.task (progress_from self.old.task (progress_of self.old)) self.new }
        ensures goes_on { result ≡ goes_on (progress_of self.new) }
    {
        steps_move();
        let goes_on = self.run.step();
        raise(&mut self.cells, self.run.depth());
        raise(&mut self.calls, self.run.calls());
        goes_on
    }

    /// Executes this many instructions, or all that are left before the end of the job. Takes no memory.
    #[tactic(auto, using(crate::proofs::Gone::first_gone, crate::proofs::Gone::gone_by))]
    pub fn go_on(&mut self, count: u64)
        ensures { HasGoneOn count self.old self.new }
    {
        let _run = &self.run;
        for _ in 0..count {
            self.step();
        }
    }

    /// Executes instructions until a state at which it holds, after `skip` other states at which it does, from the
    /// state of the run on. True if there is such a state; else the run is over.
    pub fn run_to(&mut self, stop: &Stop<Elements<'_, u8>>, skip: u64) -> bool
        ensures { IsStopped result stop.now skip self.old self.new }
    {
        reached();
        let _run = &self.run;
        let budget = self.run().job().limits().budget;
        let mut left = skip;
        for _ in 0..budget + 1 {
            match left_after(holds(self.run(), stop), left) {
                Some(next) => left = next,
                None => return true,
            }
            if !self.step() {
                return false;
            }
        }
        false
    }

    /// The run.
    pub fn run(&self) -> &Run<A>
        ensures { result.now ≡ self.now }
    {
        &self.run
    }

    /// The most words that it held and needed at an instruction that it executed.
    pub fn words(&self) -> usize
        ensures { result ≡ peak_in (progress_of self.now) }
    {
        self.run.peak()
    }

    /// The most entries that its stack had.
    pub fn cells(&self) -> usize
        ensures { result ≡ most_so_far cells_in self.now.task (progress_of self.now) }
    {
        self.cells
    }

    /// The most calls that were active.
    pub fn calls(&self) -> usize
        ensures { result ≡ most_so_far calls_in self.now.task (progress_of self.now) }
    {
        self.calls
    }

    /// How many instructions it executed.
    pub fn executed(&self) -> u64
        ensures { result ≡ executed_count_in (progress_of self.now) }
    {
        self.run.executed()
    }

    /// The least limits within which the job returns; `None` if it isn't collected that it returned.
    ///
    /// Within limits that are at least these the job returns by the same run. Within others it doesn't return.
    pub fn least_limits(&self) -> Option<Limits>
        ensures { MatchOption result (HasNotReturned (ending_of self.now)) (λ least. AreLeast self.now.task least) }
    {
        used_are_least();
        reached();
        match self.run.ending() {
            Some(Outcome::Returned(_)) => Some(Limits {
                words: self.run.peak(),
                cells: self.cells.max(1),
                calls: self.calls,
                budget: self.run.executed(),
            }),
            Some(Outcome::Fault(..) | Outcome::Memory(..) | Outcome::Budget) | None => None,
        }
    }

    /// The job, of which another run may be made.
    pub fn into_job(self) -> Job<A>
        ensures { ruled self.task.rule result ≡ self.task }
    {
        self.run.into_job()
    }
}
