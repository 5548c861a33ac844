//! A machine's jobs, run to their ends on the calling thread.

ghost use Rattle.std.specs.Prelude.{◌≡◌, ◌≤◌, ℕ, All, OnOk, OnErr};
ghost use Rattle.job_steps.specs.Events.{all_events_left};
ghost use Rattle.job_steps.specs.Standings.{Collected, of_job};
ghost use Rattle.job_machine.specs.Machines.{recalled, Leads, GoesOn, HasNoStep, HasReturnedIn, IsDone};
ghost use Rattle.job_machine.specs.Machines.{IsWaitingOrCollected};

use crate::machine::{Admission, Machine};
use job_steps::Desk;
use job_steps::laws::{
    admitted_have_room, events_go_on, events_keep, events_use_up, leads_join, recalls_are_events,
};
use std::alloc::{AllocError, Allocator};

impl<A: Allocator> Machine<A> {
    /// Gives up all steps that have begun. Each of their jobs is as before its step's begin.
    #[tactic(auto, using(crate::proofs::RunningOut::all_recalled))]
    pub fn recall_all(&mut self)
        ensures recalled { self.new ≡ recalled self.old }
        ensures leads { Leads self.old self.new }
        ensures no_step { HasNoStep self.new }
    {
        recalls_are_events();
        let jobs = self.jobs();
        for place in 0..jobs {
            self.recall(place + 1);
        }
    }
}

impl<A: Allocator + Clone> Machine<A> {
    /// Runs a job, which doesn't wait, to its end and collects it, if no step of any job has begun.
    ///
    /// # Errors
    ///
    /// [`AllocError`] if memory for its results was refused. It has ended then, and isn't collected.
    #[tactic(auto, using(crate::proofs::Stepping::all_run))]
    pub fn run_job(&mut self, job: usize, desk: &mut Desk<A>) -> Result<(), AllocError>
        requires words { All (λ task. task.limits.words ≤ desk.old) self.old.tasks }
        requires no_step { HasNoStep self.old }
        ensures goes_on { GoesOn job self.old self.new }
        ensures no_more { all_events_left self.new.tasks self.new.standings
            ≤ all_events_left self.old.tasks self.old.standings }
        ensures ok { OnOk result (IsDone (of_job job self.new.standings)) }
        ensures refused { OnErr result (HasReturnedIn self.new job) }
        ensures desk { desk.new ≡ desk.old }
    {
        let _jobs = self.jobs();
        events_keep();
        events_use_up();
        leads_join();
        self.take_steps(job, desk);
        match self.collect(job) {
            Ok(_) => Ok(()),
            Err(fault) => Err(fault),
        }
    }

    /// Runs all jobs that don't wait to their ends, and collects them.
    #[tactic(auto, using(crate::proofs::Turns::words_on, crate::proofs::Turns::to_first, crate::proofs::Turns::all_to))]
    fn run_admitted(&mut self, desk: &mut Desk<A>) -> Result<(), AllocError>
        requires words { All (λ task. task.limits.words ≤ desk.old) self.old.tasks }
        requires no_step { HasNoStep self.old }
        ensures leads { Leads self.old self.new }
        ensures no_step { HasNoStep self.new }
        ensures ok { OnOk result (All IsWaitingOrCollected self.new.standings) }
        ensures refused { OnErr result ((job : ℕ) × HasReturnedIn self.new job) }
        ensures desk { desk.new ≡ desk.old }
    {
        leads_join();
        let jobs = self.jobs();
        for place in 0..jobs {
            let ran = self.run_job(place + 1, desk);
            if let Err(fault) = ran {
                return Err(fault);
            }
        }
        let _jobs = self.jobs();
        Ok(())
    }

    /// Runs all jobs to their ends and collects them, one after another.
    #[tactic(auto, using(crate::proofs::Turns::words_on, crate::proofs::Turns::admits))]
    pub(crate) fn run_all(&mut self, desk: &mut Desk<A>) -> Result<(), AllocError>
        requires words { All (λ task. task.limits.words ≤ desk.old) self.old.tasks }
        requires no_step { HasNoStep self.old }
        ensures leads { Leads self.old self.new }
        ensures no_step { HasNoStep self.new }
        ensures ok { OnOk result (All (λ standing. standing ≡ Collected) self.new.standings) }
        ensures refused { OnErr result ((job : ℕ) × HasReturnedIn self.new job) }
        ensures desk { desk.new ≡ desk.old }
    {
        let _jobs = self.jobs();
        admitted_have_room();
        events_go_on();
        events_keep();
        events_use_up();
        leads_join();
        let ran = self.run_admitted(desk);
        if let Err(fault) = ran {
            return Err(fault);
        }
        while let Admission::Admitted(job) = self.admit() {
            let ran = self.run_job(job, desk);
            if let Err(fault) = ran {
                return Err(fault);
            }
        }
        Ok(())
    }
}
