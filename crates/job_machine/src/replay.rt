//! A machine that is led through events which are given, as those of a schedule or of a log.

ghost use Rattle.std.specs.Prelude.{◌≡◌, take, OnOk, OnErr, IfErr};
ghost use Rattle.job_steps.specs.declared.event.Event.TheVariants.{Begin, Finish, Recall};
ghost use Rattle.job_machine.specs.Machines.{machine_after, after_all, after_step, recalled, Leads};
ghost use Rattle.job_machine.specs.Workbench.{WorkbenchFits};
ghost use Rattle.job_machine.specs.Replays.{IsRefusable, IsRefusedAt, StopsWith};

use crate::machine::Machine;
use crate::workbench::{Workbench, Workplace};
use job_steps::Event;
use std::alloc::{AllocError, Allocator};

/// What a replay was refused memory for.
#[derive(Clone, Copy, PartialEq, Eq, Debug)]
pub enum ReplayFault {
    /// For the desks. Nothing was done.
    Desks,
    /// For the results of a job, by the event at this place, counted from 0, which collects it. The events before it
    /// were done.
    Collect(usize),
}

impl<A: Allocator + Clone> Machine<A> {
    /// Does an event; an event that isn't open changes nothing.
    ///
    /// A step is begun on the desk in the job's workplace and computed at once; the workplace holds it until it is
    /// finished or given up, and has the desk again then. So the workbench has to fit the machine, as it does after
    /// [`Workbench::new`] if no step has begun, and it still does after each event.
    ///
    /// # Errors
    ///
    /// [`AllocError`] if the collection of a job that returned was refused memory. Nothing changed then.
    pub fn play(&mut self, event: Event, workbench: &mut Workbench<A>) -> Result<(), AllocError>
        requires { WorkbenchFits self.old workbench.old }
        ensures ok { OnOk result (self.new ≡ machine_after event self.old) }
        ensures unchanged { OnErr result (self.new ≡ self.old) }
        ensures refused { OnErr result (IsRefusable event self.old) }
        ensures fit { WorkbenchFits self.new workbench.new }
        ensures leads { Leads self.old self.new }
    {
        match event {
            Event::Admit => {
                self.admit();
            }
            Event::Begin(job) => self.play_begin(job, workbench),
            Event::Finish(job) => self.play_finish(job, workbench),
            Event::Recall(job) => self.play_recall(job, workbench),
            Event::Collect(job) => {
                self.collect(job)?;
            }
        }
        Ok(())
    }

    /// Gives up all steps that have begun, does events in order, passing over those that are not open, and gives up
    /// what has begun.
    ///
    /// The desks for the steps, one for each job, take memory from `alloc`.
    ///
    /// # Errors
    ///
    /// [`ReplayFault::Desks`] if memory for a desk was refused: nothing changed. [`ReplayFault::Collect`] if the
    /// collection of a job that returned was refused memory: the events before it were done, and no step has begun.
    pub fn replay(&mut self, alloc: A, events: &[Event]) -> Result<(), ReplayFault>
        ensures ok { OnOk result (self.new ≡ recalled (after_all events.now (recalled self.old))) }
        ensures fault { IfErr result (StopsWith events.now self.old self.new) }
    {
        let Ok(mut workbench) = Workbench::new(alloc, self) else {
            return Err(ReplayFault::Desks);
        };
        self.recall_all();
        let played = self.play_all(events, &mut workbench);
        self.recall_all();
        played.map_err(ReplayFault::Collect)
    }

    /// Does events in order; the error has the place of the event that was refused memory.
    #[tactic(auto, using(crate::proofs::Replaying::at_err, crate::proofs::Replaying::refused_at))]
    fn play_all(&mut self, events: &[Event], workbench: &mut Workbench<A>) -> Result<(), usize>
        requires { WorkbenchFits self.old workbench.old }
        ensures ok { OnOk result (self.new ≡ after_all events.now self.old) }
        ensures refused { IfErr result
            (λ place. IsRefusedAt events.now self.old place × (self.new ≡ after_all (take place events.now) self.old)) }
    {
        for place in 0..events.len() {
            if self.play(events[place], workbench).is_err() {
                return Err(place);
            }
        }
        Ok(())
    }
}

impl<A: Allocator> Machine<A> {
    /// Does a begin of a job and then a finish, each of which is passed over if it isn't open.
    ///
    /// If a step of the job has begun already, it is finished. Takes no memory. The workbench has to fit the machine,
    /// and still does afterwards.
    pub fn play_step(&mut self, job: usize, workbench: &mut Workbench<A>)
        requires { WorkbenchFits self.old workbench.old }
        ensures state { self.new ≡ after_step job self.old }
        ensures fit { WorkbenchFits self.new workbench.new }
    {
        self.play_begin(job, workbench);
        self.play_finish(job, workbench)
    }

    /// Begins the next step of a job on the desk in its workplace, and computes it if it began.
    #[tactic(auto, using(crate::proofs::WorkbenchLemmas::plays_no_begin))]
    fn play_begin(&mut self, job: usize, workbench: &mut Workbench<A>)
        requires { WorkbenchFits self.old workbench.old }
        ensures state { self.new ≡ machine_after (Begin job) self.old }
        ensures fit { WorkbenchFits self.new workbench.new }
    {
        let Some(desk) = workbench.take_desk(job) else {
            return;
        };
        let begun = self.begin(job, desk);
        workbench.exchange(job, Workplace::after(begun));
    }

    /// Finishes the step that the workplace of a job holds.
    #[tactic(auto, using(crate::proofs::WorkbenchLemmas::plays_no_finish))]
    fn play_finish(&mut self, job: usize, workbench: &mut Workbench<A>)
        requires { WorkbenchFits self.old workbench.old }
        ensures state { self.new ≡ machine_after (Finish job) self.old }
        ensures fit { WorkbenchFits self.new workbench.new }
    {
        let Some(filled) = workbench.take_filled(job) else {
            return;
        };
        let (_, desk) = self.finish(filled);
        workbench.exchange(job, Workplace::Free(desk));
    }

    /// Gives up the step that the workplace of a job holds.
    #[tactic(auto, using(crate::proofs::WorkbenchLemmas::plays_no_recall))]
    fn play_recall(&mut self, job: usize, workbench: &mut Workbench<A>)
        requires { WorkbenchFits self.old workbench.old }
        ensures state { self.new ≡ machine_after (Recall job) self.old }
        ensures fit { WorkbenchFits self.new workbench.new }
    {
        self.recall(job);
        if let Some(filled) = workbench.take_filled(job) {
            workbench.exchange(job, Workplace::Free(filled.into_desk()));
        }
    }
}
