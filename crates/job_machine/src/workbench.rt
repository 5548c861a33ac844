//! Where the jobs' steps are between their begin and their finish.

ghost use Rattle.std.specs.Prelude.{◌≡◌, IfOk};
ghost use Rattle.job_steps.specs.Standings.{of_job};
ghost use Rattle.job_machine.specs.declared.workbench.Workplace.TheVariants as workplace;
ghost use Rattle.job_machine.specs.Machines.{recalled};
ghost use Rattle.job_machine.specs.Workbench.{WorkbenchFits, Takes, workplace_after, with_workplace};

use crate::machine::Machine;
use job_slots::Begun;
use job_steps::{Desk, Filled, compute};
use std::alloc::{AllocError, Allocator};
use std::marker::Model;
use std::mem;

/// Where the steps of one job are computed.
#[derive(Drop)]
pub enum Workplace<A: Allocator> {
    /// The desk that the job's next step will be computed on.
    Free(Desk<A>),
    /// The step of the job that has begun, computed.
    Holds(Filled<A>),
    /// The desk or the step is in use.
    Empty,
}

/// For each job of a machine the desk that its next step will be computed on, or, if a step of it has begun, that
/// step, computed.
///
/// In a contract it is the list of the jobs' workplaces.
#[derive(Drop)]
pub struct Workbench<A: Allocator> {
    workplaces: Vec<Workplace<A>, A>,
}

impl<A: Allocator> Model for Workbench<A> {
    ghost use Rattle.std.specs.Prelude.{List};
    ghost use Rattle.job_machine.specs.declared.workbench.Workplace.{Workplace};

    ghost Value = { List (Workplace A) };

    ghost view = { λ b. b.workplaces.items };
}

impl<A: Allocator + Clone> Workbench<A> {
    /// A desk for each job of a machine, of the job's words, with memory of `alloc`.
    ///
    /// So it fits the machine if no step has begun, or once all that have are given up.
    ///
    /// # Errors
    ///
    /// [`AllocError`] if memory for a desk was refused.
    pub fn new(alloc: A, machine: &Machine<A>) -> Result<Workbench<A>, AllocError>
        ensures { IfOk result (WorkbenchFits (recalled machine.now)) }
    {
        let count = machine.jobs();
        let mut workplaces = Vec::with_capacity(alloc.clone()?, count)?;
        let jobs = machine.in_order();
        for job in jobs {
            let desk = Desk::new(alloc.clone()?, job.limits().words)?;
            workplaces.push(Workplace::Free(desk))?;
        }
        Ok(Workbench { workplaces })
    }
}

impl<A: Allocator> Workplace<A> {
    /// The workplace after a begin, whose step is computed there.
    pub(crate) fn after(begun: Begun<A>) -> Workplace<A>
        ensures { result ≡ workplace_after begun }
    {
        match begun {
            Begun::Began(ticket) => Workplace::Holds(compute(ticket)),
            Begun::Ended(desk) | Begun::NotReady(desk) | Begun::SmallDesk(desk) => Workplace::Free(
                desk,
            ),
        }
    }
}

impl<A: Allocator> Workbench<A> {
    /// Gives a job another workplace in exchange for its own, if there is such a job.
    pub(crate) fn exchange(&mut self, job: usize, workplace: Workplace<A>) -> Option<Workplace<A>>
        ensures own { result ≡ of_job job self.old }
        ensures state { self.new ≡ with_workplace job workplace self.old }
    {
        if job == 0 || job > self.workplaces.len() {
            return None;
        }
        Some(mem::replace(&mut self.workplaces[job - 1], workplace))
    }

    /// Takes the desk of a job, if its workplace is free, and leaves the workplace empty.
    #[tactic(auto, using(crate::proofs::WorkbenchLemmas::takes_none))]
    pub(crate) fn take_desk(&mut self, job: usize) -> Option<Desk<A>>
        ensures { Takes workplace.Free job self.old self.new result }
    {
        match self.exchange(job, Workplace::Empty)? {
            Workplace::Free(desk) => Some(desk),
            other => {
                self.exchange(job, other);
                None
            }
        }
    }

    /// Takes the step of a job, if its workplace holds one, and leaves the workplace empty.
    #[tactic(auto, using(crate::proofs::WorkbenchLemmas::takes_none))]
    pub(crate) fn take_filled(&mut self, job: usize) -> Option<Filled<A>>
        ensures { Takes workplace.Holds job self.old self.new result }
    {
        match self.exchange(job, Workplace::Empty)? {
            Workplace::Holds(filled) => Some(filled),
            other => {
                self.exchange(job, other);
                None
            }
        }
    }
}
