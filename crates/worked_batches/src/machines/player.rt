//! A machine, and the tickets of the steps that were begun on it.

ghost use Rattle.std.specs.Prelude.{◌≡◌, ◌≤◌, All, length};
ghost use Rattle.vcode_base.specs.declared.limits.TheConstants.{MOST_JOBS, MOST_WORDS};

use crate::machines::fault::CaseFault;
use job_machine::{Begun, Desk, Finished, Job, Machine, Stepped, Ticket, compute};
use std::alloc::{AllocError, Global};
use std::mem::swap;
use vcode_base::{Outcome, Rule};

/// A machine over a region, and the tickets of all begins, but of those that were finished.
#[derive(Drop)]
pub struct Player {
    pub machine: Machine<Global>,
    region: usize,
    tickets: Vec<Option<Ticket<Global>>>,
    ghost in_range: { region ≤ MOST_WORDS },
    ghost fits: { machine.region ≡ region },
}

impl Player {
    /// Over a new machine of these jobs.
    pub fn new(alloc: Global, region: usize, jobs: Vec<Job<Global>>) -> Result<Player, CaseFault>
        requires region { (1 ≤ region) × (region ≤ MOST_WORDS) }
        requires few { length jobs.items ≤ MOST_JOBS }
        requires words { All (λ job. job.limits.words ≤ region) jobs.items }
    {
        let machine = Machine::new(alloc, region, jobs, Rule::First)?;
        Ok(Player {
            machine,
            region,
            tickets: Vec::new(alloc),
        })
    }

    /// Takes the tickets of another player, if there is one, in place of its own.
    pub fn take_tickets(&mut self, other: &mut Option<Player>) {
        if let Some(other) = other {
            swap(&mut self.tickets, &mut other.tickets);
        }
    }

    /// Begins a step on a new desk of `words` words, and keeps its ticket.
    pub fn begin(
        &mut self,
        alloc: Global,
        job: usize,
        words: usize,
    ) -> Result<&'static str, CaseFault>
        requires { words ≤ MOST_WORDS }
    {
        let desk = Desk::new(alloc, words)?;
        match self.machine.begin(job, desk) {
            Begun::Began(ticket) => {
                self.tickets.push(Some(ticket)).map_err(AllocError::from)?;
                Ok("Began")
            }
            Begun::Ended(_) => Ok("Ended"),
            Begun::NotReady(_) => Ok("NotReady"),
            Begun::SmallDesk(_) => Ok("SmallDesk"),
        }
    }

    /// Takes a step in one go on a new desk of `words` words.
    pub fn step(
        &mut self,
        alloc: Global,
        job: usize,
        words: usize,
    ) -> Result<&'static str, CaseFault>
        requires { words ≤ MOST_WORDS }
    {
        let mut desk = Desk::new(alloc, words)?;
        match self.machine.step(job, &mut desk) {
            Stepped::Done => Ok("Done"),
            Stepped::Ended => Ok("Ended"),
            Stepped::NotReady => Ok("NotReady"),
            Stepped::SmallDesk => Ok("SmallDesk"),
        }
    }

    /// Computes and finishes the step of this ticket.
    pub fn finish(&mut self, number: usize) -> Result<Finished, CaseFault> {
        let ticket = self
            .tickets
            .get_mut(number)
            .and_then(|ticket| ticket.take());
        let ticket = ticket.ok_or(CaseFault::NoCall)?;
        let (finished, _) = self.machine.finish(compute(ticket));
        Ok(finished)
    }

    /// Runs all jobs to their ends.
    pub fn run_out(&mut self, alloc: Global) -> Result<&'static str, CaseFault> {
        let _jobs = self.machine.jobs();
        let desk = Desk::new(alloc, self.region)?;
        let (ran, _) = self.machine.run_out(desk);
        ran?;
        Ok("Ok")
    }

    /// Whether the machine's own list is that of its jobs.
    pub fn holds_its_list(&self) -> Result<bool, CaseFault> {
        let list = self.machine.list()?;
        Ok(self.machine.holds(list.as_slice()))
    }

    /// How a job ended, if it is collected.
    pub fn outcome(&self, job: usize) -> &'static str {
        match self.machine.outcome(job) {
            None => "None",
            Some(Outcome::Returned(_)) => "Returned",
            Some(Outcome::Fault(_, _)) => "Fault",
            Some(Outcome::Memory(_, _)) => "Memory",
            Some(Outcome::Budget) => "Budget",
        }
    }
}
