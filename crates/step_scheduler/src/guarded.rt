//! The machine under its lock, and what each worker has finished on it.

ghost use Rattle.std.specs.Coded.{Coded-set, coded_list, codes};
ghost use Rattle.std.specs.Prelude.{◌≡◌, ℕ, ◌+◌, List, [], Some, OnOk, OnErr, IfOk};
ghost use Rattle.vcode_base.specs.declared.rule.Rule.{Rule};
ghost use Rattle.vcode_base.specs.declared.rule.Rule.TheVariants.{First};
ghost use Rattle.job_steps.specs.declared.event.Event.TheVariants.{Admit, Begin, Collect, Finish};
ghost use Rattle.job_steps.specs.Jobs.{job_code};
ghost use Rattle.job_steps.specs.Standings.{of_job};
ghost use Rattle.job_steps.specs.States.{Task};
ghost use Rattle.job_machine.specs.Machines.{BeginsIn, FinishesIn, admission_in, after_begun, after_finished};
ghost use Rattle.job_machine.specs.Machines.{asked_in, is_over, machine_after, task_code};
ghost use Rattle.step_scheduler.specs.Owned.{IsOwnIn};
ghost use Rattle.step_scheduler.specs.Tallies.{executed_sum};

use crate::counts::count_laws;
use crate::own::OwnFilled;
use job_machine::{Admission, Begun, Desk, Filled, Finished, Machine, Status};
use std::alloc::{AllocError, Allocator};
use std::marker::Brand;
use std::sync::ledger::{Book, Ledger, Share};

/// A ledger of a run, over a machine that had this rule, these jobs and this count of executed instructions when it
/// opened.
pub(crate) trait Opening: Ledger {
    ghost executed_before: { ℕ };

    ghost given_rule: { Rule };

    ghost given_tasks: { List Task };
}

impl Opening for Brand {
    ghost executed_before = { 0 };

    ghost given_rule = { First };

    ghost given_tasks = { [] };
}

/// What lies under the lock: the machine that was given to the run, with a book whose total is what it has executed
/// since the book was opened.
#[derive(Drop)]
pub(crate) struct GuardedMachine<L: Opening, A: Allocator> {
    machine: Machine<A>,
    book: Book<L>,
    ghost counted: { executed_sum machine ≡ L.executed_before + book.total },
    ghost same_rule: { machine.rule ≡ L.given_rule } by { Coded-set (Prim.hlevel codes) machine.rule L.given_rule },
    ghost same_tasks: { machine.tasks ≡ L.given_tasks } by { Coded-set (coded_list (task_code (Prim.hlevel codes)
        (job_code (Prim.hlevel codes) (Prim.hlevel codes) (Prim.hlevel codes)))) machine.tasks L.given_tasks },
}

/// One part of the ledger, with the number of instructions that it counts.
#[derive(Drop)]
pub(crate) struct WorkerShare<L: Opening> {
    share: Share<L>,
    count: u64,
    ghost one_part: { share.parts ≡ 1 },
    ghost counted: { share.amount ≡ count },
}

impl<L: Opening> WorkerShare<L> {
    /// A part of the ledger that counts no instruction.
    pub(crate) fn new(share: Share<L>) -> WorkerShare<L>
        requires parts { share.parts ≡ 1 }
        requires amount { share.amount ≡ 0 }
    {
        WorkerShare { share, count: 0 }
    }

    /// The part, and the number of instructions that it counts.
    pub(crate) fn into_parts(self) -> (Share<L>, u64)
        ensures parts { result.0.parts ≡ 1 }
        ensures amount { result.0.amount ≡ result.1 }
    {
        let WorkerShare { share, count } = self;
        (share, count)
    }
}

impl<L: Opening, A: Allocator> GuardedMachine<L, A> {
    pub(crate) fn new(machine: Machine<A>, book: Book<L>) -> GuardedMachine<L, A>
        requires counted { executed_sum machine ≡ L.executed_before + book.total }
        requires rule { machine.rule ≡ L.given_rule }
        requires tasks { machine.tasks ≡ L.given_tasks }
    {
        GuardedMachine { machine, book }
    }

    pub(crate) fn into_parts(self) -> (Machine<A>, Book<L>)
        ensures counted { executed_sum result.0 ≡ L.executed_before + result.1.total }
        ensures rule { result.0.rule ≡ L.given_rule }
        ensures tasks { result.0.tasks ≡ L.given_tasks }
    {
        let GuardedMachine { machine, book } = self;
        (machine, book)
    }

    /// Whether a job has ended and isn't collected.
    pub(crate) fn has_ended(&self, job: usize) -> bool {
        matches!(self.machine.status(job), Some(Status::Ended))
    }

    /// Admits the next job, if one can be admitted.
    pub(crate) fn admit(&mut self) -> Admission
        ensures answer { result ≡ admission_in self.old.machine }
        ensures state { self.new.machine ≡ machine_after Admit self.old.machine }
    {
        count_laws();
        let _jobs = self.machine.jobs();
        self.machine.admit()
    }

    /// Begins the next step of a job. If it has begun, its ticket is one of this machine.
    pub(crate) fn begin(&mut self, job: usize, desk: Desk<A>) -> Begun<A>
        ensures answer { BeginsIn job desk (of_job job self.old.machine.tasks)
            (of_job job self.old.machine.standings) result }
        ensures state { self.new.machine ≡ after_begun result self.old.machine
            (machine_after (Begin job) self.old.machine) }
        ensures own { IsOwnIn L.given_tasks result }
    {
        count_laws();
        let _jobs = self.machine.jobs();
        self.machine.begin(job, desk)
    }

    /// Commits a computed step of this machine, and adds the instruction to the share if it was executed.
    pub(crate) fn finish(
        &mut self,
        own: OwnFilled<L, A>,
        mine: &mut WorkerShare<L>,
    ) -> (Finished, Desk<A>)
        ensures answer { FinishesIn own.filled (of_job own.filled.job self.old.machine.tasks)
            (of_job own.filled.job self.old.machine.standings) result.0 }
        ensures desk { result.1 ≡ own.filled.words }
        ensures state { self.new.machine ≡ after_finished result.0 self.old.machine
            (machine_after (Finish own.filled.job) self.old.machine) }
        ensures counted { mine.new.count + executed_sum self.old.machine
            ≡ mine.old.count + executed_sum self.new.machine }
    {
        let GuardedMachine { machine, book } = self;
        let WorkerShare { share, count } = mine;
        let (finished, desk, executed) = finish_counted(machine, own.into_filled());
        count_laws();
        let _jobs = machine.jobs();
        book.audit(share);
        book.add(share, executed);
        *count += executed;
        (finished, desk)
    }
}

impl<L: Opening, A: Allocator + Clone> GuardedMachine<L, A> {
    /// Stores the outcome of a job that has ended; true if it had.
    ///
    /// # Errors
    ///
    /// [`AllocError`] if memory for the results was refused. Nothing changed then.
    pub(crate) fn collect(&mut self, job: usize) -> Result<bool, AllocError>
        ensures answer { IfOk result (λ yes. yes ≡ is_over (of_job job self.old.machine.standings)) }
        ensures state { OnOk result (self.new.machine ≡ machine_after (Collect job) self.old.machine) }
        ensures unchanged { OnErr result (self.new.machine ≡ self.old.machine) }
    {
        count_laws();
        let _jobs = self.machine.jobs();
        self.machine.collect(job)
    }
}

/// Commits a computed step of the machine, and answers how many instructions that has executed.
fn finish_counted<A: Allocator>(
    machine: &mut Machine<A>,
    filled: Filled<A>,
) -> (Finished, Desk<A>, u64)
    requires { asked_in machine.old.tasks filled.job filled.step ≡ Some filled.question }
    ensures answer { FinishesIn filled (of_job filled.job machine.old.tasks)
        (of_job filled.job machine.old.standings) result.0 }
    ensures desk { result.1 ≡ filled.words }
    ensures state { machine.new ≡ after_finished result.0 machine.old (machine_after (Finish filled.job) machine.old) }
    ensures counted { executed_sum machine.new ≡ executed_sum machine.old + result.2 }
{
    count_laws();
    let _jobs = machine.jobs();
    let job = filled.job();
    let before = machine.executed(job).unwrap_or(0);
    let (finished, desk) = machine.finish_own(filled);
    let after = machine.executed(job).unwrap_or(0);
    (finished, desk, after - before)
}
