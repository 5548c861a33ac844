//! What the calling thread runs before it starts workers.

ghost use Rattle.std.specs.Prelude.{◌≡◌, ◌+◌, ◌*◌, ◌≤◌, All};
ghost use Rattle.vcode_base.specs.declared.limits.TheConstants.{MOST_BUDGET, MOST_JOBS};
ghost use Rattle.step_scheduler.specs.Tallies.{Continues, executed_sum};

use crate::counts::{count_laws, executed_in_all};
use crate::estimate::Estimate;
use job_machine::{Admission, Begun, Desk, Finished, Machine, Status, compute};
use std::alloc::Allocator;

/// How many steps are looked at, a long one counted as several.
const LOOKED_AT: u64 = 128;

/// How many are looked at if the first ones leave open whether workers pay.
const MOST_LOOKED_AT: u64 = 320;

/// Whether the steps that were looked at show that workers pay.
fn show_that_pay(seen: &Estimate) -> bool {
    seen.steps() >= LOOKED_AT && seen.pays()
}

/// Whether the steps that were looked at show whether workers pay.
fn is_enough(seen: &Estimate) -> bool {
    let steps = seen.steps();
    steps >= MOST_LOOKED_AT || steps >= LOOKED_AT && (seen.pays() || !seen.may_pay())
}

/// The first of the jobs that were admitted and aren't collected, and how many these are.
fn underway<A: Allocator>(machine: &Machine<A>) -> (Option<usize>, usize) {
    let mut first = None;
    let mut count = 0usize;
    for place in 0..machine.jobs() {
        if let Some(Status::Live | Status::InFlight | Status::Ended) = machine.status(place + 1) {
            first = first.or(Some(place + 1));
            count = count.saturating_add(1);
        }
    }
    (first, count)
}

/// Admits the next job, if one can be admitted.
fn admit_next<A: Allocator>(machine: &mut Machine<A>) -> Admission
    ensures { Continues machine.old machine.new }
{
    count_laws();
    let _jobs = machine.jobs();
    machine.admit()
}

/// Gives up the steps that have begun, and runs a job that was admitted to its end; true if it is collected then.
fn runs_to_its_end<A: Allocator + Clone>(
    machine: &mut Machine<A>,
    job: usize,
    desk: &mut Desk<A>,
) -> bool
    requires { All (λ task. task.limits.words ≤ desk.old) machine.old.tasks }
    ensures continues { Continues machine.old machine.new }
    ensures desk { desk.new ≡ desk.old }
{
    count_laws();
    let _jobs = machine.jobs();
    machine.recall_all();
    let _jobs = machine.jobs();
    machine.run_job(job, desk).is_ok()
}

/// Takes the next step of a job as a worker does, and adds it to what was seen. Answers whether the job goes on.
fn takes_step<A: Allocator + Clone>(
    machine: &mut Machine<A>,
    job: usize,
    desk: Desk<A>,
    seen: &mut Estimate,
) -> (bool, Desk<A>)
    ensures continues { Continues machine.old machine.new }
    ensures desk { result.1 ≡ desk }
{
    count_laws();
    let _jobs = machine.jobs();
    match machine.begin(job, desk) {
        Begun::Began(ticket) => {
            let _ = seen.add(&ticket);
            let _jobs = machine.jobs();
            let (finished, desk) = machine.finish_own(compute(ticket));
            (finished == Finished::Done, desk)
        }
        Begun::Ended(desk) | Begun::NotReady(desk) | Begun::SmallDesk(desk) => (false, desk),
    }
}

/// Collects a job, if it has ended and memory is there.
fn collect<A: Allocator + Clone>(machine: &mut Machine<A>, job: usize)
    ensures { Continues machine.old machine.new }
{
    count_laws();
    let _jobs = machine.jobs();
    let _ = machine.collect(job);
}

/// Carries out the first steps of a job, until they show whether workers pay, and collects it if it is over.
#[tactic(auto, using(crate::proofs::CountLemmas::continues_none))]
fn look_at<A: Allocator + Clone>(
    machine: &mut Machine<A>,
    job: usize,
    desk: Desk<A>,
    seen: &mut Estimate,
) -> Desk<A>
    ensures continues { Continues machine.old machine.new }
    ensures desk { result ≡ desk }
{
    let mut desk = desk;
    for _ in 0..MOST_LOOKED_AT {
        if is_enough(seen) {
            return desk;
        }
        let (goes_on, same) = takes_step(machine, job, desk, seen);
        desk = same;
        if !goes_on {
            collect(machine, job);
            return desk;
        }
    }
    desk
}

/// Looks at one job after another of those that were admitted, until that shows whether workers pay.
#[tactic(auto, using(crate::proofs::CountLemmas::continues_none))]
fn look<A: Allocator + Clone>(
    machine: &mut Machine<A>,
    desk: Desk<A>,
    seen: &mut Estimate,
) -> Desk<A>
    ensures continues { Continues machine.old machine.new }
    ensures desk { result ≡ desk }
{
    let mut desk = desk;
    for place in 0..machine.jobs() {
        if is_enough(seen) {
            return desk;
        }
        desk = look_at(machine, place + 1, desk, seen);
    }
    desk
}

/// Runs jobs until workers are to be started, or until it is known that they aren't; true if they are.
#[tactic(auto, using(crate::proofs::CountLemmas::continues_none))]
fn runs_until_workers_pay<A: Allocator + Clone>(
    machine: &mut Machine<A>,
    desk: Desk<A>,
    is_open: bool,
) -> (bool, Desk<A>)
    requires { All (λ task. task.limits.words ≤ desk) machine.old.tasks }
    ensures continues { Continues machine.old machine.new }
    ensures desk { result.1 ≡ desk }
{
    let mut desk = desk;
    let mut seen = Estimate::new();
    // Each turn admits a job, collects one, or looks at those that were admitted.
    for _ in 0..3 * machine.jobs() + 3 {
        if let Admission::Admitted(_) = admit_next(machine) {
            continue;
        }
        let (Some(first), count) = underway(machine) else {
            return (false, desk);
        };
        if count == 1 {
            if !runs_to_its_end(machine, first, &mut desk) {
                return (false, desk);
            }
        } else if !is_open || show_that_pay(&seen) {
            return (true, desk);
        } else if is_enough(&seen) {
            return (false, desk);
        } else {
            desk = look(machine, desk, &mut seen);
        }
    }
    (false, desk)
}

/// Runs jobs on this thread until workers are to be started, and none if there is only one worker: how many
/// instructions that has executed, and whether workers are to be started.
///
/// A job that can't run beside another one is run to its end. If two can run so and each step is to pass the gate, that
/// is to start them. If the gate is open, the first steps of jobs are looked at, which show whether workers pay.
pub(crate) fn run_first<A: Allocator + Clone>(
    machine: &mut Machine<A>,
    desk: Desk<A>,
    workers: usize,
    is_open: bool,
) -> (u64, bool, Desk<A>)
    requires { All (λ task. task.limits.words ≤ desk) machine.old.tasks }
    ensures rule { machine.new.rule ≡ machine.old.rule }
    ensures jobs { machine.new.tasks ≡ machine.old.tasks }
    ensures counted { executed_sum machine.new ≡ executed_sum machine.old + result.0 }
    ensures within { result.0 ≤ MOST_JOBS * MOST_BUDGET }
    ensures desk { result.2 ≡ desk }
{
    if workers == 1 {
        return (0, false, desk);
    }
    let before = executed_in_all(machine);
    let (starts, desk) = runs_until_workers_pay(machine, desk, is_open);
    (executed_in_all(machine) - before, starts, desk)
}
