//! A batch's jobs, run to their ends.

ghost use Rattle.std.specs.Prelude.{◌≡◌, ◌≤◌, All, IfOk, IfSome, IsErrOf, OnOk};
ghost use Rattle.job_steps.specs.Standings.{first_standings};
ghost use Rattle.job_machine.specs.Machines.{Leads};
ghost use Rattle.batch_front.specs.LoadedBatches.{IsWaiting, RanOut};
ghost use Rattle.batch_front.specs.ReportedJobs.{HasRunOut};
ghost use Rattle.batch_front.specs.Turns.{after_schedule};

use crate::follow::follow;
use crate::load::{Loaded, LoadedBatch};
use crate::options::Options;
use crate::reported_jobs::ReportedJob;
use job_lanes::run_lanes;
use job_machine::{Desk, Machine};
use std::alloc::{AllocError, Allocator};
use std::sync::Wait;
use std::thread::Threads;
use step_scheduler::{Gate, RunFault, run_workers};

/// Runs the jobs of a machine to their ends on a desk that serves each.
fn run_on_desk<A: Allocator + Clone>(
    machine: &mut Machine<A>,
    desk: Desk<A>,
) -> Result<(), AllocError>
    requires { All (λ task. task.limits.words ≤ desk) machine.old.tasks }
    ensures tasks { OnOk result (machine.new.tasks ≡ machine.old.tasks) }
    ensures out { OnOk result (HasRunOut machine.new) }
    ensures leads { Leads machine.old machine.new }
{
    let (done, _) = machine.run_out(desk);
    let _jobs = machine.jobs();
    done
}

/// Runs the jobs of a machine, which all wait, to their ends, first by the schedule, if there is one.
fn run_by_turns<A: Allocator + Copy>(
    alloc: A,
    machine: &mut Machine<A>,
    reported: &[ReportedJob<A>],
    options: &Options,
) -> Result<(), AllocError>
    requires { machine.old.standings ≡ first_standings machine.old.tasks }
    ensures tasks { OnOk result (machine.new.tasks ≡ machine.old.tasks) }
    ensures out { OnOk result (HasRunOut machine.new) }
    // Events lead to it from the standings in which the schedule has left the jobs.
    ensures followed { OnOk result (IfSome options.now.schedule
        (λ schedule. Leads (after_schedule reported.now schedule.items machine.old) machine.new)) }
{
    if let Some(schedule) = &options.schedule {
        follow(alloc, machine, reported, schedule)?;
    }
    let desk = Desk::new(alloc, machine.most_words())?;
    run_on_desk(machine, desk)
}

/// Runs the jobs of a batch, which all wait, to their ends on the calling thread, first by the schedule, if there is
/// one.
pub(crate) fn run_on_caller<A: Allocator + Copy>(
    alloc: A,
    batch: LoadedBatch<A>,
    options: &Options,
) -> Result<LoadedBatch<A>, AllocError>
    requires { IsWaiting batch }
    ensures { IfOk result (RanOut batch) }
{
    match batch {
        Loaded::Refused(line, fault) => Ok(Loaded::Refused(line, fault)),
        Loaded::Jobs(mut machine, reported) => {
            run_by_turns(alloc, &mut machine, reported.as_slice(), options)?;
            Ok(Loaded::Jobs(machine, reported))
        }
    }
}

/// Runs the jobs of a batch, which all wait, to their ends: on lanes if more than one is asked for, else on worker
/// threads, which pass the gate in the middle of each step.
pub(crate) fn run_on_threads<A, H, G>(
    rt: &H,
    alloc: A,
    batch: LoadedBatch<A>,
    options: &Options,
    gate: &G,
) -> Result<LoadedBatch<A>, RunFault>
where
    A: Allocator + Copy + Send + Sync,
    H: Threads + Wait + Sync,
    G: Gate + Sync,
    requires { IsWaiting batch }
    ensures out { IfOk result (RanOut batch) }
    ensures never_mixed { IsErrOf result RunFault.Mixed → ⊥ }
{
    match batch {
        Loaded::Refused(line, fault) => Ok(Loaded::Refused(line, fault)),
        Loaded::Jobs(machine, reported) => {
            let machine = if options.lanes > 1 {
                let region = options.region as usize;
                run_lanes(rt, alloc, machine, region, options.lanes as usize)?
            } else {
                run_workers(rt, alloc, machine, options.workers as usize, gate)?.0
            };
            let _jobs = machine.jobs();
            Ok(Loaded::Jobs(machine, reported))
        }
    }
}
