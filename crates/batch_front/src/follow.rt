//! The turns that jobs take by a schedule.

ghost use Rattle.std.specs.Prelude.{◌≡◌, OnOk};
ghost use Rattle.job_steps.specs.Standings.{first_standings, of_job};
ghost use Rattle.job_machine.specs.Workbench.{WorkbenchFits};
ghost use Rattle.job_machine.specs.Machines.{is_over};
ghost use Rattle.batch_front.specs.Turns.{NoneEnded, IsSettled, IsSettledBut, SettlesAs};
ghost use Rattle.batch_front.specs.Turns.{after_item, after_schedule, after_turn, number_of, settled};

use crate::reported_jobs::{ReportedJob, number_of};
use crate::schedule::Item;
use job_machine::{Event, Machine, Status, Workbench};
use job_steps::laws::{
    admitted_have_room, closed_change_nothing, events_change_their_job, others_stay,
};
use std::alloc::{AllocError, Allocator};

/// Admits one job after another, as many as can be admitted, if none has ended.
fn admit_all<A: Allocator + Clone>(
    machine: &mut Machine<A>,
    workbench: &mut Workbench<A>,
) -> Result<(), AllocError>
    requires fit { WorkbenchFits machine.old workbench.old }
    requires none_ended { NoneEnded machine.old }
    ensures { OnOk result (SettlesAs (settled machine.old) machine.old machine.new workbench.new) }
{
    admitted_have_room();
    closed_change_nothing();
    events_change_their_job();
    let jobs = machine.jobs();
    for _ in 0..jobs {
        machine.play(Event::Admit, workbench)?;
    }
    Ok(())
}

/// Whether the job of this number has ended and isn't collected.
fn has_ended<A: Allocator>(machine: &Machine<A>, job: usize) -> bool
    ensures { result ≡ is_over (of_job job machine.now.standings) }
{
    match machine.status(job) {
        Some(Status::Ended) => true,
        _ => false,
    }
}

/// Collects the job of this number, if it has ended, and admits as many as can be admitted then.
fn settle<A: Allocator + Clone>(
    machine: &mut Machine<A>,
    workbench: &mut Workbench<A>,
    job: usize,
) -> Result<(), AllocError>
    requires fit { WorkbenchFits machine.old workbench.old }
    requires others_settled { IsSettledBut job machine.old }
    ensures { OnOk result (SettlesAs (settled machine.old) machine.old machine.new workbench.new) }
{
    closed_change_nothing();
    events_change_their_job();
    others_stay();
    let _jobs = machine.jobs();
    if !has_ended(machine, job) {
        return Ok(());
    }
    machine.play(Event::Collect(job), workbench)?;
    admit_all(machine, workbench)?;
    Ok(())
}

/// Lets the job of this number take its turn.
fn take_turn<A: Allocator + Clone>(
    machine: &mut Machine<A>,
    workbench: &mut Workbench<A>,
    job: usize,
    item: Item,
) -> Result<(), AllocError>
    requires fit { WorkbenchFits machine.old workbench.old }
    requires settled { IsSettled machine.old }
    ensures state { OnOk result (machine.new ≡ after_turn item job machine.old) }
    ensures others_settled { OnOk result (IsSettledBut job machine.new) }
    ensures tasks { OnOk result (machine.new.tasks ≡ machine.old.tasks) }
    ensures fit { OnOk result (WorkbenchFits machine.new workbench.new) }
{
    others_stay();
    match item {
        Item::Step(_) => {
            machine.play_step(job, workbench);
            Ok(())
        }
        Item::Begin(_) => machine.play(Event::Begin(job), workbench),
        Item::Finish(_) => machine.play(Event::Finish(job), workbench),
    }
}

/// Does what an item asks of the job at its place in the batch, if there is one that may run, and lets the machine
/// settle.
fn follow_item<A: Allocator + Clone>(
    machine: &mut Machine<A>,
    workbench: &mut Workbench<A>,
    reported: &[ReportedJob<A>],
    item: Item,
) -> Result<(), AllocError>
    requires fit { WorkbenchFits machine.old workbench.old }
    requires settled { IsSettled machine.old }
    ensures { OnOk result (SettlesAs (after_item reported.now item machine.old) machine.old machine.new workbench.new) }
{
    closed_change_nothing();
    let Some(job) = number_of(reported, item.place()) else {
        return Ok(());
    };
    take_turn(machine, workbench, job, item)?;
    settle(machine, workbench, job)
}

/// Lets the jobs of a batch, which all wait, take their turns by a schedule. What has begun at its end isn't finished.
pub(crate) fn follow<A: Allocator + Clone>(
    alloc: A,
    machine: &mut Machine<A>,
    reported: &[ReportedJob<A>],
    schedule: &[Item],
) -> Result<(), AllocError>
    requires { machine.old.standings ≡ first_standings machine.old.tasks }
    ensures state { OnOk result (machine.new ≡ after_schedule reported.now schedule.now machine.old) }
    ensures tasks { OnOk result (machine.new.tasks ≡ machine.old.tasks) }
{
    let mut workbench = Workbench::new(alloc, machine)?;
    admit_all(machine, &mut workbench)?;
    for item in schedule {
        follow_item(machine, &mut workbench, reported, *item)?;
    }
    Ok(())
}
