//! Jobs that run by themselves, on lanes.

use crate::fronts::batches::{EXECUTED_BY_TWO, SECOND_RULE, machine_of_twelve};
use crate::machines::{REGION, machine};
use job_machine::{EndedJob, Lane, Machine, Status};
use std::alloc::Global;
use std::process::Abort;
use std::test::Fail;
use test_support::TWO_JOBS;

/// A job of a lane, run on it. The lane goes.
fn ended_on(lane: Lane<Global>, alloc: Global, job: usize) -> Result<EndedJob<Global>, Fail> {
    if job == 0 || job > lane.jobs() {
        drop(lane);
        return Err(Fail::from("there is no such job"));
    }
    let (lane, ended) = lane.run(alloc, job)?;
    drop(lane);
    Ok(ended)
}

/// A job of a machine, run on a lane.
fn ended(alloc: Global, machine: &Machine<Global>, job: usize) -> Result<EndedJob<Global>, Fail> {
    ended_on(machine.lane(alloc, REGION)?, alloc, job)
}

/// Whether a machine takes over the end of its second job.
fn takes_over_the_second(alloc: Global, machine: &mut Machine<Global>) -> Result<bool, Fail> {
    let second = ended(alloc, machine, 2)?;
    Ok(machine.adopt(second))
}

/// The second of two jobs is taken over, once.
fn the_second_is_taken_over(
    rt: &impl Abort,
    alloc: Global,
    machine: &mut Machine<Global>,
) -> Result<(), Fail> {
    assert!(rt; takes_over_the_second(alloc, machine)?);
    assert_eq!(rt; machine.status(1), Some(Status::Waiting));
    assert_eq!(rt; machine.status(2), Some(Status::Collected));
    assert_eq!(rt; machine.executed(2), Some(EXECUTED_BY_TWO[1]));
    assert!(rt; !takes_over_the_second(alloc, machine)?);
    Ok(())
}

/// The end of the first of the twelve jobs by the first rule.
fn end_by_the_first_rule(alloc: Global) -> Result<EndedJob<Global>, Fail> {
    let machine = machine_of_twelve(alloc, "")?;
    let ended = ended(alloc, &machine, 1);
    drop(machine);
    ended
}

/// A machine takes over no end of a job of another machine.
fn another_end_is_left(
    rt: &impl Abort,
    alloc: Global,
    machine: &mut Machine<Global>,
) -> Result<(), Fail> {
    let other = end_by_the_first_rule(alloc)?;
    assert!(rt; !machine.adopt(other));
    assert_eq!(rt; machine.status(1), Some(Status::Waiting));
    Ok(())
}

#[test]
fn a_machine_takes_over_an_end_once(rt: HostRuntime) -> Result<(), Fail> {
    let mut machine = machine(rt.alloc(), TWO_JOBS, REGION)?;
    let tried = the_second_is_taken_over(&rt, rt.alloc(), &mut machine);
    drop(machine);
    tried
}

#[test]
fn a_machine_takes_over_no_end_of_another_job(rt: HostRuntime) -> Result<(), Fail> {
    let mut machine = machine_of_twelve(rt.alloc(), SECOND_RULE)?;
    let tried = another_end_is_left(&rt, rt.alloc(), &mut machine);
    drop(machine);
    tried
}
