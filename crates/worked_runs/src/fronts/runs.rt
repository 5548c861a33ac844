//! Runs by workers.

ghost use Rattle.std.specs.Prelude.{◌≤◌};
ghost use Rattle.vcode_base.specs.declared.limits.TheConstants.{MOST_WORKERS};

use crate::fronts::batches::{
    DIVISION_WORDS, DIVISIONS, EXECUTED_BY_DIVISIONS, EXECUTED_BY_THE_SECOND_RULE,
    EXECUTED_BY_TWELVE, EXECUTED_BY_TWO, SECOND_RULE, machine_of_twelve,
};
use crate::fronts::calls::Calls;
use crate::fronts::meeting::Meeting;
use crate::machines::{REGION, machine};
use job_machine::{Admission, Begun, Desk, Filled, Finished, Machine, Status, compute};
use std::alloc::Global;
use std::process::Abort;
use std::rt::Clock;
use std::sync::Wait;
use std::test::Fail;
use std::thread::Threads;
use step_scheduler::{Gate, NoGate, Tally, run_workers};
use test_support::TWO_JOBS;

/// The machine that these workers, which pass this gate, hand back.
fn ran<R, G>(
    rt: &R,
    alloc: Global,
    machine: Machine<Global>,
    workers: usize,
    gate: &G,
) -> Result<(Machine<Global>, Tally<Global>), Fail>
where
    R: Threads + Wait + Sync,
    G: Gate + Sync,
    requires { (1 ≤ workers) × (workers ≤ MOST_WORKERS) }
{
    match run_workers(rt, alloc, machine, workers, gate) {
        Ok(ran) => Ok(ran),
        Err(_) => Err(Fail::from("the run gave up")),
    }
}

/// Each job of a machine is collected and has executed its number of instructions.
fn have_executed(rt: &impl Abort, machine: &Machine<Global>, executed: &[u64]) {
    let mut job = 0usize;
    for count in executed {
        job = job.wrapping_add(1);
        assert_eq!(rt; machine.status(job), Some(Status::Collected));
        assert_eq!(rt; machine.executed(job), Some(*count));
    }
}

/// How many instructions workers and the calling thread have executed.
#[derive(Clone, Copy)]
struct Shares {
    /// How many workers there are.
    count: usize,
    /// What each worker has executed at least.
    least: u64,
    /// What the workers have executed together.
    workers: u64,
    caller: u64,
}

fn shares_of(tally: &Tally<Global>) -> Shares {
    let mut least = u64::MAX;
    let mut workers = 0u64;
    for count in &tally.workers {
        least = least.min(*count);
        workers = workers.wrapping_add(*count);
    }
    Shares {
        count: tally.workers.len(),
        least,
        workers,
        caller: tally.caller,
    }
}

/// Workers, which pass this gate, run a machine, whose jobs have then executed these numbers of instructions.
fn shares_of_run<R, G>(
    rt: &R,
    alloc: Global,
    machine: Machine<Global>,
    workers: usize,
    gate: &G,
    executed: &[u64],
) -> Result<Shares, Fail>
where
    R: Abort + Threads + Wait + Sync,
    G: Gate + Sync,
    requires { (1 ≤ workers) × (workers ≤ MOST_WORKERS) }
{
    let (machine, tally) = ran(rt, alloc, machine, workers, gate)?;
    let shares = shares_of(&tally);
    drop(tally);
    have_executed(rt, &machine, executed);
    drop(machine);
    Ok(shares)
}

/// Two workers run the two jobs, whose first steps meet.
fn shares_of_a_meeting<R>(rt: &R, alloc: Global) -> Result<Shares, Fail>
where
    R: Abort + Clock + Threads + Wait + Sync,
{
    let machine = machine(alloc, TWO_JOBS, REGION)?;
    let gate = Meeting::new(rt);
    let shares = shares_of_run(rt, alloc, machine, 2, &gate, &EXECUTED_BY_TWO);
    gate.has_let_pass(rt, 6);
    shares
}

#[test]
fn two_workers_compute_at_once(rt: HostRuntime) -> Result<(), Fail> {
    let shares = shares_of_a_meeting(&rt, rt.alloc())?;
    assert_eq!(rt; (shares.count, shares.workers, shares.caller), (2, 6, 0));
    assert!(rt; shares.least > 0);
    Ok(())
}

/// The run of the twelve jobs after this line by `workers` workers. No worker goes on with a job that another has.
fn shares_of_twelve<R>(
    rt: &R,
    alloc: Global,
    rule_line: &str,
    workers: usize,
    executed: &[u64],
) -> Result<Shares, Fail>
where
    R: Abort + Threads + Wait + Sync,
    requires { (1 ≤ workers) × (workers ≤ MOST_WORKERS) }
{
    let machine = machine_of_twelve(alloc, rule_line)?;
    let gate = Calls::new();
    let shares = shares_of_run(rt, alloc, machine, workers, &gate, executed);
    assert_eq!(rt; gate.refused_jobs(), 0);
    shares
}

/// This many workers have executed all instructions, and the calling thread none; but one worker alone isn't started.
fn are_shared(rt: &impl Abort, shares: Shares, workers: usize, executed: u64) {
    assert_eq!(rt; shares.count, workers);
    let wanted = if workers > 1 {
        (executed, 0)
    } else {
        (0, executed)
    };
    assert_eq!(rt; (shares.workers, shares.caller), wanted);
}

/// These workers execute what the twelve jobs execute by each rule.
fn execute_the_twelve<R>(rt: &R, alloc: Global, workers: usize) -> Result<(), Fail>
where
    R: Abort + Threads + Wait + Sync,
    requires { (1 ≤ workers) × (workers ≤ MOST_WORKERS) }
{
    let first = shares_of_twelve(rt, alloc, "", workers, &EXECUTED_BY_TWELVE)?;
    are_shared(rt, first, workers, 35);
    let by_second = &EXECUTED_BY_THE_SECOND_RULE;
    let second = shares_of_twelve(rt, alloc, SECOND_RULE, workers, by_second)?;
    are_shared(rt, second, workers, 40);
    Ok(())
}

#[test]
fn each_number_of_workers_executes_the_same(rt: HostRuntime) -> Result<(), Fail> {
    execute_the_twelve(&rt, rt.alloc(), 1)?;
    execute_the_twelve(&rt, rt.alloc(), 2)?;
    execute_the_twelve(&rt, rt.alloc(), 16)
}

/// The first step of job 1, which has begun on a machine of jobs that wait, and is computed.
fn first_step(
    rt: &impl Abort,
    alloc: Global,
    machine: &mut Machine<Global>,
) -> Result<Filled<Global>, Fail> {
    assert_eq!(rt; machine.admit(), Admission::Admitted(1));
    match machine.begin(1, Desk::new(alloc, 8)?) {
        Begun::Began(ticket) => Ok(compute(ticket)),
        others => {
            drop(others);
            Err(Fail::from("no step has begun"))
        }
    }
}

/// The two jobs of a machine have run, and a step of the first, which was given up, isn't finished.
fn is_given_up(rt: &impl Abort, machine: &mut Machine<Global>, filled: Filled<Global>) {
    have_executed(rt, machine, &EXECUTED_BY_TWO);
    let (finished, desk) = machine.finish(filled);
    drop(desk);
    assert_eq!(rt; finished, Finished::Stale);
}

/// Workers run the two jobs of a machine, the first of which has begun this step.
fn workers_give_up<R>(
    rt: &R,
    alloc: Global,
    machine: Machine<Global>,
    filled: Filled<Global>,
) -> Result<Shares, Fail>
where
    R: Abort + Threads + Wait + Sync,
{
    match ran(rt, alloc, machine, 2, &Calls::new()) {
        Ok((mut machine, tally)) => {
            is_given_up(rt, &mut machine, filled);
            drop(machine);
            let shares = shares_of(&tally);
            drop(tally);
            Ok(shares)
        }
        Err(fail) => {
            drop(filled);
            Err(fail)
        }
    }
}

/// The same of a machine, whose first job begins a step.
fn shares_beside_a_step<R>(
    rt: &R,
    alloc: Global,
    mut machine: Machine<Global>,
) -> Result<Shares, Fail>
where
    R: Abort + Threads + Wait + Sync,
{
    match first_step(rt, alloc, &mut machine) {
        Ok(filled) => workers_give_up(rt, alloc, machine, filled),
        Err(fail) => {
            drop(machine);
            Err(fail)
        }
    }
}

#[test]
fn a_step_that_has_begun_is_given_up(rt: HostRuntime) -> Result<(), Fail> {
    let machine = machine(rt.alloc(), TWO_JOBS, REGION)?;
    let shares = shares_beside_a_step(&rt, rt.alloc(), machine)?;
    assert_eq!(rt; (shares.workers, shares.caller), (6, 0));
    Ok(())
}

#[test]
fn short_steps_start_no_worker(rt: HostRuntime) -> Result<(), Fail> {
    let machine = machine(rt.alloc(), TWO_JOBS, REGION)?;
    let shares = shares_of_run(&rt, rt.alloc(), machine, 2, &NoGate, &EXECUTED_BY_TWO)?;
    assert_eq!(rt; (shares.count, shares.workers, shares.caller), (2, 0, 6));
    Ok(())
}

#[test]
fn long_steps_start_workers(rt: HostRuntime) -> Result<(), Fail> {
    let machine = machine(rt.alloc(), DIVISIONS, DIVISION_WORDS)?;
    let executed = &EXECUTED_BY_DIVISIONS;
    let shares = shares_of_run(&rt, rt.alloc(), machine, 2, &NoGate, executed)?;
    assert!(rt; shares.workers > 0);
    assert_eq!(rt; shares.workers.wrapping_add(shares.caller), 44);
    Ok(())
}
