//! A run of a machine's jobs by workers.

ghost use Rattle.std.specs.Prelude.{◌≡◌, ◌+◌, ◌*◌, ◌≤◌, sum, vec_len, All, IfOk, OnOk, IsErrOf};
ghost use Rattle.vcode_base.specs.declared.limits.TheConstants.{MOST_BUDGET, MOST_JOBS, MOST_WORKERS};
ghost use Rattle.job_steps.specs.Standings.{Collected};
ghost use Rattle.step_scheduler.specs.Tallies.{executed_sum};

use crate::counts::{count_laws, executed_in_all};
use crate::first::run_first;
use crate::gate::Gate;
use crate::guarded::{GuardedMachine, Opening, WorkerShare};
use crate::pool::WorkerPool;
use crate::shared::SharedMachine;
use crate::shares::{merge_shares, split_shares};
use crate::tally::{RunFault, Tally};
use crate::worker::work;
use job_machine::{Desk, Machine};
use std::alloc::{AllocError, Allocator};
use std::marker::Brand;
use std::sync::Wait;
use std::sync::ledger::{Blank, Ledger, Share};
use std::thread;
use std::thread::Threads;

/// Runs all jobs of a machine on at most `workers` threads, 1 to 16, and collects them.
///
/// Steps that have begun are given up first. The calling thread runs one job after another itself, until two jobs can
/// run beside one another. Then it carries out the first steps of jobs, without calls of the gate. If they show that
/// workers take less time than this thread alone, it starts workers, as many as there are jobs left at most. If not, as
/// for short steps, it runs all jobs, and so it does if one worker is asked for. If the gate isn't
/// [open](Gate::is_open), it starts workers as soon as two jobs can run beside one another.
///
/// A worker that can't be started, or that memory is refused to, is missed. If after about a thousand steps the calling
/// thread alone would take less time, the workers end. What they leave is run out on the calling thread, without calls
/// of the gate.
///
/// The machine that comes back has the rule and the jobs of the one that was given, in order, all collected. The tally
/// has a number for each worker, 0 if it wasn't started; they and the caller's add up to the instructions that the jobs
/// executed by this call.
///
/// # Errors
///
/// [`RunFault::Memory`] if memory was refused for the desk of the calling thread or for the tally, or for the results
/// of a job when the calling thread tried last. The machine is dropped then. [`RunFault::Mixed`] is never answered: the
/// machine that the workers leave has the jobs that were given, by its type.
pub fn run_workers<A, R, G>(
    rt: &R,
    alloc: A,
    machine: Machine<A>,
    workers: usize,
    gate: &G,
) -> Result<(Machine<A>, Tally<A>), RunFault>
where
    A: Allocator + Copy + Send + Sync,
    R: Threads + Wait + Sync,
    G: Gate + Sync,
    requires workers { (1 ≤ workers) × (workers ≤ MOST_WORKERS) }
    ensures rule { IfOk result (λ ran. ran.0.rule ≡ machine.rule) }
    ensures jobs { IfOk result (λ ran. ran.0.tasks ≡ machine.tasks) }
    ensures collected { IfOk result (λ ran. All (λ standing. standing ≡ Collected) ran.0.standings) }
    ensures workers { IfOk result (λ ran. vec_len ran.1.workers ≡ workers) }
    ensures counted { IfOk result (λ ran. executed_sum ran.0
        ≡ executed_sum machine + (sum ran.1.workers.items + ran.1.caller)) }
    ensures never_mixed { IsErrOf result RunFault.Mixed → ⊥ }
{
    let mut machine = machine;
    let desk = Desk::new(alloc, machine.most_words())?;
    let (first, starts, desk) = run_first(&mut machine, desk, workers, gate.is_open());
    let (mut machine, workers) = run_shared(rt, alloc, machine, workers, starts, gate)?;
    let rest = run_out(&mut machine, desk)?;
    let caller = first + rest;
    Ok((machine, Tally { workers, caller }))
}

/// Lets workers run the machine's jobs, if they are to be started: the machine that they leave, and how many
/// instructions each of them has executed.
///
/// # Errors
///
/// [`AllocError`] if memory for the pool, for the workers' shares or for their counts was refused.
fn run_shared<A, R, G>(
    rt: &R,
    alloc: A,
    machine: Machine<A>,
    workers: usize,
    starts: bool,
    gate: &G,
) -> Result<(Machine<A>, Vec<u64, A>), AllocError>
where
    A: Allocator + Copy + Send + Sync,
    R: Threads + Wait + Sync,
    G: Gate + Sync,
    requires workers { workers ≤ MOST_WORKERS }
    ensures rule { IfOk result (λ left. left.0.rule ≡ machine.rule) }
    ensures tasks { IfOk result (λ left. left.0.tasks ≡ machine.tasks) }
    ensures workers { IfOk result (λ left. vec_len left.1 ≡ workers) }
    ensures counted { IfOk result (λ left. executed_sum left.0 ≡ executed_sum machine + sum left.1.items) }
{
    if !starts {
        let counts = vec![in alloc; 0; workers]?;
        return Ok((machine, counts));
    }
    let blank = Blank::new(workers as u64 + 1);
    run_threads::<Brand, A, R, G>(rt, alloc, machine, workers, gate, blank)
}

/// Gives up the steps that have begun, and lets workers run the machine's jobs: the machine that they leave, and how
/// many instructions each of them has executed.
///
/// # Errors
///
/// [`AllocError`] if memory for the pool, for the workers' shares or for their counts was refused.
fn run_threads<L, A, R, G>(
    rt: &R,
    alloc: A,
    machine: Machine<A>,
    workers: usize,
    gate: &G,
    blank: Blank,
) -> Result<(Machine<A>, Vec<u64, A>), AllocError>
where
    L: Opening + Send + Sync,
    A: Allocator + Copy + Send + Sync,
    R: Threads + Wait + Sync,
    G: Gate + Sync,
    requires workers { workers ≤ MOST_WORKERS }
    requires name { blank.name ≡ L.name }
    requires parts { (blank.parts ≡ L.parts) × (blank.parts ≡ workers + 1) }
    requires before { executed_sum machine ≡ L.executed_before }
    requires rule { machine.rule ≡ L.given_rule }
    requires tasks { machine.tasks ≡ L.given_tasks }
    ensures rule { IfOk result (λ left. left.0.rule ≡ L.given_rule) }
    ensures tasks { IfOk result (λ left. left.0.tasks ≡ L.given_tasks) }
    ensures workers { IfOk result (λ left. vec_len left.1 ≡ workers) }
    ensures counted { IfOk result (λ left. executed_sum left.0 ≡ L.executed_before + sum left.1.items) }
{
    let mut machine = machine;
    let words = machine.most_words();
    count_laws();
    machine.recall_all();
    let pool = WorkerPool::new(alloc, &machine, workers)?;
    let crew = pool.crew();
    let (book, mut all) = blank.open::<L>();
    let mut shares = split_shares(alloc, &mut all, workers)?;
    let shared = SharedMachine::new(GuardedMachine::new(machine, book), pool, words);
    start_workers(rt, alloc, &shared, gate, &mut shares, crew);
    take_back(alloc, shared.into_inner(), all, shares)
}

/// The machine that the workers leave, and how many instructions each of them has executed.
///
/// # Errors
///
/// [`AllocError`] if memory for the counts was refused.
fn take_back<L: Opening, A: Allocator>(
    alloc: A,
    guarded: GuardedMachine<L, A>,
    all: Share<L>,
    shares: Vec<WorkerShare<L>, A>,
) -> Result<(Machine<A>, Vec<u64, A>), AllocError>
    requires parts { all.parts + vec_len shares ≡ L.parts }
    requires amount { all.amount ≡ 0 }
    ensures rule { IfOk result (λ back. back.0.rule ≡ L.given_rule) }
    ensures tasks { IfOk result (λ back. back.0.tasks ≡ L.given_tasks) }
    ensures workers { IfOk result (λ back. vec_len back.1 ≡ vec_len shares) }
    ensures counted { IfOk result (λ back. executed_sum back.0 ≡ L.executed_before + sum back.1.items) }
{
    let (machine, mut book) = guarded.into_parts();
    let mut all = all;
    let workers = merge_shares(alloc, &mut all, shares)?;
    book.audit(&mut all);
    Ok((machine, workers))
}

/// Starts a worker for each of the first `crew` shares, and waits until all are done. One that can't be started is
/// missed.
fn start_workers<L, A, R, G>(
    rt: &R,
    alloc: A,
    shared: &SharedMachine<L, A>,
    gate: &G,
    shares: &mut Vec<WorkerShare<L>, A>,
    crew: usize,
)
where
    L: Opening + Send + Sync,
    A: Allocator + Copy + Send + Sync,
    R: Threads + Wait + Sync,
    G: Gate + Sync,
    ensures { vec_len shares.new ≡ vec_len shares.old }
{
    let count = crew.min(shares.len());
    let shares = &mut shares.as_mut_slice()[..count];
    thread::scope(thread::scope_env(), rt, |scope| {
        for mine in shares.iter_mut() {
            let _ = scope.spawn(move || work(rt, alloc, shared, gate, mine));
        }
    });
}

/// Runs what is left on this thread, on a desk of at least the words of each job, and counts it.
///
/// # Errors
///
/// [`AllocError`] if memory for the results of a job was refused.
fn run_out<A: Allocator + Clone>(machine: &mut Machine<A>, desk: Desk<A>) -> Result<u64, AllocError>
    requires { All (λ task. task.limits.words ≤ desk) machine.old.tasks }
    ensures rule { machine.new.rule ≡ machine.old.rule }
    ensures jobs { machine.new.tasks ≡ machine.old.tasks }
    ensures collected { OnOk result (All (λ standing. standing ≡ Collected) machine.new.standings) }
    ensures counted { IfOk result (λ count. executed_sum machine.new ≡ executed_sum machine.old + count) }
    ensures within { IfOk result (λ count. count ≤ MOST_JOBS * MOST_BUDGET) }
{
    count_laws();
    let _jobs = machine.jobs();
    let before = executed_in_all(machine);
    let (done, _) = machine.run_out(desk);
    done?;
    Ok(executed_in_all(machine) - before)
}
