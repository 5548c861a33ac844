//! A run of a machine's jobs by lanes.

ghost use Rattle.std.specs.Prelude.{◌≡◌, ◌≤◌, All, IfOk, OnOk};
ghost use Rattle.vcode_base.specs.declared.limits.TheConstants.{MOST_WORDS};
ghost use Rattle.job_steps.specs.Standings.{Collected};

use crate::dealer::Dealer;
use job_machine::{Desk, EndedJob, Lane, Machine};
use std::alloc::{AllocError, Allocator};
use std::sync::Wait;
use std::thread;
use std::thread::Threads;

/// The most lanes; there is at least 1.
pub const MOST_LANES: usize = 16;

/// Runs all jobs of a machine to their ends on at most `lanes` lanes, and collects them.
///
/// Each lane has a region of `region` words, or as many as the largest job has, and runs one job after another. The
/// calling thread has the first lane; each other one has a thread. A lane takes the job with the greatest budget that
/// no other has taken. A lane that memory is refused to ends, and a thread that can't be started is missed. What the
/// lanes leave is run out on the calling thread, over the machine's own region, once theirs are given back.
///
/// The machine that comes back has the rule and the jobs of the one that was given, in order, all collected. So how
/// each job ended and what it used is the same for any number of lanes.
///
/// # Errors
///
/// [`AllocError`] if memory was refused for the desk of the calling thread, or for the results of a job when the
/// calling thread tried last. The machine is dropped then.
pub fn run_lanes<A, R>(
    rt: &R,
    alloc: A,
    machine: Machine<A>,
    region: usize,
    lanes: usize,
) -> Result<Machine<A>, AllocError>
where
    A: Allocator + Copy + Send + Sync,
    R: Threads + Wait + Sync,
    requires { region ≤ MOST_WORDS }
    ensures rule { IfOk result (λ ran. ran.rule ≡ machine.rule) }
    ensures jobs { IfOk result (λ ran. ran.tasks ≡ machine.tasks) }
    ensures collected { IfOk result (λ ran. All (λ standing. standing ≡ Collected) ran.standings) }
{
    let mut machine = machine;
    let desk = Desk::new(alloc, machine.most_words())?;
    run_apart(rt, alloc, &mut machine, region, lanes);
    run_out(&mut machine, desk)?;
    Ok(machine)
}

/// Lets lanes run the machine's jobs, as far as memory and threads are there.
fn run_apart<A, R>(rt: &R, alloc: A, machine: &mut Machine<A>, region: usize, lanes: usize)
where
    A: Allocator + Copy + Send + Sync,
    R: Threads + Wait + Sync,
    requires { region ≤ MOST_WORDS }
    ensures rule { machine.new.rule ≡ machine.old.rule }
    ensures jobs { machine.new.tasks ≡ machine.old.tasks }
{
    if let Ok(ends) = ends_on_lanes(rt, alloc, machine, region, lanes) {
        adopt_all(machine, ends);
    }
}

/// The ends of the jobs that lanes have run.
///
/// # Errors
///
/// [`AllocError`] if memory for the first lane or for the lists was refused. No job has run then.
fn ends_on_lanes<A, R>(
    rt: &R,
    alloc: A,
    machine: &Machine<A>,
    region: usize,
    lanes: usize,
) -> Result<Vec<EndedJob<A>, A>, AllocError>
where
    A: Allocator + Copy + Send + Sync,
    R: Threads + Wait + Sync,
    requires { region ≤ MOST_WORDS }
{
    let lane = machine.lane(alloc, region)?;
    let dealer = Dealer::new(alloc, machine, region)?;
    let others = lanes.min(machine.jobs()).saturating_sub(1);
    work_beside(rt, alloc, machine, &dealer, lane, others);
    Ok(dealer.into_ends())
}

/// Runs jobs on this lane, and on others beside it, each on a thread, until no job is left.
fn work_beside<A, R>(
    rt: &R,
    alloc: A,
    machine: &Machine<A>,
    dealer: &Dealer<A>,
    lane: Lane<A>,
    others: usize,
)
where
    A: Allocator + Copy + Send + Sync,
    R: Threads + Wait + Sync,
{
    thread::scope(thread::scope_env(), rt, |scope| {
        for _ in 0..others {
            let _ = scope.spawn(move || begin(rt, alloc, machine, dealer));
        }
        work(rt, alloc, dealer, lane);
    });
}

/// Runs jobs on a lane of its own, if memory for it is there, until no job is left.
fn begin<A: Allocator + Copy, R: Wait>(rt: &R, alloc: A, machine: &Machine<A>, dealer: &Dealer<A>) {
    if let Ok(lane) = machine.lane(alloc, dealer.region) {
        work(rt, alloc, dealer, lane);
    }
}

/// Runs jobs on a lane until no job is left or memory is refused.
fn work<A: Allocator + Copy, R: Wait>(rt: &R, alloc: A, dealer: &Dealer<A>, lane: Lane<A>) {
    let mut lane = lane;
    for _ in 0..lane.jobs() {
        let Some(job) = dealer.take(rt) else {
            return;
        };
        let Some((same, ended)) = run_job(alloc, lane, job) else {
            return;
        };
        lane = same;
        dealer.put(rt, ended);
    }
}

/// Runs a job on a lane. `None` if memory was refused, or if there is no such job; the lane is dropped then.
fn run_job<A: Allocator + Copy>(
    alloc: A,
    lane: Lane<A>,
    job: usize,
) -> Option<(Lane<A>, EndedJob<A>)> {
    if job == 0 || job > lane.jobs() {
        return None;
    }
    lane.run(alloc, job).ok()
}

/// Takes over the ends of jobs that ran by themselves.
fn adopt_all<A: Allocator>(machine: &mut Machine<A>, ends: Vec<EndedJob<A>, A>)
    ensures rule { machine.new.rule ≡ machine.old.rule }
    ensures jobs { machine.new.tasks ≡ machine.old.tasks }
{
    for ended in ends {
        adopt(machine, ended);
    }
}

/// Takes over the end of a job that ran by itself.
fn adopt<A: Allocator>(machine: &mut Machine<A>, ended: EndedJob<A>)
    ensures rule { machine.new.rule ≡ machine.old.rule }
    ensures jobs { machine.new.tasks ≡ machine.old.tasks }
{
    machine.adopt(ended);
}

/// Runs what is left on this thread, on a desk of at least the words of each job.
///
/// # Errors
///
/// [`AllocError`] if memory for the results of a job was refused.
fn run_out<A: Allocator + Clone>(machine: &mut Machine<A>, desk: Desk<A>) -> Result<(), AllocError>
    requires { All (λ task. task.limits.words ≤ desk) machine.old.tasks }
    ensures rule { machine.new.rule ≡ machine.old.rule }
    ensures jobs { machine.new.tasks ≡ machine.old.tasks }
    ensures collected { OnOk result (All (λ standing. standing ≡ Collected) machine.new.standings) }
{
    let (done, _) = machine.run_out(desk);
    done
}
