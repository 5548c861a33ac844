//! A worker: a thread that does one event of the machine in each hold of the lock.

use crate::gate::Gate;
use crate::guarded::{Opening, WorkerShare};
use crate::own::OwnFilled;
use crate::shared::{SharedMachine, Turn};
use job_machine::{Desk, Finished};
use std::alloc::Allocator;
use std::sync::Wait;

/// One hold of the lock. If there is nothing to go on with, it sleeps until that may have changed.
fn hold<L: Opening, A: Allocator + Clone, R: Wait>(
    rt: &R,
    shared: &SharedMachine<L, A>,
    job: Option<usize>,
    desk: Desk<A>,
) -> Turn<L, A> {
    let mut state = shared.lock(rt);
    match state.take_turn(job, desk) {
        Turn::Idle(desk) => {
            shared.sleep(rt, state);
            Turn::Moved(None, desk)
        }
        Turn::Over => {
            state.pool.leave();
            Turn::Over
        }
        turn => turn,
    }
}

/// The hold that finishes a computed step. The worker goes on with its job, unless there are too many workers for the
/// work outside the lock: then it leaves the job to the others and sleeps.
fn finish<L: Opening, A: Allocator, R: Wait>(
    rt: &R,
    shared: &SharedMachine<L, A>,
    mine: &mut WorkerShare<L>,
    own: OwnFilled<L, A>,
) -> (Option<usize>, Desk<A>) {
    let job = own.filled.job();
    let mut state = shared.lock(rt);
    let (finished, desk) = state.machine.finish(own, mine);
    match finished {
        Finished::Done if state.pool.has_too_many() => {
            state.pool.leave_open(job);
            shared.sleep(rt, state);
            (None, desk)
        }
        Finished::Done | Finished::Ended => (Some(job), desk),
        Finished::Stale => (None, desk),
    }
}

/// A hold of the lock, and if it has begun a step, its computation and the hold that finishes it. Answers the job with
/// which the worker goes on, if there is one, or None if nothing is left to do.
fn go_on<L: Opening, A: Allocator + Clone, R: Wait, G: Gate>(
    rt: &R,
    shared: &SharedMachine<L, A>,
    gate: &G,
    mine: &mut WorkerShare<L>,
    job: Option<usize>,
    desk: Desk<A>,
) -> Option<(Option<usize>, Desk<A>)> {
    match hold(rt, shared, job, desk) {
        Turn::Began { ticket, rings } => {
            if rings {
                shared.bell.notify_one();
            }
            gate.between(ticket.ticket.job(), ticket.ticket.step());
            let own = ticket.compute();
            Some(finish(rt, shared, mine, own))
        }
        Turn::Moved(job, desk) => Some((job, desk)),
        Turn::Refused(job, desk) => {
            gate.refused(job);
            Some((None, desk))
        }
        Turn::Idle(desk) => Some((None, desk)),
        Turn::Over => {
            shared.bell.notify_all();
            None
        }
    }
}

/// Runs jobs until nothing is left to do, or until memory is refused.
pub(crate) fn work<L: Opening, A: Allocator + Clone, R: Wait, G: Gate>(
    rt: &R,
    alloc: A,
    shared: &SharedMachine<L, A>,
    gate: &G,
    mine: &mut WorkerShare<L>,
) {
    let Ok(mut desk) = Desk::new(alloc, shared.words) else {
        return;
    };
    shared.lock(rt).pool.join();
    let mut job = None;
    for _ in rt.forever() {
        match go_on(rt, shared, gate, mine, job, desk) {
            Some((next, same)) => {
                job = next;
                desk = same;
            }
            None => return,
        }
    }
}
