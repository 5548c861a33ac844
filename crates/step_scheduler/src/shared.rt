//! What the workers of a run share, under a lock.

ghost use Rattle.std.specs.Prelude.{◌≤◌};
ghost use Rattle.vcode_base.specs.declared.limits.TheConstants.{MOST_WORDS};

use crate::guarded::{GuardedMachine, Opening};
use crate::own::OwnTicket;
use crate::pool::WorkerPool;
use job_machine::{Admission, Begun, Desk};
use std::alloc::Allocator;
use std::hint;
use std::sync::{Condvar, Mutex, MutexGuard, Wait};

/// How often a worker tries to take the lock before it sleeps until the lock is free.
const MOST_TRIES: u32 = 2_000;

/// What lies under the lock.
#[derive(Drop)]
pub(crate) struct SharedState<L: Opening, A: Allocator> {
    pub(crate) machine: GuardedMachine<L, A>,
    pub(crate) pool: WorkerPool<A>,
}

/// A machine that workers share.
#[derive(Drop)]
pub(crate) struct SharedMachine<L: Opening, A: Allocator> {
    state: Mutex<SharedState<L, A>>,
    /// Wakes workers that sleep.
    pub(crate) bell: Condvar,
    /// The words of each worker's desk.
    pub(crate) words: usize,
    ghost within: { words ≤ MOST_WORDS },
}

/// What a worker has done in a hold of the lock.
pub(crate) enum Turn<L: Opening, A: Allocator> {
    /// It has begun a step, which it is to compute.
    Began {
        ticket: OwnTicket<L, A>,
        /// Whether it is to ring a sleeper first.
        rings: bool,
    },
    /// It has done another event, and goes on with this job, if there is one.
    Moved(Option<usize>, Desk<A>),
    /// The job that it was to go on with can't begin a step.
    Refused(usize, Desk<A>),
    /// It found nothing to go on with for now.
    Idle(Desk<A>),
    /// There is nothing left to go on with, memory for results was refused, or the rest is left to the calling thread.
    Over,
}

impl<L: Opening, A: Allocator> SharedMachine<L, A> {
    /// A machine for workers whose desks have `words` words.
    pub(crate) fn new(
        machine: GuardedMachine<L, A>,
        pool: WorkerPool<A>,
        words: usize,
    ) -> SharedMachine<L, A>
        requires { words ≤ MOST_WORDS }
    {
        SharedMachine {
            state: Mutex::new(SharedState { machine, pool }),
            bell: Condvar::new(),
            words,
        }
    }

    /// The machine, which no worker has any more.
    pub(crate) fn into_inner(self) -> GuardedMachine<L, A> {
        let SharedMachine { state, .. } = self;
        let SharedState { machine, .. } = state.into_inner();
        machine
    }

    /// Takes the lock.
    pub(crate) fn lock<R: Wait>(&self, rt: &R) -> MutexGuard<'_, SharedState<L, A>> {
        for _ in 0..MOST_TRIES {
            if let Some(state) = self.state.try_lock() {
                return state;
            }
            hint::spin_loop();
        }
        self.state.lock(rt)
    }

    /// Gives the lock back and sleeps until a worker rings.
    pub(crate) fn sleep<R: Wait>(&self, rt: &R, state: MutexGuard<'_, SharedState<L, A>>) {
        let mut state = state;
        state.pool.fall_asleep();
        let mut state = self.bell.wait(rt, state);
        state.pool.wake_up();
    }
}

impl<L: Opening, A: Allocator> SharedState<L, A> {
    /// Begins the next step of a job.
    fn begin(&mut self, job: usize, desk: Desk<A>) -> Turn<L, A> {
        match self.machine.begin(job, desk) {
            Begun::Began(ticket) => {
                let rings = self.pool.rings(&ticket);
                let ticket = OwnTicket::new(ticket);
                Turn::Began { ticket, rings }
            }
            Begun::Ended(desk) => Turn::Moved(Some(job), desk),
            Begun::NotReady(desk) | Begun::SmallDesk(desk) => Turn::Refused(job, desk),
        }
    }

    /// Admits a job, if one that waits may have room.
    fn admit(&mut self) -> Option<usize> {
        if !self.pool.may_admit() {
            return None;
        }
        match self.machine.admit() {
            Admission::Admitted(job) => {
                self.pool.has_admitted();
                Some(job)
            }
            Admission::NotNow | Admission::NoneWaiting => {
                self.pool.could_not_admit();
                None
            }
        }
    }

    /// Admits a job if nobody has left one open.
    fn look(&mut self, desk: Desk<A>) -> Turn<L, A> {
        if let Some(job) = self.admit() {
            return Turn::Moved(Some(job), desk);
        }
        if self.pool.is_over() {
            Turn::Over
        } else {
            Turn::Idle(desk)
        }
    }
}

impl<L: Opening, A: Allocator + Clone> SharedState<L, A> {
    /// Collects a job that has ended.
    fn collect(&mut self, job: usize, desk: Desk<A>) -> Turn<L, A> {
        match self.machine.collect(job) {
            Ok(_) => {
                self.pool.has_collected();
                Turn::Moved(None, desk)
            }
            Err(_) => Turn::Over,
        }
    }

    /// Does one event, unless the pool hands back: goes on with the job in the worker's hands, or else with one that
    /// nobody has, or else admits one.
    pub(crate) fn take_turn(&mut self, job: Option<usize>, desk: Desk<A>) -> Turn<L, A> {
        if self.pool.hands_back() {
            return Turn::Over;
        }
        let open = match job {
            Some(job) => Some(job),
            None => self.pool.take_open(),
        };
        match open {
            Some(job) if self.machine.has_ended(job) => self.collect(job, desk),
            Some(job) => self.begin(job, desk),
            None => self.look(desk),
        }
    }
}
