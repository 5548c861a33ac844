//! Which worker goes on with which job: hints, on which no contract rests.

use crate::estimate::Estimate;
use job_machine::{Machine, Status, Ticket};
use std::alloc::{AllocError, Allocator};

/// The words of operands from which on a step is long enough to wake a worker beside it.
const LARGE: u64 = 4_096;

/// A worker is woken if it would find work, counting this percentage of the time under the lock.
const TO_WAKE: u64 = 55;

/// After this number of steps, a long one counted as several, it is decided whether the workers go on.
const TO_DECIDE: u64 = 1_000;

/// A worker stays awake if it finds work, counting this percentage of the time under the lock.
const TO_STAY: u64 = 45;

/// Where the workers of a run are, and which jobs nobody goes on with.
///
/// While a job can go on, some worker is awake. A worker falls asleep only while another one is awake. The last one
/// awake ends only if it found, in the same hold of the lock, no job to go on with and none that could be admitted.
/// One that ends earlier wakes those that sleep: it was refused memory, or the pool hands back, and then each ends at
/// its next hold.
#[derive(Drop)]
pub(crate) struct WorkerPool<A: Allocator> {
    /// The jobs that run or have ended and that no worker has, the next one last.
    open: Vec<usize, A>,
    /// No job could be admitted since the last one was collected.
    full: bool,
    /// The last worker awake found nothing to do.
    over: bool,
    awake: usize,
    asleep: usize,
    /// How many sleepers were rung and aren't awake yet.
    rung: usize,
    /// How many workers the run asked for.
    workers: usize,
    /// How many jobs wait.
    waiting: usize,
    /// How many jobs were admitted and aren't collected.
    admitted: usize,
    /// What the steps take that were begun.
    estimate: Estimate,
}

impl<A: Allocator> WorkerPool<A> {
    /// Without a worker yet, over the jobs of a machine in which no step has begun, for a run by `workers` workers.
    ///
    /// # Errors
    ///
    /// [`AllocError`] if memory for the list of open jobs was refused.
    pub(crate) fn new(
        alloc: A,
        machine: &Machine<A>,
        workers: usize,
    ) -> Result<WorkerPool<A>, AllocError> {
        let jobs = machine.jobs();
        let mut open = Vec::with_capacity(alloc, jobs)?;
        let mut waiting = 0usize;
        for place in 0..jobs {
            let job = jobs - place;
            match machine.status(job) {
                Some(Status::Live | Status::Ended) => open.push(job)?,
                Some(Status::Waiting) => waiting = waiting.saturating_add(1),
                Some(Status::InFlight | Status::Collected) | None => {}
            }
        }
        let admitted = open.len();
        Ok(WorkerPool {
            open,
            full: false,
            over: false,
            awake: 0,
            asleep: 0,
            rung: 0,
            workers,
            waiting,
            admitted,
            estimate: Estimate::new(),
        })
    }

    /// A worker is there.
    pub(crate) fn join(&mut self) {
        self.awake = self.awake.saturating_add(1);
    }

    /// A worker ends.
    pub(crate) fn leave(&mut self) {
        self.awake = self.awake.saturating_sub(1);
    }

    /// A worker falls asleep.
    pub(crate) fn fall_asleep(&mut self) {
        self.awake = self.awake.saturating_sub(1);
        self.asleep = self.asleep.saturating_add(1);
    }

    /// A sleeper is awake again.
    pub(crate) fn wake_up(&mut self) {
        self.asleep = self.asleep.saturating_sub(1);
        self.rung = self.rung.saturating_sub(1);
        self.awake = self.awake.saturating_add(1);
    }

    /// Takes the job that was left to the others last.
    pub(crate) fn take_open(&mut self) -> Option<usize> {
        self.open.pop()
    }

    /// Leaves a job to the others. The list has room for each job of the machine.
    pub(crate) fn leave_open(&mut self, job: usize) {
        let _ = self.open.push(job);
    }

    /// Whether a job that waits may have room.
    pub(crate) fn may_admit(&self) -> bool {
        !self.full
    }

    /// A job was admitted.
    pub(crate) fn has_admitted(&mut self) {
        self.waiting = self.waiting.saturating_sub(1);
        self.admitted = self.admitted.saturating_add(1);
    }

    /// No job could be admitted.
    pub(crate) fn could_not_admit(&mut self) {
        self.full = true;
    }

    /// A job was collected, so that another one may have room.
    pub(crate) fn has_collected(&mut self) {
        self.full = false;
        self.admitted = self.admitted.saturating_sub(1);
    }

    /// Whether a worker that found nothing to do is to end: nobody else is awake, or that was so before.
    pub(crate) fn is_over(&mut self) -> bool {
        self.over = self.over || self.awake <= 1;
        self.over
    }

    /// Whether the workers are to end and leave the rest to the calling thread, which takes less time for it. That is
    /// so if steps are short, if they compute little for the words that they copy, or if there is one job to run. It
    /// is never so of a small batch.
    pub(crate) fn hands_back(&self) -> bool {
        self.estimate.steps() >= TO_DECIDE && (self.runnable() < 2 || !self.estimate.pays())
    }

    /// How many workers are to be started: no more than there are jobs.
    pub(crate) fn crew(&self) -> usize {
        self.workers.min(self.admitted.saturating_add(self.waiting))
    }

    /// How many jobs can run beside one another, as far as is known.
    fn runnable(&self) -> usize {
        if self.full {
            self.admitted
        } else {
            self.admitted.saturating_add(self.waiting)
        }
    }

    /// Takes account of a step that has begun, and answers whether a sleeper is to be rung: the step is long, somebody
    /// sleeps, there may be a job to go on with, and one more worker would find work.
    pub(crate) fn rings(&mut self, ticket: &Ticket<A>) -> bool {
        let words = self.estimate.add(ticket);
        if words < LARGE || self.asleep <= self.rung || (self.full && self.open.is_empty()) {
            return false;
        }
        let coming = self.awake.saturating_add(self.rung);
        if !self.estimate.feeds_more_than(coming, TO_WAKE) {
            return false;
        }
        self.rung = self.rung.saturating_add(1);
        true
    }

    /// Whether one worker less would do as well.
    pub(crate) fn has_too_many(&self) -> bool {
        self.awake > 1 && !self.estimate.feeds_more_than(self.awake, TO_STAY)
    }
}
