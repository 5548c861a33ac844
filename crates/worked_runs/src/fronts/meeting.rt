//! Workers that meet in the middle of a step.

use crate::fronts::calls::Calls;
use std::process::Abort;
use std::rt::Clock;
use std::sync::atomic::{AtomicU64, Ordering};
use std::thread;
use std::time::Duration;
use step_scheduler::Gate;

/// The most milliseconds that a step waits.
const MOST_TURNS: u32 = 10_000;

/// Holds the first step of each of the jobs 1 and 2 until the first step of the other is there as well.
#[derive(Drop)]
pub struct Meeting<'a, R: Clock> {
    rt: &'a R,
    /// 1 while the first step of job 1 is here, and 2 while that of job 2 is.
    here: AtomicU64,
    /// The same for the first steps that met the other.
    met: AtomicU64,
    calls: Calls,
}

impl<'a, R: Clock> Meeting<'a, R> {
    pub(crate) fn new(rt: &'a R) -> Meeting<'a, R> {
        Meeting {
            rt,
            here: AtomicU64::new(0),
            met: AtomicU64::new(0),
            calls: Calls::new(),
        }
    }

    /// Both first steps have met the other, this many steps have passed, and each job was with one worker at a time.
    pub(crate) fn has_let_pass(&self, rt: &impl Abort, steps: u64) {
        assert_eq!(rt; self.met.load(Ordering::SeqCst), 3);
        assert_eq!(rt; self.calls.count(), steps);
        assert_eq!(rt; self.calls.refused_jobs(), 0);
    }
}

impl<'a, R: Clock> Gate for Meeting<'a, R> {
    fn between(&self, job: usize, step: u64) {
        self.calls.between(job, step);
        if step != 0 {
            return;
        }
        let mine = if job == 1 { 1 } else { 2 };
        self.here.fetch_or(mine, Ordering::SeqCst);
        for _ in 0..MOST_TURNS {
            if self.here.load(Ordering::SeqCst) == 3 {
                self.met.fetch_or(mine, Ordering::SeqCst);
                return;
            }
            let _ = thread::sleep(self.rt, Duration::from_millis(1));
        }
        self.here.fetch_and(3 - mine, Ordering::SeqCst);
    }

    fn refused(&self, job: usize) {
        self.calls.refused(job);
    }
}
