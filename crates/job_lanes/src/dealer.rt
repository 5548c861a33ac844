//! The jobs that no lane has taken, and the ends of those that lanes have run.

ghost use Rattle.std.specs.Prelude.{◌≡◌, ◌≤◌, IfOk};
ghost use Rattle.vcode_base.specs.declared.limits.TheConstants.{MOST_WORDS};

use job_machine::{EndedJob, Machine};
use std::alloc::{AllocError, Allocator};
use std::sync::{Mutex, Wait};

/// What lies under the lock.
#[derive(Drop)]
struct Deal<A: Allocator> {
    /// The budgets and the numbers of the jobs that no lane has taken, the greatest budget last.
    left: Vec<(u64, usize), A>,
    ends: Vec<EndedJob<A>, A>,
}

/// Deals the jobs of a machine to lanes, and takes their ends.
#[derive(Drop)]
pub(crate) struct Dealer<A: Allocator> {
    deal: Mutex<Deal<A>>,
    /// The words of each lane's region.
    pub(crate) region: usize,
    ghost within: { region ≤ MOST_WORDS },
}

impl<A: Allocator + Copy> Dealer<A> {
    /// A dealer with all jobs of a machine, which takes all memory that it needs.
    ///
    /// # Errors
    ///
    /// [`AllocError`] if that memory was refused.
    pub(crate) fn new(
        alloc: A,
        machine: &Machine<A>,
        region: usize,
    ) -> Result<Dealer<A>, AllocError>
        requires { region ≤ MOST_WORDS }
        ensures { IfOk result (λ dealer. dealer.region ≡ region) }
    {
        let left = by_budget(alloc, machine)?;
        let ends = Vec::with_capacity(alloc, left.len())?;
        let deal = Mutex::new(Deal { left, ends });
        Ok(Dealer { deal, region })
    }
}

impl<A: Allocator> Dealer<A> {
    /// Takes the job with the greatest budget that no lane has taken, if there is one.
    pub(crate) fn take<R: Wait>(&self, rt: &R) -> Option<usize> {
        let taken = self.deal.lock(rt).left.pop();
        match taken {
            Some((_, job)) => Some(job),
            None => None,
        }
    }

    /// Keeps the end of a job. The list has room for that of each.
    pub(crate) fn put<R: Wait>(&self, rt: &R, ended: EndedJob<A>) {
        let _ = self.deal.lock(rt).ends.push(ended);
    }

    /// The ends that lanes have put.
    pub(crate) fn into_ends(self) -> Vec<EndedJob<A>, A> {
        let Dealer { deal, .. } = self;
        let Deal { ends, .. } = deal.into_inner();
        ends
    }
}

/// The budgets and the numbers of a machine's jobs, the greatest budget last.
///
/// Only the time of a run depends on the order. If the longest job begins last, all lanes but one wait for it.
fn by_budget<A: Allocator + Copy>(
    alloc: A,
    machine: &Machine<A>,
) -> Result<Vec<(u64, usize), A>, AllocError> {
    let jobs = machine.list()?;
    let mut keys = Vec::with_capacity(alloc, machine.jobs())?;
    for (place, job) in jobs.as_slice().iter().enumerate() {
        keys.push((job.limits().budget, place + 1))?;
    }
    keys.as_mut_slice().sort_unstable();
    Ok(keys)
}
