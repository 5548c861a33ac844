//! The slots of a machine's jobs.

ghost use Rattle.std.specs.Prelude.{◌≡◌, ◌*◌, ◌≤◌, ◌↔◌, length, All, sum_by, slice_get, Some};
ghost use Rattle.std.specs.Prelude.{IfOk, IsTrue, ℕ, fold, max};
ghost use Rattle.vcode_base.specs.declared.limits.TheConstants.{MOST_JOBS, MOST_CELLS, MOST_WORDS};
ghost use Rattle.vcode_base.specs.declared.rule.Rule.{Rule};
ghost use Rattle.job_steps.specs.States.{JobValue};
ghost use Rattle.job_steps.specs.Standings.{AreFew, is_waiting, passes_before};
ghost use Rattle.job_slots.specs.Slots.{SlotState, IsNewSlot, standing_of};
ghost use Rattle.job_machine.specs.Admissions.{next_by};
ghost use Rattle.job_machine.specs.Sound.{standings_of};

use crate::machine::Admission;
use job_memory::JobMemory;
use job_slots::{Slot, Status};
use job_steps::Job;
use job_steps::laws::equal_jobs;
use std::alloc::{AllocError, Allocator};
use vcode_base::limits::MOST_PASSES;

/// A slot for each job, which waits.
pub(crate) fn new_slots<A: Allocator + Clone>(
    alloc: A,
    jobs: &[Job<A>],
) -> Result<Vec<Slot<A>, A>, AllocError>
    ensures count { IfOk result (λ slots. length slots.items ≡ length jobs.now) }
    ensures new { IfOk result (λ slots. (place : ℕ) (job : JobValue) (slot : SlotState)
        → slice_get jobs.now place ≡ Some job → slice_get slots.items place ≡ Some slot → IsNewSlot job slot) }
{
    let mut slots = Vec::with_capacity(alloc.clone()?, jobs.len())?;
    for job in jobs {
        slots.push(Slot::new(alloc.clone()?, job)?)?;
    }
    Ok(slots)
}

/// The cells of all jobs together.
#[tactic(auto, using(std::proofs::lemmas::List::Sums::sum_by_more))]
pub(crate) fn all_cells<A: Allocator>(jobs: &[Job<A>]) -> usize
    requires { length jobs.now ≤ MOST_JOBS }
    ensures cells { result ≡ sum_by (λ job. job.limits.cells) jobs.now }
    ensures within { result ≤ MOST_JOBS * MOST_CELLS }
{
    let mut cells = 0;
    for job in jobs {
        cells += job.limits().cells;
    }
    cells
}

/// The words of the job that has the most, and 0 if there is none.
#[tactic(auto, using(std::proofs::lemmas::List::take_all))]
pub(crate) fn most_words<A: Allocator>(jobs: &[Job<A>]) -> usize
    ensures value { result ≡ fold (λ most job. max most job.limits.words) 0 jobs.now }
    ensures each { All (λ job. job.limits.words ≤ result) jobs.now }
    ensures within { result ≤ MOST_WORDS }
{
    let mut most = 0;
    for job in jobs {
        most = most.max(job.limits().words);
    }
    most
}

/// What an admission answers: the first job that waits and whose words fit, unless a job that waits before it was
/// passed by as often as a job may be.
#[tactic(auto, using(crate::proofs::Admissions::rest_ends))]
pub(crate) fn next_admission<A: Allocator>(
    blocks: &JobMemory<A>,
    jobs: &[Job<A>],
    slots: &[Slot<A>],
    passes: &[u8],
) -> Admission
    requires slots { length slots.now ≡ length jobs.now }
    requires passes { length passes.now ≡ length jobs.now }
    ensures { (rule : Rule) → result ≡ next_by rule blocks.now jobs.now slots.now passes.now }
{
    let mut waiting = false;
    for place in 0..slots.len() {
        if waits(&slots[place]) {
            if blocks.fits(jobs[place].limits().words) {
                return Admission::Admitted(place + 1);
            }
            if passes[place] >= MOST_PASSES {
                return Admission::NotNow;
            }
            waiting = true;
        }
    }
    if waiting {
        Admission::NotNow
    } else {
        Admission::NoneWaiting
    }
}

/// Counts that each job that waits before a place is passed by once more.
pub(crate) fn pass_before<A: Allocator>(place: usize, slots: &[Slot<A>], passes: &mut [u8])
    requires within { place ≤ length slots.now }
    requires same { length passes.old ≡ length slots.now }
    requires few { AreFew passes.old }
    ensures { passes.new ≡ passes_before place (standings_of slots.now) passes.old }
{
    for before in 0..place {
        if waits(&slots[before]) {
            passes[before] += 1;
        }
    }
}

/// Whether a job waits.
pub(crate) fn waits<A: Allocator>(slot: &Slot<A>) -> bool
    ensures { result ≡ is_waiting (standing_of slot.now) }
{
    match slot.status() {
        Status::Waiting => true,
        Status::Live | Status::InFlight | Status::Ended | Status::Collected => false,
    }
}

/// Whether two lists of jobs are equal.
pub(crate) fn same_jobs<A: Allocator>(left: &[Job<A>], right: &[Job<A>]) -> bool
    ensures { IsTrue result ↔ (left.now ≡ right.now) }
{
    if left.len() != right.len() {
        return false;
    }
    for place in 0..left.len() {
        if !equal_jobs(&left[place], &right[place]) {
            return false;
        }
    }
    true
}
