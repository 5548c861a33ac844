//! Jobs that run by themselves, one after another, each over a whole region.

ghost use Rattle.std.specs.Prelude.{◌≡◌, ◌≤◌, ◌↔◌, ◌+◌, false, length, map, IfOk, IfSome, IsTrue, OnOk, Some};
ghost use Rattle.std.specs.Arc.{arc_value};
ghost use Rattle.vcode_base.specs.declared.limits.TheConstants.{MOST_WORDS};
ghost use Rattle.job_memory.specs.JobBlocks.{ChangesOnlyOf};
ghost use Rattle.job_slots.specs.Answers.{HasRun, is_live};
ghost use Rattle.job_slots.specs.Slots.{HasNumbersOnRun, Shows, standing_of};
ghost use Rattle.job_steps.specs.Standings.{of_job};
ghost use Rattle.job_steps.specs.States.{ruled};
ghost use Rattle.job_machine.specs.Lanes.{IsEndOf, IsVacant};

use crate::machine::Machine;
use crate::setting::most_words;
use job_memory::JobMemory;
use job_memory::laws::changes_join;
use job_slots::laws::{new_is_shown, shown_is_alone};
use job_slots::{Slot, Turn};
use job_steps::laws::equal_jobs;
use job_steps::{Desk, Job};
use std::alloc::{AllocError, Allocator};
use std::marker::Model;
use std::sync::Arc;
use vcode_base::Rule;
use vcode_base::limits::MOST_CELLS;

/// The number of a job in the region of its lane.
const ONLY_JOB: usize = 1;

/// A region and a desk on which jobs of a machine run by themselves, one after another.
///
/// In a contract it is the machine's jobs, each with the rule.
#[derive(Drop)]
pub struct Lane<A: Allocator> {
    rule: Rule,
    jobs: Arc<Vec<Job<A>, A>, A>,
    blocks: JobMemory<A>,
    desk: Desk<A>,
}

/// A job of a machine that has run to its end by itself.
///
/// In a contract it is its number, and the job of that number with its rule.
#[derive(Drop)]
pub struct EndedJob<A: Allocator> {
    rule: Rule,
    jobs: Arc<Vec<Job<A>, A>, A>,
    number: usize,
    slot: Slot<A>,
}

impl<A: Allocator> Model for Lane<A> {
    ghost use Rattle.std.specs.Arc.{arc_value};
    ghost use Rattle.std.specs.Coded.{codes, coded_list};
    ghost use Rattle.std.specs.Prelude.{List, map};
    ghost use Rattle.job_steps.specs.Jobs.{job_code};
    ghost use Rattle.job_steps.specs.States.{Task, ruled};
    ghost use Rattle.job_machine.specs.Lanes.{IsLane};
    ghost use Rattle.job_machine.specs.Machines.{task_code};

    ghost Value = { List Task };

    ghost coded = { coded_list (task_code (Prim.hlevel codes)
        (job_code (Prim.hlevel codes) (Prim.hlevel codes) (Prim.hlevel codes))) };

    ghost view = { λ l. map (ruled l.rule) (arc_value l.jobs).items };

    ghost invariant = { λ l. IsLane (map (ruled l.rule) (arc_value l.jobs).items) l.blocks l.desk };
}

impl<A: Allocator> Model for EndedJob<A> {
    ghost use Rattle.std.specs.Arc.{arc_value};
    ghost use Rattle.std.specs.Coded.{codes};
    ghost use Rattle.std.specs.Prelude.{map};
    ghost use Rattle.job_steps.specs.Jobs.{job_code};
    ghost use Rattle.job_steps.specs.Standings.{of_job};
    ghost use Rattle.job_steps.specs.States.{ruled};
    ghost use Rattle.job_machine.specs.Lanes.{EndedState, IsEndIn, ended_code};

    ghost Value = { EndedState };

    ghost coded = { ended_code (Prim.hlevel codes)
        (job_code (Prim.hlevel codes) (Prim.hlevel codes) (Prim.hlevel codes)) };

    ghost view = { λ e. record {
      job = e.number;
      task = of_job e.number (map (ruled e.rule) (arc_value e.jobs).items);
    } };

    ghost invariant = { λ e. IsEndIn e.number (map (ruled e.rule) (arc_value e.jobs).items) e.slot };
}

impl<A: Allocator + Clone> Machine<A> {
    /// A lane for the machine's jobs, with a region of `region` words, or as many as the largest job has, if these are
    /// more.
    ///
    /// # Errors
    ///
    /// [`AllocError`] if memory for the region or for the desk was refused.
    pub fn lane(&self, alloc: A, region: usize) -> Result<Lane<A>, AllocError>
        requires { region ≤ MOST_WORDS }
        ensures { IfOk result (λ lane. lane ≡ self.now.tasks) }
    {
        let jobs = self.list()?;
        Lane::new(alloc, self.rule(), jobs, region)
    }
}

impl<A: Allocator + Clone> Lane<A> {
    /// A lane for these jobs, with a region of at least `region` words.
    fn new(
        alloc: A,
        rule: Rule,
        jobs: Arc<Vec<Job<A>, A>, A>,
        region: usize,
    ) -> Result<Lane<A>, AllocError>
        requires { region ≤ MOST_WORDS }
        ensures { IfOk result (λ lane. lane ≡ map (ruled rule) (arc_value jobs).items) }
    {
        let words = most_words(jobs.as_slice());
        let blocks = JobMemory::new(alloc.clone()?, region.max(words), ONLY_JOB, most_numbers())?;
        let desk = Desk::new(alloc, words)?;
        Ok(Lane {
            rule,
            jobs,
            blocks,
            desk,
        })
    }

    /// Runs the job of this number to its end, with memory of `alloc` for its cells, its calls and its results.
    ///
    /// # Errors
    ///
    /// [`AllocError`] if that memory was refused. The lane is dropped then.
    pub fn run(self, alloc: A, job: usize) -> Result<(Lane<A>, EndedJob<A>), AllocError>
        requires { (1 ≤ job) × (job ≤ length self) }
        ensures lane { IfOk result (λ ran. ran.0 ≡ self) }
        ensures ended { IfOk result (λ ran. ran.1 ≡ record { job = job; task = of_job job self }) }
    {
        let Lane {
            rule,
            jobs,
            mut blocks,
            mut desk,
        } = self;
        let list = Arc::try_clone(&jobs)?;
        let slot = run_apart(
            alloc,
            rule,
            &jobs.as_slice()[job - 1],
            &mut blocks,
            &mut desk,
        )?;
        let ended = EndedJob {
            rule,
            jobs: list,
            number: job,
            slot,
        };
        let lane = Lane {
            rule,
            jobs,
            blocks,
            desk,
        };
        Ok((lane, ended))
    }
}

impl<A: Allocator> Lane<A> {
    /// How many jobs there are.
    pub fn jobs(&self) -> usize
        ensures { result ≡ length self.now }
    {
        self.jobs.as_slice().len()
    }
}

impl<A: Allocator> EndedJob<A> {
    /// Its number.
    pub(crate) fn number(&self) -> usize
        ensures { result ≡ self.now.job }
    {
        self.number
    }

    /// Whether it is this job, which ran by this rule.
    pub(crate) fn is_of(&self, rule: Rule, job: &Job<A>) -> bool
        ensures { IsTrue result ↔ (self.now.task ≡ Some (ruled rule job.now)) }
    {
        if !same_rule(self.rule, rule) {
            return false;
        }
        equal_jobs(&self.jobs.as_slice()[self.number - 1], job)
    }

    /// The slot in which it was left.
    pub(crate) fn into_slot(self) -> Slot<A>
        ensures { IfSome self.task (λ task. IsEndOf task result) }
    {
        self.slot
    }
}

/// Numbers for the blocks of any job, and for two more.
fn most_numbers() -> usize
    ensures { result ≡ MOST_CELLS + 2 }
{
    MOST_CELLS + 2
}

/// Whether two rules are equal.
fn same_rule(left: Rule, right: Rule) -> bool
    ensures { IsTrue result ↔ (left ≡ right) }
{
    left == right
}

/// Runs a job to its end over a region without a job, and collects it: the slot in which it is left.
///
/// # Errors
///
/// [`AllocError`] if memory for the slot or for the results was refused.
#[tactic(auto, using(crate::proofs::LaneLemmas::lane_numbers))]
fn run_apart<A: Allocator + Clone>(
    alloc: A,
    rule: Rule,
    job: &Job<A>,
    blocks: &mut JobMemory<A>,
    desk: &mut Desk<A>,
) -> Result<Slot<A>, AllocError>
    requires vacant { IsVacant blocks.old }
    requires room { job.now.limits.words ≤ blocks.old.memory.room }
    requires numbers { job.now.limits.cells + 2 ≤ length blocks.old.memory.slots }
    requires enough { job.now.limits.words ≤ desk.old }
    ensures end { IfOk result (IsEndOf (ruled rule job.now)) }
    ensures vacant { OnOk result (IsVacant blocks.new) }
    ensures room { OnOk result (blocks.new.memory.room ≡ blocks.old.memory.room) }
    ensures numbers { OnOk result (length blocks.new.memory.slots ≡ length blocks.old.memory.slots) }
    ensures desk { OnOk result (desk.new ≡ desk.old) }
{
    new_is_shown();
    shown_is_alone();
    changes_join();
    let turn = Turn {
        rule,
        number: ONLY_JOB,
    };
    let mut slot = Slot::new(alloc, job)?;
    let Ok(()) = slot.admit(turn, job, blocks) else {
        unreachable!()
    };
    run_slot(&mut slot, turn, job, blocks, desk);
    slot.collect(turn, job, blocks)?;
    Ok(slot)
}

/// Carries out the instructions of a job, if it is live, until it is over, as [`Slot::run`] says.
///
/// No other function calls that, so all that a step does is inlined here.
#[inline(never)]
pub(crate) fn run_slot<A: Allocator>(
    slot: &mut Slot<A>,
    turn: Turn,
    job: &Job<A>,
    blocks: &mut JobMemory<A>,
    desk: &mut Desk<A>,
)
    requires shows { Shows turn.number blocks.old (ruled turn.rule job.now) slot.old }
    requires numbers { HasNumbersOnRun turn.number (ruled turn.rule job.now) blocks.old }
    requires enough { job.now.limits.words ≤ desk.old }
    ensures ran { HasRun turn.number (ruled turn.rule job.now) (standing_of slot.old) (standing_of slot.new) }
    ensures over { is_live (standing_of slot.new) ≡ false }
    ensures shows { Shows turn.number blocks.new (ruled turn.rule job.now) slot.new }
    ensures others { ChangesOnlyOf turn.number blocks.old blocks.new }
    ensures desk { desk.new ≡ desk.old }
{
    slot.run(turn, job, blocks, desk)
}
