//! The run of one job, in one go.

ghost use Rattle.std.specs.Prelude.{◌≡◌, ◌+◌, ◌<◌, ◌≤◌, ◌↔◌, ◌^◌, [], length, slice_index_or, IsTrue, IfOk};
ghost use Rattle.std.specs.Prelude.{MatchOption, OnOk, OnErr, true, false};
ghost use Rattle.std.specs.Prelude.{option_copied, slice_get};
ghost use Rattle.job_steps.specs.LeastLimits.{cells_in, calls_in};
ghost use Rattle.job_steps.specs.Runs.{executed_count_in, peak_in, progress_from};
ghost use Rattle.job_steps.specs.Standings.{held_in};
ghost use Rattle.job_steps.specs.States.{ruled};
ghost use Rattle.job_steps.specs.Steps.{Progress};
ghost use Rattle.job_slots.specs.Answers.{demand_in, told_demand_in, told_need_in};
ghost use Rattle.job_profile.specs.Moves.{HasExecuted, StepsMove};
ghost use Rattle.job_profile.specs.Walks.{AreSame, HasCome, HasGoneOn, StandAt, ending_at, ending_of, first_run};
ghost use Rattle.job_profile.specs.Walks.{goes_on, lists_in, next_line_in, progress_of, tags_in};
ghost use Rattle.job_profile.specs.Comings.{coming_in, made_in};

use crate::coming::{Coming, Effect, coming_by, does_move};
use block_memory::BlockId;
use job_memory::JobMemory;
use job_slots::laws::{new_is_shown, shown_are_live, shown_are_reached, shown_is_alone};
use job_slots::{Slot, Status, Turn};
use job_steps::laws::{
    early_ends_end, ended_are_over, ends_once, executed_are_counted, never_stuck, others_are_ready,
    reached, steps_can_begin,
};
use job_steps::{Desk, Frames, Job};
use std::alloc::{AllocError, Allocator};
use std::marker::Model;
use vcode_base::{Outcome, Rule, Values};
use vcode_reader::CodeLine;

/// The number of the job in its memory.
const ONLY_JOB: usize = 1;

/// The run of a job alone, as far as it has come.
///
/// In a contract it is the job and its standing, from which its progress follows as `job_steps` defines it. A run is a
/// function of its job: a run that is made anew goes through the same states.
#[derive(Drop)]
pub struct Run<A: Allocator> {
    rule: Rule,
    job: Job<A>,
    blocks: JobMemory<A>,
    slot: Slot<A>,
    desk: Desk<A>,
}

impl<A: Allocator> Model for Run<A> {
    ghost use Rattle.job_steps.specs.States.{ruled};
    ghost use Rattle.job_profile.specs.Walks.{RunState};
    ghost use Rattle.job_profile.specs.SoundRun.{IsSound, run_by};

    ghost Value = { RunState };

    ghost use Rattle.std.specs.Coded.{codes};
    ghost use Rattle.job_steps.specs.Jobs.{job_code};
    ghost use Rattle.job_profile.specs.Walks.{run_code};

    ghost coded = { run_code (Prim.hlevel codes)
        (job_code (Prim.hlevel codes) (Prim.hlevel codes) (Prim.hlevel codes)) (Prim.hlevel codes) };

    ghost view = { λ r. run_by (ruled r.rule r.job) r.slot };

    ghost invariant = { λ r. IsSound (ruled r.rule r.job) r.blocks r.slot r.desk };
}

impl<A: Allocator + Clone> Run<A> {
    /// The run of a job by a rule, which has executed nothing.
    ///
    /// Takes the memory for the job's words, for its cells and calls, and for a desk of its words; an error means that
    /// the allocator refused it. Of the other calls only `collect` takes memory.
    pub fn new(alloc: A, rule: Rule, job: Job<A>) -> Result<Run<A>, AllocError>
        ensures { IfOk result (λ run. run ≡ first_run (ruled rule job)) }
    {
        new_is_shown();
        let limits = job.limits();
        let mut slot = Slot::new(alloc.clone()?, &job)?;
        let numbers = limits.cells + 2;
        let mut blocks = JobMemory::new(alloc.clone()?, limits.words, 1, numbers)?;
        let desk = Desk::new(alloc, limits.words)?;
        let turn = Turn {
            rule,
            number: ONLY_JOB,
        };
        let Ok(()) = slot.admit(turn, &job, &mut blocks) else {
            unreachable!()
        };
        Ok(Run {
            rule,
            job,
            blocks,
            slot,
            desk,
        })
    }

    /// Stores how the job ended, with copies of its results, if its run is over. Else nothing changes.
    ///
    /// # Errors
    ///
    /// [`AllocError`] if memory for the results was refused. Nothing changes then.
    pub fn collect(&mut self) -> Result<(), AllocError>
        ensures run { HasCome self.old.task (progress_of self.old) self.new }
        ensures collected { OnOk result (ending_of self.new ≡ ending_at (progress_of self.old)) }
        ensures unchanged { OnErr result (self.new ≡ self.old) }
    {
        let turn = Turn {
            rule: self.rule,
            number: ONLY_JOB,
        };
        self.slot.collect(turn, &self.job, &mut self.blocks)?;
        Ok(())
    }
}

impl<A: Allocator> Run<A> {
    /// Executes the next instruction; true if the job goes on. A job whose run is over stays as it is. Takes no memory.
    #[inline(always)]
    pub fn step(&mut self) -> bool
        ensures run { HasCome self.old.task (progress_from self.old.task (progress_of self.old)) self.new }
        ensures goes_on { result ≡ goes_on (progress_of self.new) }
    {
        shown_is_alone();
        ended_are_over();
        let _used = self.blocks.used();
        let turn = Turn {
            rule: self.rule,
            number: ONLY_JOB,
        };
        let _stepped = self
            .slot
            .step(turn, &self.job, &mut self.blocks, &mut self.desk);
        self.goes_on()
    }

    /// Executes this many instructions, or all that are left before the end of the job, in less time than as many calls
    /// of `step` take. A job whose run is over stays as it is. Takes no memory.
    #[inline(never)]
    pub fn go_on(&mut self, count: u64)
        ensures gone { goes_on (progress_of self.old) ≡ true → HasGoneOn count self.old self.new }
        ensures over { goes_on (progress_of self.old) ≡ false → self.new ≡ self.old }
    {
        shown_is_alone();
        ended_are_over();
        reached();
        ends_once();
        let _used = self.blocks.used();
        let turn = Turn {
            rule: self.rule,
            number: ONLY_JOB,
        };
        self.slot
            .run_for(turn, &self.job, &mut self.blocks, &mut self.desk, count);
    }

    /// Whether the job goes on.
    #[inline(always)]
    pub fn goes_on(&self) -> bool
        ensures { result ≡ goes_on (progress_of self.now) }
    {
        match self.slot.status() {
            Status::Live => true,
            Status::Waiting | Status::InFlight | Status::Ended | Status::Collected => false,
        }
    }

    /// How many instructions it executed.
    #[inline(always)]
    pub fn executed(&self) -> u64
        ensures { result ≡ executed_count_in (progress_of self.now) }
    {
        self.slot.executed()
    }

    /// The most words that it held and needed at an instruction that it executed.
    #[inline(always)]
    pub fn peak(&self) -> usize
        ensures { result ≡ peak_in (progress_of self.now) }
    {
        self.slot.peak()
    }

    /// The words that it holds, and 0 once its run is over.
    #[inline(always)]
    pub fn held(&self) -> usize
        ensures { result ≡ held_in (progress_of self.now) }
    {
        shown_is_alone();
        let _used = self.blocks.used();
        if self.goes_on() {
            self.blocks.held(ONLY_JOB)
        } else {
            0
        }
    }

    /// The words that it holds and needs at its next instruction, and 0 once its run is over.
    ///
    /// If the instruction's operands don't fit one another, these are only the words that it holds. If they are more
    /// than the greatest `u64`, they are answered as that.
    #[tactic(auto, using(crate::proofs::Shown::no_demand))]
    pub fn demand(&self) -> usize
        ensures executed { executed_count_in (progress_from self.now.task (progress_of self.now))
            ≡ executed_count_in (progress_of self.now) + 1
            → result ≡ demand_in self.now.task.rule (progress_of self.now) }
        ensures told { result ≡ told_demand_in self.now.task.rule (progress_of self.now) }
    {
        early_ends_end();
        if self.goes_on() {
            let turn = Turn {
                rule: self.rule,
                number: ONLY_JOB,
            };
            self.slot.demand(turn, &self.job, &self.blocks)
        } else {
            0
        }
    }

    /// The words that were held and needed at the instruction that it executed last, which did this. `held` words were
    /// held before it.
    #[inline(always)]
    pub(crate) fn counted(&self, effect: Effect, held: usize) -> usize
        ensures { (p : Progress) → HasExecuted self.now.task p (progress_of self.now)
            → effect ≡ (coming_in p).effect → held ≡ held_in p → result ≡ demand_in self.now.task.rule p }
    {
        executed_are_counted();
        let _peak = self.peak();
        if does_move(effect) {
            return held;
        }
        match self.rule {
            Rule::First => held.saturating_add(self.made(effect)),
            Rule::Second => self.held(),
        }
    }

    /// The words of the results of the instruction that it executed last, which did this.
    #[inline(always)]
    fn made(&self, effect: Effect) -> usize
        ensures { made_in effect (progress_of self.now) < 2 ^ 64 → result ≡ made_in effect (progress_of self.now) }
    {
        match effect {
            Effect::Makes => self.length(0),
            Effect::MakesTwo => self.length(0).saturating_add(self.length(1)),
            Effect::Chooses
            | Effect::Moves(_)
            | Effect::Calls
            | Effect::Returns
            | Effect::Nothing => 0,
        }
    }

    /// How many words the entry of the stack at this depth has, 0 at the top, or 0 if there is none.
    #[inline(always)]
    fn length(&self, depth: usize) -> usize
        ensures { result ≡ length (slice_index_or (lists_in (progress_of self.now)) depth []) }
    {
        match self.words(depth) {
            Some(words) => words.len(),
            None => 0,
        }
    }

    /// The words of the results of its next instruction, and 0 once its run is over.
    ///
    /// They are also 0 if the instruction's operands don't fit one another. If they are more than the greatest `u64`,
    /// they are answered as that.
    #[tactic(auto, using(crate::proofs::Shown::no_need))]
    pub fn need(&self) -> usize
        ensures { result ≡ told_need_in (progress_of self.now) }
    {
        if self.goes_on() {
            let turn = Turn {
                rule: self.rule,
                number: ONLY_JOB,
            };
            self.slot.need(turn, &self.job, &self.blocks)
        } else {
            0
        }
    }

    /// How many entries its stack has, and 0 once its run is over.
    #[inline(always)]
    pub fn depth(&self) -> usize
        ensures { result ≡ cells_in (progress_of self.now) }
    {
        if self.goes_on() {
            self.slot.track().cells().len()
        } else {
            0
        }
    }

    /// How many calls are active, and 0 once its run is over.
    #[inline(always)]
    pub fn calls(&self) -> usize
        ensures { result ≡ calls_in (progress_of self.now) }
    {
        if self.goes_on() {
            self.slot.track().calls()
        } else {
            0
        }
    }

    /// The words of the entry of the stack at this depth, 0 at the top, if there is one and the job goes on.
    #[inline(always)]
    pub fn words(&self, depth: usize) -> Option<&[i64]>
        ensures { option_copied result ≡ slice_get (lists_in (progress_of self.now)) depth }
    {
        shown_are_live();
        shown_are_reached();
        if !self.goes_on() {
            return None;
        }
        let id = cell(&self.slot, depth)?;
        Some(self.blocks.words(id))
    }

    /// The number of the block that has the words of the entry of the stack at this depth, 0 at the top, if there is
    /// one and the job goes on. Entries at one state have one number if they are copies of one another, and else
    /// others. A run that is made anew has the same numbers.
    #[inline(always)]
    #[tactic(auto, using(crate::proofs::Shown::no_cells))]
    pub fn block(&self, depth: usize) -> Option<usize>
        ensures { MatchOption result (cells_in (progress_of self.now) ≤ depth)
            (λ _. depth < cells_in (progress_of self.now)) }
    {
        if !self.goes_on() {
            return None;
        }
        let block = cell(&self.slot, depth)?;
        Some(block.number())
    }

    /// Whether the entries at these depths are there and are copies of one another: they share their words.
    pub fn are_copies(&self, depth: usize, other: usize) -> bool
        ensures { IsTrue result ↔ AreSame (slice_get (tags_in (progress_of self.now)) depth)
            (slice_get (tags_in (progress_of self.now)) other) }
    {
        if !self.goes_on() {
            return false;
        }
        let (Some(id), Some(other)) = (cell(&self.slot, depth), cell(&self.slot, other)) else {
            return false;
        };
        is_same(id, other)
    }

    /// The places at which the active calls go on, that of the innermost last.
    #[inline(always)]
    pub fn frames(&self) -> Frames<'_>
        ensures { StandAt self.now.task result (progress_of self.now) }
    {
        self.slot.track().frames()
    }

    /// The line of the next instruction, if the job goes on.
    #[inline(always)]
    pub fn next_line(&self) -> Option<CodeLine<'_>>
        ensures { result ≡ next_line_in (progress_of self.now) }
    {
        steps_can_begin::<BlockId>();
        if !self.goes_on() {
            return None;
        }
        let track = self.slot.track();
        Some(track.line(track.function(self.job.verified().program())))
    }

    /// What the next instruction does, and its line.
    #[inline(always)]
    pub fn coming(&self) -> Coming
        ensures { result ≡ coming_in (progress_of self.now) }
    {
        coming_by(self.next_line())
    }

    /// How the job ended, if that is collected.
    pub fn ending(&self) -> Option<&Outcome<Values<A>>>
        ensures { option_copied result ≡ ending_of self.now }
    {
        self.slot.outcome()
    }

    /// The rule by which it runs.
    pub fn rule(&self) -> Rule
        ensures { result ≡ self.now.task.rule }
    {
        self.rule
    }

    /// The job.
    pub fn job(&self) -> &Job<A>
        ensures { ruled self.now.task.rule result.now ≡ self.now.task }
    {
        &self.job
    }

    /// The job, of which another run may be made.
    pub fn into_job(self) -> Job<A>
        ensures { ruled self.task.rule result ≡ self.task }
    {
        self.job
    }
}

/// A step of a run executes an instruction, or ends the run with the same counts.
pub(crate) fn steps_move()
    ensures { StepsMove }
{
    early_ends_end();
    others_are_ready();
    never_stuck();
    reached();
}

/// The cell at this depth, 0 at the top, if there is one.
#[inline(always)]
fn cell<A: Allocator>(slot: &Slot<A>, depth: usize) -> Option<BlockId>
    ensures { result ≡ slice_get slot.now.trace.cells depth }
{
    let cells = slot.track().cells();
    if depth >= cells.len() {
        return None;
    }
    Some(cells[cells.len() - 1 - depth])
}

/// Whether these are one block.
fn is_same(id: BlockId, other: BlockId) -> bool
    ensures { IsTrue result ↔ (id ≡ other) }
{
    id.number() == other.number()
}
