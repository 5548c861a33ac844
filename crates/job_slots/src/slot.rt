//! A job with its place in its run.

ghost use Rattle.std.specs.Prelude.{◌≡◌, ◌+◌, ◌<◌, ◌≤◌, ◌↔◌, ℕ, [], false, true, length, IsErr, IfOk, OnOk, OnErr};
ghost use Rattle.std.specs.Prelude.{None, Some, is_some, option_copied};
ghost use Rattle.job_steps.specs.declared.flow.Flow.TheVariants as flows;
ghost use Rattle.vcode_base.specs.declared.outcome.Outcome.TheVariants.{Fault, Returned};
ghost use Rattle.vcode_base.specs.declared.op.Op.TheVariants as instruction;
ghost use Rattle.refcounts.specs.SharedState.{block_count};
ghost use Rattle.job_memory.specs.JobBlocks.{HasGrant, ChangesOnlyOf, granted_words, own_slots};
ghost use Rattle.job_steps.specs.declared.event.Event.TheVariants as event;
ghost use Rattle.job_steps.specs.EventLaws.{IsVerified};
ghost use Rattle.job_steps.specs.Events.{next_standing};
ghost use Rattle.job_steps.specs.Frames.{IsInnermost, function_in, is_passed, is_passing};
ghost use Rattle.job_steps.specs.Runs.{outcome, peak, state_after};
ghost use Rattle.job_steps.specs.Standings.{Live, InFlight, Ended};
ghost use Rattle.job_steps.specs.States.{ruled};
ghost use Rattle.job_steps.specs.Tracks.{functions_of};
ghost use Rattle.job_slots.specs.Courses.{Stays, Turns};
ghost use Rattle.job_slots.specs.Answers.{EndsByStep, demand_in, early_end_at, line_at, told_demand_in, told_need_in};
ghost use Rattle.job_slots.specs.Executions.{IsMade};
ghost use Rattle.job_slots.specs.Lines.{HasNoOperands, IsLineOf, IsListOfNext, IsOpOfNext};
ghost use Rattle.job_slots.specs.declared.status.Status.TheVariants as status;
ghost use Rattle.job_slots.specs.declared.answer.Finished.TheVariants as finished;
ghost use Rattle.job_slots.specs.declared.answer.Compare.TheVariants as compared;
ghost use Rattle.job_slots.specs.declared.answer.Stepped.TheVariants as stepped;
ghost use Rattle.job_slots.specs.InPlace.{IsPlaceable, is_constant};
ghost use Rattle.job_slots.specs.Holdings.{HoldSomeStack, HoldNothing};
ghost use Rattle.job_slots.specs.Slots.{GoesOn, Shows, Leaves, IsNewSlot, IsReturned, standing_of, told_outcome};
ghost use Rattle.job_slots.specs.Slots.{HasNumbersOnRun, MayEnd, SlotState, recalled_slot};
ghost use Rattle.job_slots.specs.Answers.{Begins, IsPutOff, Finishes, Fits, IsEnding, is_ended, is_in_flight, HasRun};
ghost use Rattle.job_slots.specs.Answers.{is_live, or_same, question_at, standing_after_begun, standing_after_finished};
ghost use Rattle.job_slots.specs.Answers.{CanStep, HasRunFor, Steps, TakesStep, IsPassedOver, after_stepped};
ghost use Rattle.job_slots.specs.Answers.{standing_after_step};

use crate::answer::{Begun, Compare, Finished, Stepped};
use crate::class::{self, Class};
use crate::collect::results;
use crate::commit::{Made, execute, made_in_flight};
use crate::course::Course;
use crate::in_place::{Due, Placement, execute_in_place, placement_of};
use crate::next::{is_asked, line_of_next, next_at, read_next};
use crate::status::Status;
use crate::ticket::{
    Halted, Plain, Ready, demand_of, need_of, needs_or_end, ticket_of, words_without_operands,
};
use crate::turn::Turn;
use block_memory::BlockId;
use job_memory::laws::{
    changes_join, grants_change_only_their_job, releases_change_only_their_job,
};
use job_memory::{JobMemory, NotNow};
use job_steps::laws::{early_ends_end, end_is_own, others_are_ready, reached, steps_can_begin};
use job_steps::{Desk, Filled, Flow, Job, Track};
use refcounts::laws::{releases_are_counted, releases_keep_blocks};
use std::alloc::{AllocError, Allocator};
use std::marker::Model;
use vcode_base::laws::results_have_needed_lengths;
use vcode_base::{DataFault, Elementwise, Instr, Op, Outcome, Segmented, StackMove, Values};
use vcode_reader::{CodeItem, CodeLine, Function};

/// The place of a job in its run, and how it ended, once that is known.
///
/// Its calls take the turn of the job, the job that it was made for, and the memory of all jobs, in which it has to
/// show the job's standing.
#[derive(Drop)]
pub struct Slot<A: Allocator> {
    alloc: A,
    track: Track<BlockId, A>,
    status: Status,
    outcome: Option<Outcome<Values<A>>>,
}

impl<A: Allocator> Model for Slot<A> {
    ghost use Rattle.job_slots.specs.Slots.{SlotState};

    ghost Value = { SlotState };

    ghost view = { λ s. record { status = s.status; trace = s.track; outcome = s.outcome } };
}

impl<A: Allocator> Slot<A> {
    /// The slot of a job, which waits.
    ///
    /// Takes the memory for as many cells and calls as the job's limits allow; an error means that the allocator
    /// refused it.
    pub fn new(alloc: A, job: &Job<A>) -> Result<Slot<A>, AllocError>
    where
        A: Clone,
        ensures { IfOk result (IsNewSlot job.now) }
    {
        let _verified = job.verified();
        let track = Track::new(alloc.clone()?, job)?;
        Ok(Slot {
            alloc,
            track,
            status: Status::Waiting,
            outcome: None,
        })
    }

    /// The status of the job.
    pub fn status(&self) -> Status
        ensures { result ≡ self.now.status }
    {
        self.status
    }

    /// How many instructions it executed.
    pub fn executed(&self) -> u64
        ensures { result ≡ self.now.trace.executed }
    {
        self.track.executed()
    }

    /// The most words that it held and needed at an instruction that it executed.
    pub fn peak(&self) -> usize
        ensures { result ≡ self.now.trace.peak }
    {
        self.track.peak()
    }

    /// The words that the job, which is live, holds and needs at its next instruction.
    ///
    /// If the instruction's operands don't fit one another, these are only the words that it holds. If they are more
    /// than the greatest `u64`, they are answered as that.
    pub fn demand(&self, turn: Turn, job: &Job<A>, blocks: &JobMemory<A>) -> usize
        requires shows { Shows turn.number blocks.now (ruled turn.rule job.now) self.now }
        requires live { self.now.status ≡ status.Live }
        ensures executed { early_end_at (ruled turn.rule job.now) self.now.trace.executed ≡ None
            → result ≡ demand_in turn.rule (state_after (ruled turn.rule job.now) self.now.trace.executed) }
        ensures told { result
            ≡ told_demand_in turn.rule (state_after (ruled turn.rule job.now) self.now.trace.executed) }
    {
        demand_of(turn, job, &self.track, blocks)
    }

    /// The words of the results of the next instruction of the job, which is live, or 0 if its operands don't fit one
    /// another. If they are more than the greatest `u64`, they are answered as that.
    pub fn need(&self, turn: Turn, job: &Job<A>, blocks: &JobMemory<A>) -> usize
        requires shows { Shows turn.number blocks.now (ruled turn.rule job.now) self.now }
        requires live { self.now.status ≡ status.Live }
        ensures { result ≡ told_need_in (state_after (ruled turn.rule job.now) self.now.trace.executed) }
    {
        need_of(turn, job, &self.track, blocks)
    }

    /// How it ended, if it is collected.
    pub fn outcome(&self) -> Option<&Outcome<Values<A>>>
        ensures { option_copied result ≡ told_outcome self.now }
    {
        match self.status {
            Status::Collected => self.outcome.as_ref(),
            Status::Waiting | Status::Live | Status::InFlight | Status::Ended => None,
        }
    }

    /// Reserves the words of the job, which waits, and lets it begin.
    ///
    /// `NotNow` exactly if all reserved words and these together are more than the region has; then nothing changes.
    pub fn admit(
        &mut self,
        turn: Turn,
        job: &Job<A>,
        blocks: &mut JobMemory<A>,
    ) -> Result<(), NotNow>
        requires shows { Shows turn.number blocks.old (ruled turn.rule job.now) self.old }
        requires waits { self.old.status ≡ status.Waiting }
        ensures not_now { IsErr result ↔ (blocks.old.memory.room < granted_words blocks.old + job.now.limits.words) }
        ensures shows { Shows turn.number blocks.new (ruled turn.rule job.now) self.new }
        ensures others { ChangesOnlyOf turn.number blocks.old blocks.new }
        ensures admitted { OnOk result (standing_of self.new ≡ Live 0) }
        ensures unchanged { OnErr result ((self.new ≡ self.old) × (blocks.new ≡ blocks.old)) }
    {
        changes_join();
        grants_change_only_their_job();
        blocks.grant(turn.number, job.limits().words)?;
        self.status = Status::Live;
        Ok(())
    }

    /// Begins the next step of the job on a desk, which goes with the ticket; else the desk comes back.
    ///
    /// A job whose budget is spent, whose operands do not fit one another, or whose next instruction would pass a
    /// limit, ends here; then its blocks are released.
    pub fn begin(
        &mut self,
        turn: Turn,
        job: &Job<A>,
        blocks: &mut JobMemory<A>,
        desk: Desk<A>,
    ) -> Begun<A>
        requires { Shows turn.number blocks.old (ruled turn.rule job.now) self.old }
        ensures answer { Begins turn.number desk (ruled turn.rule job.now) (standing_of self.old) result }
        ensures shows { Shows turn.number blocks.new (ruled turn.rule job.now) self.new }
        ensures others { ChangesOnlyOf turn.number blocks.old blocks.new }
        ensures standing { standing_of self.new ≡ standing_after_begun result (standing_of self.old)
            (or_same (standing_of self.old)
            (next_standing (event.Begin turn.number) (ruled turn.rule job.now) (standing_of self.old))) }
        ensures unchanged { IsPutOff result → (self.new ≡ self.old) × (blocks.new ≡ blocks.old) }
    {
        changes_join();
        match self.status {
            Status::Live => {}
            Status::Waiting | Status::InFlight | Status::Ended | Status::Collected => {
                return Begun::NotReady(desk);
            }
        }
        if desk.words() < job.limits().words {
            return Begun::SmallDesk(desk);
        }
        self.begin_live(turn, job, blocks, desk)
    }

    /// Begins the next step of the job, which is live, on a desk of at least its words, or ends the job.
    #[tactic(auto, using(crate::proofs::Standings::of_begins))]
    fn begin_live(
        &mut self,
        turn: Turn,
        job: &Job<A>,
        blocks: &mut JobMemory<A>,
        desk: Desk<A>,
    ) -> Begun<A>
        requires shows { Shows turn.number blocks.old (ruled turn.rule job.now) self.old }
        requires live { self.old.status ≡ status.Live }
        requires enough { job.now.limits.words ≤ desk }
        ensures answer { Begins turn.number desk (ruled turn.rule job.now) (standing_of self.old) result }
        ensures shows { Shows turn.number blocks.new (ruled turn.rule job.now) self.new }
        ensures others { ChangesOnlyOf turn.number blocks.old blocks.new }
        ensures standing { standing_of self.new ≡ standing_after_begun result (standing_of self.old)
            (or_same (standing_of self.old)
            (next_standing (event.Begin turn.number) (ruled turn.rule job.now) (standing_of self.old))) }
        ensures begins { IsPutOff result → ⊥ }
    {
        changes_join();
        early_ends_end();
        match ticket_of(turn, job, &self.track, blocks, desk) {
            Ok(ticket) => {
                self.status = Status::InFlight;
                Begun::Began(ticket)
            }
            Err(halted) => {
                let Halted { ending, desk } = halted;
                self.end(turn, job, blocks, ending);
                Begun::Ended(desk)
            }
        }
    }

    /// Commits a step that was computed, if it is the one that has begun: of this job, instruction and operands. The
    /// desk comes back.
    ///
    /// There have to be numbers for two blocks more. `Stale` exactly if it is not that step; then nothing changes.
    /// The job ends by a value fault, and by the RET of its only active call.
    pub fn finish(
        &mut self,
        turn: Turn,
        job: &Job<A>,
        blocks: &mut JobMemory<A>,
        filled: Filled<A>,
        compare: Compare,
    ) -> (Finished, Desk<A>)
        requires shows { Shows turn.number blocks.old (ruled turn.rule job.now) self.old }
        requires numbers { block_count blocks.old.memory + 2 ≤ length blocks.old.memory.slots }
        requires own { compare ≡ compared.Number
            → question_at (ruled turn.rule job.now) filled.step ≡ Some filled.question }
        ensures answer { Finishes turn.number (ruled turn.rule job.now) (standing_of self.old) filled result.0 }
        ensures desk { result.1 ≡ filled.words }
        ensures shows { Shows turn.number blocks.new (ruled turn.rule job.now) self.new }
        ensures others { ChangesOnlyOf turn.number blocks.old blocks.new }
        ensures standing { standing_of self.new ≡ standing_after_finished result.0 (standing_of self.old)
            (or_same (standing_of self.old)
            (next_standing (event.Finish turn.number) (ruled turn.rule job.now) (standing_of self.old))) }
        ensures unchanged { result.0 ≡ finished.Stale → (self.new ≡ self.old) × (blocks.new ≡ blocks.old) }
    {
        changes_join();
        match self.status {
            Status::InFlight => {}
            Status::Waiting | Status::Live | Status::Ended | Status::Collected => {
                return (Finished::Stale, filled.into_desk());
            }
        }
        let is_next = match compare {
            Compare::Number => self.track.executed() == filled.step(),
            Compare::Operands => is_asked(turn, job, &self.track, blocks, &filled),
        };
        if !is_next {
            return (Finished::Stale, filled.into_desk());
        }
        let finished = self.commit(turn, job, blocks, &filled);
        (finished, filled.into_desk())
    }

    /// Carries out the next instruction of the job in one go. The desk is lent for its results. Takes no memory.
    ///
    /// There have to be numbers for two blocks more. At `Done` and `Ended` the job is as a begin and then the finish
    /// of that step leave it. `NotReady` exactly if the job waits, a step of it has begun, or it is over. `SmallDesk`
    /// exactly if it is live and the desk has fewer words than the job. Nothing changes then.
    #[inline(always)]
    pub fn step(
        &mut self,
        turn: Turn,
        job: &Job<A>,
        blocks: &mut JobMemory<A>,
        desk: &mut Desk<A>,
    ) -> Stepped
        requires shows { Shows turn.number blocks.old (ruled turn.rule job.now) self.old }
        requires numbers { block_count blocks.old.memory + 2 ≤ length blocks.old.memory.slots }
        ensures answer { Steps turn.number desk.old (ruled turn.rule job.now) (standing_of self.old) result }
        ensures shows { Shows turn.number blocks.new (ruled turn.rule job.now) self.new }
        ensures others { ChangesOnlyOf turn.number blocks.old blocks.new }
        ensures standing { standing_of self.new ≡ after_stepped result (standing_of self.old)
            (standing_after_step turn.number (ruled turn.rule job.now) (standing_of self.old)) }
        ensures desk { desk.new ≡ desk.old }
        ensures unchanged { IsPassedOver result → (self.new ≡ self.old) × (blocks.new ≡ blocks.old) }
    {
        changes_join();
        match self.status {
            Status::Live => {}
            Status::Waiting | Status::InFlight | Status::Ended | Status::Collected => {
                return Stepped::NotReady;
            }
        }
        if desk.words() < job.limits().words {
            return Stepped::SmallDesk;
        }
        let function = self.function(turn, job, blocks);
        match self.step_or_settle(turn, job, blocks, desk, function) {
            Course::Within | Course::Across => {
                self.settle(turn, job, blocks);
                Stepped::Done
            }
            Course::Settled => unreachable!(),
            Course::Over => Stepped::Ended,
        }
    }

    /// Carries out the instructions of the job, if it is live, until it is over. The desk, which has at least the job's
    /// words, is lent for their results. Takes no memory.
    ///
    /// Wherever the job may lead there have to be numbers for two blocks more.
    #[inline(always)]
    pub fn run(&mut self, turn: Turn, job: &Job<A>, blocks: &mut JobMemory<A>, desk: &mut Desk<A>)
        requires shows { Shows turn.number blocks.old (ruled turn.rule job.now) self.old }
        requires numbers { HasNumbersOnRun turn.number (ruled turn.rule job.now) blocks.old }
        requires enough { job.now.limits.words ≤ desk.old }
        ensures ran { HasRun turn.number (ruled turn.rule job.now) (standing_of self.old) (standing_of self.new) }
        ensures over { is_live (standing_of self.new) ≡ false }
        ensures shows { Shows turn.number blocks.new (ruled turn.rule job.now) self.new }
        ensures others { ChangesOnlyOf turn.number blocks.old blocks.new }
        ensures desk { desk.new ≡ desk.old }
    {
        changes_join();
        reached();
        match self.status {
            Status::Live => {}
            Status::Waiting | Status::InFlight | Status::Ended | Status::Collected => return,
        }
        let _used = blocks.used();
        let mut function = self.function(turn, job, blocks);
        loop {
            match self.step_or_settle(turn, job, blocks, desk, function) {
                Course::Within => {}
                Course::Across => function = self.function(turn, job, blocks),
                Course::Settled => function = self.function(turn, job, blocks),
                Course::Over => return,
            }
            // By its type a memory has no block that no reference names.
            let _used = blocks.used();
        }
    }

    /// Carries out `count` instructions of the job, if it is live, or all that are left before it is over. The desk,
    /// which has at least the job's words, is lent for their results. Takes no memory.
    ///
    /// Wherever the job may lead there have to be numbers for two blocks more.
    #[inline(always)]
    pub fn run_for(
        &mut self,
        turn: Turn,
        job: &Job<A>,
        blocks: &mut JobMemory<A>,
        desk: &mut Desk<A>,
        count: u64,
    )
        requires shows { Shows turn.number blocks.old (ruled turn.rule job.now) self.old }
        requires numbers { HasNumbersOnRun turn.number (ruled turn.rule job.now) blocks.old }
        requires enough { job.now.limits.words ≤ desk.old }
        ensures ran { is_live (standing_of self.old) ≡ true
            → HasRunFor count turn.number (ruled turn.rule job.now) (standing_of self.old) (standing_of self.new) }
        ensures unchanged { is_live (standing_of self.old) ≡ false → self.new ≡ self.old }
        ensures shows { Shows turn.number blocks.new (ruled turn.rule job.now) self.new }
        ensures others { ChangesOnlyOf turn.number blocks.old blocks.new }
        ensures desk { desk.new ≡ desk.old }
    {
        changes_join();
        reached();
        match self.status {
            Status::Live => {}
            Status::Waiting | Status::InFlight | Status::Ended | Status::Collected => return,
        }
        let _used = blocks.used();
        let mut function = self.function(turn, job, blocks);
        let mut left = count;
        while left > 0 {
            match self.step_or_settle(turn, job, blocks, desk, function) {
                Course::Within => left -= 1,
                Course::Across => {
                    function = self.function(turn, job, blocks);
                    left -= 1;
                }
                Course::Settled => function = self.function(turn, job, blocks),
                Course::Over => return,
            }
            // By its type a memory has no block that no reference names.
            let _used = blocks.used();
        }
        self.settle(turn, job, blocks);
    }

    /// The function of the innermost call of a job that goes on. Where many steps follow one another, it is kept from
    /// step to step, and found anew only after a call or a return.
    #[inline(always)]
    fn function<'a>(&self, turn: Turn, job: &'a Job<A>, blocks: &JobMemory<A>) -> &'a Function<A>
        requires { GoesOn turn.number blocks.now (ruled turn.rule job.now) self.now }
        ensures { IsInnermost (functions_of job.now.verified) self.now.trace.frames result.now }
    {
        steps_can_begin::<BlockId>();
        self.track.function(job.verified().program())
    }

    /// The line at which the innermost call of a job that goes on is, which is of this function.
    #[inline(always)]
    fn line<'a>(
        &self,
        turn: Turn,
        job: &Job<A>,
        blocks: &JobMemory<A>,
        function: &'a Function<A>,
    ) -> CodeLine<'a>
        requires goes_on { GoesOn turn.number blocks.now (ruled turn.rule job.now) self.now }
        requires function { IsInnermost (functions_of job.now.verified) self.now.trace.frames function.now }
        ensures passed { is_passed result.item ≡ is_passing function.now self.now.trace.frames }
        ensures line { is_passed result.item ≡ false → IsLineOf (ruled turn.rule job.now) self.now.trace result }
        ensures shows { is_passed result.item ≡ false
            → Shows turn.number blocks.now (ruled turn.rule job.now) self.now }
    {
        steps_can_begin::<BlockId>();
        self.track.line(function)
    }

    /// Carries out the next instruction of a job that goes on, by its class, if the innermost call, which is of this
    /// function, is at it. Else it settles the track.
    #[inline(always)]
    fn step_or_settle(
        &mut self,
        turn: Turn,
        job: &Job<A>,
        blocks: &mut JobMemory<A>,
        desk: &mut Desk<A>,
        function: &Function<A>,
    ) -> Course
        requires goes_on { GoesOn turn.number blocks.old (ruled turn.rule job.now) self.old }
        requires function { IsInnermost (functions_of job.now.verified) self.old.trace.frames function.now }
        requires numbers { (slot : SlotState) → Shows turn.number blocks.old (ruled turn.rule job.now) slot
            → block_count blocks.old.memory + 2 ≤ length blocks.old.memory.slots }
        requires enough { job.now.limits.words ≤ desk.old }
        ensures turns { Turns result turn.number (ruled turn.rule job.now) function.now self.old blocks.old self.new
            blocks.new }
        ensures desk { desk.new ≡ desk.old }
    {
        let line = self.line(turn, job, blocks, function);
        match &line.item {
            CodeItem::Do(Instr::Const(elements, list)) => {
                let (class, list) = (class::Constant(*elements), list.as_slice());
                Course::within(self.step_without_operands(turn, job, blocks, class, list))
            }
            CodeItem::Do(Instr::Elementwise(op)) => {
                Course::within(self.step_elementwise(turn, job, blocks, desk, *op))
            }
            CodeItem::Do(Instr::Segmented(op)) => {
                Course::within(self.step_segmented(turn, job, blocks, desk, *op))
            }
            CodeItem::Do(Instr::Move(StackMove::Copy, lower, upper)) => {
                let class = class::Copy(*lower, *upper);
                Course::within(self.step_without_operands(turn, job, blocks, class, &[]))
            }
            CodeItem::Do(Instr::Move(StackMove::Pop, lower, upper)) => {
                let class = class::Pop(*lower, *upper);
                Course::within(self.step_without_operands(turn, job, blocks, class, &[]))
            }
            CodeItem::Do(Instr::Move(StackMove::MoveToTop, lower, upper)) => {
                let class = class::MoveToTop(*lower, *upper);
                Course::within(self.step_without_operands(turn, job, blocks, class, &[]))
            }
            CodeItem::Do(Instr::Call(_)) => {
                Course::across(self.step_without_operands(turn, job, blocks, class::Call, &[]))
            }
            CodeItem::Do(Instr::Return) => {
                Course::across(self.step_without_operands(turn, job, blocks, class::Return, &[]))
            }
            CodeItem::Do(Instr::If) | CodeItem::If => {
                Course::within(self.step_as(turn, job, blocks, desk, class::If))
            }
            CodeItem::Else | CodeItem::Endif => {
                self.settle(turn, job, blocks);
                Course::Settled
            }
        }
    }

    /// Passes over each `ELSE` and `ENDIF` before the next instruction of the job, which goes on.
    #[tactic(auto, using(crate::proofs::Standings::settled_shows))]
    #[inline(always)]
    fn settle(&mut self, turn: Turn, job: &Job<A>, blocks: &JobMemory<A>)
        requires { GoesOn turn.number blocks.now (ruled turn.rule job.now) self.old }
        ensures shows { Shows turn.number blocks.now (ruled turn.rule job.now) self.new }
        ensures live { self.new.status ≡ status.Live }
        ensures same_count { self.new.trace.executed ≡ self.old.trace.executed }
        ensures stays { function_in self.new.trace.frames ≡ function_in self.old.trace.frames }
    {
        let function = self.function(turn, job, blocks);
        self.track.settle(function);
    }

    /// Carries out the next instruction of a job that is live, which is this one, by its own class.
    #[inline(always)]
    fn step_elementwise(
        &mut self,
        turn: Turn,
        job: &Job<A>,
        blocks: &mut JobMemory<A>,
        desk: &mut Desk<A>,
        op: Elementwise,
    ) -> bool
        requires can { CanStep turn.number (ruled turn.rule job.now) self.old blocks.old }
        requires enough { job.now.limits.words ≤ desk.old }
        requires next { IsOpOfNext (ruled turn.rule job.now) self.old.trace (instruction.Elementwise op) }
        ensures steps { TakesStep turn.number (ruled turn.rule job.now) self.old.trace.executed blocks.old self.new
            blocks.new result }
        ensures stays { Stays (instruction.Elementwise op) self.old self.new result }
        ensures desk { desk.new ≡ desk.old }
    {
        match op {
            Elementwise::Arith(op) => self.step_as(turn, job, blocks, desk, op),
            Elementwise::Compare(op) => self.step_as(turn, job, blocks, desk, op),
            op => self.step_as(turn, job, blocks, desk, op),
        }
    }

    /// Carries out the next instruction of a job that is live, which is this one, by its own class.
    #[inline(always)]
    fn step_segmented(
        &mut self,
        turn: Turn,
        job: &Job<A>,
        blocks: &mut JobMemory<A>,
        desk: &mut Desk<A>,
        op: Segmented,
    ) -> bool
        requires can { CanStep turn.number (ruled turn.rule job.now) self.old blocks.old }
        requires enough { job.now.limits.words ≤ desk.old }
        requires next { IsOpOfNext (ruled turn.rule job.now) self.old.trace (instruction.Segmented op) }
        ensures steps { TakesStep turn.number (ruled turn.rule job.now) self.old.trace.executed blocks.old self.new
            blocks.new result }
        ensures stays { Stays (instruction.Segmented op) self.old self.new result }
        ensures desk { desk.new ≡ desk.old }
    {
        match op {
            Segmented::Scan(it) => { self.step_as(turn, job, blocks, desk, class::Scan(it)) }
            Segmented::Reduce(it) => { self.step_as(turn, job, blocks, desk, class::Reduce(it)) }
            Segmented::Distribute(it) => {
                self.step_as(turn, job, blocks, desk, class::Distribute(it))
            }
            Segmented::Index => self.step_as(turn, job, blocks, desk, class::Index),
            Segmented::Permute(it) => { self.step_as(turn, job, blocks, desk, class::Permute(it)) }
            Segmented::BackPermute(it) => {
                self.step_as(turn, job, blocks, desk, class::BackPermute(it))
            }
            Segmented::DefaultPermute(it) => {
                self.step_as(turn, job, blocks, desk, class::DefaultPermute(it))
            }
            Segmented::Extract(it) => { self.step_as(turn, job, blocks, desk, class::Extract(it)) }
            Segmented::Replace(it) => { self.step_as(turn, job, blocks, desk, class::Replace(it)) }
            Segmented::Pack(it) => { self.step_as(turn, job, blocks, desk, class::Pack(it)) }
            Segmented::MakeSegdes => self.step_as(turn, job, blocks, desk, class::MakeSegdes),
            Segmented::Lengths => self.step_as(turn, job, blocks, desk, class::Lengths),
        }
    }

    /// Carries out the next instruction of a job that is live, which is this one. It is compiled for each class apart.
    fn step_as<C: Class>(
        &mut self,
        turn: Turn,
        job: &Job<A>,
        blocks: &mut JobMemory<A>,
        desk: &mut Desk<A>,
        class: C,
    ) -> bool
        requires can { CanStep turn.number (ruled turn.rule job.now) self.old blocks.old }
        requires enough { job.now.limits.words ≤ desk.old }
        requires next { IsOpOfNext (ruled turn.rule job.now) self.old.trace (C.among_all class) }
        requires no_list { is_constant (C.among_all class) ≡ false }
        ensures steps { TakesStep turn.number (ruled turn.rule job.now) self.old.trace.executed blocks.old self.new
            blocks.new result }
        ensures stays { Stays (C.among_all class) self.old self.new result }
        ensures desk { desk.new ≡ desk.old }
    {
        early_ends_end();
        others_are_ready();
        end_is_own();
        results_have_needed_lengths();
        steps_can_begin::<BlockId>();
        let op = class.op();
        let next = next_at(turn, job, &self.track, blocks, op);
        let needs = match needs_or_end(turn, job, &self.track, blocks, &next) {
            Err(ending) => return self.end_by_step(turn, job, blocks, ending),
            Ok(needs) => needs,
        };
        if let Some(placement) = placement_of(turn, job, &self.track, blocks, Ready { op, needs }) {
            let beside = desk.lend(placement.second);
            return self.step_in_place(turn, job, blocks, placement, beside);
        }
        let operands = next.operands.as_slice();
        match desk.fill(op, operands, (needs.first, needs.second)) {
            Ok((first, second)) => {
                let made = Made {
                    op,
                    flow: Flow::of(op, operands),
                    first,
                    second,
                    words: needs.words,
                };
                self.carry_out::<C>(turn, job, blocks, made)
            }
            Err(fault) => self.end_by_fault(turn, job, blocks, fault),
        }
    }

    /// Carries out the next instruction of a job that is live, which has no operands: a `CONST`, whose result is this
    /// list, or an instruction that moves entries or calls, which makes no words.
    #[tactic(auto, using(crate::proofs::NextSteps::answered, crate::proofs::Standings::runs))]
    fn step_without_operands<C: Class>(
        &mut self,
        turn: Turn,
        job: &Job<A>,
        blocks: &mut JobMemory<A>,
        class: C,
        list: &[i64],
    ) -> bool
        requires can { CanStep turn.number (ruled turn.rule job.now) self.old blocks.old }
        requires next { IsOpOfNext (ruled turn.rule job.now) self.old.trace (C.among_all class) }
        requires list { IsListOfNext (ruled turn.rule job.now) self.old.trace list.now }
        requires no_operands { HasNoOperands (C.among_all class) }
        ensures steps { TakesStep turn.number (ruled turn.rule job.now) self.old.trace.executed blocks.old self.new
            blocks.new result }
        ensures stays { Stays (C.among_all class) self.old self.new result }
    {
        steps_can_begin::<BlockId>();
        let op = class.op();
        let plain = Plain { op, list };
        match words_without_operands(turn, job, &self.track, blocks, plain) {
            Some(words) => {
                let made = Made {
                    op,
                    flow: Flow::of(op, &[]),
                    first: list,
                    second: &[],
                    words,
                };
                self.carry_out::<C>(turn, job, blocks, made)
            }
            None => self.end_early(turn, job, blocks),
        }
    }

    /// Ends the job, which is live, and ends before the values of its next instruction are looked at.
    #[cold]
    #[inline(never)]
    fn end_early(&mut self, turn: Turn, job: &Job<A>, blocks: &mut JobMemory<A>) -> bool
        requires can { CanStep turn.number (ruled turn.rule job.now) self.old blocks.old }
        requires ends { is_some (early_end_at (ruled turn.rule job.now) self.old.trace.executed) ≡ true }
        ensures steps { TakesStep turn.number (ruled turn.rule job.now) self.old.trace.executed blocks.old self.new
            blocks.new result }
        ensures over { result ≡ false }
    {
        early_ends_end();
        let next = read_next(turn, job, &self.track, blocks);
        let Err(ending) = needs_or_end(turn, job, &self.track, blocks, &next) else {
            unreachable!()
        };
        self.end_by_step(turn, job, blocks, ending)
    }

    /// Ends the job, which is live, by this fault in the values of its next instruction's operands.
    #[cold]
    #[inline(never)]
    fn end_by_fault(
        &mut self,
        turn: Turn,
        job: &Job<A>,
        blocks: &mut JobMemory<A>,
        fault: DataFault,
    ) -> bool
        requires can { CanStep turn.number (ruled turn.rule job.now) self.old blocks.old }
        requires ends { (line : ℕ) → line_at (ruled turn.rule job.now) self.old.trace.executed ≡ Some line
            → EndsByStep turn.number (ruled turn.rule job.now) self.old.trace.executed self.old.trace.peak
            (Fault fault line) }
        ensures steps { TakesStep turn.number (ruled turn.rule job.now) self.old.trace.executed blocks.old self.new
            blocks.new result }
        ensures over { result ≡ false }
    {
        let line = line_of_next(turn, job, &self.track, blocks);
        self.end_by_step(turn, job, blocks, Outcome::Fault(fault, line))
    }

    /// Ends the job, which is live, as its next instruction ends it: the job doesn't go on.
    #[tactic(auto, using(crate::proofs::Standings::ended_by, crate::proofs::InPlace::may_end))]
    #[cold]
    #[inline(never)]
    fn end_by_step(
        &mut self,
        turn: Turn,
        job: &Job<A>,
        blocks: &mut JobMemory<A>,
        ending: Outcome<Values<A>>,
    ) -> bool
        requires can { CanStep turn.number (ruled turn.rule job.now) self.old blocks.old }
        requires ends { EndsByStep turn.number (ruled turn.rule job.now) self.old.trace.executed self.old.trace.peak
            ending }
        ensures steps { TakesStep turn.number (ruled turn.rule job.now) self.old.trace.executed blocks.old self.new
            blocks.new result }
        ensures over { result ≡ false }
    {
        self.end(turn, job, blocks, ending);
        false
    }

    /// Carries out the next instruction of a job that is live, whose results are computed where they are placed. What
    /// is lent beside the blocks is for the second one.
    #[inline(never)]
    fn step_in_place(
        &mut self,
        turn: Turn,
        job: &Job<A>,
        blocks: &mut JobMemory<A>,
        placement: Placement,
        beside: &mut [i64],
    ) -> bool
        requires can { CanStep turn.number (ruled turn.rule job.now) self.old blocks.old }
        requires goes_on { early_end_at (ruled turn.rule job.now) self.old.trace.executed ≡ None }
        requires placeable { IsPlaceable (ruled turn.rule job.now) turn.number blocks.old self.old.trace placement }
        requires lent { length beside.old ≡ placement.second }
        ensures steps { TakesStep turn.number (ruled turn.rule job.now) self.old.trace.executed blocks.old self.new
            blocks.new result }
        ensures stays { Stays placement.op self.old self.new result }
    {
        reached();
        end_is_own();
        others_are_ready();
        changes_join();
        let line = line_of_next(turn, job, &self.track, blocks);
        let due = Due { turn, placement };
        match execute_in_place(due, job, &mut self.track, blocks, beside) {
            Ok(()) => true,
            Err(fault) => {
                self.end(turn, job, blocks, Outcome::Fault(fault, line));
                false
            }
        }
    }

    /// Gives up the step that has begun; true if there was one. The job is as before the step's begin.
    pub fn recall(&mut self) -> bool
        ensures answer { result ≡ is_in_flight (standing_of self.old) }
        ensures state { self.new ≡ recalled_slot self.old }
    {
        match self.status {
            Status::InFlight => {
                self.status = Status::Live;
                true
            }
            Status::Waiting | Status::Live | Status::Ended | Status::Collected => false,
        }
    }

    /// Stores the outcome of a job that has ended, and gives its blocks and its reservation back; true if it had. Else
    /// nothing changes.
    ///
    /// # Errors
    ///
    /// [`AllocError`] if memory for copies of the results was refused, which comes only at a job that returned. Nothing
    /// changes then.
    #[tactic(auto, using(crate::proofs::Cells::words_of_none, crate::proofs::Shown::ended_holds))]
    pub fn collect(
        &mut self,
        turn: Turn,
        job: &Job<A>,
        blocks: &mut JobMemory<A>,
    ) -> Result<bool, AllocError>
    where
        A: Clone,
        requires { Shows turn.number blocks.old (ruled turn.rule job.now) self.old }
        ensures answer { IfOk result (λ yes. yes ≡ is_ended (standing_of self.old)) }
        ensures standing { OnOk result
            (standing_of self.new ≡ or_same (standing_of self.old)
            (next_standing (event.Collect turn.number) (ruled turn.rule job.now) (standing_of self.old))) }
        ensures shows { Shows turn.number blocks.new (ruled turn.rule job.now) self.new }
        ensures others { ChangesOnlyOf turn.number blocks.old blocks.new }
        ensures nothing_to_collect { IfOk result (λ yes. yes ≡ false
            → (self.new ≡ self.old) × (blocks.new ≡ blocks.old)) }
        ensures unchanged { OnErr result ((self.new ≡ self.old) × (blocks.new ≡ blocks.old)) }
        ensures returned { OnErr result
            ((standing_of self.old ≡ Ended) × IsReturned (outcome (ruled turn.rule job.now))) }
    {
        changes_join();
        grants_change_only_their_job();
        match self.status {
            Status::Ended => {}
            Status::Waiting | Status::Live | Status::InFlight | Status::Collected => {
                return Ok(false);
            }
        }
        self.store(turn, job, blocks)?;
        self.let_go(turn.number, blocks);
        blocks.close(turn.number);
        self.status = Status::Collected;
        Ok(true)
    }

    /// Copies the results of a job that has returned, so that the outcome of a job that has ended is there.
    fn store(&mut self, turn: Turn, job: &Job<A>, blocks: &JobMemory<A>) -> Result<(), AllocError>
    where
        A: Clone,
        requires verified { IsVerified (ruled turn.rule job.now) }
        requires leaves { Leaves (own_slots turn.number blocks.now) (ruled turn.rule job.now) self.old.trace
            self.old.outcome }
        ensures stored { OnOk result
            (self.new ≡ record self.old { outcome = Some (outcome (ruled turn.rule job.now)) }) }
        ensures unchanged { OnErr result (self.new ≡ self.old) }
        ensures returned { OnErr result (IsReturned (outcome (ruled turn.rule job.now))) }
    {
        if self.outcome.is_some() {
            return Ok(());
        }
        let alloc = self.alloc.clone()?;
        let values = results(alloc, turn, job, &self.track, blocks)?;
        self.outcome = Some(Outcome::Returned(values));
        Ok(())
    }

    /// The job goes on past its step, or ends with it.
    #[tactic(auto, using(crate::proofs::Standings::of_commits))]
    fn commit(
        &mut self,
        turn: Turn,
        job: &Job<A>,
        blocks: &mut JobMemory<A>,
        filled: &Filled<A>,
    ) -> Finished
        requires shows { Shows turn.number blocks.old (ruled turn.rule job.now) self.old }
        requires flying { self.old.status ≡ status.InFlight }
        requires fits { Fits (ruled turn.rule job.now) (standing_of self.old) filled.now }
        requires numbers { block_count blocks.old.memory + 2 ≤ length blocks.old.memory.slots }
        ensures answer { Finishes turn.number (ruled turn.rule job.now) (standing_of self.old) filled.now result }
        ensures shows { Shows turn.number blocks.new (ruled turn.rule job.now) self.new }
        ensures others { ChangesOnlyOf turn.number blocks.old blocks.new }
        ensures standing { Some (standing_of self.new)
            ≡ next_standing (event.Finish turn.number) (ruled turn.rule job.now) (standing_of self.old) }
    {
        others_are_ready();
        end_is_own();
        match made_in_flight(turn, job, &self.track, blocks, filled) {
            Err(fault) => {
                let line = line_of_next(turn, job, &self.track, blocks);
                self.end(turn, job, blocks, Outcome::Fault(fault, line));
                Finished::Ended
            }
            Ok(made) => {
                self.status = Status::Live;
                if self.carry_out::<Op>(turn, job, blocks, made) {
                    self.settle(turn, job, blocks);
                    Finished::Done
                } else {
                    Finished::Ended
                }
            }
        }
    }

    /// Executes the next instruction of a job that is live, which makes this: true if the job goes on after it, and
    /// false if it has returned.
    fn carry_out<C: Class>(
        &mut self,
        turn: Turn,
        job: &Job<A>,
        blocks: &mut JobMemory<A>,
        made: Made<'_>,
    ) -> bool
        requires can { CanStep turn.number (ruled turn.rule job.now) self.old blocks.old }
        requires goes_on { early_end_at (ruled turn.rule job.now) self.old.trace.executed ≡ None }
        requires made { IsMade (ruled turn.rule job.now) turn.number blocks.old self.old.trace made }
        ensures steps { TakesStep turn.number (ruled turn.rule job.now) self.old.trace.executed blocks.old self.new
            blocks.new result }
        ensures stays { Stays made.entry.op self.old self.new result }
    {
        reached();
        end_is_own();
        let flow = made.flow;
        execute::<C, A>(turn, job, &mut self.track, blocks, made);
        self.go_on(flow)
    }

    /// After an instruction of this flow: true if the job, which is live, goes on, and false if it has returned and its
    /// results are on its stack. Only a return can leave no call.
    #[inline(always)]
    fn go_on(&mut self, flow: Flow) -> bool
        requires { (flow ≡ flows.Return → ⊥) → 0 < length self.old.trace.frames }
        ensures on { result ≡ true → (0 < length self.old.trace.frames) × (self.new ≡ self.old) }
        ensures ended { result ≡ false → (self.old.trace.frames ≡ [])
            × (self.new ≡ record self.old { status = status.Ended; outcome = None }) }
    {
        match flow {
            Flow::Return if self.track.calls() == 0 => {
                self.has_returned();
                false
            }
            Flow::Next | Flow::Choose(_) | Flow::Call | Flow::Return => true,
        }
    }

    /// The job has returned, and its results are on its stack.
    #[cold]
    #[inline(never)]
    fn has_returned(&mut self)
        ensures { self.new ≡ record self.old { status = status.Ended; outcome = None } }
    {
        self.outcome = None;
        self.status = Status::Ended;
    }

    /// The job, which runs, ends otherwise than by return.
    #[cold]
    #[inline(never)]
    fn end(
        &mut self,
        turn: Turn,
        job: &Job<A>,
        blocks: &mut JobMemory<A>,
        ending: Outcome<Values<A>>,
    )
        requires may_end { MayEnd turn.number blocks.old (ruled turn.rule job.now) self.old }
        requires ending { IsEnding (ruled turn.rule job.now) self.old.trace.executed self.old.trace.peak ending }
        ensures shows { Shows turn.number blocks.new (ruled turn.rule job.now) self.new }
        ensures others { ChangesOnlyOf turn.number blocks.old blocks.new }
        ensures ended { self.new.status ≡ status.Ended }
    {
        self.outcome = Some(ending);
        self.status = Status::Ended;
        self.let_go(turn.number, blocks)
    }

    /// Lets go of all cells, and so of all blocks of the job.
    fn let_go(&mut self, number: usize, blocks: &mut JobMemory<A>)
        requires has_grant { HasGrant blocks.old number }
        requires holds { HoldSomeStack (own_slots number blocks.old) self.old.trace.cells }
        ensures slot { self.new ≡ record self.old { trace = record self.old.trace { cells = [] } } }
        ensures nothing { HoldNothing (own_slots number blocks.new) [] }
        ensures others { ChangesOnlyOf number blocks.old blocks.new }
        ensures grants { blocks.new.grants ≡ blocks.old.grants }
    {
        releases_are_counted();
        releases_keep_blocks();
        releases_change_only_their_job();
        blocks.release_all(number, self.track.cells());
        let _used = blocks.used();
        self.track.clear();
    }

    /// Its place in its run.
    pub fn track(&self) -> &Track<BlockId, A>
        ensures { result.now ≡ self.now.trace }
    {
        &self.track
    }
}
