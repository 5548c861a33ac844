//! The ticket of a job's next step.

ghost use Rattle.std.specs.Prelude.{◌≡◌, ◌+◌, ◌<◌, ◌≤◌, true, length, take, is_some, MatchOption, MatchResult, None};
ghost use Rattle.std.specs.Prelude.{Some};
ghost use Rattle.vcode_base.specs.declared.limits.TheConstants.{MOST_WORDS};
ghost use Rattle.vcode_base.specs.Kinds.{HaveKinds, source_kinds};
ghost use Rattle.vcode_base.specs.Meaning.{shape};
ghost use Rattle.vcode_base.specs.Operands.{contents};
ghost use Rattle.job_memory.specs.JobBlocks.{HasGrant, IsJob, held_words, own_slots};
ghost use Rattle.job_steps.specs.EventLaws.{IsVerified};
ghost use Rattle.job_steps.specs.Motions.{depth_after};
ghost use Rattle.job_steps.specs.Questions.{need_words};
ghost use Rattle.job_steps.specs.Runs.{state_after};
ghost use Rattle.job_steps.specs.States.{ruled};
ghost use Rattle.job_steps.specs.Steps.{memory_fault};
ghost use Rattle.job_steps.specs.Tickets.{question_by};
ghost use Rattle.job_slots.specs.Slots.{IsRunningSlot};
ghost use Rattle.job_slots.specs.Answers.{IsAskedOf, IsNext, demand_in, early_end_at, told_demand, told_demand_in};
ghost use Rattle.job_slots.specs.Answers.{told_need_in};
ghost use Rattle.job_slots.specs.Commits.{CountsAs, held_under};
ghost use Rattle.job_slots.specs.Lines.{HasNoOperands, IsListOfNext, IsOpOfNext};
ghost use Rattle.job_slots.specs.Needs.{AreFoundNeeds, IsReady, early_fault, ending_of, words_with};

use crate::commit::held_under;
use crate::execution::held_is_counted;
use crate::next::{Next, line_of_next, read_next};
use crate::turn::Turn;
use block_memory::BlockId;
use job_memory::JobMemory;
use job_steps::laws::{reached, steps_can_advance, steps_can_begin};
use job_steps::{Desk, Job, Ticket, Track, lengths};
use std::alloc::Allocator;
use vcode_base::{DataFault, MemoryFault, Op, Outcome, Values};

/// What an instruction needs: the words of its first and second result, and those that are held and needed at it.
#[derive(Clone, Copy)]
pub(crate) struct Needs {
    pub(crate) first: u64,
    pub(crate) second: u64,
    pub(crate) words: usize,
}

/// The next instruction of a job, which nothing ends before the values of its operands are looked at.
#[derive(Clone, Copy)]
pub(crate) struct Ready {
    pub(crate) op: Op,
    pub(crate) needs: Needs,
}

/// An instruction without operands: a `CONST` with its list, or one that makes no words.
#[derive(Clone, Copy)]
pub(crate) struct Plain<'a> {
    pub(crate) op: Op,
    pub(crate) list: &'a [i64],
}

/// What ends a job before the values of its next instruction are looked at, by the instruction itself: operands that
/// don't fit one another, or a limit.
#[derive(Clone, Copy)]
pub(crate) enum EarlyFault {
    Shape(DataFault),
    Limit(MemoryFault),
}

impl EarlyFault {
    /// How it ends a job at this line.
    fn at<A: Allocator>(self, line: u64) -> Outcome<Values<A>>
        ensures { result ≡ ending_of self line }
    {
        match self {
            EarlyFault::Shape(fault) => Outcome::Fault(fault, line),
            EarlyFault::Limit(fault) => Outcome::Memory(fault, line),
        }
    }
}

/// How a job ends before its next instruction, with the desk that was meant for it.
#[derive(Drop)]
pub(crate) struct Halted<A: Allocator> {
    pub(crate) ending: Outcome<Values<A>>,
    pub(crate) desk: Desk<A>,
}

/// The ticket of the next step of a job that runs, on a desk of at least the job's words, or how the job ends before
/// it.
pub(crate) fn ticket_of<A: Allocator>(
    turn: Turn,
    job: &Job<A>,
    track: &Track<BlockId, A>,
    blocks: &JobMemory<A>,
    desk: Desk<A>,
) -> Result<Ticket<A>, Halted<A>>
    requires running { IsRunningSlot (own_slots turn.number blocks.now) (ruled turn.rule job.now) track.now }
    requires verified { IsVerified (ruled turn.rule job.now) }
    requires has_grant { HasGrant blocks.now turn.number }
    requires words { job.now.limits.words ≤ desk }
    ensures { MatchResult result
        (IsAskedOf turn.number desk (ruled turn.rule job.now) track.now.executed)
        (λ halted. (early_end_at (ruled turn.rule job.now) track.now.executed ≡ Some halted.ending)
        × (halted.desk ≡ desk)) }
{
    let next = read_next(turn, job, track, blocks);
    match needs_or_end(turn, job, track, blocks, &next) {
        Err(ending) => Err(Halted { ending, desk }),
        Ok(_) => {
            let operands = next.operands.as_slice();
            Ok(desk.ask(turn.number, track.executed(), next.op, operands))
        }
    }
}

/// What the next instruction of a job that runs needs, or how the job ends before the values of its operands are looked
/// at.
#[inline(always)]
pub(crate) fn needs_or_end<A: Allocator>(
    turn: Turn,
    job: &Job<A>,
    track: &Track<BlockId, A>,
    blocks: &JobMemory<A>,
    next: &Next<'_>,
) -> Result<Needs, Outcome<Values<A>>>
    requires running { IsRunningSlot (own_slots turn.number blocks.now) (ruled turn.rule job.now) track.now }
    requires verified { IsVerified (ruled turn.rule job.now) }
    requires has_grant { HasGrant blocks.now turn.number }
    requires next { IsNext (ruled turn.rule job.now) track.now.executed next.now.op
        (contents (take next.now.operands.count next.now.operands.lists)) }
    requires kinds { HaveKinds (source_kinds next.now.op)
        (contents (take next.now.operands.count next.now.operands.lists)) }
    ensures { MatchResult result
        (IsReady (ruled turn.rule job.now) turn.number blocks.now track.now next.now.op
        (contents (take next.now.operands.count next.now.operands.lists)))
        (λ ending. early_end_at (ruled turn.rule job.now) track.now.executed ≡ Some ending) }
{
    steps_can_begin::<BlockId>();
    steps_can_advance::<BlockId>();
    held_is_counted();
    if track.executed() == job.limits().budget {
        return Err(Outcome::Budget);
    }
    // By its type a memory has no block that no reference names.
    let _used = blocks.used();
    let held = held_under(turn, track, blocks, next.op);
    match needs_beside(track, held, next) {
        Err(fault) => Err(fault.at(line_of_next(turn, job, track, blocks))),
        Ok(needs) => Ok(needs),
    }
}

/// What an instruction needs, if `held` words are held, or what ends the job before.
#[tactic(auto, using(crate::proofs::NextSteps::of_needs))]
#[inline(always)]
fn needs_beside<A: Allocator>(
    track: &Track<BlockId, A>,
    held: usize,
    next: &Next<'_>,
) -> Result<Needs, EarlyFault>
    requires words { track.now.limits.words ≤ MOST_WORDS }
    requires kinds { HaveKinds (source_kinds next.now.op)
        (contents (take next.now.operands.count next.now.operands.lists)) }
    ensures { let sources = contents (take next.now.operands.count next.now.operands.lists) in
        AreFoundNeeds held (question_by next.now.op sources)
        (early_fault (shape next.now.op sources)
        (memory_fault track.now.limits next.now.op (held + need_words (question_by next.now.op sources))
        (depth_after next.now.op (length track.now.cells)) (length track.now.frames))) result }
{
    match lengths(next.op, next.operands.as_slice()) {
        Err(fault) => Err(EarlyFault::Shape(fault)),
        Ok((first, second)) => {
            let words = (held as u64).saturating_add(first).saturating_add(second);
            match track.memory_fault(next.op, words) {
                Some(fault) => Err(EarlyFault::Limit(fault)),
                None => Ok(Needs {
                    first,
                    second,
                    words: words as usize,
                }),
            }
        }
    }
}

/// The words that count at the next instruction of a job that runs, which is this one, or none if the job ends before
/// it.
///
/// If it makes no words, those that are held need no look: they were within the limit and the peak before.
#[inline(always)]
pub(crate) fn words_without_operands<A: Allocator>(
    turn: Turn,
    job: &Job<A>,
    track: &Track<BlockId, A>,
    blocks: &JobMemory<A>,
    plain: Plain<'_>,
) -> Option<usize>
    requires running { IsRunningSlot (own_slots turn.number blocks.now) (ruled turn.rule job.now) track.now }
    requires verified { IsVerified (ruled turn.rule job.now) }
    requires has_grant { HasGrant blocks.now turn.number }
    requires next { IsOpOfNext (ruled turn.rule job.now) track.now plain.op }
    requires list { IsListOfNext (ruled turn.rule job.now) track.now plain.list.now }
    requires no_operands { HasNoOperands plain.op }
    ensures { MatchOption result
        (is_some (early_end_at (ruled turn.rule job.now) track.now.executed) ≡ true)
        (λ words. (early_end_at (ruled turn.rule job.now) track.now.executed ≡ None)
        × CountsAs (held_under turn.rule turn.number plain.entry.op track.now.cells blocks.now
        + length plain.entry.list.now) track.now.peak words) }
{
    steps_can_begin::<BlockId>();
    reached();
    held_is_counted();
    let _used = blocks.used();
    if track.executed() == job.limits().budget {
        return None;
    }
    let words = words_with(plain.list, turn.number, blocks);
    match track.memory_fault(plain.op, words as u64) {
        Some(_) => None,
        None => Some(words),
    }
}

/// The words of a list and those that are held beside it, or 0 if it has none.
#[inline(always)]
fn words_with<A: Allocator>(list: &[i64], number: usize, blocks: &JobMemory<A>) -> usize
    requires is_job { IsJob blocks.now number }
    requires few { held_words number blocks.now ≤ MOST_WORDS }
    ensures { result ≡ words_with list.now (held_words number blocks.now) }
{
    if list.is_empty() {
        0
    } else {
        blocks.held(number) + list.len()
    }
}

/// The words that a job that runs holds and needs at its next instruction. If its operands don't fit one another, only
/// those that it holds.
pub(crate) fn demand_of<A: Allocator>(
    turn: Turn,
    job: &Job<A>,
    track: &Track<BlockId, A>,
    blocks: &JobMemory<A>,
) -> usize
    requires running { IsRunningSlot (own_slots turn.number blocks.now) (ruled turn.rule job.now) track.now }
    requires verified { IsVerified (ruled turn.rule job.now) }
    requires has_grant { HasGrant blocks.now turn.number }
    ensures executed { early_end_at (ruled turn.rule job.now) track.now.executed ≡ None
        → result ≡ demand_in turn.rule (state_after (ruled turn.rule job.now) track.now.executed) }
    ensures told { result ≡ told_demand_in turn.rule (state_after (ruled turn.rule job.now) track.now.executed) }
{
    steps_can_begin::<BlockId>();
    held_is_counted();
    let next = read_next(turn, job, track, blocks);
    // By its type a memory has no block that no reference names.
    let _used = blocks.used();
    let op = next.op;
    let held = held_under(turn, track, blocks, op);
    demand_by(held, &next)
}

/// The words of the results of the next instruction of a job that runs, or 0 if its operands don't fit one another.
pub(crate) fn need_of<A: Allocator>(
    turn: Turn,
    job: &Job<A>,
    track: &Track<BlockId, A>,
    blocks: &JobMemory<A>,
) -> usize
    requires running { IsRunningSlot (own_slots turn.number blocks.now) (ruled turn.rule job.now) track.now }
    requires verified { IsVerified (ruled turn.rule job.now) }
    ensures { result ≡ told_need_in (state_after (ruled turn.rule job.now) track.now.executed) }
{
    steps_can_begin::<BlockId>();
    let next = read_next(turn, job, track, blocks);
    demand_by(0, &next)
}

/// `held` words, and those of the results of an instruction, if its operands fit one another.
fn demand_by(held: usize, next: &Next<'_>) -> usize
    requires kinds { HaveKinds (source_kinds next.now.op)
        (contents (take next.now.operands.count next.now.operands.lists)) }
    ensures { let sources = contents (take next.now.operands.count next.now.operands.lists) in
        result ≡ told_demand (shape next.now.op sources) held (need_words (question_by next.now.op sources)) }
{
    match lengths(next.op, next.operands.as_slice()) {
        Err(_) => held,
        Ok((first, second)) => {
            let words = (held as u64).saturating_add(first).saturating_add(second);
            words as usize
        }
    }
}
