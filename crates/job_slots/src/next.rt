//! The next instruction of a job, with the words of its operands.

ghost use Rattle.std.specs.Prelude.{◌≡◌, ◌≤◌, ◌↔◌, false, List, [], ◌∷◌, IsTrue, length, map, take, Some};
ghost use Rattle.vcode_base.specs.Instructions.{op_of};
ghost use Rattle.vcode_base.specs.Kinds.{HaveKinds, source_kinds};
ghost use Rattle.vcode_base.specs.Meaning.{operand};
ghost use Rattle.vcode_base.specs.Operands.{contents};
ghost use Rattle.refcounts.specs.SharedState.{AreLive, slot_at};
ghost use Rattle.job_memory.specs.JobBlocks.{own_slots};
ghost use Rattle.vcode_reader.specs.Pools.{list_in};
ghost use Rattle.job_steps.specs.declared.operands.TheConstants.{MOST_OPERANDS};
ghost use Rattle.job_steps.specs.EventLaws.{IsVerified};
ghost use Rattle.job_steps.specs.Frames.{instruction_in};
ghost use Rattle.job_steps.specs.Motions.{operand_count, top_entries};
ghost use Rattle.job_steps.specs.States.{StackEntry, ruled, words_of};
ghost use Rattle.job_steps.specs.Steps.{sources_of};
ghost use Rattle.job_slots.specs.Slots.{IsRunningSlot};
ghost use Rattle.job_slots.specs.Answers.{IsNext, line_at, question_at};
ghost use Rattle.job_slots.specs.InPlace.{is_constant};
ghost use Rattle.job_slots.specs.Lines.{IsLineOf, IsOpOfNext};

use crate::turn::Turn;
use block_memory::BlockId;
use job_memory::JobMemory;
use job_steps::laws::steps_can_begin;
use job_steps::{Filled, Job, MOST_OPERANDS, Track};
use std::alloc::Allocator;
use vcode_base::{Instr, Instruction, Op};
use vcode_reader::{CodeItem, CodeLine};

/// The words of an instruction's operands from the bottom of the stack up, or of its list.
#[derive(Clone, Copy)]
pub(crate) struct Operands<'a> {
    lists: [&'a [i64]; MOST_OPERANDS],
    count: usize,
    ghost few: { count ≤ MOST_OPERANDS },
}

impl<'a> Operands<'a> {
    /// The lists.
    #[inline(always)]
    pub(crate) fn as_slice(&self) -> &[&'a [i64]]
        ensures { result.now ≡ take self.now.count self.now.lists }
    {
        &self.lists[..self.count]
    }
}

/// An instruction and its operands.
#[derive(Clone, Copy)]
pub(crate) struct Next<'a> {
    pub(crate) op: Op,
    pub(crate) operands: Operands<'a>,
}

/// The next instruction of a job that runs.
#[inline(always)]
pub(crate) fn read_next<'a, A: Allocator>(
    turn: Turn,
    job: &'a Job<A>,
    track: &Track<BlockId, A>,
    blocks: &'a JobMemory<A>,
) -> Next<'a>
    requires running { IsRunningSlot (own_slots turn.number blocks.now) (ruled turn.rule job.now) track.now }
    requires verified { IsVerified (ruled turn.rule job.now) }
    ensures next { IsNext (ruled turn.rule job.now) track.now.executed result.op
        (contents (take result.operands.count result.operands.lists)) }
    ensures kinds { HaveKinds (source_kinds result.op) (contents (take result.operands.count result.operands.lists)) }
{
    steps_can_begin::<BlockId>();
    let line = next_line(turn, job, track, blocks);
    let op = op_of(&line);
    Next {
        op,
        operands: operands_of(&line, list_of(&line), op, track, blocks),
    }
}

/// The line of the next instruction of a job that runs.
#[inline(always)]
pub(crate) fn next_line<'a, A: Allocator>(
    turn: Turn,
    job: &'a Job<A>,
    track: &Track<BlockId, A>,
    blocks: &JobMemory<A>,
) -> CodeLine<'a>
    requires running { IsRunningSlot (own_slots turn.number blocks.now) (ruled turn.rule job.now) track.now }
    requires verified { IsVerified (ruled turn.rule job.now) }
    ensures { IsLineOf (ruled turn.rule job.now) track.now result }
{
    steps_can_begin::<BlockId>();
    track.line(track.function(job.verified().program()))
}

/// The next instruction of a job that runs, which is this one, and no `CONST`.
#[inline(always)]
pub(crate) fn next_at<'a, A: Allocator>(
    turn: Turn,
    job: &'a Job<A>,
    track: &Track<BlockId, A>,
    blocks: &'a JobMemory<A>,
    op: Op,
) -> Next<'a>
    requires running { IsRunningSlot (own_slots turn.number blocks.now) (ruled turn.rule job.now) track.now }
    requires verified { IsVerified (ruled turn.rule job.now) }
    requires op { IsOpOfNext (ruled turn.rule job.now) track.now op }
    requires no_list { is_constant op ≡ false }
    ensures op { result.op ≡ op }
    ensures next { IsNext (ruled turn.rule job.now) track.now.executed result.op
        (contents (take result.operands.count result.operands.lists)) }
    ensures kinds { HaveKinds (source_kinds result.op) (contents (take result.operands.count result.operands.lists)) }
{
    steps_can_begin::<BlockId>();
    Next {
        op,
        operands: top_operands(op, track, blocks),
    }
}

/// The number of the line of the next instruction of a job that runs. Only an ending asks for it.
#[cold]
#[inline(never)]
pub(crate) fn line_of_next<A: Allocator>(
    turn: Turn,
    job: &Job<A>,
    track: &Track<BlockId, A>,
    blocks: &JobMemory<A>,
) -> u64
    requires running { IsRunningSlot (own_slots turn.number blocks.now) (ruled turn.rule job.now) track.now }
    requires verified { IsVerified (ruled turn.rule job.now) }
    ensures { line_at (ruled turn.rule job.now) track.now.executed ≡ Some result }
{
    steps_can_begin::<BlockId>();
    next_line(turn, job, track, blocks).number
}

/// The instruction of a line of code without its list or name.
#[inline(always)]
pub(crate) fn op_of(line: &CodeLine<'_>) -> Op
    ensures { result ≡ op_of (instruction_in line.now.item) }
{
    match &line.item {
        CodeItem::Do(instruction) => instruction.op(),
        CodeItem::If | CodeItem::Else | CodeItem::Endif => Op::If,
    }
}

/// The list of a line's `CONST`; no element for another line.
#[inline(always)]
pub(crate) fn list_of<'a>(line: &CodeLine<'a>) -> &'a [i64]
    ensures { result.now ≡ list_in (instruction_in line.now.item) }
{
    match &line.item {
        CodeItem::Do(instruction) => list_of_instruction(instruction),
        CodeItem::If | CodeItem::Else | CodeItem::Endif => &[],
    }
}

/// The list of a `CONST`; no element for another instruction.
#[inline(always)]
fn list_of_instruction<'a>(instruction: &Instruction<'a>) -> &'a [i64]
    ensures { result.now ≡ list_in instruction.now }
{
    match instruction {
        Instr::Const(_, list) => list.as_slice(),
        Instr::Elementwise(_)
        | Instr::Segmented(_)
        | Instr::If
        | Instr::Move(..)
        | Instr::Call(_)
        | Instr::Return => &[],
    }
}

/// The list of a `CONST`, or the words of the cells at the top that another instruction takes.
#[inline(always)]
fn operands_of<'a, A: Allocator>(
    line: &CodeLine<'_>,
    list: &'a [i64],
    op: Op,
    track: &Track<BlockId, A>,
    blocks: &'a JobMemory<A>,
) -> Operands<'a>
    requires list { list.now ≡ list_in (instruction_in line.now.item) }
    requires op { op ≡ op_of (instruction_in line.now.item) }
    requires deep { operand_count op ≤ length track.now.cells }
    requires live { AreLive blocks.now.memory track.now.cells }
    ensures sources { (stack : List StackEntry)
        → map (λ id. (slot_at blocks.now.memory id).words) track.now.cells ≡ words_of stack
        → contents (take result.count result.lists) ≡ sources_of (instruction_in line.now.item) stack }
{
    match op {
        Op::Const(_) => constant(list),
        Op::Elementwise(_) | Op::Segmented(_) | Op::If | Op::Move(..) | Op::Call | Op::Return => {
            top_operands(op, track, blocks)
        }
    }
}

/// The list of a `CONST`, and nothing after it.
#[inline(always)]
fn constant(list: &[i64]) -> Operands<'_>
    ensures { contents (take result.count result.lists) ≡ list.now ∷ [] }
{
    Operands {
        lists: [list, &[], &[], &[], &[]],
        count: 1,
    }
}

/// The words of the cells at the top that an instruction takes.
#[tactic(auto, using(crate::proofs::Stacks::of_top))]
#[inline(always)]
fn top_operands<'a, A: Allocator>(
    op: Op,
    track: &Track<BlockId, A>,
    blocks: &'a JobMemory<A>,
) -> Operands<'a>
    requires deep { operand_count op ≤ length track.now.cells }
    requires live { AreLive blocks.now.memory track.now.cells }
    ensures { (stack : List StackEntry) → map (λ id. (slot_at blocks.now.memory id).words) track.now.cells
        ≡ words_of stack
        → contents (take result.count result.lists) ≡ words_of (top_entries (operand_count op) stack) }
{
    let cells = track.cells();
    words_of_blocks(&cells[cells.len() - op.operand_kinds().len()..], blocks)
}

/// The words of blocks, of which there are at most as many as an instruction has operands.
#[tactic(auto, using(crate::proofs::Stacks::of_lent))]
#[inline(always)]
fn words_of_blocks<'a, A: Allocator>(ids: &[BlockId], blocks: &'a JobMemory<A>) -> Operands<'a>
    requires few { length ids.now ≤ MOST_OPERANDS }
    requires live { AreLive blocks.now.memory ids.now }
    ensures { contents (take result.count result.lists) ≡ map (λ id. (slot_at blocks.now.memory id).words) ids.now }
{
    Operands {
        lists: [
            words_at(ids, 0, blocks),
            words_at(ids, 1, blocks),
            words_at(ids, 2, blocks),
            words_at(ids, 3, blocks),
            words_at(ids, 4, blocks),
        ],
        count: ids.len(),
    }
}

/// The words of the block at this place, or none after the last.
#[inline(always)]
fn words_at<'a, A: Allocator>(ids: &[BlockId], place: usize, blocks: &'a JobMemory<A>) -> &'a [i64]
    requires { AreLive blocks.now.memory ids.now }
    ensures { result.now ≡ operand (map (λ id. (slot_at blocks.now.memory id).words) ids.now) place }
{
    match ids.get(place) {
        Some(id) => blocks.words(*id),
        None => &[],
    }
}

/// Whether a step that was computed is the next of the job.
pub(crate) fn is_asked<A: Allocator>(
    turn: Turn,
    job: &Job<A>,
    track: &Track<BlockId, A>,
    blocks: &JobMemory<A>,
    filled: &Filled<A>,
) -> bool
    requires running { IsRunningSlot (own_slots turn.number blocks.now) (ruled turn.rule job.now) track.now }
    requires verified { IsVerified (ruled turn.rule job.now) }
    ensures { IsTrue result ↔ ((track.now.executed ≡ filled.now.step)
        × (question_at (ruled turn.rule job.now) filled.now.step ≡ Some filled.now.question)) }
{
    if track.executed() != filled.step() {
        return false;
    }
    let next = read_next(turn, job, track, blocks);
    filled.asks(next.op, next.operands.as_slice())
}
