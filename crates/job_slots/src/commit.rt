//! What an instruction that is executed does to the cells and the blocks.

ghost use Rattle.std.specs.Prelude.{◌≡◌, ◌+◌, ◌<◌, ◌≤◌, length, reverse, Some, IfSome, MatchResult};
ghost use Rattle.job_steps.specs.declared.flow.Flow.TheVariants.{Return};
ghost use Rattle.vcode_base.specs.declared.rule.Rule.{Rule};
ghost use Rattle.vcode_base.specs.Kinds.{result_kinds};
ghost use Rattle.vcode_base.specs.Meaning.{value_fault};
ghost use Rattle.refcounts.specs.SharedState.{AreLive, block_count, empty_slot, occurrences, slot_at};
ghost use Rattle.job_memory.specs.JobBlocks.{IsJob, HasGrant, AreOwn, ChangesOnlyOf, grant_of, words_of, own_slots};
ghost use Rattle.job_memory.specs.JobBlocks.{held_words, with_block};
ghost use Rattle.job_steps.specs.EventLaws.{IsVerified};
ghost use Rattle.job_steps.specs.Flows.{IsWithin};
ghost use Rattle.job_steps.specs.Frames.{function_in};
ghost use Rattle.job_steps.specs.Motions.{operand_count, top_entries};
ghost use Rattle.job_steps.specs.Runs.{state_after};
ghost use Rattle.job_steps.specs.States.{ruled};
ghost use Rattle.job_steps.specs.Tracks.{IsDeep};
ghost use Rattle.job_slots.specs.Commits.{CanTake, IsExchanged, blocks_after_taking, held_under, moved_ids, taken_ids};
ghost use Rattle.job_slots.specs.Executions.{CanGive, CanShare, HasGiven, IsMade, ids_in};
ghost use Rattle.job_slots.specs.Slots.{IsFlyingSlot, IsAfter};
ghost use Rattle.job_slots.specs.Answers.{question_at};

use crate::class::Class;
use crate::execution::steps_execute;
use crate::turn::Turn;
use block_memory::BlockId;
use job_memory::JobMemory;
use job_memory::laws::releases_change_only_their_job;
use job_steps::{Filled, Flow, Job, Track};
use refcounts::laws::releases_only_free;
use std::alloc::Allocator;
use vcode_base::{DataFault, Op, Rule, StackMove};

/// The blocks of an instruction's results, from the bottom of the stack up.
#[derive(Clone, Copy)]
pub(crate) enum NewBlocks {
    Without,
    One([BlockId; 1]),
    Two([BlockId; 2]),
}

impl NewBlocks {
    /// Their numbers.
    #[inline(always)]
    pub(crate) fn as_slice(&self) -> &[BlockId]
        ensures { result.now ≡ ids_in self.now }
    {
        match self {
            NewBlocks::Without => &[],
            NewBlocks::One(ids) => ids,
            NewBlocks::Two(ids) => ids,
        }
    }
}

/// What an instruction makes: how the calls go on, its results, and the words that are held and needed at it.
#[derive(Clone, Copy)]
pub(crate) struct Made<'a> {
    pub(crate) op: Op,
    pub(crate) flow: Flow,
    pub(crate) first: &'a [i64],
    pub(crate) second: &'a [i64],
    pub(crate) words: usize,
}

/// What the step in flight, which was computed, makes.
///
/// # Errors
///
/// The fault that the values of its operands have.
pub(crate) fn made_in_flight<'a, A: Allocator>(
    turn: Turn,
    job: &Job<A>,
    track: &Track<BlockId, A>,
    blocks: &JobMemory<A>,
    filled: &'a Filled<A>,
) -> Result<Made<'a>, DataFault>
    requires flying { IsFlyingSlot (own_slots turn.number blocks.now) (ruled turn.rule job.now) track.now }
    requires verified { IsVerified (ruled turn.rule job.now) }
    requires has_grant { HasGrant blocks.now turn.number }
    requires asked { question_at (ruled turn.rule job.now) track.now.executed ≡ Some filled.now.question }
    ensures { MatchResult result (IsMade (ruled turn.rule job.now) turn.number blocks.now track.now)
        (λ fault. value_fault filled.now.question.op filled.now.question.sources ≡ Some fault) }
{
    steps_execute();
    match filled.answer() {
        Err(fault) => Err(fault),
        Ok((first, second)) => {
            let _used = blocks.used();
            let (op, flow) = (filled.op(), filled.flow());
            let words = held_under(turn, track, blocks, op) + first.len() + second.len();
            Ok(Made {
                op,
                flow,
                first,
                second,
                words,
            })
        }
    }
}

/// Executes the next instruction of a job that runs, which makes this.
pub(crate) fn execute<C: Class, A: Allocator>(
    turn: Turn,
    job: &Job<A>,
    track: &mut Track<BlockId, A>,
    blocks: &mut JobMemory<A>,
    made: Made<'_>,
)
    requires flying { IsFlyingSlot (own_slots turn.number blocks.old) (ruled turn.rule job.now) track.old }
    requires verified { IsVerified (ruled turn.rule job.now) }
    requires is_job { IsJob blocks.old turn.number }
    requires grant { grant_of blocks.old turn.number ≡ Some job.now.limits.words }
    requires numbers { block_count blocks.old.memory + 2 ≤ length blocks.old.memory.slots }
    requires made { IsMade (ruled turn.rule job.now) turn.number blocks.old track.old made }
    ensures after { IsAfter (own_slots turn.number blocks.new) (ruled turn.rule job.now) track.new
        (state_after (ruled turn.rule job.now) (track.old.executed + 1)) }
    ensures limits { track.new.limits ≡ track.old.limits }
    ensures others { ChangesOnlyOf turn.number blocks.old blocks.new }
    ensures same_grant { grant_of blocks.new turn.number ≡ grant_of blocks.old turn.number }
    ensures goes_on { (made.entry.flow ≡ Return → ⊥) → 0 < length track.new.frames }
    ensures stays { IsWithin made.entry.op → function_in track.new.frames ≡ function_in track.old.frames }
{
    steps_execute();
    let _used = blocks.used();
    let results = exchange_operands::<C, A>(turn, track, blocks, made);
    track.advance(job, made.op, made.flow, results.as_slice(), made.words);
}

/// The words that count as held while an instruction's results are made: not those of the operands under the second
/// rule, unless an entry below them has them too.
#[inline(always)]
pub(crate) fn held_under<A: Allocator>(
    turn: Turn,
    track: &Track<BlockId, A>,
    blocks: &JobMemory<A>,
    op: Op,
) -> usize
    requires has_grant { HasGrant blocks.now turn.number }
    requires deep { operand_count op ≤ length track.now.cells }
    requires own { AreOwn turn.number blocks.now (taken_ids op track.now.cells) }
    ensures { result ≡ held_under turn.rule turn.number op track.now.cells blocks.now }
{
    match turn.rule {
        Rule::First => blocks.held(turn.number),
        Rule::Second => blocks.held_without(
            turn.number,
            top(track.cells(), op.operand_kinds().len()),
        ),
    }
}

/// Takes the operands of an instruction off the blocks, and places its results.
#[tactic(auto, using(crate::proofs::Executed::same_grants, crate::proofs::Stacks::deep_enough))]
fn exchange_operands<C: Class, A: Allocator>(
    turn: Turn,
    track: &Track<BlockId, A>,
    blocks: &mut JobMemory<A>,
    made: Made<'_>,
) -> NewBlocks
    requires few { length (result_kinds made.op) ≤ 2 }
    requires can { CanGive turn.rule turn.number made track.now.cells blocks.old }
    ensures { HasGiven turn.number made.entry track.now.cells (ids_in result) blocks.old blocks.new }
{
    match made.op.result_kinds() {
        [] => {
            take(track, turn.number, blocks, made.op);
            NewBlocks::Without
        }
        [_] => NewBlocks::One([exchange(turn, track, blocks, made.op, made.first)]),
        _ => exchange_for_two(turn, track, blocks, made),
    }
}

/// The same for an instruction of two results.
#[tactic(auto, using(crate::proofs::Stacks::deep_enough))]
#[inline(never)]
fn exchange_for_two<A: Allocator>(
    turn: Turn,
    track: &Track<BlockId, A>,
    blocks: &mut JobMemory<A>,
    made: Made<'_>,
) -> NewBlocks
    requires two { length (result_kinds made.op) ≡ 2 }
    requires can { CanGive turn.rule turn.number made track.now.cells blocks.old }
    ensures { HasGiven turn.number made.entry track.now.cells (ids_in result) blocks.old blocks.new }
{
    let below = exchange(turn, track, blocks, made.op, made.first);
    let top = place(turn.number, blocks, made.second);
    NewBlocks::Two([below, top])
}

/// One reference less to each block that the instruction takes off the stack, and one more to each that it copies.
#[tactic(auto, using(crate::proofs::Stacks::few_copied))]
#[inline(always)]
fn take<A: Allocator>(track: &Track<BlockId, A>, number: usize, blocks: &mut JobMemory<A>, op: Op)
    requires has_grant { HasGrant blocks.old number }
    requires deep { IsDeep op (length track.now.cells) }
    requires can_take { CanTake number op track.now.cells blocks.old }
    requires can_share { CanShare op track.now.cells blocks.old }
    ensures { blocks.new ≡ blocks_after_taking op track.now.cells blocks.old }
{
    let cells = track.cells();
    match op {
        Op::Move(StackMove::Copy, lower, upper) => {
            blocks.share_all(below_top(cells, lower as usize, upper as usize));
        }
        Op::Move(StackMove::Pop, lower, upper) => {
            blocks.release_all(number, below_top(cells, lower as usize, upper as usize));
        }
        Op::Move(StackMove::MoveToTop, _, _) => {}
        Op::Const(_) | Op::Elementwise(_) | Op::Segmented(_) | Op::If | Op::Call | Op::Return => {
            blocks.release_all(number, top(cells, op.operand_kinds().len()));
        }
    }
}

/// A new block of the words in the place of the operands, which go after it is placed, or before it under the second
/// rule. If one of them is named by nothing else and has as many words, the new block takes its number and its place.
#[tactic(auto, using(crate::proofs::InPlace::of_exchanges))]
#[inline(always)]
fn exchange<A: Allocator>(
    turn: Turn,
    track: &Track<BlockId, A>,
    blocks: &mut JobMemory<A>,
    op: Op,
    words: &[i64],
) -> BlockId
    requires has_grant { HasGrant blocks.old turn.number }
    requires numbers { block_count blocks.old.memory < length blocks.old.memory.slots }
    requires deep { operand_count op ≤ length track.now.cells }
    requires own { AreOwn turn.number blocks.old (taken_ids op track.now.cells) }
    requires room { held_under turn.rule turn.number op track.now.cells blocks.old + length words.now
        ≤ words_of (grant_of blocks.old turn.number) }
    ensures exchanged { (form : Rule)
        × IsExchanged form turn.number (taken_ids op track.now.cells) result words.now blocks.old blocks.new }
    ensures held { held_words turn.number blocks.new
        ≤ held_under turn.rule turn.number op track.now.cells blocks.old + length words.now }
    ensures count { block_count blocks.new.memory ≤ block_count blocks.old.memory + 1 }
    ensures numbers { length blocks.new.memory.slots ≡ length blocks.old.memory.slots }
    ensures grants { blocks.new.grants ≡ blocks.old.grants }
{
    releases_only_free();
    releases_change_only_their_job();
    let operands = top(track.cells(), op.operand_kinds().len());
    if operands.is_empty() {
        return place(turn.number, blocks, words);
    }
    if let Some(id) = dying(blocks, operands, words.len()) {
        blocks.exchange_at(turn.number, operands, id, words);
        return id;
    }
    match turn.rule {
        Rule::First => {
            let id = place(turn.number, blocks, words);
            blocks.release_all(turn.number, operands);
            id
        }
        Rule::Second => blocks.exchange(turn.number, operands, words),
    }
}

/// The first of these blocks that one reference names and that has `len` words, if there is one.
#[tactic(auto, using(crate::proofs::InPlace::named_at))]
#[inline(always)]
fn dying<A: Allocator>(blocks: &JobMemory<A>, ids: &[BlockId], len: usize) -> Option<BlockId>
    requires { AreLive blocks.now.memory ids.now }
    ensures listed { IfSome result (λ id. 1 ≤ occurrences id ids.now) }
    ensures single { IfSome result (λ id. (slot_at blocks.now.memory id).count ≡ 1) }
    ensures same_length { IfSome result (λ id. len ≡ length (slot_at blocks.now.memory id).words) }
{
    for id in ids {
        if blocks.is_single(*id) && blocks.words(*id).len() == len {
            return Some(*id);
        }
    }
    None
}

/// A new block of the job, whose grant has room for it.
#[inline(always)]
pub(crate) fn place<A: Allocator>(
    number: usize,
    blocks: &mut JobMemory<A>,
    words: &[i64],
) -> BlockId
    requires has_grant { HasGrant blocks.old number }
    requires numbers { block_count blocks.old.memory < length blocks.old.memory.slots }
    requires room { held_words number blocks.old + length words.now ≤ words_of (grant_of blocks.old number) }
    ensures fresh { (result < length blocks.old.memory.slots) × (slot_at blocks.old.memory result ≡ empty_slot) }
    ensures placed { blocks.new ≡ with_block blocks.old number result words.now }
{
    let Ok(id) = blocks.place(number, words) else {
        unreachable!()
    };
    id
}

/// The cells at the top, of which there are at least `count`.
#[tactic(auto, using(crate::proofs::Stacks::top_slice))]
#[inline(always)]
pub(crate) fn top(cells: &[BlockId], count: usize) -> &[BlockId]
    requires { count ≤ length cells.now }
    ensures { result.now ≡ top_entries count (reverse cells.now) }
{
    &cells[cells.len() - count..]
}

/// The `lower` cells that lie below the top `upper`.
#[tactic(auto, using(crate::proofs::Stacks::moved_slice))]
#[inline(always)]
fn below_top(cells: &[BlockId], lower: usize, upper: usize) -> &[BlockId]
    requires { lower + upper ≤ length cells.now }
    ensures { result.now ≡ moved_ids lower upper (reverse cells.now) }
{
    let end = cells.len() - upper;
    &cells[end - lower..end]
}
