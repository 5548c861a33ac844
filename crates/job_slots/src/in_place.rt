//! Computing results where they are placed.

ghost use Rattle.std.specs.Prelude.{◌≡◌, ◌+◌, ◌<◌, ◌≤◌, ℤ, List, length, map, false, IfSome, IfOk, IfErr, OnOk, OnErr};
ghost use Rattle.std.specs.Prelude.{Some};
ghost use Rattle.vcode_base.specs.declared.op.Op.TheVariants.{Segmented as SegmentedOp};
ghost use Rattle.vcode_base.specs.declared.op.Segmented.TheVariants.{DefaultPermute};
ghost use Rattle.vcode_base.specs.Kinds.{result_kinds};
ghost use Rattle.vcode_base.specs.Meaning.{value_fault};
ghost use Rattle.block_memory.specs.declared.writer.TheConstants.{MOST_LENT};
ghost use Rattle.refcounts.specs.Making.{words_at};
ghost use Rattle.refcounts.specs.SharedState.{block_count, slot_at};
ghost use Rattle.job_memory.specs.JobBlocks.{AreOwn, IsJob, HasGrant, ChangesOnlyOf, grant_of, own_slots, words_of};
ghost use Rattle.job_memory.specs.JobBlocks.{held_words};
ghost use Rattle.job_steps.specs.EventLaws.{IsVerified};
ghost use Rattle.job_steps.specs.Flows.{IsWithin};
ghost use Rattle.job_steps.specs.Frames.{function_in};
ghost use Rattle.job_steps.specs.Runs.{state_after};
ghost use Rattle.job_steps.specs.States.{ruled};
ghost use Rattle.job_slots.specs.Executions.{ids_in};
ghost use Rattle.job_slots.specs.InPlace.{AreComputed, CanCompute, IsPlaceable, KeepsReferences, is_constant};
ghost use Rattle.job_slots.specs.InPlace.{operands_in, result_count, with_third, words_by};
ghost use Rattle.job_slots.specs.Needs.{IsReady};
ghost use Rattle.job_slots.specs.Slots.{IsAfter, IsFlyingSlot, IsRunningSlot};

use crate::commit::{NewBlocks, place, top};
use crate::execution::{held_is_counted, steps_execute};
use crate::ticket::Ready;
use crate::turn::Turn;
use block_memory::{BlockId, Rewriter, Writer};
use job_memory::JobMemory;
use job_memory::laws::{
    blocks_change_only_their_job, changes_join, releases_change_only_their_job,
};
use job_steps::laws::steps_can_begin;
use job_steps::{Flow, Job, Track, fill};
use refcounts::laws::releases_only_free;
use segment_ops::overlay;
use std::alloc::Allocator;
use vcode_base::laws::results_have_needed_lengths;
use vcode_base::{DataFault, Op, Rule, Scalar, Segmented};

/// If the first result has fewer words, the results are computed on the desk: to copy them takes less time than to look
/// for the operands once more.
const LEAST: usize = 512;

/// How an instruction computes its results where they are placed: the first in its block. The second, which `PACK`
/// alone has, is computed beside it, at the desk, and copied to a block of its own.
#[derive(Clone, Copy)]
pub(crate) struct Placement {
    pub(crate) op: Op,
    /// How many words the first result has.
    pub(crate) first: usize,
    /// How many words the second result has, or 0 if there is none.
    pub(crate) second: usize,
}

/// Such an instruction of the job whose turn it is.
#[derive(Clone, Copy)]
pub(crate) struct Due {
    pub(crate) turn: Turn,
    pub(crate) placement: Placement,
}

/// The work of an instruction. What is beside the block of its first result is for the second.
#[derive(Drop)]
struct Computation {
    op: Op,
}

impl Writer for Computation {
    ghost use Rattle.std.specs.Prelude.{◌≡◌, Some};
    ghost use Rattle.vcode_base.specs.Meaning.{value_fault};
    ghost use Rattle.job_steps.specs.Tickets.{AreResults, question_by};
    ghost use Rattle.job_slots.specs.InPlace.{CanCompute};

    type Fault = DataFault;

    ghost can_write = { λ c operands second first. CanCompute c.op operands (first, second) };

    ghost writes = { λ c operands second first. AreResults (question_by c.op operands) first second };

    ghost faults = { λ c operands fault. value_fault c.op operands ≡ Some fault };

    fn write(
        &self,
        lent: &[&[i64]],
        beside: &mut [i64],
        block: &mut [i64],
    ) -> Result<(), DataFault> {
        fill(self.op, lent, block, beside)
    }
}

/// The operands of a `DPERMUTE` that writes over its default.
#[derive(Clone, Copy)]
struct Overlaid {
    default: BlockId,
    others: [BlockId; 4],
}

/// The work of a `DPERMUTE` that writes over its default, which goes.
#[derive(Drop)]
struct Overlay {
    scalar: Scalar,
}

impl Rewriter for Overlay {
    ghost use Rattle.std.specs.Prelude.{◌≡◌, [], Some, length};
    ghost use Rattle.vcode_base.specs.declared.op.Op.TheVariants.{Segmented as SegmentedOp};
    ghost use Rattle.vcode_base.specs.declared.op.Segmented.TheVariants.{DefaultPermute};
    ghost use Rattle.vcode_base.specs.Meaning.{value_fault};
    ghost use Rattle.job_steps.specs.Tickets.{AreResults, question_by};
    ghost use Rattle.job_slots.specs.InPlace.{CanCompute, with_third};

    type Fault = DataFault;

    ghost can_rewrite = { λ o others none words. (length others ≡ 4)
        × CanCompute (SegmentedOp (DefaultPermute o.scalar)) (with_third [] others words) (length words, 0) };

    ghost rewrites = { λ o others none words result.
        AreResults (question_by (SegmentedOp (DefaultPermute o.scalar)) (with_third [] others words)) result [] };

    ghost faults_over = { λ o others words fault.
        value_fault (SegmentedOp (DefaultPermute o.scalar)) (with_third [] others words) ≡ Some fault };

    fn rewrite(
        &self,
        lent: &[&[i64]],
        _beside: &mut [i64],
        block: &mut [i64],
    ) -> Result<(), DataFault> {
        match overlay(lent[0], lent[1], lent[2], lent[3], block) {
            Ok(()) => Ok(()),
            Err(fault) => Err(fault),
        }
    }
}

/// How the next instruction of a job, which is no `CONST`, computes its results where they are placed. None if its
/// first result has few words, or if the job's words have no room for the results beside its operands.
#[inline(always)]
pub(crate) fn placement_of<A: Allocator>(
    turn: Turn,
    job: &Job<A>,
    track: &Track<BlockId, A>,
    blocks: &JobMemory<A>,
    ready: Ready,
) -> Option<Placement>
    requires running { IsRunningSlot (own_slots turn.number blocks.now) (ruled turn.rule job.now) track.now }
    requires verified { IsVerified (ruled turn.rule job.now) }
    requires is_job { IsJob blocks.now turn.number }
    requires ready { (sources : List (List ℤ)) × IsReady (ruled turn.rule job.now) turn.number blocks.now track.now
        ready.op sources ready.needs }
    requires no_list { is_constant ready.op ≡ false }
    ensures { IfSome result (IsPlaceable (ruled turn.rule job.now) turn.number blocks.now track.now) }
{
    steps_can_begin::<BlockId>();
    held_is_counted();
    // By its type a memory has no block that no reference names.
    let _used = blocks.used();
    let Ready { op, needs } = ready;
    let first = needs.first as usize;
    let second = needs.second as usize;
    if first < LEAST {
        return None;
    }
    if op.result_kinds().len() != result_count(second) {
        return None;
    }
    let held = blocks.held(turn.number);
    if job.limits().words < held.saturating_add(first).saturating_add(second) {
        return None;
    }
    Some(Placement { op, first, second })
}

/// How many results an instruction has, by the words of its second one.
fn result_count(second: usize) -> usize
    ensures { result ≡ result_count second }
{
    if second == 0 { 1 } else { 2 }
}

/// Executes the next instruction of a job that runs, whose results are computed where they are placed. What is lent
/// beside the blocks is for the second one.
///
/// # Errors
///
/// The fault that the values of the operands have. The cells hold the references then that they held before.
#[tactic(auto, using(crate::proofs::InPlace::of_computations))]
pub(crate) fn execute_in_place<A: Allocator>(
    due: Due,
    job: &Job<A>,
    track: &mut Track<BlockId, A>,
    blocks: &mut JobMemory<A>,
    beside: &mut [i64],
) -> Result<(), DataFault>
    requires flying { IsFlyingSlot (own_slots due.turn.number blocks.old) (ruled due.turn.rule job.now) track.old }
    requires verified { IsVerified (ruled due.turn.rule job.now) }
    requires is_job { IsJob blocks.old due.turn.number }
    requires grant { grant_of blocks.old due.turn.number ≡ Some job.now.limits.words }
    requires numbers { block_count blocks.old.memory + 2 ≤ length blocks.old.memory.slots }
    requires placeable { IsPlaceable (ruled due.turn.rule job.now) due.turn.number blocks.old track.old due.placement }
    requires lent { length beside.old ≡ due.placement.second }
    ensures after { OnOk result (IsAfter (own_slots due.turn.number blocks.new) (ruled due.turn.rule job.now) track.new
        (state_after (ruled due.turn.rule job.now) (track.old.executed + 1))) }
    ensures limits { track.new.limits ≡ track.old.limits }
    ensures others { OnOk result (ChangesOnlyOf due.turn.number blocks.old blocks.new) }
    ensures same_grant { grant_of blocks.new due.turn.number ≡ grant_of blocks.old due.turn.number }
    ensures goes_on { OnOk result (0 < length track.new.frames) }
    ensures stays { OnOk result (IsWithin due.placement.op
        → function_in track.new.frames ≡ function_in track.old.frames) }
    ensures unchanged { OnErr result (track.new ≡ track.old) }
    ensures kept { OnErr result (KeepsReferences due.turn.number blocks.old blocks.new) }
    ensures fault { IfErr result (λ fault.
        value_fault due.placement.op (operands_in blocks.old due.placement.op track.old.cells) ≡ Some fault) }
{
    let Due { turn, placement } = due;
    let Placement { op, first, second } = placement;
    steps_execute();
    results_have_needed_lengths();
    let _used = blocks.used();
    let held = blocks.held(turn.number);
    let operands = top(track.cells(), op.operand_kinds().len());
    match compute(turn, placement, operands, beside, blocks) {
        Ok(results) => {
            let words = words_by(turn.rule, held + first + second, blocks.held(turn.number));
            track.advance(job, op, Flow::Next, results.as_slice(), words);
            Ok(())
        }
        Err(fault) => Err(fault),
    }
}

/// The blocks of an instruction's results, in the place of its operands, which go. A `DPERMUTE` writes over its default
/// if nothing else names that.
///
/// # Errors
///
/// The fault that the values of the operands have. No reference goes then.
fn compute<A: Allocator>(
    turn: Turn,
    placement: Placement,
    operands: &[BlockId],
    beside: &mut [i64],
    blocks: &mut JobMemory<A>,
) -> Result<NewBlocks, DataFault>
    requires has_grant { HasGrant blocks.old turn.number }
    requires numbers { block_count blocks.old.memory + 2 ≤ length blocks.old.memory.slots }
    requires room { held_words turn.number blocks.old + placement.first + length beside.old
        ≤ words_of (grant_of blocks.old turn.number) }
    requires few { length operands.now ≤ MOST_LENT }
    requires own { AreOwn turn.number blocks.old operands.now }
    requires can { CanCompute placement.op (map (words_at blocks.old.memory) operands.now)
        (placement.first, length beside.old) }
    requires count { length (result_kinds placement.op) ≡ result_count (length beside.old) }
    ensures computed { IfOk result (λ results.
        AreComputed turn.rule turn.number placement.op operands.now (ids_in results) blocks.old blocks.new) }
    ensures fault { IfErr result (λ fault. value_fault placement.op (map (words_at blocks.old.memory) operands.now)
        ≡ Some fault) }
    ensures kept { OnErr result (KeepsReferences turn.number blocks.old blocks.new) }
    ensures grants { blocks.new.grants ≡ blocks.old.grants }
{
    if let Op::Segmented(Segmented::DefaultPermute(scalar)) = placement.op {
        if let [elements, indices, default, source, target] = operands {
            if blocks.is_single(*default) {
                let overlaid = Overlaid {
                    default: *default,
                    others: [*elements, *indices, *source, *target],
                };
                return compute_over(turn, scalar, operands, overlaid, blocks);
            }
        }
    }
    compute_anew(turn, placement, operands, beside, blocks)
}

/// The same for a `DPERMUTE` whose default is named by nothing else.
#[tactic(auto, using(crate::proofs::InPlace::default_listed, crate::proofs::InPlace::words_with_third))]
fn compute_over<A: Allocator>(
    turn: Turn,
    scalar: Scalar,
    operands: &[BlockId],
    overlaid: Overlaid,
    blocks: &mut JobMemory<A>,
) -> Result<NewBlocks, DataFault>
    requires has_grant { HasGrant blocks.old turn.number }
    requires own { AreOwn turn.number blocks.old operands.now }
    requires single { (slot_at blocks.old.memory overlaid.default).count ≡ 1 }
    requires four { length overlaid.others ≡ 4 }
    requires are { operands.now ≡ with_third 0 overlaid.others overlaid.default }
    requires can { CanCompute (SegmentedOp (DefaultPermute scalar)) (map (words_at blocks.old.memory) operands.now)
        (length (words_at blocks.old.memory overlaid.default), 0) }
    ensures computed { IfOk result (λ results. AreComputed turn.rule turn.number (SegmentedOp (DefaultPermute scalar))
        operands.now (ids_in results) blocks.old blocks.new) }
    ensures fault { IfErr result (λ fault. value_fault (SegmentedOp (DefaultPermute scalar))
        (map (words_at blocks.old.memory) operands.now) ≡ Some fault) }
    ensures kept { OnErr result (KeepsReferences turn.number blocks.old blocks.new) }
    ensures grants { blocks.new.grants ≡ blocks.old.grants }
{
    releases_only_free();
    releases_change_only_their_job();
    blocks_change_only_their_job();
    changes_join();
    let Overlaid { default, others } = overlaid;
    let work = Overlay { scalar };
    match blocks.exchange_with(turn.number, operands, default, &others, &work) {
        Ok(()) => Ok(NewBlocks::One([default])),
        Err(fault) => Err(fault),
    }
}

/// The same in new blocks.
fn compute_anew<A: Allocator>(
    turn: Turn,
    placement: Placement,
    operands: &[BlockId],
    beside: &mut [i64],
    blocks: &mut JobMemory<A>,
) -> Result<NewBlocks, DataFault>
    requires has_grant { HasGrant blocks.old turn.number }
    requires numbers { block_count blocks.old.memory + 2 ≤ length blocks.old.memory.slots }
    requires room { held_words turn.number blocks.old + placement.first + length beside.old
        ≤ words_of (grant_of blocks.old turn.number) }
    requires few { length operands.now ≤ MOST_LENT }
    requires own { AreOwn turn.number blocks.old operands.now }
    requires can { CanCompute placement.op (map (words_at blocks.old.memory) operands.now)
        (placement.first, length beside.old) }
    requires count { length (result_kinds placement.op) ≡ result_count (length beside.old) }
    ensures computed { IfOk result (λ results.
        AreComputed turn.rule turn.number placement.op operands.now (ids_in results) blocks.old blocks.new) }
    ensures fault { IfErr result (λ fault. value_fault placement.op (map (words_at blocks.old.memory) operands.now)
        ≡ Some fault) }
    ensures unchanged { OnErr result (blocks.new ≡ blocks.old) }
    ensures grants { blocks.new.grants ≡ blocks.old.grants }
{
    releases_only_free();
    releases_change_only_their_job();
    let work = Computation { op: placement.op };
    match blocks.place_with(turn.number, placement.first, operands, &work, beside) {
        Ok(first) => {
            blocks.release_all(turn.number, operands);
            if beside.is_empty() {
                return Ok(NewBlocks::One([first]));
            }
            let second = place(turn.number, blocks, beside);
            Ok(NewBlocks::Two([first, second]))
        }
        Err(fault) => Err(fault),
    }
}

/// The number that counts under a rule.
fn words_by(rule: Rule, under_first: usize, under_second: usize) -> usize
    ensures { result ≡ words_by rule under_first under_second }
{
    match rule {
        Rule::First => under_first,
        Rule::Second => under_second,
    }
}
