//! The results of a job that has returned.

ghost use Rattle.std.specs.Prelude.{◌≡◌, IfOk};
ghost use Rattle.vcode_base.specs.declared.outcome.Outcome.TheVariants.{Returned};
ghost use Rattle.refcounts.specs.SharedState.{slot_at, IsLive};
ghost use Rattle.job_memory.specs.JobBlocks.{own_slots};
ghost use Rattle.job_steps.specs.EventLaws.{IsVerified};
ghost use Rattle.job_steps.specs.Runs.{outcome};
ghost use Rattle.job_steps.specs.States.{ruled};
ghost use Rattle.job_slots.specs.Copies.{AreCopies};
ghost use Rattle.job_slots.specs.Slots.{HasReturned};

use crate::turn::Turn;
use block_memory::BlockId;
use job_memory::JobMemory;
use job_steps::laws::{each_ends, results_have_kinds};
use job_steps::{Job, Track};
use std::alloc::{AllocError, Allocator};
use vcode_base::{Sequence, SharedWords, Value, Values};

/// The results, from the bottom of the stack up. The words of each block are copied once: results that have the same
/// block share them.
pub(crate) fn results<A: Allocator + Clone>(
    alloc: A,
    turn: Turn,
    job: &Job<A>,
    track: &Track<BlockId, A>,
    blocks: &JobMemory<A>,
) -> Result<Values<A>, AllocError>
    requires returned { HasReturned (own_slots turn.number blocks.now) (ruled turn.rule job.now) track.now }
    requires verified { IsVerified (ruled turn.rule job.now) }
    ensures { IfOk result (λ values. outcome (ruled turn.rule job.now) ≡ Returned values) }
{
    results_have_kinds();
    each_ends();
    let cells = track.cells();
    let kinds = job.verified().results();
    let mut values = Vec::with_capacity(alloc.clone()?, cells.len())?;
    for (id, kind) in cells.iter().zip(kinds) {
        let words = copy_of(alloc.clone()?, *id, cells, &values, blocks)?;
        values.push(Value { kind: *kind, words })?;
    }
    Ok(Sequence::from_vec(values))
}

/// A copy of the words of a block. If one of the values, which are copies of the first cells' blocks, is a copy of this
/// block, it shares that one's words.
#[tactic(auto, using(crate::proofs::Shown::of_copies))]
fn copy_of<A: Allocator + Clone>(
    alloc: A,
    block: BlockId,
    cells: &[BlockId],
    values: &[Value<SharedWords<A>>],
    blocks: &JobMemory<A>,
) -> Result<SharedWords<A>, AllocError>
    requires live { IsLive blocks.now.memory block }
    requires copies { AreCopies blocks.now.memory cells.now values.now }
    ensures { IfOk result (λ words. words ≡ (slot_at blocks.now.memory block).words) }
{
    for (cell, value) in cells.iter().zip(values) {
        if *cell == block {
            return value.words.share();
        }
    }
    SharedWords::copy_of(alloc, blocks.words(block))
}
