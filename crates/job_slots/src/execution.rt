//! Laws of the next instruction of a job: what counts as held at it, and that it can be executed if its step is in
//! flight.

ghost use Rattle.job_slots.specs.Executions.{BlockLaws, HeldIsCounted, StepsExecute};

use block_memory::BlockId;
use job_memory::laws::{
    blocks_change_only_their_job, changes_join, releases_change_only_their_job,
    shares_change_only_their_job,
};
use job_steps::laws::{each_track_follows, others_are_ready, reached, steps_can_advance};
use refcounts::laws::{
    release_stays_tidy, releases_are_counted, releases_keep_blocks, shares_are_counted,
};
use vcode_base::laws::results_have_needed_lengths;

/// The results of a step in flight have room in the job's words, and what is done with them executes its instruction.
pub(crate) fn steps_execute()
    ensures { StepsExecute }
{
    others_are_ready();
    reached();
    each_track_follows::<BlockId>();
    steps_can_advance::<BlockId>();
    results_have_needed_lengths();
    block_laws();
}

/// What counts as held at the next instruction of a job is what counts when it runs alone, and the blocks of its
/// operands are the job's.
pub(crate) fn held_is_counted()
    ensures { HeldIsCounted }
{
    block_laws();
}

/// What shares, releases and new blocks do to the blocks of a job.
fn block_laws()
    ensures { BlockLaws }
{
    shares_are_counted();
    releases_are_counted();
    releases_keep_blocks();
    release_stays_tidy();
    blocks_change_only_their_job();
    shares_change_only_their_job();
    releases_change_only_their_job();
    changes_join();
}
