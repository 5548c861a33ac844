//! Laws of slots. Each function does nothing, and its contract is the law.

ghost use Rattle.job_slots.specs.Laws.{ShownIsAlone, OthersAreShown, NewIsShown, RecalledIsShown, ShownAreLive};
ghost use Rattle.job_slots.specs.Laws.{ShownAreReached};

use job_steps::laws::{each_ends, reached};

/// A slot that shows its job's standing has the counts and the blocks' words that the job has when it runs alone, and
/// no more blocks than the job may have cells, in a memory without blocks that have no reference.
pub fn shown_is_alone()
    ensures { ShownIsAlone }
{
    reached();
    each_ends();
}

/// What changes another job's blocks and grant alone leaves what a slot shows.
pub fn others_are_shown()
    ensures { OthersAreShown }
{}

/// A new slot of a job without a grant and without a block shows that the job waits.
pub fn new_is_shown()
    ensures { NewIsShown }
{}

/// A slot whose step is given up shows its job's standing before the step.
#[tactic(auto, using(crate::proofs::Standings::recalled_is_shown))]
pub fn recalled_is_shown()
    ensures { RecalledIsShown }
{}

/// The cells of a slot that shows its job's standing name blocks that are there.
#[tactic(auto, using(crate::proofs::Shown::shown_are_live))]
pub fn shown_are_live()
    ensures { ShownAreLive }
{}

/// A slot that shows a live job is at the state that the job reaches alone, by its counts, its calls, and the words of
/// its entries.
#[tactic(auto, using(crate::proofs::Shown::shown_are_reached))]
pub fn shown_are_reached()
    ensures { ShownAreReached }
{}
