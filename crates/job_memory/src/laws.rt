//! Laws of the blocks of jobs. Each function does nothing, and its contract is the law.

ghost use Rattle.job_memory.specs.Laws.{GrantsChangeOnlyTheirJob, BlocksChangeOnlyTheirJob};
ghost use Rattle.job_memory.specs.Laws.{SharesChangeOnlyTheirJob, ReleasesChangeOnlyTheirJob, ChangesJoin};

use refcounts::laws::{
    making_changes_only_own, releasing_changes_only_own, sharing_changes_only_own,
};

/// A grant, and the end of one, change no other job's blocks or grant.
pub fn grants_change_only_their_job()
    ensures { GrantsChangeOnlyTheirJob }
{}

/// A block that a job places changes no other job's blocks or grant.
pub fn blocks_change_only_their_job()
    ensures { BlocksChangeOnlyTheirJob }
{
    making_changes_only_own();
}

/// References that a job shares change no other job's blocks or grant.
pub fn shares_change_only_their_job()
    ensures { SharesChangeOnlyTheirJob }
{
    sharing_changes_only_own();
}

/// References that a job releases change no other job's blocks or grant.
pub fn releases_change_only_their_job()
    ensures { ReleasesChangeOnlyTheirJob }
{
    releasing_changes_only_own();
}

/// What changes one job after another change of its own changes that job alone, and so does no change.
pub fn changes_join()
    ensures { ChangesJoin }
{}
