//! How many instructions the jobs of a machine have executed together.

ghost use Rattle.std.specs.Prelude.{◌≡◌, ◌*◌, ◌≤◌, length};
ghost use Rattle.vcode_base.specs.declared.limits.TheConstants.{MOST_BUDGET, MOST_JOBS};
ghost use Rattle.step_scheduler.specs.Tallies.{CountsAreWithin, EventsKeepCounts, FinishesRaise};
ghost use Rattle.step_scheduler.specs.Tallies.{OthersCountNothing, RecallsCountNothing, executed_sum};

use job_machine::Machine;
use job_steps::laws::{
    early_ends_end, end_is_own, events_keep, others_are_ready, reached, sums_follow_standings,
    use_is_within,
};
use std::alloc::Allocator;

/// How events change the sum of the executed counts.
#[tactic(auto, using(crate::proofs::CountLemmas::of_counts))]
pub(crate) fn count_laws()
    ensures others { OthersCountNothing }
    ensures finishes { FinishesRaise }
    ensures recalls { RecallsCountNothing }
    ensures kept { EventsKeepCounts }
    ensures within { CountsAreWithin }
{
    early_ends_end();
    end_is_own();
    events_keep();
    others_are_ready();
    reached();
    sums_follow_standings();
    use_is_within();
}

/// The sum of the executed counts of all jobs.
pub(crate) fn executed_in_all<A: Allocator>(machine: &Machine<A>) -> u64
    ensures sum { result ≡ executed_sum machine.now }
    ensures within { result ≤ MOST_JOBS * MOST_BUDGET }
{
    count_laws();
    let mut sum = 0;
    for place in 0..machine.jobs() {
        sum += machine.executed(place + 1).unwrap_or(0);
    }
    sum
}
