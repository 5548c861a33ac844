//! Laws of the definitions that the contracts cite, and of `==`: each is the contract of a function.

ghost use Rattle.std.specs.Prelude.{◌≡◌, ◌↔◌, IsTrue};
ghost use Rattle.job_steps.specs.Counted.{ExecutedAreCounted, LastIsReturn};
ghost use Rattle.job_steps.specs.Frames.{EachLineRemains};
ghost use Rattle.job_steps.specs.LeastLimits.{UsedAreLeast};
ghost use Rattle.job_steps.specs.Reached.{Reaches, NeverStuck, EndsOnce, EachEnds, EndIsOwn};
ghost use Rattle.job_steps.specs.Reached.{ResultsHaveKinds, ValuesHaveKinds};
ghost use Rattle.job_steps.specs.RuleLaws.{SecondRuleEndsAlike, SecondRuleGoesAsFar};
ghost use Rattle.job_steps.specs.StepLaws.{StepsCanBegin, StepsCanAdvance};
ghost use Rattle.job_steps.specs.Tracks.{EachTrackFollows};
ghost use Rattle.job_steps.specs.EventLaws.{EarlyEndsEnd, OthersAreReady, EventsChangeTheirJob};
ghost use Rattle.job_steps.specs.EventLaws.{ClosedChangeNothing, MissingAreClosed, AdmittedHaveRoom};
ghost use Rattle.job_steps.specs.EventLaws.{AdmissionsAreNext, AdmissionsPassThoseBefore};
ghost use Rattle.job_steps.specs.EventLaws.{OthersPassNobody, AdmissionsPassOnce, PassesAreFew, PassesStay};
ghost use Rattle.job_steps.specs.EventLaws.{FirstAreKept, EventsKeep, RecallsKeep, EndedAreOver};
ghost use Rattle.job_steps.specs.EventLaws.{UseIsWithin, SumsFollowStandings, UsedIsGranted, EventsGoOn, EventsUseUp};
ghost use Rattle.job_steps.specs.EventLaws.{EventsEnd, EventsAreFew, OthersStay, EventsCommute, RecallUndoesBegin};
ghost use Rattle.job_steps.specs.EventLaws.{EventsJoin, LeadsJoin, RecallsAreEvents};

use crate::job::Job;
use std::alloc::Allocator;
use vcode_base::laws::results_have_needed_lengths;
use verifier::laws::equality_is_exact;

/// What holds of each state that a verified job reaches: what remains of its calls takes the entries
/// that there are, by number and by kind; its count is within the budget, its words, entries and
/// calls are within the limits; and entries with one tag have one value.
pub fn reached()
    ensures { Reaches }
{
    results_have_needed_lengths();
}

/// A verified job never meets a missing operand, a wrong kind or an unknown function.
#[tactic(auto, using(crate::proofs::Typed::never_stuck))]
pub fn never_stuck()
    ensures { NeverStuck }
{}

/// A run that is over stays over, with the same end and counts.
#[tactic(auto, using(crate::proofs::RunLaws::over_stays))]
pub fn ends_once()
    ensures { EndsOnce }
{}

/// A verified job ends, after at most its budget's instructions, and within its words.
#[tactic(auto, using(crate::proofs::VerifiedRuns::each_ends))]
pub fn each_ends()
    ensures { EachEnds }
{
    results_have_needed_lengths();
}

/// Whenever a job is found to be over, its end and its counts are those of the job.
#[tactic(auto, using(crate::proofs::RunLaws::end_is_own))]
pub fn end_is_own()
    ensures { EndIsOwn }
{
    results_have_needed_lengths();
}

/// A verified job that returns has results of the kinds that the signature of its `MAIN` gives.
#[tactic(auto, using(crate::proofs::VerifiedRuns::results_have_kinds))]
pub fn results_have_kinds()
    ensures { ResultsHaveKinds }
{}

/// What counted at an instruction that was executed: by the first rule what was held before it, and its results; by the
/// second what is held after it, unless it moved entries. Only a RET that is executed ends a run.
pub fn executed_are_counted()
    ensures counted { ExecutedAreCounted }
    ensures last { LastIsReturn }
{
    results_have_needed_lengths();
}

/// The words of each vector that a verified job reaches are those of its kind, and so are the operands of
/// its next instruction.
#[tactic(auto, using(crate::proofs::VerifiedRuns::values_have_kinds))]
pub fn values_have_kinds()
    ensures { ValuesHaveKinds }
{}

/// What remains of code, line by line: at an instruction it begins with the instruction, and at an IF with the choice
/// of its two parts. An ELSE is passed over with the part after it, and so is an ENDIF.
pub fn each_line_remains()
    ensures { EachLineRemains }
{}

/// A track that is at the state of a running job, and is advanced by the job's next instruction, is at the
/// state after it, whatever its cells name.
#[tactic(auto, using(crate::proofs::Following::of_tracks))]
pub fn each_track_follows<C>()
    ensures { EachTrackFollows C }
{}

/// If a track is at a state that a verified job reaches, some call is active, and its line can be read;
/// the operands of its next instruction are there, are of their kinds, and lie within what the job may hold.
#[tactic(auto, using(crate::proofs::StepLemmas::begins_at))]
pub fn steps_can_begin<C>()
    ensures { StepsCanBegin C }
{
    reached();
    values_have_kinds();
}

/// If besides nothing ends the job before the values of its next instruction are looked at, the track can
/// be advanced by that instruction, and it can be asked of each desk for the words that the job may hold.
pub fn steps_can_advance<C>()
    ensures { StepsCanAdvance C }
{
    reached();
    values_have_kinds();
}

/// Two jobs are `==` exactly if their names, what was verified of their programs, and their limits are
/// equal.
pub fn equal_jobs<A: Allocator>(left: &Job<A>, right: &Job<A>) -> bool
    ensures { IsTrue result ↔ (left.now ≡ right.now) }
{
    equality_is_exact::<A>();
    *left == *right
}

/// A job that has words enough under the first rule ends alike under the second, after as many instructions and with no
/// greater peak.
pub fn second_rule_ends_alike()
    ensures { SecondRuleEndsAlike }
{}

/// A verified job executes no fewer instructions under the second rule than under the first.
#[tactic(auto, using(crate::proofs::OtherRuns::second_rule_goes_as_far))]
pub fn second_rule_goes_as_far()
    ensures { SecondRuleGoesAsFar }
{
    reached();
    each_ends();
}

/// A verified job ends before its next instruction, with what it used so far, if its budget is spent or the instruction
/// fails by a shape or a limit.
pub fn early_ends_end()
    ensures { EarlyEndsEnd }
{
    never_stuck();
    reached();
    end_is_own();
}

/// If nothing ends a verified job before the values of its next instruction are looked at, the
/// instruction's operands are there, and their values alone decide what comes next.
pub fn others_are_ready()
    ensures { OthersAreReady }
{
    never_stuck();
    reached();
}

/// Whether an event is open depends on the task and the standing of its job alone, and so does what it
/// makes of that standing; it changes nothing else.
pub fn events_change_their_job()
    ensures { EventsChangeTheirJob }
{}

/// An event that isn't open changes nothing.
#[tactic(auto, using(crate::proofs::Happenings::closed_changes_nothing))]
pub fn closed_change_nothing()
    ensures { ClosedChangeNothing }
{}

/// An event that names a job that there isn't is not open.
#[tactic(auto, using(crate::proofs::Happenings::missing_is_closed))]
pub fn missing_are_closed()
    ensures { MissingAreClosed }
{}

/// The job that is admitted next waits, and its words fit into the region beside those that are
/// granted.
#[tactic(auto, using(crate::proofs::Standings::admitted_has_room))]
pub fn admitted_have_room()
    ensures { AdmittedHaveRoom }
{}

/// A job is admitted next exactly if it waits and fits, and each job that waits before it doesn't fit and was passed by
/// fewer than [`MOST_PASSES`](vcode_base::limits::MOST_PASSES) times.
pub fn admissions_are_next()
    ensures { AdmissionsAreNext }
{}

/// An admission passes by each job that waits before the admitted one, once more, and no other job.
#[tactic(auto, using(crate::proofs::Admissions::admissions_pass_those_before))]
pub fn admissions_pass_those_before()
    ensures { AdmissionsPassThoseBefore }
{}

/// An event other than an admission passes by no job.
#[tactic(auto, using(crate::proofs::Admissions::others_pass_nobody))]
pub fn others_pass_nobody()
    ensures { OthersPassNobody }
{}

/// An admission passes by each job that waits before the admitted one, once.
#[tactic(auto, using(crate::proofs::Admissions::admissions_pass_once))]
pub fn admissions_pass_once()
    ensures { AdmissionsPassOnce }
{}

/// If each job was passed by at most [`MOST_PASSES`](vcode_base::limits::MOST_PASSES) times, that is so after any
/// events too. It is so before the first event.
#[tactic(auto, using(crate::proofs::Admissions::passes_are_few))]
pub fn passes_are_few()
    ensures { PassesAreFew }
{}

/// A job that waits no longer is passed by no more, whatever the events.
#[tactic(auto, using(crate::proofs::Admissions::passes_stay))]
pub fn passes_stay()
    ensures { PassesStay }
{}

/// Before the first event no words are granted, no job was passed by, and each job is where its run alone begins.
#[tactic(auto, using(crate::proofs::Kept::of_first_kept))]
pub fn first_are_kept()
    ensures { FirstAreKept }
{}

/// Whatever the events, each verified job is where its run alone takes it, no job is passed by too often, and the words
/// that are granted are at most the region. A live job runs after as many instructions as its standing says, within its
/// budget. [`ended_are_over`] says that a job ends only if its run is over, with its own outcome and counts.
pub fn events_keep()
    ensures { EventsKeep }
{
    never_stuck();
    reached();
    each_ends();
}

/// The same holds after every step is given up that has begun.
pub fn recalls_keep()
    ensures { RecallsKeep }
{}

/// A verified job that an event leaves ended is over alone, after one instruction more than it had
/// executed, with its own outcome and counts.
#[tactic(auto, using(crate::proofs::Kept::of_ends))]
pub fn ended_are_over()
    ensures { EndedAreOver }
{
    never_stuck();
    reached();
    end_is_own();
}

/// At each standing a verified job has executed at most its budget's instructions, it held and needed at most its
/// words, and what it holds is at most what is reserved for it.
#[tactic(auto, using(crate::proofs::Kept::of_use))]
pub fn use_is_within()
    ensures { UseIsWithin }
{
    reached();
}

/// With another standing of one job, a sum over all jobs changes by that job's number alone.
#[tactic(auto, using(crate::proofs::Standings::sum_with))]
pub fn sums_follow_standings()
    ensures { SumsFollowStandings }
{}

/// The words of the vectors of all jobs are at most those that are granted.
#[tactic(auto, using(crate::proofs::Kept::used_is_granted))]
pub fn used_is_granted()
    ensures { UsedIsGranted }
{
    reached();
}

/// If each job's words are at most the region, all jobs are collected, or an event other than a
/// recall is open.
pub fn events_go_on()
    ensures { EventsGoOn }
{}

/// Each open event that is no recall leaves fewer events to come.
#[tactic(auto, using(crate::proofs::Kept::events_use_up))]
pub fn events_use_up()
    ensures { EventsUseUp }
{
    reached();
}

/// Of events that are open and no recalls there are no more than are left to the jobs at the start.
#[tactic(auto, using(crate::proofs::Kept::events_end))]
pub fn events_end()
    ensures { EventsEnd }
{
    never_stuck();
    reached();
    each_ends();
}

/// Of events that are open and no recalls, at most twice its budget and three are of one job, its
/// admission counted.
#[tactic(auto, using(crate::proofs::Kept::events_are_few))]
pub fn events_are_few()
    ensures { EventsAreFew }
{
    never_stuck();
    reached();
    each_ends();
}

/// An event of one job leaves every other job as it was.
#[tactic(auto, using(crate::proofs::EventOrder::others_stay))]
pub fn others_stay()
    ensures { OthersStay }
{}

/// Events that name two different jobs may change places.
pub fn events_commute()
    ensures { EventsCommute }
{}

/// A recall after the begin of a step leaves all jobs as they were before both.
#[tactic(auto, using(crate::proofs::EventOrder::recall_undoes_begin))]
pub fn recall_undoes_begin()
    ensures { RecallUndoesBegin }
{}

/// Events after events lead where their lists joined lead.
#[tactic(auto, using(crate::proofs::EventOrder::events_join))]
pub fn events_join()
    ensures { EventsJoin }
{}

/// If one list of events leads to standings and another leads on from them, the two lead there from the start.
pub fn leads_join()
    ensures { LeadsJoin }
{}

/// A recall of each job, one after another, gives up each step that has begun.
#[tactic(auto, using(crate::proofs::EventOrder::of_recalls))]
pub fn recalls_are_events()
    ensures { RecallsAreEvents }
{}

/// A verified job that returns does so within other limits exactly if they are at least the most words, entries and
/// calls that it has and the instructions that it executes. Within such limits its run is the same.
pub fn used_are_least()
    ensures { UsedAreLeast }
{
    never_stuck();
    reached();
    each_ends();
    end_is_own();
}
