//! The run of one job, that goes both ways.

ghost use Rattle.std.specs.Prelude.{◌≡◌, ◌+◌, ◌-◌, ◌<◌, ◌≤◌, true, false, if◌then◌else◌, IfOk, Option, Some, None};
ghost use Rattle.std.specs.Prelude.{option_copied, slice_get};
ghost use Rattle.std.specs.List.{list_any};
ghost use Rattle.job_steps.specs.LeastLimits.{calls_in, cells_in};
ghost use Rattle.job_steps.specs.Runs.{executed_count_in, peak_in, state_after};
ghost use Rattle.job_steps.specs.Standings.{held_in};
ghost use Rattle.job_steps.specs.States.{ruled};
ghost use Rattle.job_slots.specs.Answers.{told_demand_in, told_need_in};
ghost use Rattle.job_profile.specs.Stops.{holds_in};
ghost use Rattle.job_profile.specs.Walks.{StandAt, ending_at, goes_on, lists_in};
ghost use Rattle.job_history.specs.Goals.{EndsBack, EndsKept, EndsNext, IsLast, meets};
ghost use Rattle.job_history.specs.Kept.{AreCounts, AreKept, AreNeeds};
ghost use Rattle.job_history.specs.Nexts.{callee_in, is_callee, is_next_on, next_in};
ghost use Rattle.job_history.specs.Places.{AllGoOn, IsLater, first_place, moved_to, state_at};
ghost use Rattle.job_history.specs.Sound.{IsAt, IsFirst, place_by};

use crate::counts::{Counts, Needs};
use crate::goal::{Found, Goal};
use crate::next::{Next, callee_of};
use crate::trail::{Caller, Origin};
use crate::walk::Walk;
use crate::window::{Window, fill, kept_at};
use job_profile::Stop;
use job_steps::{Frames, Job};
use std::alloc::{AllocError, Allocator};
use std::marker::Model;
use vcode_base::{Elements, Outcome, Rule, Values};

/// The run of one job alone, at one of its states: it goes to later states, and back to earlier ones.
///
/// States before the one at which the run has come are kept, as far as there is room. Going back to one of these takes
/// no time. Going back farther makes the run anew, and keeps the states before the one that it goes back to.
///
/// In a contract it is the job, and the number of the state at which it is.
#[derive(Drop)]
pub struct History<A: Allocator> {
    walk: Walk<A>,
    window: Window<A>,
    at: u64,
}

impl<A: Allocator> Model for History<A> {
    ghost use Rattle.job_history.specs.Places.{Place};
    ghost use Rattle.job_history.specs.Sound.{IsSound, place_by};

    ghost Value = { Place };

    ghost use Rattle.std.specs.Coded.{codes};
    ghost use Rattle.job_steps.specs.Jobs.{job_code};
    ghost use Rattle.job_history.specs.Places.{place_code};

    ghost coded = { place_code (Prim.hlevel codes)
        (job_code (Prim.hlevel codes) (Prim.hlevel codes) (Prim.hlevel codes)) };

    ghost view = { λ h. place_by h.walk.run h.at };

    ghost invariant = { λ h. IsSound h.walk.run h.walk.at h.window.first h.window.states.items h.at };
}

impl<A: Allocator + Clone> History<A> {
    /// The first state of the run of a job by a rule. The states that are kept take at most `room` words, beside the
    /// vectors that the first of them has. With no room none is kept, and each move back makes the run anew.
    ///
    /// # Errors
    ///
    /// [`AllocError`] if memory for the run was refused.
    pub fn new(alloc: A, rule: Rule, job: Job<A>, room: usize) -> Result<History<A>, AllocError>
        ensures { IfOk result (λ history. history ≡ first_place (ruled rule job)) }
    {
        let _verified = job.verified();
        let walk = Walk::new(&alloc, rule, job)?;
        match Window::new(alloc, room) {
            Ok(window) => Ok(History {
                walk,
                window,
                at: 0,
            }),
            Err(error) => {
                drop(walk);
                Err(error)
            }
        }
    }

    /// Goes to the state `count` later, or to the end if that comes before.
    ///
    /// # Errors
    ///
    /// [`AllocError`] if memory was refused. The history is gone then.
    pub fn forward(self, count: u64) -> Result<History<A>, AllocError>
        ensures { IfOk result (IsLater count self) }
    {
        let History { walk, window, at } = self;
        let left = walk.at - at;
        if count < left {
            let at = walk.at - (left - count);
            return Ok(History { walk, window, at });
        }
        let history = go_on(walk, window, count - left)?;
        Ok(history)
    }

    /// Goes to the state `count` before, or to the first if there are fewer before.
    ///
    /// # Errors
    ///
    /// [`AllocError`] if memory was refused. The history is gone then.
    pub fn back(self, count: u64) -> Result<History<A>, AllocError>
        ensures { IfOk result (λ history. history ≡ moved_to self (self.at - count)) }
    {
        if count == 0 {
            return Ok(self);
        }
        let target = self.at().saturating_sub(count);
        if target == self.at() {
            return Ok(self);
        }
        let (history, is_there) = self.to_kept(target);
        if is_there {
            return Ok(history);
        }
        history.anew(target)
    }

    /// Goes back to the state of a number if it is kept; true if it is.
    fn to_kept(self, number: u64) -> (History<A>, bool)
        ensures { result.0 ≡ (if result.1 then moved_to self number else self) }
    {
        let History { walk, window, at } = self;
        if window.reaches(number, walk.at) {
            let history = History {
                walk,
                window,
                at: number,
            };
            return (history, true);
        }
        (History { walk, window, at }, false)
    }

    /// Goes back to the state of a number, by a run that is made anew. States before it are kept.
    fn anew(self, target: u64) -> Result<History<A>, AllocError>
        requires { target < self.at }
        ensures { IfOk result (λ history. history ≡ moved_to self target) }
    {
        let History { walk, window, .. } = self;
        let (rule, job) = walk.into_parts();
        match Walk::new(window.alloc(), rule, job) {
            Ok(walk) => {
                let history = fill_anew(walk, window, target)?;
                Ok(history)
            }
            Err(error) => {
                drop(window);
                Err(error)
            }
        }
    }

    /// Goes to the first later state at which it holds, but at most `most` states on, nor past the end.
    ///
    /// # Errors
    ///
    /// [`AllocError`] if memory was refused. The history is gone then.
    pub fn find_next(self, goal: &Goal<'_>, most: u64) -> Result<(History<A>, Found), AllocError>
        ensures { IfOk result (λ found. EndsNext found.1 goal.now.stops.now goal.now.calls most self found.0) }
    {
        let mut history = self;
        for _ in 0..most {
            if !history.goes_on() {
                return Ok((history, Found::Nowhere));
            }
            history = history.forward(1)?;
            if history.meets(goal) {
                return Ok((history, Found::Here));
            }
        }
        if history.goes_on() {
            Ok((history, Found::NotYet))
        } else {
            Ok((history, Found::Nowhere))
        }
    }

    /// Goes to the last earlier state at which it holds, or to the first state if there is none.
    ///
    /// # Errors
    ///
    /// [`AllocError`] if memory was refused. The history is gone then.
    pub fn find_before(self, goal: &Goal<'_>) -> Result<(History<A>, Found), AllocError>
        ensures { IfOk result (λ found. EndsBack found.1 goal.now.stops.now goal.now.calls self found.0) }
    {
        let (history, found) = self.find_kept(goal);
        if found {
            return Ok((history, Found::Here));
        }
        let (history, found) = history.find_anew(goal)?;
        Ok((history, found))
    }

    /// Goes back to the last of the states that are kept at which it holds, if there is one, and else to the first of
    /// them.
    fn find_kept(self, goal: &Goal<'_>) -> (History<A>, bool)
        ensures { EndsKept result.1 goal.now.stops.now goal.now.calls self result.0 }
    {
        let mut history = self;
        for _ in 0..history.at() {
            let number = history.at();
            if number == 0 {
                return (history, false);
            }
            let (next, is_there) = history.to_kept(number - 1);
            history = next;
            if !is_there {
                return (history, false);
            }
            if history.meets(goal) {
                return (history, true);
            }
        }
        (history, false)
    }

    /// Goes back to the last earlier state at which it holds, or to the first state if there is none, by runs that are
    /// made anew.
    fn find_anew(self, goal: &Goal<'_>) -> Result<(History<A>, Found), AllocError>
        ensures { IfOk result (λ found. EndsBack found.1 goal.now.stops.now goal.now.calls self found.0) }
    {
        let end = self.at();
        if end == 0 {
            return Ok((self, Found::Nowhere));
        }
        let (history, last) = self.anew(0)?.last_before(goal, end)?;
        match last {
            Some(number) => Ok((history.anew(number)?, Found::Here)),
            None => Ok((history.anew(0)?, Found::Nowhere)),
        }
    }

    /// Goes on from the first state to that of a number. Answers the number of the last state before it at which it
    /// holds.
    fn last_before(self, goal: &Goal<'_>, end: u64) -> Result<(History<A>, Option<u64>), AllocError>
        requires first { self.at ≡ 0 }
        requires on { AllGoOn self.task end }
        ensures to { IfOk result (λ found. found.0 ≡ moved_to self end) }
        ensures last { IfOk result (λ found. IsLast found.1 goal.now.stops.now goal.now.calls self.task end) }
    {
        let mut history = self;
        let mut last = None;
        for number in 0..end {
            last = last_met(last, number, history.meets(goal));
            history = history.forward(1)?;
        }
        Ok((history, last))
    }
}

impl<A: Allocator> History<A> {
    /// The number of the state: how many states are before it.
    pub fn at(&self) -> u64
        ensures at { result ≡ self.now.at }
        ensures passed { AllGoOn self.now.task self.now.at }
    {
        self.at
    }

    /// Whether the job goes on.
    pub fn goes_on(&self) -> bool
        ensures { result ≡ goes_on (state_at self.now) }
    {
        match kept_at(&self.window, self.at, self.walk.at) {
            Some(_) => true,
            None => self.walk.run.goes_on(),
        }
    }

    /// The numbers.
    fn counts(&self) -> Counts
        ensures { AreCounts (state_at self.now) result }
    {
        match kept_at(&self.window, self.at, self.walk.at) {
            Some(kept) => kept.counts(),
            None => Counts::of(&self.walk.run),
        }
    }

    /// What the next instruction needs.
    fn needs(&self) -> Needs
        ensures { AreNeeds self.now.task (state_at self.now) result }
    {
        match kept_at(&self.window, self.at, self.walk.at) {
            Some(kept) => kept.needs(),
            None => Needs::of(&self.walk.run),
        }
    }

    /// How many instructions it executed.
    pub fn executed(&self) -> u64
        ensures { result ≡ executed_count_in (state_at self.now) }
    {
        self.counts().executed
    }

    /// The most words that it held and needed at an instruction that it executed.
    pub fn peak(&self) -> usize
        ensures { result ≡ peak_in (state_at self.now) }
    {
        self.counts().peak
    }

    /// The words that it holds, and 0 once its run is over.
    pub fn held(&self) -> usize
        ensures { result ≡ held_in (state_at self.now) }
    {
        self.counts().held
    }

    /// How many entries its stack has, and 0 once its run is over.
    pub fn depth(&self) -> usize
        ensures { result ≡ cells_in (state_at self.now) }
    {
        self.counts().depth
    }

    /// How many calls are active, and 0 once its run is over.
    pub fn calls(&self) -> usize
        ensures { result ≡ calls_in (state_at self.now) }
    {
        self.counts().calls
    }

    /// The words that it holds and needs at its next instruction, and 0 once its run is over.
    ///
    /// If the instruction's operands don't fit one another, these are only the words that it holds. If they are more
    /// than the greatest `u64`, they are answered as that.
    pub fn demand(&self) -> usize
        ensures { result ≡ told_demand_in self.now.task.rule (state_at self.now) }
    {
        self.needs().demand
    }

    /// The words of the results of its next instruction, and 0 once its run is over.
    ///
    /// They are also 0 if the instruction's operands don't fit one another. If they are more than the greatest `u64`,
    /// they are answered as that.
    pub fn need(&self) -> usize
        ensures { result ≡ told_need_in (state_at self.now) }
    {
        self.needs().need
    }

    /// The words of the entry of the stack at this depth, 0 at the top, if there is one and the job goes on.
    pub fn words(&self, depth: usize) -> Option<&[i64]>
        ensures { option_copied result ≡ slice_get (lists_in (state_at self.now)) depth }
    {
        match kept_at(&self.window, self.at, self.walk.at) {
            Some(kept) => kept.words(depth),
            None => self.walk.run.words(depth),
        }
    }

    /// Whether the entries at these depths are there and are copies of one another: they share their words.
    pub fn are_copies(&self, depth: usize, other: usize) -> bool {
        match kept_at(&self.window, self.at, self.walk.at) {
            Some(kept) => kept.are_copies(depth, other),
            None => self.walk.run.are_copies(depth, other),
        }
    }

    /// Where the entry at this depth comes from, 0 at the top, if there is one and the job goes on.
    pub fn origin(&self, depth: usize) -> Option<Origin> {
        match kept_at(&self.window, self.at, self.walk.at) {
            Some(kept) => kept.origin(depth),
            None => self.walk.trail.origin(&self.walk.run, depth),
        }
    }

    /// Where the call was made that the call at this place made, that of `MAIN` at 0. `None` if it is the innermost.
    pub fn caller(&self, place: usize) -> Option<Caller> {
        match kept_at(&self.window, self.at, self.walk.at) {
            Some(kept) => kept.caller(place),
            None => self.walk.trail.caller(place),
        }
    }

    /// The places at which the active calls go on, that of the innermost last.
    pub fn frames(&self) -> Frames<'_>
        ensures { StandAt self.now.task result (state_at self.now) }
    {
        match kept_at(&self.window, self.at, self.walk.at) {
            Some(kept) => kept.frames(),
            None => self.walk.run.frames(),
        }
    }

    /// The next instruction, if the job goes on.
    pub fn next(&self) -> Option<Next>
        ensures { result ≡ next_in (state_at self.now) }
    {
        match kept_at(&self.window, self.at, self.walk.at) {
            Some(kept) => kept.next(),
            None => Next::of(&self.walk.run),
        }
    }

    /// The name of the function that the next instruction calls, if it is a `CALL`.
    pub fn callee(&self) -> Option<&[u8]>
        ensures { option_copied result ≡ callee_in (state_at self.now) }
    {
        match kept_at(&self.window, self.at, self.walk.at) {
            Some(kept) => kept.callee(),
            None => callee_of(&self.walk.run),
        }
    }

    /// How the job ended, if its run is over.
    pub fn ending(&self) -> Option<&Outcome<Values<A>>>
        ensures { option_copied result ≡ ending_at (state_at self.now) }
    {
        match kept_at(&self.window, self.at, self.walk.at) {
            Some(_) => None,
            None => self.walk.run.ending(),
        }
    }

    /// The rule by which it runs.
    pub fn rule(&self) -> Rule
        ensures { result ≡ self.now.task.rule }
    {
        self.walk.run.rule()
    }

    /// The job.
    pub fn job(&self) -> &Job<A>
        ensures { ruled self.now.task.rule result.now ≡ self.now.task }
    {
        self.walk.run.job()
    }

    /// The job, of which another history may be made.
    pub fn into_job(self) -> Job<A>
        ensures { ruled self.task.rule result ≡ self.task }
    {
        let History { walk, window, .. } = self;
        drop(window);
        walk.into_parts().1
    }

    /// Whether it holds at the state.
    fn holds(&self, stop: &Stop<Elements<'_, u8>>) -> bool
        ensures { result ≡ holds_in stop.now (state_at self.now) }
    {
        match stop {
            Stop::Line(number) => is_on(self.next(), *number),
            Stop::Call(name) => is_name(self.callee(), name.as_slice()),
            Stop::Words(most) => *most < self.held(),
            Stop::Entries(most) => *most < self.depth(),
            Stop::Makes(most) => *most < self.need(),
        }
    }

    /// Whether any of them holds at the state.
    fn holds_any(&self, stops: &[Stop<Elements<'_, u8>>]) -> bool
        ensures { result ≡ list_any (λ stop. holds_in stop (state_at self.now)) stops.now }
    {
        for stop in stops {
            if self.holds(stop) {
                return true;
            }
        }
        false
    }

    /// Whether the state is one that is sought.
    fn meets(&self, goal: &Goal<'_>) -> bool
        ensures { result ≡ meets goal.now.stops.now goal.now.calls (state_at self.now) }
    {
        self.goes_on() && (self.calls() <= goal.calls || self.holds_any(goal.stops))
    }
}

/// Goes on with a run by this many instructions, or to its end.
fn go_on<A: Allocator + Clone>(
    mut walk: Walk<A>,
    window: Window<A>,
    count: u64,
) -> Result<History<A>, AllocError>
    requires at { IsAt walk.run walk.at }
    requires kept { AreKept walk.run.task window.first window.states.items }
    ensures { IfOk result (λ history. IsLater count (place_by walk.run walk.at) history) }
{
    match walk.go_on(count) {
        Ok(()) => Ok(History {
            at: walk.at,
            walk,
            window,
        }),
        Err(error) => {
            drop(walk);
            drop(window);
            Err(error)
        }
    }
}

/// Takes a run from its first state to that of a number, and keeps states before that.
fn fill_anew<A: Allocator + Clone>(
    mut walk: Walk<A>,
    mut window: Window<A>,
    target: u64,
) -> Result<History<A>, AllocError>
    requires first { IsFirst walk.run walk.at }
    requires on { AllGoOn walk.run.task (target + 1) }
    ensures { IfOk result (λ history. history ≡ place_by walk.run target) }
{
    match fill(&mut walk, &mut window, target) {
        Ok(()) => Ok(History {
            at: target,
            walk,
            window,
        }),
        Err(error) => {
            drop(walk);
            drop(window);
            Err(error)
        }
    }
}

/// The last of the numbers so far, once the state of this number is known to be met or not.
fn last_met(last: Option<u64>, number: u64, is_met: bool) -> Option<u64>
    ensures { result ≡ (if is_met then Some number else last) }
{
    if is_met { Some(number) } else { last }
}

/// Whether there is an instruction, and it is on the line of this number.
fn is_on(next: Option<Next>, number: u64) -> bool
    ensures { result ≡ is_next_on number next }
{
    match next {
        Some(next) => next.line == number,
        None => false,
    }
}

/// Whether there is a name, and it is this one.
fn is_name(callee: Option<&[u8]>, name: &[u8]) -> bool
    ensures { result ≡ is_callee name.now (option_copied callee.entry) }
{
    match callee {
        Some(callee) => callee == name,
        None => false,
    }
}
