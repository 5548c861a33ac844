//! The states that are kept: some that follow one another.

ghost use Rattle.std.specs.Prelude.{◌≡◌, ◌+◌, ◌<◌, ◌≤◌, ◌^◌, true, IfOk, MatchOption, OnOk, [], length};
ghost use Rattle.job_steps.specs.Runs.{state_after};
ghost use Rattle.job_steps.specs.States.{Task};
ghost use Rattle.job_profile.specs.Walks.{goes_on, progress_of};
ghost use Rattle.job_history.specs.Kept.{AreKept, IsBehind, IsUpTo, Shows};
ghost use Rattle.job_history.specs.Places.{AllGoOn};
ghost use Rattle.job_history.specs.Sound.{HasState, IsFilled, IsFirst, IsPassed, Mirrors};

use crate::counts::Counts;
use crate::kept::Kept;
use crate::mirror::Mirror;
use crate::walk::Walk;
use job_steps::laws::reached;
use std::alloc::{AllocError, Allocator};
use std::collections::VecDeque;

/// The most states that are kept.
const MOST_KEPT: usize = 524_288;

/// The most words that are kept for each state of a run, in the mean.
const MOST_WORDS: usize = 40;

/// States that follow one another, the number of the first, how many words they take, and how many they may take.
#[derive(Drop)]
pub(crate) struct Window<A: Allocator> {
    alloc: A,
    pub(crate) first: u64,
    pub(crate) states: VecDeque<Kept<A>, A>,
    words: usize,
    room: usize,
}

impl<A: Allocator + Clone> Window<A> {
    /// No state.
    pub(crate) fn new(alloc: A, room: usize) -> Result<Window<A>, AllocError>
        ensures { IfOk result (λ window. window.states.items ≡ []) }
    {
        let states = VecDeque::new(alloc.clone()?);
        Ok(Window {
            alloc,
            first: 0,
            states,
            words: 0,
            room,
        })
    }
}

impl<A: Allocator> Window<A> {
    /// The allocator.
    pub(crate) fn alloc(&self) -> &A {
        &self.alloc
    }

    /// The most words of all states that are kept on the way to the state of this number. It is twice the room, since
    /// later states may be smaller. A short run has fewer, so that its states take not much longer to keep than to
    /// make.
    fn words_until(&self, number: u64) -> usize {
        let words = MOST_WORDS.saturating_mul(number as usize);
        self.room.saturating_mul(2).min(words)
    }

    /// Forgets all states.
    fn clear(&mut self)
        ensures { self.new.states.items ≡ [] }
    {
        self.states.clear();
        self.words = 0;
    }

    /// Whether the state of a number is kept, and those after it up to that before `end`.
    pub(crate) fn reaches(&self, number: u64, end: u64) -> bool
        ensures { result ≡ true → (number < end) × HasState self.now.first self.now.states.items number end }
    {
        self.first <= number && number < end && end - self.first == self.states.len() as u64
    }

    /// Keeps the state of a number, which is the one after those that are kept. Forgets the first states if there are
    /// too many, or if they take too many words.
    fn keep(&mut self, number: u64, kept: Kept<A>) -> Result<(), AllocError>
        requires fits { number + 1 < 2 ^ 64 }
        requires next { IsUpTo number self.old.first self.old.states.items }
        ensures next { OnOk result (IsUpTo (number + 1) self.new.first self.new.states.items) }
        ensures kept { OnOk result ((task : Task) → AreKept task self.old.first self.old.states.items
            → Shows task (state_after task number) kept → AreKept task self.new.first self.new.states.items) }
    {
        self.first = self.first_with(number);
        self.words = self.words.saturating_add(kept.size());
        self.states.push_back(kept)?;
        self.shrink();
        Ok(())
    }

    /// The number of the first state if that of a number is kept after them.
    fn first_with(&self, number: u64) -> u64
        requires { IsUpTo number self.now.first self.now.states.items }
        ensures kept { 0 < length self.now.states.items → result ≡ self.now.first }
        ensures up_to { result + length self.now.states.items ≡ number }
    {
        if self.states.is_empty() {
            number
        } else {
            self.first
        }
    }

    /// Whether the states are as many as may be, and take as many words, at most.
    fn is_within(&self) -> bool {
        self.words <= self.room && self.states.len() <= MOST_KEPT
    }

    /// Forgets the first states until the others are within the bounds.
    fn shrink(&mut self)
        requires { self.old.first + length self.old.states.items < 2 ^ 64 }
        ensures { IsBehind self.old.first self.old.states.items self.new.first self.new.states.items }
    {
        for _ in 0..self.states.len() {
            if self.is_within() {
                return;
            }
            self.forget();
        }
    }

    /// Forgets the first state.
    fn forget(&mut self)
        requires { self.old.first + length self.old.states.items < 2 ^ 64 }
        ensures { IsBehind self.old.first self.old.states.items self.new.first self.new.states.items }
    {
        if let Some(kept) = self.states.pop_front() {
            self.first += 1;
            self.words = self.words.saturating_sub(kept.size());
        }
    }
}

/// The state of this number, if it isn't the last, which is that of `end`.
pub(crate) fn kept_at<A: Allocator>(window: &Window<A>, at: u64, end: u64) -> Option<&Kept<A>>
    requires { HasState window.now.first window.now.states.items at end }
    ensures { (task : Task) → AreKept task window.now.first window.now.states.items
        → MatchOption result (at ≡ end) (λ kept. Shows task (state_after task at) kept.now) }
{
    if at == end {
        return None;
    }
    let place = (at - window.first) as usize;
    Some(&window.states[place])
}

/// Keeps the state of a run, which goes on.
fn keep_present<A: Allocator + Clone>(
    walk: &Walk<A>,
    mirror: &mut Mirror<A>,
    window: &mut Window<A>,
) -> Result<(), AllocError>
    requires mirrors { Mirrors walk.now.run walk.now.at mirror.old.entries.items }
    requires on { goes_on (progress_of walk.now.run) ≡ true }
    requires next { IsUpTo walk.now.at window.old.first window.old.states.items }
    ensures mirror { mirror.new.entries.items ≡ mirror.old.entries.items }
    ensures next { OnOk result (IsUpTo (walk.now.at + 1) window.new.first window.new.states.items) }
    ensures kept { OnOk result (AreKept walk.now.run.task window.old.first window.old.states.items
        → AreKept walk.now.run.task window.new.first window.new.states.items) }
{
    reached();
    let made = mirror.take_made();
    let kept = Kept::of(&window.alloc, walk, mirror, made)?;
    window.keep(walk.at, kept)
}

/// Keeps the state of a run, which goes on up to the state of the number `to`.
///
/// If each state up to there took as many words as this one, and all of them more than `words`, this one would be
/// forgotten again: it isn't kept then, and neither is any state before it.
fn keep_likely<A: Allocator + Clone>(
    walk: &Walk<A>,
    mirror: &mut Mirror<A>,
    window: &mut Window<A>,
    to: u64,
    words: usize,
) -> Result<(), AllocError>
    requires mirrors { Mirrors walk.now.run walk.now.at mirror.old.entries.items }
    requires on { goes_on (progress_of walk.now.run) ≡ true }
    requires next { IsUpTo walk.now.at window.old.first window.old.states.items }
    ensures mirror { mirror.new.entries.items ≡ mirror.old.entries.items }
    ensures next { OnOk result (IsUpTo (walk.now.at + 1) window.new.first window.new.states.items) }
    ensures kept { OnOk result (AreKept walk.now.run.task window.old.first window.old.states.items
        → AreKept walk.now.run.task window.new.first window.new.states.items) }
{
    let left = to.saturating_sub(walk.at) as usize;
    if Counts::of(&walk.run).size().saturating_mul(left) > words {
        window.clear();
        mirror.take_made();
        return Ok(());
    }
    keep_present(walk, mirror, window)
}

/// Executes the next instruction of a run that goes on after it.
fn step_mirrored<A: Allocator + Clone>(
    walk: &mut Walk<A>,
    mirror: &mut Mirror<A>,
) -> Result<(), AllocError>
    requires mirrors { Mirrors walk.old.run walk.old.at mirror.old.entries.items }
    requires on { AllGoOn walk.old.run.task (walk.old.at + 2) }
    ensures { OnOk result (IsPassed walk.old.run.task (walk.old.at + 1) walk.new.run walk.new.at
        mirror.new.entries.items) }
{
    let next = walk.step()?;
    mirror.follow(next, walk)
}

/// Takes a run from its first state to that of a number, at which and before which it goes on.
fn pass<A: Allocator + Clone>(
    walk: &mut Walk<A>,
    mirror: &mut Mirror<A>,
    to: u64,
) -> Result<(), AllocError>
    requires first { IsPassed walk.old.run.task 0 walk.old.run walk.old.at mirror.old.entries.items }
    requires on { AllGoOn walk.old.run.task (to + 1) }
    ensures { OnOk result (IsPassed walk.old.run.task to walk.new.run walk.new.at mirror.new.entries.items) }
{
    for _ in 0..to {
        step_mirrored(walk, mirror)?;
    }
    Ok(())
}

/// Takes a run from the state of one number to that of another, at which and before which it goes on. Keeps the last
/// states before that.
fn keep_each<A: Allocator + Clone>(
    walk: &mut Walk<A>,
    mirror: &mut Mirror<A>,
    window: &mut Window<A>,
    from: u64,
    to: u64,
) -> Result<(), AllocError>
    requires order { from ≤ to }
    requires from { IsPassed walk.old.run.task from walk.old.run walk.old.at mirror.old.entries.items }
    requires on { AllGoOn walk.old.run.task (to + 1) }
    requires empty { window.old.states.items ≡ [] }
    ensures { OnOk result (IsFilled walk.old.run.task to walk.new.run walk.new.at window.new.first
        window.new.states.items) }
{
    let words = window.words_until(to);
    for _ in from..to {
        keep_likely(walk, mirror, window, to, words)?;
        step_mirrored(walk, mirror)?;
    }
    Ok(())
}

/// Takes a run from its first state to that of a number, at which and before which it goes on. Keeps the last states
/// before that.
fn fill_mirrored<A: Allocator + Clone>(
    walk: &mut Walk<A>,
    mirror: &mut Mirror<A>,
    window: &mut Window<A>,
    target: u64,
) -> Result<(), AllocError>
    requires first { IsPassed walk.old.run.task 0 walk.old.run walk.old.at mirror.old.entries.items }
    requires on { AllGoOn walk.old.run.task (target + 1) }
    requires empty { window.old.states.items ≡ [] }
    ensures { OnOk result (IsFilled walk.old.run.task target walk.new.run walk.new.at window.new.first
        window.new.states.items) }
{
    let from = target.saturating_sub(MOST_KEPT as u64);
    pass(walk, mirror, from)?;
    keep_each(walk, mirror, window, from, target)?;
    Ok(())
}

/// The same of a run at its first state, with no other states kept.
pub(crate) fn fill<A: Allocator + Clone>(
    walk: &mut Walk<A>,
    window: &mut Window<A>,
    target: u64,
) -> Result<(), AllocError>
    requires first { IsFirst walk.old.run walk.old.at }
    requires on { AllGoOn walk.old.run.task (target + 1) }
    ensures { OnOk result (IsFilled walk.old.run.task target walk.new.run walk.new.at window.new.first
        window.new.states.items) }
{
    window.clear();
    let mut mirror = Mirror::new(&window.alloc)?;
    let filled = fill_mirrored(walk, &mut mirror, window, target);
    drop(mirror);
    filled
}
