//! The job that is debugged, at a state of its run.

ghost use Rattle.std.specs.Prelude.{◌≡◌, IfOk, Some};
ghost use Rattle.job_history.specs.Places.{first_place};
ghost use Rattle.job_history.specs.declared.goal.Found.TheVariants.{Here};
ghost use Rattle.job_steps.specs.States.{ruled};
ghost use Rattle.dap_session.specs.declared.way.Way.TheVariants.{Back};
ghost use Rattle.dap_session.specs.Ways.{IsGone};

use crate::breakpoints::Breakpoints;
use crate::motion::{Cause, Motion, Progress};
use crate::texts::Texts;
use crate::way::{Way, gone};
use dap_views::{JobEnd, end_of_job};
use job_history::{Found, Goal, History};
use job_steps::Job;
use std::alloc::{AllocError, Global};
use vcode_base::Rule;

/// The most states that a run goes on by before a message is looked for.
const MOST_AT_ONCE: u64 = 65_536;

/// How many breakpoints take as long to look at as a state.
const STOPS: u64 = 16;

/// How many words an instruction reads or writes in the time of a state.
const WORDS: u64 = 4_096;

/// The job that is debugged.
#[derive(Drop)]
pub(crate) struct Debuggee {
    alloc: Global,
    /// Its run, unless memory was refused for it.
    history: Option<History<Global>>,
    /// How many words the states may take that are kept.
    room: usize,
    /// The text of the job.
    pub(crate) texts: Texts,
    /// The end of the run, once it was found.
    end: Option<JobEnd>,
}

/// The end of a run, and the run at the last state before it.
fn at_end(
    alloc: Global,
    history: History<Global>,
    room: usize,
) -> Result<(History<Global>, JobEnd), AllocError> {
    let rule = history.rule();
    let (end, job) = end_of_job(alloc, rule, history.into_job())?;
    let history = History::new(alloc, rule, job, room)?;
    Ok((history.forward(end.end.steps)?, end))
}

/// How many states a run goes on by before a message is looked for, with this many breakpoints and this limit on words.
fn at_once(stops: usize, words: usize) -> u64 {
    let breakpoints = stops as u64 / STOPS;
    let instruction = words as u64 / WORDS;
    let work = breakpoints.saturating_add(instruction).saturating_add(1);
    (MOST_AT_ONCE / work).max(1)
}

impl Debuggee {
    /// A job of this text, at the first state of its run by a rule. The states that are kept take at most `room` words.
    ///
    /// # Errors
    ///
    /// [`AllocError`] if memory was refused.
    pub(crate) fn new(
        alloc: Global,
        rule: Rule,
        job: Job<Global>,
        room: usize,
        texts: Texts,
    ) -> Result<Debuggee, AllocError>
        ensures { IfOk result (λ debuggee. debuggee.history ≡ Some (first_place (ruled rule job))) }
    {
        match History::new(alloc, rule, job, room) {
            Ok(history) => Ok(Debuggee {
                alloc,
                history: Some(history),
                room,
                texts,
                end: None,
            }),
            Err(error) => {
                drop(texts);
                Err(error)
            }
        }
    }

    /// Its run, unless memory was refused for it.
    pub(crate) fn history(&self) -> Option<&History<Global>> {
        self.history.as_ref()
    }

    /// The end of the run, once it was found.
    pub(crate) fn end(&self) -> Option<JobEnd> {
        self.end
    }

    /// The number of the state.
    pub(crate) fn at(&self) -> u64 {
        match &self.history {
            Some(history) => history.at(),
            None => 0,
        }
    }

    /// How many calls are active.
    pub(crate) fn calls(&self) -> usize {
        match &self.history {
            Some(history) => history.calls(),
            None => 0,
        }
    }

    /// Whether it is known to be at the last state before the end.
    pub(crate) fn is_at_end(&self) -> bool {
        match self.end {
            Some(end) => end.end.steps == self.at(),
            None => false,
        }
    }

    /// Goes a way. Without memory there is no run afterwards.
    fn go(&mut self, way: Way<'_>) -> Result<Found, AllocError>
        ensures { IfOk result (λ found. IsGone way.entry self.old.history self.new.history found) }
    {
        let history = self.history.take().ok_or(AllocError)?;
        let (history, found) = gone(history, way)?;
        self.history = Some(history);
        Ok(found)
    }

    /// Finds the end, and goes to the last state before it. Without memory there is no run afterwards.
    fn find_end(&mut self) -> Result<JobEnd, AllocError> {
        let history = self.history.take().ok_or(AllocError)?;
        let (history, end) = at_end(self.alloc, history, self.room)?;
        self.history = Some(history);
        self.end = Some(end);
        Ok(end)
    }

    /// How many states on the last one before the end is, if it is known. No move goes past that then.
    fn left(&self) -> u64 {
        match self.end {
            Some(end) => end.end.steps.saturating_sub(self.at()),
            None => u64::MAX,
        }
    }

    /// How many states it goes on by before a message is looked for, with this many breakpoints: up to the last one
    /// before the end, if that is known.
    fn most(&self, stops: usize) -> u64 {
        match &self.history {
            Some(history) => at_once(stops, history.job().limits().words).min(self.left()),
            None => 0,
        }
    }

    /// Whether the run is over.
    fn is_over(&self) -> bool {
        match &self.history {
            Some(history) => !history.goes_on(),
            None => true,
        }
    }

    /// Goes one state on.
    fn step(&mut self) -> Result<Progress, AllocError> {
        if self.is_at_end() {
            return Ok(Progress::Ended);
        }
        self.go(Way::Forward(1))?;
        if self.is_over() {
            return Ok(Progress::Ended);
        }
        Ok(Progress::Stopped(Cause::Step))
    }

    /// How far a search has come that found no state that was sought yet.
    fn so_far(&self) -> Progress {
        if self.is_at_end() {
            return Progress::Ended;
        }
        Progress::GoesOn
    }

    /// Goes on, for a while at most, to a breakpoint or to a state with at most this many calls.
    fn go_until(
        &mut self,
        breakpoints: &Breakpoints,
        calls: usize,
    ) -> Result<Progress, AllocError> {
        let stops = breakpoints.stops(self.alloc)?;
        let goal = Goal {
            stops: &stops,
            calls,
        };
        let found = self.go(Way::Next(&goal, self.most(stops.len())))?;
        Ok(match found {
            Found::Here => Progress::Stopped(Cause::Step),
            Found::NotYet => self.so_far(),
            Found::Nowhere => Progress::Ended,
        })
    }

    /// Goes one state back.
    fn step_back(&mut self) -> Result<Progress, AllocError>
        ensures { IfOk result (λ _. IsGone (Back 1) self.old.history self.new.history Here) }
    {
        self.go(Way::Back(1))?;
        Ok(Progress::Stopped(Cause::Back))
    }

    /// Goes back to a breakpoint, or to the first state.
    fn go_back(&mut self, breakpoints: &Breakpoints) -> Result<Progress, AllocError> {
        let stops = breakpoints.stops(self.alloc)?;
        let goal = Goal {
            stops: &stops,
            calls: 0,
        };
        self.go(Way::Before(&goal))?;
        Ok(Progress::Stopped(Cause::Back))
    }

    /// How far it has come on the way to the state of a number.
    fn progress_to(&self, number: u64) -> Progress {
        if self.is_over() {
            return Progress::Ended;
        }
        if number <= self.at() {
            return Progress::Stopped(Cause::Goto);
        }
        self.so_far()
    }

    /// Goes to the state of a number, or on towards it for a while.
    fn go_to(&mut self, number: u64) -> Result<Progress, AllocError> {
        let at = self.at();
        if number < at {
            self.go(Way::Back(at.saturating_sub(number)))?;
        } else {
            self.go(Way::Forward(number.saturating_sub(at).min(self.most(0))))?;
        }
        Ok(self.progress_to(number))
    }

    /// Goes on with a move, and answers how far it has come. If it goes forward, that is for a while at most.
    ///
    /// # Errors
    ///
    /// [`AllocError`] if memory was refused. The run may be gone then.
    pub(crate) fn go_on(
        &mut self,
        breakpoints: &Breakpoints,
        motion: Motion,
    ) -> Result<Progress, AllocError> {
        match motion {
            Motion::Step => self.step(),
            Motion::Until(calls) => self.go_until(breakpoints, calls),
            Motion::Back => self.step_back(),
            Motion::BackToBreakpoint => self.go_back(breakpoints),
            Motion::To(number) => self.go_to(number),
        }
    }

    /// Goes to the last state before the end, to which a move has come. Answers the end if it wasn't known.
    ///
    /// # Errors
    ///
    /// [`AllocError`] if memory was refused. The run is gone then.
    pub(crate) fn leave_end(&mut self) -> Result<Option<JobEnd>, AllocError> {
        if self.end.is_some() {
            return Ok(None);
        }
        Ok(Some(self.find_end()?))
    }
}
