//! Requests that launch the job, begin with it, move it and end it.

use crate::debuggee::Debuggee;
use crate::launching::{LaunchFault, launched};
use crate::motion::{Cause, Motion};
use crate::refusal::Refusal;
use crate::sending::{Asked, Category, output, refuse, respond};
use crate::session::{Session, Stage};
use dap_messages::{Launch, Move, Sender};
use std::alloc::{AllocGlobal, Global};
use std::io::{self, Write};
use std::rt::Files;

/// Refuses to launch a job for a reason that a text says, which is shown.
fn refuse_launch<W: Write>(
    sender: &mut Sender<W>,
    alloc: Global,
    asked: Asked<'_>,
    text: &str,
) -> io::Result<()> {
    output(sender, alloc, Category::Errors, text)?;
    let line = text.lines().next().unwrap_or(text);
    sender.refuse(asked.seq, asked.command, line)
}

/// Answers that a job is launched, and that its breakpoints may be set.
fn welcome<W: Write>(sender: &mut Sender<W>, asked: Asked<'_>) -> io::Result<()> {
    respond(sender, asked, "")?;
    sender.event("initialized", "")
}

/// The body of the answer to a move.
fn body_of(way: Move) -> &'static str {
    match way {
        Move::Continue => "{\"allThreadsContinued\":true}",
        _ => "",
    }
}

impl Session {
    /// Keeps a job that is launched.
    fn keep(&mut self, debuggee: Box<Debuggee>, stops_on_entry: bool) {
        self.debuggee = Some(debuggee);
        self.stops_on_entry = stops_on_entry;
        self.stage = Stage::Launched;
    }

    /// Launches a job.
    pub(crate) fn launch<H: Files + AllocGlobal, W: Write>(
        &mut self,
        rt: &H,
        sender: &mut Sender<W>,
        asked: Asked<'_>,
        launch: &Launch,
    ) -> io::Result<()> {
        if let Err(refusal) = self.check_new() {
            return refuse(sender, asked, refusal);
        }
        match launched(rt, launch) {
            Ok(debuggee) => {
                self.keep(debuggee, launch.stop_on_entry);
                welcome(sender, asked)
            }
            Err(LaunchFault::Memory) => refuse(sender, asked, Refusal::Memory),
            Err(LaunchFault::Said(text)) => {
                refuse_launch(sender, self.alloc, asked, text.as_str())
            }
        }
    }

    /// Refuses to launch a job unless none was.
    fn check_new(&self) -> Result<(), Refusal> {
        match self.stage {
            Stage::New => Ok(()),
            Stage::Launched | Stage::Stopped | Stage::Moving(_) => Err(Refusal::Again),
            Stage::Over => Err(Refusal::Over),
        }
    }

    /// Refuses to begin with a job unless one is launched and hasn't begun.
    fn check_launched(&self) -> Result<(), Refusal> {
        match self.stage {
            Stage::New => Err(Refusal::NoJob),
            Stage::Launched => Ok(()),
            Stage::Stopped | Stage::Moving(_) => Err(Refusal::Again),
            Stage::Over => Err(Refusal::Over),
        }
    }

    /// Begins with the job.
    pub(crate) fn begin<W: Write>(
        &mut self,
        sender: &mut Sender<W>,
        asked: Asked<'_>,
    ) -> io::Result<()> {
        match self.check_launched() {
            Ok(()) => {
                respond(sender, asked, "")?;
                self.enter(sender)
            }
            Err(refusal) => refuse(sender, asked, refusal),
        }
    }

    /// Stops before the first instruction, or at the first breakpoint.
    fn enter<W: Write>(&mut self, sender: &mut Sender<W>) -> io::Result<()> {
        if self.stops_on_entry {
            return self.stop(sender, Cause::Entry);
        }
        if self.is_at_breakpoint() {
            return self.stop(sender, Cause::Step);
        }
        self.start(sender, Motion::Until(0))
    }

    /// Whether a breakpoint holds at the state.
    fn is_at_breakpoint(&self) -> bool {
        match self.job() {
            Ok(debuggee) => match debuggee.history() {
                Some(history) => self.breakpoints.kind_at(history).is_some(),
                None => false,
            },
            Err(_) => false,
        }
    }

    /// The job, if it is at a state from which it can move.
    fn still(&self) -> Result<&Debuggee, Refusal> {
        match self.stage {
            Stage::New => Err(Refusal::NoJob),
            Stage::Launched => Err(Refusal::NotBegun),
            Stage::Moving(_) => Err(Refusal::Moves),
            Stage::Over => Err(Refusal::Over),
            Stage::Stopped => self.job(),
        }
    }

    /// The move that a client asks for.
    fn motion_of(&self, way: Move) -> Result<Motion, Refusal> {
        let calls = self.still()?.calls();
        Ok(match way {
            Move::Continue => Motion::Until(0),
            Move::Next => Motion::Until(calls),
            Move::StepIn => Motion::Step,
            Move::StepOut => Motion::Until(calls.saturating_sub(1)),
            Move::StepBack => Motion::Back,
            Move::ReverseContinue => Motion::BackToBreakpoint,
        })
    }

    /// Makes a move.
    pub(crate) fn make<W: Write>(
        &mut self,
        sender: &mut Sender<W>,
        asked: Asked<'_>,
        way: Move,
    ) -> io::Result<()> {
        match self.motion_of(way) {
            Ok(motion) => {
                respond(sender, asked, body_of(way))?;
                self.start(sender, motion)
            }
            Err(refusal) => refuse(sender, asked, refusal),
        }
    }

    /// Goes to the state of a number.
    pub(crate) fn go_to<W: Write>(
        &mut self,
        sender: &mut Sender<W>,
        asked: Asked<'_>,
        number: u64,
    ) -> io::Result<()> {
        match self.still() {
            Ok(_) => {
                respond(sender, asked, "{\"result\":\"\",\"variablesReference\":0}")?;
                self.start(sender, Motion::To(number))
            }
            Err(refusal) => refuse(sender, asked, refusal),
        }
    }

    /// Stops the job if it moves.
    pub(crate) fn pause<W: Write>(
        &mut self,
        sender: &mut Sender<W>,
        asked: Asked<'_>,
    ) -> io::Result<()> {
        match self.still() {
            Ok(_) => respond(sender, asked, ""),
            Err(Refusal::Moves) => {
                respond(sender, asked, "")?;
                self.stop(sender, Cause::Pause)
            }
            Err(refusal) => refuse(sender, asked, refusal),
        }
    }

    /// Ends the job.
    pub(crate) fn terminate<W: Write>(
        &mut self,
        sender: &mut Sender<W>,
        asked: Asked<'_>,
    ) -> io::Result<()> {
        respond(sender, asked, "")?;
        if self.stage == Stage::Over {
            return Ok(());
        }
        self.stage = Stage::Over;
        sender.event("terminated", "")
    }
}
