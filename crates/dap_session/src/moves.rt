//! Moves over the run, and what is sent where they stop.

use crate::answers::shown_of;
use crate::motion::{Cause, Motion, Progress};
use crate::sending::{Category, event, output};
use crate::session::{Session, Stage};
use crate::stops::{has_returned, push_stopped};
use dap_messages::{Sender, Text};
use dap_views::{JobEnd, push_end_text};
use job_looks::push_number;
use std::alloc::AllocError;
use std::io::{self, Write};

impl Session {
    /// Begins with a move. From the last state before the end there is none forward: the job is over.
    pub(crate) fn start<W: Write>(
        &mut self,
        sender: &mut Sender<W>,
        motion: Motion,
    ) -> io::Result<()> {
        if motion.is_forward() && self.is_at_end() {
            return self.finish(sender);
        }
        self.stage = Stage::Moving(motion);
        self.move_on(sender)
    }

    /// Whether the job is at the last state before its end, which was shown.
    fn is_at_end(&self) -> bool {
        match self.job() {
            Ok(debuggee) => debuggee.is_at_end(),
            Err(_) => false,
        }
    }

    /// Goes on with a move for a while, if there is one, and sends where it has come when it is there.
    ///
    /// # Errors
    ///
    /// The error of a write.
    pub(crate) fn move_on<W: Write>(&mut self, sender: &mut Sender<W>) -> io::Result<()> {
        match self.advance() {
            Ok(Progress::GoesOn) => Ok(()),
            Ok(Progress::Stopped(cause)) => self.stop(sender, cause),
            Ok(Progress::Ended) => self.come_to_end(sender),
            Err(AllocError) => self.lose(sender),
        }
    }

    /// Goes on with a move for a while, if there is one.
    fn advance(&mut self) -> Result<Progress, AllocError> {
        let Stage::Moving(motion) = self.stage else {
            return Ok(Progress::GoesOn);
        };
        match &mut self.debuggee {
            Some(debuggee) => debuggee.go_on(&self.breakpoints, motion),
            None => Ok(Progress::GoesOn),
        }
    }

    /// Stops at the state.
    pub(crate) fn stop<W: Write>(
        &mut self,
        sender: &mut Sender<W>,
        cause: Cause,
    ) -> io::Result<()> {
        self.stage = Stage::Stopped;
        let mut text = Text::new(self.alloc);
        self.push_stopped(&mut text, cause);
        event(sender, "stopped", text)
    }

    /// Adds the body of the event that the job stops by a cause.
    fn push_stopped(&self, text: &mut Text, cause: Cause) {
        let Ok(debuggee) = self.job() else {
            return;
        };
        if let Some(history) = debuggee.history() {
            let shown = shown_of(&debuggee.texts, history, self.client());
            push_stopped(text, self.alloc, debuggee, &self.breakpoints, shown, cause);
        }
    }

    /// Goes back to the last state before the end, to which the job has come.
    fn leave_end(&mut self) -> Result<Option<JobEnd>, AllocError> {
        match &mut self.debuggee {
            Some(debuggee) => debuggee.leave_end(),
            None => Ok(None),
        }
    }

    /// Stops at the last state before the end, to which the job has come. The end is output if it was not known.
    fn come_to_end<W: Write>(&mut self, sender: &mut Sender<W>) -> io::Result<()> {
        match self.leave_end() {
            Ok(end) => {
                self.tell(sender, end)?;
                self.stop(sender, Cause::End)
            }
            Err(AllocError) => self.lose(sender),
        }
    }

    /// Outputs an end, if there is one.
    fn tell<W: Write>(&self, sender: &mut Sender<W>, end: Option<JobEnd>) -> io::Result<()> {
        let Some(end) = end else {
            return Ok(());
        };
        let mut text = Text::new(self.alloc);
        self.push_end(&mut text, end);
        let text = text.finish()?;
        output(sender, self.alloc, Category::Console, text.as_str())
    }

    /// Adds what is said of an end.
    fn push_end(&self, text: &mut Text, end: JobEnd) {
        let Ok(debuggee) = self.job() else {
            return;
        };
        if let Some(history) = debuggee.history() {
            push_end_text(text, self.alloc, history.rule(), history.job(), end);
        }
    }

    /// Says that the job is over.
    fn finish<W: Write>(&mut self, sender: &mut Sender<W>) -> io::Result<()> {
        self.stage = Stage::Over;
        let mut text = Text::new(self.alloc);
        push_number(&mut text, "{\"exitCode\":", self.exit_code());
        text.push('}');
        event(sender, "exited", text)?;
        sender.event("terminated", "")
    }

    /// The status with which the job is said to exit.
    fn exit_code(&self) -> u64 {
        match self.job() {
            Ok(debuggee) if has_returned(debuggee.end()) => 0,
            _ => 1,
        }
    }

    /// Says that memory was refused for the run, which is over then.
    fn lose<W: Write>(&mut self, sender: &mut Sender<W>) -> io::Result<()> {
        self.stage = Stage::Over;
        output(
            sender,
            self.alloc,
            Category::Errors,
            "out of memory: the run is gone\n",
        )?;
        sender.event("terminated", "")
    }
}
