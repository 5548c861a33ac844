//! The breakpoints that are set.

use crate::texts::File;
use dap_messages::Text;
use job_history::History;
use job_looks::by_bytes;
use job_profile::Stop;
use std::alloc::{AllocError, Global};
use vcode_base::Elements;

/// What is set together, in place of what was set before.
#[derive(Clone, Copy, PartialEq, Eq, Drop)]
pub(crate) enum Group {
    /// Lines of a file.
    Lines(File),
    /// Functions, and what names say otherwise.
    Functions,
}

/// A breakpoint, or a part of one that stops at several lines.
#[derive(Drop)]
struct Breakpoint {
    id: u64,
    group: Group,
    stop: Stop<String>,
}

/// What a breakpoint stops at.
#[derive(Clone, Copy, PartialEq, Eq, Drop)]
pub(crate) enum Kind {
    /// A line.
    Line,
    /// A call.
    Function,
    /// More of something than a number.
    Data,
}

/// The breakpoints that are set.
#[derive(Drop)]
pub(crate) struct Breakpoints {
    all: Vec<Breakpoint>,
    /// The id of the last one that was asked for.
    last_id: u64,
}

/// What a stop is.
fn kind_of(stop: &Stop<String>) -> Kind {
    match stop {
        Stop::Line(_) => Kind::Line,
        Stop::Call(_) => Kind::Function,
        Stop::Words(_) | Stop::Entries(_) | Stop::Makes(_) => Kind::Data,
    }
}

/// Whether an instruction of a line is next.
fn is_on(history: &History<Global>, line: u64) -> bool {
    match history.next() {
        Some(next) => next.line == line,
        None => false,
    }
}

/// Whether a call of the function of this name is next.
fn calls(history: &History<Global>, name: &str) -> bool {
    match history.callee() {
        Some(callee) => callee == name.as_bytes(),
        None => false,
    }
}

/// Whether a stop holds at the state of a run.
fn holds(history: &History<Global>, stop: &Stop<String>) -> bool {
    match stop {
        Stop::Line(line) => is_on(history, *line),
        Stop::Call(name) => calls(history, name.as_str()),
        Stop::Words(most) => *most < history.held(),
        Stop::Entries(most) => *most < history.depth(),
        Stop::Makes(most) => *most < history.need(),
    }
}

impl Breakpoints {
    /// None.
    pub(crate) fn new(alloc: Global) -> Breakpoints {
        Breakpoints {
            all: Vec::new(alloc),
            last_id: 0,
        }
    }

    /// Takes away those of a group.
    pub(crate) fn clear(&mut self, group: Group) {
        self.all.retain(|breakpoint| breakpoint.group != group);
    }

    /// The id of a further one.
    pub(crate) fn next_id(&mut self) -> u64 {
        self.last_id = self.last_id.saturating_add(1);
        self.last_id
    }

    /// Sets the one of an id.
    ///
    /// # Errors
    ///
    /// [`AllocError`] if memory was refused.
    pub(crate) fn set(
        &mut self,
        id: u64,
        group: Group,
        stop: Stop<String>,
    ) -> Result<(), AllocError> {
        self.all.push(Breakpoint { id, group, stop })?;
        Ok(())
    }

    /// What they stop at, as [`History::find_next`] takes it.
    ///
    /// # Errors
    ///
    /// [`AllocError`] if memory was refused.
    pub(crate) fn stops(&self, alloc: Global) -> Result<Vec<Stop<Elements<'_, u8>>>, AllocError> {
        let mut stops = Vec::new(alloc);
        for breakpoint in &self.all {
            stops.push(by_bytes(&breakpoint.stop))?;
        }
        Ok(stops)
    }

    /// Whether one of a kind holds at the state of a run.
    fn holds_any(&self, history: &History<Global>, kind: Kind) -> bool {
        for breakpoint in &self.all {
            if kind_of(&breakpoint.stop) == kind && holds(history, &breakpoint.stop) {
                return true;
            }
        }
        false
    }

    /// What holds at the state of a run, if something does: a line before a call, and a call before the rest.
    pub(crate) fn kind_at(&self, history: &History<Global>) -> Option<Kind> {
        for kind in [Kind::Line, Kind::Function, Kind::Data] {
            if self.holds_any(history, kind) {
                return Some(kind);
            }
        }
        None
    }

    /// Adds the ids of those that hold at the state of a run, with commas between them.
    pub(crate) fn push_ids(&self, text: &mut Text, history: &History<Global>) {
        let mut is_first = true;
        for breakpoint in &self.all {
            if holds(history, &breakpoint.stop) {
                if !is_first {
                    text.push(',');
                }
                is_first = false;
                text.push_number(breakpoint.id);
            }
        }
    }
}
