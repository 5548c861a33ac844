//! What bodies are made of.

use code_places::{Sources, Spans};
use job_history::History;
use job_looks::{Text, push_number};
use refusal_notes::Lines;
use std::alloc::Global;

/// What a body is made of: the run at its state and the text that it runs.
#[derive(Clone, Copy)]
pub struct Shown<'a> {
    /// The run, which is at the state that is shown.
    pub history: &'a History<Global>,
    /// The lines of its batch.
    pub lines: &'a Lines,
    /// The lines of a source that comments of its code name.
    pub sources: &'a Sources,
    /// Where its instructions are in the text.
    pub spans: &'a Spans,
    /// The path of the batch, as the client named it.
    pub path: &'a str,
    /// The number of the first line for the client: 1, or 0 if it counts from 0.
    pub first_line: u64,
    /// The number of the first column for the client.
    pub first_column: u64,
}

impl Shown<'_> {
    /// The number that a line of the batch has for the client. The batch's lines are counted from 1.
    pub(crate) fn line(&self, line: u64) -> u64 {
        line.saturating_sub(1).saturating_add(self.first_line)
    }

    /// The number that a column has for the client, which is counted from 0 here.
    pub(crate) fn column(&self, column: usize) -> u64 {
        self.first_column.saturating_add(column as u64)
    }

    /// The last component of the path of the batch.
    pub(crate) fn file(&self) -> &str {
        match self.path.rsplit_once('/') {
            Some((_, file)) => file,
            None => self.path,
        }
    }
}

/// Adds the number of the state of a run, as in `state 12 of the run`.
pub(crate) fn push_state_number(text: &mut Text, history: &History<Global>) {
    push_number(text, "state ", history.at());
    text.push_str(" of the run");
}

/// Adds the number of the state, as in `state 12 of the run`.
pub fn push_state_line(text: &mut Text, shown: Shown<'_>) {
    push_state_number(text, shown.history);
}
