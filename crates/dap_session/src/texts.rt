//! The text that a job is of.

use crate::code::CodeLines;
use code_places::{SourceLine, Sources, Spans};
use dap_messages::Client;
use refusal_notes::Lines;
use std::alloc::{AllocError, Global};
use vcode_reader::Program;

/// A file whose lines may have breakpoints.
#[derive(Clone, Copy, PartialEq, Eq, Drop)]
pub(crate) enum File {
    /// That of the batch.
    Batch,
    /// The file of a source at this place among the files, with those that have the same last component.
    Source(usize),
}

/// The text that a job is of.
#[derive(Drop)]
pub(crate) struct Texts {
    /// The path of the batch, as the client named it.
    pub(crate) path: String,
    /// The lines of the batch.
    pub(crate) lines: Lines,
    /// The lines of a source that comments of the code name.
    pub(crate) sources: Sources,
    /// Where the instructions are in the text.
    pub(crate) spans: Spans,
    pub(crate) code: CodeLines,
}

/// Where the code of a job is.
#[derive(Drop)]
struct Places {
    sources: Sources,
    spans: Spans,
    code: CodeLines,
}

/// The last component of a path.
fn last_component(path: &str) -> &str {
    match path.rsplit_once('/') {
        Some((_, last)) => last,
        None => path,
    }
}

/// The number of the first line, as a client counts: 1 or 0.
pub(crate) fn first_line(client: Client) -> u64 {
    u64::from(client.lines_start_at_1)
}

/// The number that a line has for a client. Here lines are counted from 1.
pub(crate) fn line_for(client: Client, line: u64) -> u64 {
    line.saturating_sub(1).saturating_add(first_line(client))
}

/// The number of a line, counted from 1, that a client names.
pub(crate) fn line_from(client: Client, line: u64) -> u64 {
    line.saturating_sub(first_line(client)).saturating_add(1)
}

impl Places {
    /// Where the code of a program is, which is in these lines.
    fn of(alloc: Global, lines: &Lines, program: &Program<Global>) -> Result<Places, AllocError> {
        let code = CodeLines::of(alloc, program)?;
        let spans = Spans::of(alloc, lines, program)?;
        Ok(Places {
            sources: Sources::of(alloc, lines, program)?,
            spans,
            code,
        })
    }
}

impl Texts {
    /// The text of a program, whose batch has a path, as the client named it, and these lines.
    ///
    /// # Errors
    ///
    /// [`AllocError`] if memory was refused.
    pub(crate) fn new(
        alloc: Global,
        path: &str,
        lines: Lines,
        program: &Program<Global>,
    ) -> Result<Texts, AllocError> {
        let Places {
            sources,
            spans,
            code,
        } = Places::of(alloc, &lines, program)?;
        Ok(Texts {
            path: String::from_str(alloc, path)?,
            lines,
            sources,
            spans,
            code,
        })
    }

    /// Whether the file of a source at a place has this last component.
    fn is_named(&self, place: usize, name: &str) -> bool {
        match self.sources.files.get(place) {
            Some(file) => last_component(file.as_str()) == name,
            None => false,
        }
    }

    /// The file that a path names, by its last component. `None` if no code of the job is of such a file.
    pub(crate) fn file_of(&self, path: &str) -> Option<File> {
        let name = last_component(path);
        if name == last_component(self.path.as_str()) {
            return Some(File::Batch);
        }
        for place in 0..self.sources.files.len() {
            if self.is_named(place, name) {
                return Some(File::Source(place));
            }
        }
        None
    }

    /// Whether a line of a source is of the file at a place, or of one with the same last component.
    pub(crate) fn is_of_file(&self, line: &SourceLine, place: usize) -> bool {
        match self.sources.files.get(place) {
            Some(file) => self.is_named(line.file, last_component(file.as_str())),
            None => false,
        }
    }

    /// Whether a line of the batch is of the line of this number of the source whose file is at a place.
    pub(crate) fn is_of_line(&self, line: u64, place: usize, number: u64) -> bool {
        match self.sources.at(line) {
            Some(source) => source.number == number && self.is_of_file(source, place),
            None => false,
        }
    }
}
