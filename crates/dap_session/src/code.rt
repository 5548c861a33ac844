//! The lines of a batch on which instructions of a job begin.

use std::alloc::{AllocError, Global};
use vcode_reader::{CodeItem, Function, Program};

/// A line on which an instruction begins.
#[derive(Clone, Copy, PartialEq, Eq, Drop)]
pub(crate) struct CodeLine {
    /// Its number, counted from 1 in the batch.
    pub(crate) number: u64,
    /// Whether a function begins with it.
    pub(crate) is_first: bool,
}

/// The lines on which instructions of a job begin, each once and in their order.
#[derive(Drop)]
pub(crate) struct CodeLines {
    lines: Vec<CodeLine>,
}

/// The line of the item at a place of a function, if it is an instruction.
fn line_at(function: &Function<Global>, place: usize) -> Option<CodeLine> {
    let line = function.item(place)?;
    match line.item {
        CodeItem::Do(_) | CodeItem::If => Some(CodeLine {
            number: line.number,
            is_first: place == 0,
        }),
        CodeItem::Else | CodeItem::Endif => None,
    }
}

/// Whether the last of some lines has this number.
fn ends_with(lines: &[CodeLine], number: u64) -> bool {
    match lines.last() {
        Some(last) => last.number == number,
        None => false,
    }
}

/// Adds the lines on which instructions of a function begin.
fn push_lines(lines: &mut Vec<CodeLine>, function: &Function<Global>) -> Result<(), AllocError> {
    for place in 0..function.line_count() {
        if let Some(line) = line_at(function, place) {
            if !ends_with(lines, line.number) {
                lines.push(line)?;
            }
        }
    }
    Ok(())
}

impl CodeLines {
    /// Those of a program.
    ///
    /// # Errors
    ///
    /// [`AllocError`] if memory was refused.
    pub(crate) fn of(alloc: Global, program: &Program<Global>) -> Result<CodeLines, AllocError> {
        let mut lines = Vec::new(alloc);
        for function in program.functions() {
            push_lines(&mut lines, function)?;
        }
        Ok(CodeLines { lines })
    }

    /// All of them.
    pub(crate) fn all(&self) -> &[CodeLine] {
        &self.lines
    }

    /// Those from the one of a number on.
    fn after(&self, number: u64) -> &[CodeLine] {
        let place = self.lines.partition_point(|line| line.number < number);
        self.lines.get(place..).unwrap_or(&[])
    }

    /// The number of the first from the one of a number on.
    pub(crate) fn first_from(&self, number: u64) -> Option<u64> {
        Some(self.after(number).first()?.number)
    }

    /// Those from one number up to another.
    pub(crate) fn between(&self, first: u64, last: u64) -> &[CodeLine] {
        let lines = self.after(first);
        let count = lines.partition_point(|line| line.number <= last);
        lines.get(..count).unwrap_or(lines)
    }
}
