//! An instruction of a run that was executed.

use crate::padding::{push_column, push_right};
use crate::pieces::push_answer;
use crate::stack::push_values;
use crate::text::Text;
use crate::watch::Watch;
use code_places::Spans;
use job_history::op_of;
use job_profile::{Run, Uses};
use job_steps::Frame;
use refusal_notes::{Lines, kind_text};
use std::alloc::{AllocError, Global};
use vcode_base::Kind;
use vcode_reader::{CodeLine, Program};

/// The last instructions that are shown of a job.
const MOST_STEPS: u64 = 6;

/// How many instructions are kept, a power of 2.
const MOST_KEPT: u64 = 8;

/// Where an instruction is that was executed, and how many entries and words there were after it.
#[derive(Clone, Copy, Drop)]
struct Mark {
    frame: Frame,
    entries: usize,
    held: usize,
}

/// Where an instruction is that was executed.
#[derive(Clone, Copy, Drop)]
pub struct Passed {
    /// Its line.
    pub line: u64,
    frame: Frame,
}

/// An instruction that was executed: its number, and its line.
#[derive(Clone, Copy, Drop)]
pub struct Step {
    number: u64,
    mark: Mark,
    /// The line of the instruction.
    pub line: u64,
}

/// The marks of the instructions that a run has executed last, each at its number modulo [`MOST_KEPT`].
#[derive(Drop)]
pub(crate) struct Recent {
    marks: Vec<Mark>,
}

impl Mark {
    /// That of an instruction in this frame, which a run has executed.
    #[inline(always)]
    fn after(frame: Frame, run: &Run<Global>) -> Mark {
        Mark {
            frame,
            entries: run.depth(),
            held: run.held(),
        }
    }
}

/// Executes the next instruction. Answers where it is; `None` if it isn't executed, since it ends the job, or if there
/// is none.
#[inline(always)]
pub fn pass_one(uses: &mut Uses<Global>) -> Option<Passed> {
    let run = uses.run();
    let (line, executed, frame) = (run.coming().line, run.executed(), run.frames().last()?);
    uses.step();
    if uses.executed() == executed {
        return None;
    }
    Some(Passed { line, frame })
}

impl Step {
    /// The instruction that a run has executed last.
    pub fn of(run: &Run<Global>, passed: Passed) -> Step {
        Step {
            number: run.executed(),
            mark: Mark::after(passed.frame, run),
            line: passed.line,
        }
    }
}

/// The line of the code of a program that is at a frame.
pub(crate) fn line_at(program: &Program<Global>, frame: Frame) -> Option<CodeLine<'_>> {
    program.functions().get(frame.function)?.item(frame.place)
}

impl Recent {
    /// Those of a run that has executed nothing.
    ///
    /// # Errors
    ///
    /// [`AllocError`] if memory was refused.
    pub(crate) fn new(alloc: Global) -> Result<Recent, AllocError> {
        let none = Mark {
            frame: Frame {
                function: 0,
                place: 0,
            },
            entries: 0,
            held: 0,
        };
        let marks = vec![in alloc; none; MOST_KEPT as usize]?;
        Ok(Recent { marks })
    }

    /// Executes the next instruction of a run, unless it is the last RET. True if it was executed.
    ///
    /// # Errors
    ///
    /// [`AllocError`] if memory was refused.
    pub(crate) fn step(&mut self, watch: &mut Watch) -> Result<bool, AllocError> {
        let run = watch.run();
        let coming = run.coming();
        let Some(frame) = run.frames().last() else {
            return Ok(false);
        };
        if watch.trail.ends_with(coming.effect) || !watch.take(coming, frame)? {
            return Ok(false);
        }
        let run = watch.run();
        self.keep(run.executed(), Mark::after(frame, run));
        Ok(true)
    }

    /// Keeps the mark of the instruction of this number.
    #[inline(always)]
    fn keep(&mut self, number: u64, mark: Mark) {
        let place = (number % MOST_KEPT) as usize;
        if let Some(kept) = self.marks.get_mut(place) {
            *kept = mark;
        }
    }

    /// The instruction of this number, which is one of the last that a run of a program has executed.
    fn at(&self, program: &Program<Global>, number: u64) -> Option<Step> {
        let mark = *self.marks.get((number % MOST_KEPT) as usize)?;
        let line = line_at(program, mark.frame)?.number;
        Some(Step { number, mark, line })
    }

    /// The instructions that a run has executed last, at most 6, the last one at the end.
    ///
    /// # Errors
    ///
    /// [`AllocError`] if memory was refused.
    pub(crate) fn last(&self, alloc: Global, run: &Run<Global>) -> Result<Vec<Step>, AllocError> {
        let (mut steps, executed) = (Vec::new(alloc), run.executed());
        for before in executed.saturating_sub(MOST_STEPS)..executed {
            let program = run.job().verified().program();
            if let Some(step) = self.at(program, before.saturating_add(1)) {
                steps.push(step)?;
            }
        }
        Ok(steps)
    }
}

/// Adds the head of a list of instructions, for lines that [`push_step`] adds.
pub fn push_step_head(text: &mut Text) {
    text.push_str("       step     line  entries       held  instruction\n");
}

/// The text of an instruction that was executed, or the code of its line.
fn text_of(alloc: Global, lines: &Lines, spans: &Spans, step: Step) -> Result<String, AllocError> {
    match spans.at(step.mark.frame.function, step.mark.frame.place) {
        Some(word) => lines.word(alloc, step.line, spans.first, word),
        None => lines.code(alloc, step.line),
    }
}

/// Adds an instruction that was executed, on a line.
pub fn push_step(text: &mut Text, alloc: Global, lines: &Lines, spans: &Spans, step: Step) {
    text.push(' ');
    push_column(text, step.number, 9);
    push_column(text, step.line, 8);
    push_column(text, step.mark.entries as u64, 8);
    push_column(text, step.mark.held as u64, 10);
    text.push_str("  ");
    push_answer(text, text_of(alloc, lines, spans, step));
    text.push('\n');
}

/// Adds a result of a kind that has these words.
fn push_result(text: &mut Text, kind: Kind, words: &[i64]) {
    text.push_str("                              ");
    push_right(text, words.len() as u64, 10);
    text.push_str("    ");
    text.push_str(kind_text(kind));
    text.push(' ');
    push_values(text, kind, words.len(), words);
    text.push('\n');
}

/// The kinds of the results of an instruction that a run has executed.
fn made_kinds(run: &Run<Global>, step: Step) -> &'static [Kind] {
    match line_at(run.job().verified().program(), step.mark.frame) {
        Some(line) => op_of(&line).result_kinds(),
        None => &[],
    }
}

/// Adds what the instruction made that a run has executed last, from the bottom of the stack up, a result on each line.
pub fn push_made(text: &mut Text, run: &Run<Global>, step: Step) {
    let kinds = made_kinds(run, step);
    for (place, kind) in kinds.iter().enumerate() {
        let above = kinds.len().saturating_sub(place).saturating_sub(1);
        if let Some(words) = run.words(above) {
            push_result(text, *kind, words);
        }
    }
}
