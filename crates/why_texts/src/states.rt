//! A state of a job, and the end of one, as texts.

use code_places::{Sources, Spans, push_source};
use job_looks::{
    Ended, Picture, Step, Text, Watch, push_answer, push_calls, push_limits, push_number,
    push_size, push_stack, push_step, push_step_head,
};
use job_steps::Job;
use refusal_notes::Lines;
use std::alloc::{AllocError, Global};
use vcode_base::Rule;
use vcode_reader::Program;

/// Where the instructions of a code are, and the lines of its source.
#[derive(Drop)]
pub struct Places {
    /// Where the instructions are in the text.
    pub spans: Spans,
    /// The source.
    pub sources: Sources,
}

impl Places {
    /// Those of a program, whose code is in the lines of its batch.
    ///
    /// # Errors
    ///
    /// [`AllocError`] if memory was refused.
    pub fn of(
        alloc: Global,
        lines: &Lines,
        program: &Program<Global>,
    ) -> Result<Places, AllocError> {
        Ok(Places {
            spans: Spans::of(alloc, lines, program)?,
            sources: Sources::of(alloc, lines, program)?,
        })
    }
}

/// Adds the line of the source of which a line of the code is, if it is of one.
fn push_source_of(text: &mut Text, sources: &Sources, line: u64) {
    if let Some(source) = sources.at(line) {
        text.push_str("of the source ");
        push_source(text, sources, source);
        text.push_str("\n\n");
    }
}

/// The next line of a state between those beside it, with a note at its instruction.
fn around_next(
    alloc: Global,
    lines: &Lines,
    spans: &Spans,
    (function, place): (usize, usize),
    line: u64,
    note: &str,
) -> Result<String, AllocError> {
    match spans.at(function, place) {
        Some(word) => lines.around_word(alloc, line, spans.first, word, note),
        None => lines.around(alloc, line, note),
    }
}

/// Adds the next line of a state, with a note at its instruction, and the line of its source.
fn push_next(
    text: &mut Text,
    alloc: Global,
    lines: &Lines,
    places: &Places,
    picture: &Picture,
    note: &str,
) {
    if let Some(next) = picture.next {
        let around = around_next(alloc, lines, &places.spans, picture.place, next.line, note);
        push_answer(text, around);
        push_source_of(text, &places.sources, next.line);
    }
}

/// Where a state is, with a note at its next instruction, which has no LF, and its calls and its stack.
pub fn picture_text(
    alloc: Global,
    lines: &Lines,
    program: &Program<Global>,
    places: &Places,
    picture: &Picture,
    note: &str,
) -> Text {
    let mut text = Text::new(alloc);
    push_next(&mut text, alloc, lines, places, picture, note);
    push_calls(&mut text, alloc, program, &places.sources, picture);
    push_stack(&mut text, alloc, lines, picture);
    text
}

/// The last instructions of a job, after a head.
pub fn steps_text(alloc: Global, lines: &Lines, spans: &Spans, steps: &[Step]) -> Text {
    let mut text = Text::new(alloc);
    text.push_str("\nthe last instructions\n");
    push_step_head(&mut text);
    for step in steps {
        push_step(&mut text, alloc, lines, spans, *step);
    }
    text
}

/// What a job used, and within which limits it returns.
pub fn limits_text(alloc: Global, rule: Rule, ended: &Ended, job: &Job<Global>) -> Text {
    let mut text = Text::new(alloc);
    push_limits(&mut text, alloc, rule, job, ended.end, ended.wide);
    text
}

/// After how many instructions the state of a run is, with the most words up to it, or that the run is over.
pub fn state_text(alloc: Global, watch: &Watch) -> Text {
    let (mut text, executed) = (Text::new(alloc), watch.run().executed());
    if watch.run().goes_on() {
        push_number(&mut text, "after ", executed);
        push_size(
            &mut text,
            " instructions, with a peak of ",
            watch.run().peak(),
        );
        text.push_str(" words\n");
    } else {
        push_number(&mut text, "is over after ", executed);
        text.push_str(" instructions\n");
    }
    text
}
