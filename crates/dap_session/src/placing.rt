//! Requests for breakpoints, and the answers to them.

use crate::breakpoints::{Breakpoints, Group};
use crate::texts::{File, Texts, line_for, line_from};
use dap_messages::{
    Client, FunctionBreakpoint, LineSpan, SourceBreakpoint, SourceBreakpoints, Text, Unsupported,
    push_json,
};
use job_looks::{push_number, state_sought};
use job_profile::Stop;
use std::alloc::{AllocError, Global};
use vcode_reader::Program;

/// The most lines that an answer names.
const MOST_LOCATIONS: usize = 65_536;

/// What breakpoints at lines are set over: the text of the job, and how the client counts.
#[derive(Clone, Copy)]
pub(crate) struct Ground<'a> {
    /// Where texts are made.
    pub(crate) alloc: Global,
    /// The text.
    pub(crate) texts: &'a Texts,
    /// The client.
    pub(crate) client: Client,
}

/// A breakpoint that is asked for at a line, as the client counts.
#[derive(Clone, Copy)]
struct Wish {
    id: u64,
    line: u64,
}

/// Adds a comma, unless this is the first item of a list.
fn push_comma(text: &mut Text, place: usize) {
    if place > 0 {
        text.push(',');
    }
}

/// Adds the beginning of an answer: the id, whether the breakpoint is set, and its line, if it has one.
fn push_head(text: &mut Text, id: u64, is_set: bool, line: Option<u64>) {
    push_number(text, "{\"id\":", id);
    text.push_str(",\"verified\":");
    text.push_str(if is_set { "true" } else { "false" });
    if let Some(line) = line {
        push_number(text, ",\"line\":", line);
    }
}

/// Adds the answer to a breakpoint that is set.
fn push_set(text: &mut Text, id: u64, line: Option<u64>) {
    push_head(text, id, true, line);
    text.push('}');
}

/// Adds the answer to a breakpoint that isn't set, and why.
fn push_unset(text: &mut Text, id: u64, line: Option<u64>, why: &str) {
    push_head(text, id, false, line);
    text.push_str(",\"message\":");
    push_json(text, why);
    text.push('}');
}

/// Adds the answer to a breakpoint that asks for something that isn't supported.
fn push_unsupported(
    text: &mut Text,
    alloc: Global,
    id: u64,
    line: Option<u64>,
    unsupported: Unsupported,
) {
    if let Some(why) = text.get(format!(in alloc; "{unsupported}")) {
        push_unset(text, id, line, why.as_str());
    }
}

// ---- lines

/// Sets a breakpoint at a line of the batch, or at the next one on which an instruction begins. Answers which it is.
fn set_in_batch(
    breakpoints: &mut Breakpoints,
    ground: Ground<'_>,
    wish: Wish,
) -> Result<Option<u64>, AllocError> {
    let line = line_from(ground.client, wish.line);
    let Some(met) = ground.texts.code.first_from(line) else {
        return Ok(None);
    };
    breakpoints.set(wish.id, Group::Lines(File::Batch), Stop::Line(met))?;
    Ok(Some(line_for(ground.client, met)))
}

/// Sets a breakpoint at each line with which code of a line of a source begins: the lines right before it, in its
/// function, are of other lines of the source. Answers the line if there is such code.
fn set_in_source(
    breakpoints: &mut Breakpoints,
    ground: Ground<'_>,
    place: usize,
    wish: Wish,
) -> Result<Option<u64>, AllocError> {
    let number = line_from(ground.client, wish.line);
    let group = Group::Lines(File::Source(place));
    let (mut was_there, mut found) = (false, None);
    for line in ground.texts.code.all() {
        let is_there = ground.texts.is_of_line(line.number, place, number);
        if is_there && (line.is_first || !was_there) {
            breakpoints.set(wish.id, group, Stop::Line(line.number))?;
            found = Some(wish.line);
        }
        was_there = is_there;
    }
    Ok(found)
}

/// Sets a breakpoint at a line of a file. Answers at which line of it.
fn set_in_file(
    breakpoints: &mut Breakpoints,
    ground: Ground<'_>,
    file: File,
    wish: Wish,
) -> Result<Option<u64>, AllocError> {
    match file {
        File::Batch => set_in_batch(breakpoints, ground, wish),
        File::Source(place) => set_in_source(breakpoints, ground, place, wish),
    }
}

/// Sets a breakpoint at a line of a file, and adds the answer.
fn place_in_file(
    text: &mut Text,
    breakpoints: &mut Breakpoints,
    ground: Ground<'_>,
    file: File,
    wish: Wish,
) -> Result<(), AllocError> {
    match set_in_file(breakpoints, ground, file, wish)? {
        Some(line) => push_set(text, wish.id, Some(line)),
        None => push_unset(
            text,
            wish.id,
            Some(wish.line),
            "the job has no code for this line",
        ),
    }
    Ok(())
}

/// Sets a breakpoint at a line of a file, which may be one that isn't known, and adds the answer.
fn place_line(
    text: &mut Text,
    breakpoints: &mut Breakpoints,
    ground: Ground<'_>,
    file: Option<File>,
    asked: SourceBreakpoint,
) -> Result<(), AllocError> {
    let (id, line) = (breakpoints.next_id(), asked.line);
    if let Some(unsupported) = asked.unsupported {
        push_unsupported(text, ground.alloc, id, Some(line), unsupported);
        return Ok(());
    }
    match file {
        Some(file) => place_in_file(text, breakpoints, ground, file, Wish { id, line }),
        None => {
            push_unset(text, id, Some(line), "the job has no code for this file");
            Ok(())
        }
    }
}

/// Sets the breakpoints of a file in place of those that it has, and adds the body of the answer.
///
/// The file is that of the batch or one of a source, by the last component of its path; a breakpoint of another is
/// answered as one that isn't set. In the batch it is set at its line, or at the next line on which an instruction
/// begins. In a source it stops where code of its line begins.
///
/// # Errors
///
/// [`AllocError`] if memory was refused. Some may be set then.
pub(crate) fn place_lines(
    text: &mut Text,
    breakpoints: &mut Breakpoints,
    ground: Ground<'_>,
    asked: &SourceBreakpoints,
) -> Result<(), AllocError> {
    let file = ground.texts.file_of(asked.path.as_str());
    if let Some(file) = file {
        breakpoints.clear(Group::Lines(file));
    }
    text.push_str("{\"breakpoints\":[");
    for (place, breakpoint) in asked.breakpoints.iter().enumerate() {
        push_comma(text, place);
        place_line(text, breakpoints, ground, file, *breakpoint)?;
    }
    text.push_str("]}");
    Ok(())
}

// ---- functions

/// What a name stops at: a function of the program, `words>N`, `entries>N` or `makes>N`. `None` if it is none of them.
fn stop_of(
    alloc: Global,
    program: &Program<Global>,
    name: &str,
) -> Result<Option<Stop<String>>, AllocError> {
    if program.position(name.as_bytes()).is_some() {
        return Ok(Some(Stop::Call(String::from_str(alloc, name)?)));
    }
    match state_sought(name) {
        Some(sought) => Ok(Some(sought.stop)),
        None => Ok(None),
    }
}

/// Sets the breakpoint of an id at what a name stops at. Answers whether it stops at something.
fn set_at_name(
    alloc: Global,
    breakpoints: &mut Breakpoints,
    program: &Program<Global>,
    id: u64,
    name: &str,
) -> Result<bool, AllocError> {
    match stop_of(alloc, program, name)? {
        Some(stop) => {
            breakpoints.set(id, Group::Functions, stop)?;
            Ok(true)
        }
        None => Ok(false),
    }
}

/// Sets a breakpoint at what its name stops at, and adds the answer.
fn place_function(
    text: &mut Text,
    alloc: Global,
    breakpoints: &mut Breakpoints,
    program: &Program<Global>,
    asked: &FunctionBreakpoint,
) -> Result<(), AllocError> {
    let id = breakpoints.next_id();
    if let Some(unsupported) = asked.unsupported {
        push_unsupported(text, alloc, id, None, unsupported);
        return Ok(());
    }
    if set_at_name(alloc, breakpoints, program, id, asked.name.as_str())? {
        push_set(text, id, None);
    } else {
        let why = "this is no function of the job, and not words>N, entries>N or makes>N";
        push_unset(text, id, None, why);
    }
    Ok(())
}

/// Sets the breakpoints at functions of a program in place of those that there are, and adds the body of the answer.
///
/// A name is that of a function, whose calls stop, or one of `words>N`, `entries>N` and `makes>N`. A breakpoint of
/// another is answered as one that isn't set.
///
/// # Errors
///
/// [`AllocError`] if memory was refused. Some may be set then.
pub(crate) fn place_functions(
    text: &mut Text,
    alloc: Global,
    breakpoints: &mut Breakpoints,
    program: &Program<Global>,
    asked: &[FunctionBreakpoint],
) -> Result<(), AllocError> {
    breakpoints.clear(Group::Functions);
    text.push_str("{\"breakpoints\":[");
    for (place, breakpoint) in asked.iter().enumerate() {
        push_comma(text, place);
        place_function(text, alloc, breakpoints, program, breakpoint)?;
    }
    text.push_str("]}");
    Ok(())
}

// ---- where breakpoints can be

/// Adds the object of a line at which a breakpoint can be.
fn push_location(text: &mut Text, place: usize, line: u64) {
    push_comma(text, place);
    push_number(text, "{\"line\":", line);
    text.push('}');
}

/// Adds the lines of the batch from one to another on which instructions begin.
fn push_code_lines(text: &mut Text, ground: Ground<'_>, first: u64, last: u64) {
    let lines = ground.texts.code.between(first, last);
    for (place, line) in lines.iter().take(MOST_LOCATIONS).enumerate() {
        push_location(text, place, line_for(ground.client, line.number));
    }
}

/// Adds the lines of a source from one to another that the code names.
fn push_source_lines(text: &mut Text, ground: Ground<'_>, file: usize, first: u64, last: u64) {
    let mut count: usize = 0;
    for line in &ground.texts.sources.lines {
        let is_asked = first <= line.number && line.number <= last;
        if is_asked && count < MOST_LOCATIONS && ground.texts.is_of_file(line, file) {
            push_location(text, count, line_for(ground.client, line.number));
            count = count.saturating_add(1);
        }
    }
}

/// Adds the body that says at which lines of a file breakpoints can be, of those that are asked for: those on which
/// instructions begin, or the lines of a source that the code names. Of these at most 65,536 are given.
pub(crate) fn push_locations(text: &mut Text, ground: Ground<'_>, asked: &LineSpan) {
    let first = line_from(ground.client, asked.line);
    let last = line_from(ground.client, asked.end_line);
    text.push_str("{\"breakpoints\":[");
    match ground.texts.file_of(asked.path.as_str()) {
        Some(File::Batch) => push_code_lines(text, ground, first, last),
        Some(File::Source(file)) => push_source_lines(text, ground, file, first, last),
        None => {}
    }
    text.push_str("]}");
}
