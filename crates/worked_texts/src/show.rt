//! How a program and signatures are printed.

use bstr::ByteSlice;
use signatures::Signatures;
use std::alloc::{AllocError, Global};
use std::str;
use vcode_base::{Instr, Instruction, Kind};
use vcode_reader::{CodeItem, CodeLine, Function, Program};
use verifier::Verified;

/// The bytes of the longest text that is shown whole.
const MOST_SHOWN: usize = 500;

/// The functions of a program.
pub fn program_text(alloc: Global, program: &Program<Global>) -> Result<String, AllocError> {
    let mut text = String::new(alloc);
    if program.functions().is_empty() {
        text.push_str("no functions")?;
    }
    for (number, function) in program.functions().iter().enumerate() {
        text.push_str(if number > 0 { " | " } else { "" })?;
        put_function(&mut text, program, number, function)?;
    }
    Ok(text)
}

/// Appends the function of this number: its name, the line of its `FUNC`, and its lines. There is none
/// at the place after the last.
fn put_function(
    text: &mut String,
    program: &Program<Global>,
    number: usize,
    function: &Function<Global>,
) -> Result<(), AllocError> {
    write!(text, "{}@{}:", function.name().as_bstr(), function.line())?;
    for place in 0..=function.line_count() {
        if let Some(line) = function.item(place) {
            text.push_str(if place > 0 { "; " } else { " " })?;
            put_line(text, function, place, &line)?;
            put_callee(text, program.callee(number, place))?;
        }
    }
    Ok(())
}

/// Appends the line at a place: its number, its item, and its target if that isn't the next.
fn put_line(
    text: &mut String,
    function: &Function<Global>,
    place: usize,
    line: &CodeLine<'_>,
) -> Result<(), AllocError> {
    write!(text, "{} ", line.number)?;
    match &line.item {
        CodeItem::Do(instruction) => put_instruction(text, instruction)?,
        CodeItem::If => text.push_str("If")?,
        CodeItem::Else => text.push_str("Else")?,
        CodeItem::Endif => text.push_str("Endif")?,
    }
    if let Some(target) = function.target(place) {
        write!(text, " -> {target}")?;
    }
    Ok(())
}

/// Appends the number of the function that a line calls, if there is one.
fn put_callee(text: &mut String, callee: Option<usize>) -> Result<(), AllocError> {
    match callee {
        Some(number) => write!(text, " -> function {number}"),
        None => Ok(()),
    }
}

/// Appends an instruction with its list or its name.
fn put_instruction(text: &mut String, instruction: &Instruction<'_>) -> Result<(), AllocError> {
    match instruction {
        Instr::Const(kind, list) => write!(text, "Const({kind:?}, {:?})", list.as_slice()),
        Instr::Call(name) => write!(text, "Call({})", name.as_slice().as_bstr()),
        other => write!(text, "{:?}", other.op()),
    }
}

/// The lines of a text, one after another.
pub fn lines_text(alloc: Global, text: &[u8]) -> Result<String, AllocError> {
    let text = str::from_utf8(text).unwrap_or("no text");
    let mut lines = String::new(alloc);
    for (number, line) in text.trim_end().split('\n').enumerate() {
        lines.push_str(if number > 0 { " | " } else { "" })?;
        lines.push_str(line)?;
    }
    Ok(lines)
}

/// Signatures: each name with the kinds that it takes and those that it gives.
pub fn signatures_text(
    alloc: Global,
    signatures: &Signatures<Global>,
) -> Result<String, AllocError> {
    let mut text = String::new(alloc);
    if signatures.is_empty() {
        text.push_str("no signatures")?;
    }
    // There is none at the place after the last.
    for place in 0..=signatures.len() {
        if let Some((name, takes, gives)) = signatures.at(place) {
            text.push_str(if place > 0 { " | " } else { "" })?;
            write!(text, "{} {takes:?} -> {gives:?}", name.as_bstr())?;
        }
    }
    Ok(text)
}

/// The kinds that a name has.
pub fn kinds_text(alloc: Global, kinds: Option<(&[Kind], &[Kind])>) -> Result<String, AllocError> {
    match kinds {
        Some((takes, gives)) => format!(in alloc; "{takes:?} -> {gives:?}"),
        None => String::from_str(alloc, "no signature"),
    }
}

/// That a program is well kinded, and the kinds of what its `MAIN` leaves.
pub fn verified_text(alloc: Global, verified: &Verified<Global>) -> Result<String, AllocError> {
    format!(in alloc; "well kinded, {:?}", verified.results())
}

/// The text, or if it is long how many things it shows.
pub fn shortened(
    alloc: Global,
    text: String,
    count: usize,
    things: &str,
) -> Result<String, AllocError> {
    if text.len() > MOST_SHOWN {
        format!(in alloc; "{count} {things}")
    } else {
        Ok(text)
    }
}
