//! The result of a case.

use crate::escape::bytes_of;
use crate::fault::CaseFault;
use crate::pieces::{program_however_cut, signatures_however_cut};
use crate::show::{
    kinds_text, lines_text, program_text, shortened, signatures_text, verified_text,
};
use kind_finder::{MOST_ENTRIES, find_signatures};
use shown_text::{shown, shown_lines};
use signatures::Signatures;
use std::alloc::Global;
use std::str;
use vcode_reader::Program;
use vcode_reader::laws::equal_programs;
use verifier::laws::equal_verified;
use verifier::{Verified, verify};

/// The answer to a line of the table.
pub fn answer(alloc: Global, line: &str) -> Result<String, CaseFault> {
    let (word, text) = line.split_once(' ').unwrap_or((line, ""));
    match word {
        "code" => code(alloc, text),
        "equal" => equal(alloc, text),
        "position" => position(alloc, text),
        "signatures" => signatures(alloc, text),
        "get" => get(alloc, text),
        "kinds" => kinds(alloc, text),
        "same" => same(alloc, text),
        "find" => find(alloc, text, MOST_ENTRIES),
        "within" => within(alloc, text),
        "shown" => Ok(shown(alloc, &bytes_of(alloc, text)?)?),
        "lines" => lines(alloc, text),
        _ => Err(CaseFault::NoCase),
    }
}

fn code(alloc: Global, text: &str) -> Result<String, CaseFault> {
    let program = program_of(alloc, text)?;
    let text = program_text(alloc, &program)?;
    Ok(shortened(alloc, text, program.functions().len(), "functions")?)
}

fn equal(alloc: Global, text: &str) -> Result<String, CaseFault> {
    let (left, right) = halves(text)?;
    let is_equal = are_equal(alloc, left, right)?;
    Ok(format!(in alloc; "{is_equal}")?)
}

/// Whether two codes are read as equal programs.
fn are_equal(alloc: Global, left: &str, right: &str) -> Result<bool, CaseFault> {
    let left = program_of(alloc, left)?;
    is_read_as(alloc, right, &left)
}

fn position(alloc: Global, text: &str) -> Result<String, CaseFault> {
    let (name, code) = halves(text)?;
    let place = program_of(alloc, code)?.position(name.as_bytes());
    Ok(format!(in alloc; "{place:?}")?)
}

fn signatures(alloc: Global, text: &str) -> Result<String, CaseFault> {
    let found = signatures_of(alloc, text)?;
    let text = signatures_text(alloc, &found)?;
    Ok(shortened(alloc, text, found.len(), "signatures")?)
}

fn get(alloc: Global, text: &str) -> Result<String, CaseFault> {
    let (name, text) = halves(text)?;
    Ok(kinds_text(alloc, signatures_of(alloc, text)?.get(name.as_bytes()))?)
}

fn kinds(alloc: Global, text: &str) -> Result<String, CaseFault> {
    let (known, code) = halves(text)?;
    let verified = verified_of(alloc, known, code)?;
    text_of_same(alloc, code, &verified)
}

/// What was verified must be the program that this code is read as.
fn text_of_same(
    alloc: Global,
    code: &str,
    verified: &Verified<Global>,
) -> Result<String, CaseFault> {
    if !is_read_as(alloc, code, verified.program())? {
        return Err(CaseFault::OtherProgram);
    }
    Ok(verified_text(alloc, verified)?)
}

fn same(alloc: Global, text: &str) -> Result<String, CaseFault> {
    let (left, text) = halves(text)?;
    let (right, code) = halves(text)?;
    let is_equal = are_alike(alloc, left, right, code)?;
    Ok(format!(in alloc; "{is_equal}")?)
}

/// The signatures that are found for a code with stacks of at most `within` entries, or why there are none.
fn find(alloc: Global, text: &str, most_entries: usize) -> Result<String, CaseFault> {
    let code = bytes_of(alloc, text)?;
    match find_signatures(alloc, code.as_slice(), most_entries) {
        Ok(found) => Ok(lines_text(alloc, found.as_slice())?),
        Err(fault) => Ok(format!(in alloc; "{fault}")?),
    }
}

fn within(alloc: Global, text: &str) -> Result<String, CaseFault> {
    let (most_entries, code) = halves(text)?;
    match most_entries.parse() {
        Ok(most_entries) => find(alloc, code, most_entries),
        Err(_) => Err(CaseFault::NoCase),
    }
}

/// How a terminal is to show a text of lines.
fn lines(alloc: Global, text: &str) -> Result<String, CaseFault> {
    let bytes = bytes_of(alloc, text)?;
    let text = str::from_utf8(&bytes).map_err(|_| CaseFault::NoCase)?;
    let lines = shown_lines(alloc, String::from_str(alloc, text)?)?;
    if lines.as_str() == text {
        Ok(String::from_str(alloc, "as it is")?)
    } else {
        Ok(lines)
    }
}

/// Whether a code is verified alike by two signatures.
fn are_alike(alloc: Global, left: &str, right: &str, code: &str) -> Result<bool, CaseFault> {
    let left = verified_of(alloc, left, code)?;
    is_alike(alloc, &left, right, code)
}

/// Whether a code is verified by signatures as what was verified before.
fn is_alike(
    alloc: Global,
    left: &Verified<Global>,
    right: &str,
    code: &str,
) -> Result<bool, CaseFault> {
    let right = verified_of(alloc, right, code)?;
    Ok(equal_verified(left, &right))
}

/// The texts before and after the first `|`, without blanks at their ends.
fn halves(text: &str) -> Result<(&str, &str), CaseFault> {
    let (left, right) = text.split_once('|').ok_or(CaseFault::NoCase)?;
    Ok((left.trim(), right.trim()))
}

/// Whether a code is read as this program.
fn is_read_as(alloc: Global, code: &str, program: &Program<Global>) -> Result<bool, CaseFault> {
    let read = program_of(alloc, code)?;
    Ok(equal_programs(&read, program))
}

/// The program of a code whose first line is line 5.
fn program_of(alloc: Global, text: &str) -> Result<Program<Global>, CaseFault> {
    let bytes = bytes_of(alloc, text)?;
    program_however_cut(alloc, bytes.as_slice())
}

/// The signatures of a text whose first line is line 3.
fn signatures_of(alloc: Global, text: &str) -> Result<Signatures<Global>, CaseFault> {
    let bytes = bytes_of(alloc, text)?;
    signatures_however_cut(alloc, bytes.as_slice())
}

/// The program of a code, well kinded by signatures.
fn verified_of(alloc: Global, known: &str, code: &str) -> Result<Verified<Global>, CaseFault> {
    let known = signatures_of(alloc, known)?;
    let program = program_of(alloc, code)?;
    Ok(verify(alloc, program, &known)?)
}
