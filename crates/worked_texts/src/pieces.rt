//! Texts that come in pieces, beside the same at once.

ghost use Rattle.std.specs.Prelude.{◌≤◌, length};
ghost use Rattle.worked_texts.specs.declared.escape.TheConstants.{MOST_BYTES};

use crate::fault::CaseFault;
use crate::show::signatures_text;
use signatures::{SigFault, SigReader, Signatures};
use std::alloc::Global;
use vcode_base::laws::line_feeds_are_few;
use vcode_reader::laws::equal_programs;
use vcode_reader::{CodeReader, Program, ReadFault, read};

/// The first line of a code.
const CODE_LINE: u64 = 5;

/// The first line of a text of signatures.
const SIGNATURES_LINE: u64 = 3;

/// The bytes of the pieces in which each text comes as well.
const PIECES: [usize; 2] = [1, 7];

/// The program of a code. It must be the same however the text is cut.
pub fn program_however_cut(alloc: Global, code: &[u8]) -> Result<Program<Global>, CaseFault>
    requires { length code.now ≤ MOST_BYTES }
{
    line_feeds_are_few();
    let whole = read(alloc, code, CODE_LINE);
    if !is_read_in_pieces(alloc, code, &whole) {
        return Err(CaseFault::OtherInPieces);
    }
    Ok(whole?)
}

/// Whether a code in pieces is this program, or has the same fault.
fn is_read_in_pieces(alloc: Global, code: &[u8], whole: &Result<Program<Global>, ReadFault>) -> bool
    requires { length code.now ≤ MOST_BYTES }
{
    for size in PIECES {
        if !is_same_program(whole, &program_in_pieces(alloc, code, size)) {
            return false;
        }
    }
    true
}

/// The program of a code that comes in pieces of `size` bytes.
fn program_in_pieces(alloc: Global, code: &[u8], size: usize) -> Result<Program<Global>, ReadFault>
    requires few { length code.now ≤ MOST_BYTES }
    requires some { 1 ≤ size }
{
    line_feeds_are_few();
    let mut reader = CodeReader::new(alloc, CODE_LINE)?;
    let mut rest = code;
    while !rest.is_empty() {
        let (piece, behind) = rest.split_at(size.min(rest.len()));
        reader.feed(piece)?;
        rest = behind;
    }
    reader.finish()
}

/// Whether both are the same program, or the same fault.
fn is_same_program(
    left: &Result<Program<Global>, ReadFault>,
    right: &Result<Program<Global>, ReadFault>,
) -> bool {
    match (left, right) {
        (Ok(left), Ok(right)) => equal_programs(left, right),
        (Err(left), Err(right)) => left == right,
        _ => false,
    }
}

/// The signatures of a text. They must be the same however it is cut.
pub fn signatures_however_cut(alloc: Global, text: &[u8]) -> Result<Signatures<Global>, CaseFault>
    requires { length text.now ≤ MOST_BYTES }
{
    line_feeds_are_few();
    let whole = signatures::read(alloc, text, SIGNATURES_LINE);
    if !are_read_in_pieces(alloc, text, &whole)? {
        return Err(CaseFault::OtherInPieces);
    }
    Ok(whole?)
}

/// Whether a text in pieces is these signatures, or has the same fault.
fn are_read_in_pieces(
    alloc: Global,
    text: &[u8],
    whole: &Result<Signatures<Global>, SigFault>,
) -> Result<bool, CaseFault>
    requires { length text.now ≤ MOST_BYTES }
{
    for size in PIECES {
        if !are_same_signatures(alloc, whole, &signatures_in_pieces(alloc, text, size))? {
            return Ok(false);
        }
    }
    Ok(true)
}

/// The signatures of a text that comes in pieces of `size` bytes.
fn signatures_in_pieces(
    alloc: Global,
    text: &[u8],
    size: usize,
) -> Result<Signatures<Global>, SigFault>
    requires few { length text.now ≤ MOST_BYTES }
    requires some { 1 ≤ size }
{
    line_feeds_are_few();
    let mut reader = SigReader::new(alloc, SIGNATURES_LINE);
    let mut rest = text;
    while !rest.is_empty() {
        let (piece, behind) = rest.split_at(size.min(rest.len()));
        reader.feed(piece)?;
        rest = behind;
    }
    reader.finish()
}

/// Whether both are signatures that are printed alike, or the same fault.
fn are_same_signatures(
    alloc: Global,
    left: &Result<Signatures<Global>, SigFault>,
    right: &Result<Signatures<Global>, SigFault>,
) -> Result<bool, CaseFault> {
    match (left, right) {
        (Ok(left), Ok(right)) => {
            let is_same = signatures_text(alloc, left)? == signatures_text(alloc, right)?;
            Ok(is_same)
        }
        (Err(left), Err(right)) => Ok(left == right),
        _ => Ok(false),
    }
}
