//! How many entries the check of a job file may hold.

use signatures::Signatures;
use std::alloc::{AllocError, Global};
use vcode_base::laws::line_feeds_are_few;
use vcode_base::limits::MOST_JOBS;
use vcode_base::{Instr, Instruction, LineWords, Parentheses, StackMove, TextFault};
use vcode_reader::{CodeItem, Function, MOST_CODE_BYTES, Program};

/// The parts of a job that the check reads.
#[derive(Drop)]
struct JobParts<'a> {
    /// The lines before its code, counted from the first line of the file.
    lines_before: u64,
    signatures: &'a [u8],
    code: &'a [u8],
}

/// Whether this is the only word of a line.
fn is_only_word(line: &[u8], heading: &[u8]) -> bool {
    let mut words = LineWords::new(line, Parentheses::StandInWords);
    words.next() == Some(heading) && words.next().is_none()
}

/// The bytes before the first line that has this word alone, and those after that line.
fn cut_at<'a>(text: &'a [u8], heading: &[u8]) -> Option<(&'a [u8], &'a [u8])> {
    let mut at: usize = 0;
    for line in text.split(|byte| *byte == b'\n') {
        let after = at.saturating_add(line.len()).saturating_add(1);
        if is_only_word(line, heading) {
            return Some((text.get(..at)?, text.get(after..).unwrap_or(&[])));
        }
        at = after;
    }
    None
}

/// How many lines end in a text.
fn lines_in(text: &[u8]) -> u64 {
    let mut lines: u64 = 0;
    for byte in text {
        if *byte == b'\n' {
            lines = lines.saturating_add(1);
        }
    }
    lines
}

/// What a text has before its end, if this is its end.
fn before<'a>(text: &'a [u8], end: &[u8]) -> &'a [u8] {
    text.get(..text.len().saturating_sub(end.len()))
        .unwrap_or(&[])
}

/// The first job of a text that follows this many lines, and the bytes after that job.
fn first_job(text: &[u8], lines_before: u64) -> Option<(JobParts<'_>, &[u8])> {
    let (_head, rest) = cut_at(text, b"SIGNATURES")?;
    let (signatures, rest) = cut_at(rest, b"CODE")?;
    let before_code = before(text, rest);
    let (code, rest) = cut_at(rest, b"END")?;
    let parts = JobParts {
        lines_before: lines_before.saturating_add(lines_in(before_code)),
        signatures,
        code,
    };
    Some((parts, rest))
}

/// How many entries an instruction takes off a stack, and how many it puts on.
fn motion_of(instruction: Instruction<'_>, signatures: &Signatures<Global>) -> (usize, usize) {
    match instruction {
        Instr::Move(StackMove::Copy, lower, _) => (0, usize::from(lower)),
        Instr::Move(StackMove::Pop, lower, _) => (usize::from(lower), 0),
        Instr::Call(name) => match signatures.get(name.as_slice()) {
            Some((operands, results)) => (operands.len(), results.len()),
            None => (0, 0),
        },
        _ => {
            let op = instruction.op();
            (op.operand_kinds().len(), op.result_kinds().len())
        }
    }
}

/// The entries of a stack on the way through a function.
#[derive(Drop)]
struct Heights {
    now: usize,
    highest: usize,
    /// For each open IF how many there are as each of its parts begins.
    begun: Vec<usize>,
}

impl Heights {
    /// Goes on by an item of the code.
    fn pass(
        &mut self,
        item: CodeItem<Instruction<'_>>,
        signatures: &Signatures<Global>,
    ) -> Result<(), AllocError> {
        match item {
            CodeItem::If => {
                self.now = self.now.saturating_sub(1);
                self.begun.push(self.now)?;
            }
            CodeItem::Else => self.now = self.begun.last().copied().unwrap_or(0),
            CodeItem::Endif => {
                let _begun = self.begun.pop();
            }
            CodeItem::Do(instruction) => {
                let (takes, gives) = motion_of(instruction, signatures);
                self.now = self.now.saturating_sub(takes).saturating_add(gives);
            }
        }
        self.highest = self.highest.max(self.now);
        Ok(())
    }
}

/// The most entries that the stack of a function has, its operands among them.
fn highest_in(
    alloc: Global,
    function: &Function<Global>,
    signatures: &Signatures<Global>,
) -> Result<usize, AllocError> {
    let operands = match signatures.get(function.name()) {
        Some((operands, _)) => operands.len(),
        None => 0,
    };
    let mut heights = Heights {
        now: operands,
        highest: operands,
        begun: Vec::new(alloc),
    };
    for place in 0..function.line_count() {
        if let Some(line) = function.item(place) {
            heights.pass(line.item, signatures)?;
        }
    }
    Ok(heights.highest)
}

/// The program of a job, if it has one.
fn program_of(alloc: Global, code: &[u8]) -> Result<Option<Program<Global>>, AllocError> {
    if code.len() > MOST_CODE_BYTES {
        return Ok(None);
    }
    line_feeds_are_few();
    match vcode_reader::read(alloc, code, 1) {
        Ok(program) => Ok(Some(program)),
        Err(TextFault::Memory) => Err(AllocError),
        Err(TextFault::At(..)) => Ok(None),
    }
}

/// The signatures of a job, if it has any.
fn signatures_of(alloc: Global, text: &[u8]) -> Result<Option<Signatures<Global>>, AllocError> {
    line_feeds_are_few();
    match signatures::read(alloc, text, 1) {
        Ok(signatures) => Ok(Some(signatures)),
        Err(TextFault::Memory) => Err(AllocError),
        Err(TextFault::At(..)) => Ok(None),
    }
}

/// The line of the first function of a job whose stack has more than `most` entries, if there is one. A job that can't
/// be read has none: the check comes to no stack.
fn line_in_job(alloc: Global, job: &JobParts<'_>, most: usize) -> Result<Option<u64>, AllocError> {
    let Some(program) = program_of(alloc, job.code)? else {
        return Ok(None);
    };
    let Some(signatures) = signatures_of(alloc, job.signatures)? else {
        return Ok(None);
    };
    for function in program.functions() {
        if highest_in(alloc, function, &signatures)? > most {
            return Ok(Some(function.line().saturating_add(job.lines_before)));
        }
    }
    Ok(None)
}

/// The line of the first function in a file whose stack has more than `most` entries, if there is one. All jobs of the
/// file are looked at, since each is checked before the file is refused for having more than one.
pub fn line_past(alloc: Global, bytes: &[u8], most: usize) -> Result<Option<u64>, AllocError> {
    let mut rest = bytes;
    let mut lines: u64 = 0;
    for _ in 0..MOST_JOBS {
        let Some((job, after)) = first_job(rest, lines) else {
            break;
        };
        if let Some(line) = line_in_job(alloc, &job, most)? {
            return Ok(Some(line));
        }
        lines = lines_in(before(bytes, after));
        rest = after;
    }
    Ok(None)
}
