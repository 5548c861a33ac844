//! What was expected at a fault of the text of code.

ghost use Rattle.std.specs.Prelude.{◌≤◌, length};
ghost use Rattle.vcode_reader.specs.declared.reader.TheConstants.{MOST_CODE_BYTES};

use crate::expected::{expected_in_code, is_fault_next, is_name_next};
use crate::left_out::left_out_word;
use crate::lines::Lines;
use crate::parts::LineSpan;
use crate::words::{Text, Word, first_fault, open_comment, words_of};
use std::alloc::{AllocError, Global};
use vcode_base::TextFault;
use vcode_base::laws::line_feeds_are_few;
use vcode_base::limits::{LONGEST_NAME, MOST_ELEMENTS, MOST_FUNCTIONS, MOST_MOVED, MOST_OPEN_IFS};
use vcode_reader::{CodeFault, MOST_CODE_BYTES, Program, ReadFault};

/// The first word of a code that can't come there, the code before it, the word before it, and the code before that.
#[derive(Clone, Copy, Drop)]
struct Misplaced<'a> {
    word: Word,
    bytes: &'a [u8],
    front: &'a [u8],
    before: &'a [u8],
    earlier: &'a [u8],
}

/// The program of a code.
fn read(alloc: Global, code: &[u8]) -> Result<Program<Global>, ReadFault>
    requires { length code.now ≤ MOST_CODE_BYTES }
{
    line_feeds_are_few();
    vcode_reader::read(alloc, code, 1)
}

/// The program of a code, if it has no fault as a text.
pub(crate) fn program_of(
    alloc: Global,
    code: &[u8],
) -> Result<Option<Program<Global>>, AllocError> {
    if code.len() > MOST_CODE_BYTES {
        return Ok(None);
    }
    match read(alloc, code) {
        Ok(program) => Ok(Some(program)),
        Err(TextFault::At(..)) => Ok(None),
        Err(TextFault::Memory) => Err(AllocError),
    }
}

/// The first word of a code that can't come there, if there is one.
fn find_misplaced(alloc: Global, code: &[u8]) -> Result<Option<Misplaced<'_>>, AllocError> {
    let words = words_of(alloc, Text::Code, code)?;
    let Some(place) = first_fault(alloc, Text::Code, code, &words)? else {
        return Ok(None);
    };
    let Some(word) = words.get(place) else {
        return Ok(None);
    };
    let before = match words.get(place.saturating_sub(1)) {
        Some(before) => *before,
        None => *word,
    };
    Ok(Some(Misplaced {
        word: *word,
        bytes: word.of(code),
        front: code.get(..word.begin).unwrap_or(code),
        before: before.of(code),
        earlier: code.get(..before.begin).unwrap_or(code),
    }))
}

/// What may come next in code that begins so.
fn expected_note(alloc: Global, front: &[u8], place: &str) -> Result<String, AllocError> {
    let expected = expected_in_code(alloc, front)?;
    format!(in alloc; "expected {place}: {expected}\n")
}

/// The line, counted from the first of the code, at which the innermost of what is open at the end of a code begins.
fn open_line(alloc: Global, code: &[u8]) -> Result<Option<u64>, AllocError> {
    if code.len() > MOST_CODE_BYTES {
        return Ok(None);
    }
    match read(alloc, code) {
        Ok(program) => {
            drop(program);
            Ok(None)
        }
        Err(TextFault::At(_, line)) => Ok(Some(line)),
        Err(TextFault::Memory) => Err(AllocError),
    }
}

/// Where the innermost of what is open begins, if something is.
fn open_note(alloc: Global, front: &[u8], code: LineSpan) -> Result<String, AllocError> {
    match open_line(alloc, front)? {
        Some(line) => {
            let line = code.line(line);
            format!(in alloc; "what begins at line {line} is still open\n")
        }
        None => String::from_str(alloc, "no function is open\n"),
    }
}

/// The line of the function of this name, counted from the first of the code, if the program has one.
fn function_line(program: &Program<Global>, name: &[u8]) -> Option<u64> {
    let place = program.position(name)?;
    Some(program.functions().get(place)?.line())
}

/// The line of the function of this name in a code, counted from the first, if it has one and no fault as a text.
fn first_line(alloc: Global, code: &[u8], name: &[u8]) -> Result<Option<u64>, AllocError> {
    match program_of(alloc, code)? {
        Some(program) => {
            let line = function_line(&program, name);
            drop(program);
            Ok(line)
        }
        None => Ok(None),
    }
}

/// Where the function of this name is among those of a code.
fn first_note(alloc: Global, found: Misplaced<'_>, code: LineSpan) -> Result<String, AllocError> {
    match first_line(alloc, found.earlier, found.bytes)? {
        Some(line) => {
            let line = code.line(line);
            format!(in alloc; "the first function of this name begins at line {line}\n")
        }
        None => Ok(String::new(alloc)),
    }
}

/// Which limit a word passes.
fn limit_note(alloc: Global, found: Misplaced<'_>) -> Result<String, AllocError> {
    if is_name_next(alloc, found.front)? {
        let len = found.bytes.len();
        return format!(in alloc; "a name has at most {LONGEST_NAME} bytes, and this has {len}\n");
    }
    if found.bytes == b"FUNC".as_slice() {
        return format!(in alloc; "a program has at most {MOST_FUNCTIONS} functions\n");
    }
    if found.bytes == b"IF".as_slice() {
        return format!(in alloc; "at most {MOST_OPEN_IFS} IFs are open at the same time\n");
    }
    if is_fault_next(alloc, found.front, b")")? {
        return format!(in alloc; "a count is at most {MOST_MOVED}\n");
    }
    format!(in alloc; "a constant has at most {MOST_ELEMENTS} elements\n")
}

/// What there is to say of a word that can't come there.
fn misplaced_note(
    alloc: Global,
    found: Misplaced<'_>,
    code: LineSpan,
    fault: CodeFault,
) -> Result<String, AllocError> {
    match fault {
        CodeFault::BadWord => {
            let expected = expected_note(alloc, found.front, "here")?;
            let left_out = left_out_word(alloc, found.front, found.before, found.bytes)?;
            format!(in alloc; "{expected}{left_out}")
        }
        CodeFault::BadNumber => expected_note(alloc, found.front, "here"),
        CodeFault::Misplaced => {
            let expected = expected_note(alloc, found.front, "here")?;
            let open = open_note(alloc, found.front, code)?;
            format!(in alloc; "{expected}{open}")
        }
        CodeFault::FunctionTwice => first_note(alloc, found, code),
        CodeFault::TooLarge => limit_note(alloc, found),
        CodeFault::Unfinished => Ok(String::new(alloc)),
    }
}

/// The line at which something begins that is open at the end of a code, and what was expected there.
fn unfinished(
    alloc: Global,
    lines: &Lines,
    span: LineSpan,
    line: u64,
    code: &[u8],
    note: &str,
) -> Result<String, AllocError> {
    match open_comment(code) {
        Some(begin) => {
            let end = begin.saturating_add(1);
            let around = lines.around_word(alloc, line, span.first, Word { begin, end }, note)?;
            format!(in alloc; "{around}expected at the end of the code: }}, which ends a comment\n")
        }
        None => {
            let around = lines.around(alloc, line, note)?;
            let expected = expected_note(alloc, code, "at the end of the code")?;
            format!(in alloc; "{around}{expected}")
        }
    }
}

/// The line of a fault of the text of code, and what was expected there.
pub(crate) fn code_fault(
    alloc: Global,
    lines: &Lines,
    span: LineSpan,
    line: u64,
    fault: CodeFault,
    note: &str,
) -> Result<String, AllocError> {
    let code = lines.between(span.first, span.end);
    match find_misplaced(alloc, code)? {
        Some(found) => {
            let around = lines.around_word(alloc, line, span.first, found.word, note)?;
            let expected = misplaced_note(alloc, found, span, fault)?;
            format!(in alloc; "{around}{expected}")
        }
        None => unfinished(alloc, lines, span, line, code, note),
    }
}
