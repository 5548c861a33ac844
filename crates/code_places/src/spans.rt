//! Where the instructions of a program are in its text.

use crate::extent::last_line_of;
use refusal_notes::{Lines, Text, Word, words_of};
use std::alloc::{AllocError, Global};
use vcode_reader::Program;

/// The most bytes of a code whose instructions are looked for.
const MOST_BYTES: usize = 1_048_576;

/// The words with which something begins that always has more words, and how many more.
const LONGER: &[(&[u8], usize)] = &[
    (b"FUNC", 1),
    (b"CALL", 1),
    (b"COPY", 2),
    (b"POP", 2),
    (b"CPOP", 2),
];

/// The kinds that an instruction may have after its first word.
const KINDS: &[&[u8]] = &[b"INT", b"BOOL", b"SEGDES"];

/// The text of each instruction, ELSE and ENDIF of a program in their order, and how many of these come before each
/// function. An ELSE that isn't there has an empty text before its ENDIF. The places are those of the lines from
/// `first` on. Of a long code there are none.
#[derive(Drop)]
pub struct Spans {
    /// The line from which places are counted: that of the first `FUNC`, counted from 1 in the batch.
    pub first: u64,
    spans: Vec<Word>,
    begins: Vec<usize>,
}

/// The bytes of the word at a place.
fn word_at<'a>(code: &'a [u8], words: &[Word], place: usize) -> &'a [u8] {
    match words.get(place) {
        Some(word) => word.of(code),
        None => &[],
    }
}

/// The place after the value of a constant that begins at a place: a list, or one word.
fn value_end(code: &[u8], words: &[Word], begin: usize) -> usize {
    if word_at(code, words, begin) != b"(".as_slice() {
        return begin.saturating_add(1);
    }
    for place in begin..words.len() {
        if word_at(code, words, place) == b")".as_slice() {
            return place.saturating_add(1);
        }
    }
    words.len()
}

/// How many words come after one with which something begins, if they are always as many.
fn more_after(word: &[u8]) -> Option<usize> {
    for (longer, count) in LONGER {
        if word == *longer {
            return Some(*count);
        }
    }
    None
}

/// Whether a word is a kind.
fn is_kind(word: &[u8]) -> bool {
    KINDS.iter().any(|kind| word == *kind)
}

/// The place after the instruction, or the FUNC with its name, that begins at a place.
fn item_end(code: &[u8], words: &[Word], begin: usize) -> usize {
    let word = word_at(code, words, begin);
    let next = begin.saturating_add(1);
    if word == b"CONST".as_slice() {
        return value_end(code, words, next.saturating_add(1));
    }
    match more_after(word) {
        Some(count) => next.saturating_add(count),
        None if is_kind(word_at(code, words, next)) => next.saturating_add(1),
        None => next,
    }
}

/// The words from one place up to another as one, unless there are none, or they begin a function.
fn span_between(code: &[u8], words: &[Word], begin: usize, end: usize) -> Option<Word> {
    let (first, last) = (words.get(begin)?, words.get(end.checked_sub(1)?)?);
    if first.of(code) == b"FUNC".as_slice() {
        return None;
    }
    Some(Word {
        begin: first.begin,
        end: last.end,
    })
}

/// The text of each item of a code that was found, and for each open IF whether it has an ELSE.
#[derive(Drop)]
struct Found {
    spans: Vec<Word>,
    ifs: Vec<bool>,
}

impl Found {
    /// Takes the text of an item of a code. An IF without an ELSE has one all the same, before its ENDIF.
    fn take(&mut self, code: &[u8], span: Word) -> Result<(), AllocError> {
        let word = span.of(code);
        if word == b"IF".as_slice() {
            self.ifs.push(false)?;
        } else if word == b"ELSE".as_slice() {
            self.pass_else();
        } else if word == b"ENDIF".as_slice() {
            self.end_if(span.begin)?;
        }
        self.spans.push(span)?;
        Ok(())
    }

    /// The innermost open IF has an ELSE.
    fn pass_else(&mut self) {
        if let Some(has_else) = self.ifs.last_mut() {
            *has_else = true;
        }
    }

    /// The innermost open IF ends at a place of the code. Before that is the empty text of its ELSE, if it has none.
    fn end_if(&mut self, place: usize) -> Result<(), AllocError> {
        if matches!(self.ifs.pop(), Some(false)) {
            self.spans.push(Word {
                begin: place,
                end: place,
            })?;
        }
        Ok(())
    }
}

/// The text of each instruction, ELSE and ENDIF of a code.
fn spans_of(alloc: Global, code: &[u8]) -> Result<Vec<Word>, AllocError> {
    let words = words_of(alloc, Text::Code, code)?;
    let mut found = Found {
        spans: Vec::new(alloc),
        ifs: Vec::new(alloc),
    };
    let mut begin: usize = 0;
    for _ in 0..words.len() {
        if begin >= words.len() {
            break;
        }
        let end = item_end(code, &words, begin);
        if let Some(span) = span_between(code, &words, begin, end) {
            found.take(code, span)?;
        }
        begin = end;
    }
    Ok(found.spans)
}

/// How many instructions, ELSEs and ENDIFs come before each function of a program.
fn begins_of(alloc: Global, program: &Program<Global>) -> Result<Vec<usize>, AllocError> {
    let mut begins = Vec::new(alloc);
    let mut count: usize = 0;
    for function in program.functions() {
        begins.push(count)?;
        count = count.saturating_add(function.line_count());
    }
    Ok(begins)
}

impl Spans {
    /// Those of a program, whose code is in the lines of its batch.
    ///
    /// # Errors
    ///
    /// [`AllocError`] if memory was refused.
    pub fn of(
        alloc: Global,
        lines: &Lines,
        program: &Program<Global>,
    ) -> Result<Spans, AllocError> {
        let first = program.first_line();
        let code = lines.between(first, last_line_of(program).saturating_add(1));
        let code = if code.len() > MOST_BYTES { &[] } else { code };
        Ok(Spans {
            first,
            spans: spans_of(alloc, code)?,
            begins: begins_of(alloc, program)?,
        })
    }

    /// The text of the item at a place of a function, both counted from 0. `None` if it isn't known.
    pub fn at(&self, function: usize, place: usize) -> Option<Word> {
        let begin = self.begins.get(function).copied()?;
        self.spans.get(begin.checked_add(place)?).copied()
    }
}
