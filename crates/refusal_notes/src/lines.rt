//! The lines of a batch, as they may be shown on a terminal.

use crate::words::Word;
use std::alloc::{AllocError, Global};

/// The most bytes of a line that are shown.
const MOST_COLUMNS: usize = 96;

/// A text with the places at which its lines begin.
#[derive(Drop)]
pub struct Lines {
    text: Vec<u8>,
    begins: Vec<usize>,
}

/// The character that shows a byte: a blank for a tab and a CR, and a question mark for any other byte outside 32 to
/// 126.
fn shown_byte(byte: u8) -> char {
    if byte == b'\t' || byte == b'\r' {
        return ' ';
    }
    if byte < 32 || byte > 126 {
        return '?';
    }
    char::from(byte)
}

/// The bytes as they may be shown.
pub fn printable(alloc: Global, bytes: &[u8]) -> Result<String, AllocError> {
    let mut shown = String::new(alloc);
    for byte in bytes {
        shown.push(shown_byte(*byte))?;
    }
    Ok(shown)
}

/// The code of a line: what comes before its comment, or the whole line if nothing does, without the blanks at its
/// ends.
fn code_of(line: &str) -> &str {
    match line.split_once('{') {
        Some((code, _)) if !code.trim_ascii().is_empty() => code.trim_ascii(),
        Some(_) | None => line.trim_ascii(),
    }
}

/// Carets below the code of a line, after as many blanks as the line has before it.
fn carets(alloc: Global, line: &str) -> Result<String, AllocError> {
    let mut text = String::new(alloc);
    let blanks = line.len().saturating_sub(line.trim_ascii_start().len());
    for _ in 0..blanks {
        text.push(' ')?;
    }
    for _ in 0..code_of(line).len() {
        text.push('^')?;
    }
    Ok(text)
}

/// Carets from one column to another.
fn carets_between(alloc: Global, begin: usize, end: usize) -> Result<String, AllocError> {
    let mut text = String::new(alloc);
    for column in 0..end {
        text.push(if column < begin { ' ' } else { '^' })?;
    }
    Ok(text)
}

impl Lines {
    /// The lines of a text.
    pub fn of(alloc: Global, text: Vec<u8>) -> Result<Lines, AllocError> {
        let mut begins = Vec::new(alloc);
        let mut place: usize = 0;
        begins.push(place)?;
        for byte in &text {
            place = place.saturating_add(1);
            if *byte == b'\n' {
                begins.push(place)?;
            }
        }
        Ok(Lines { text, begins })
    }

    /// The text.
    pub fn text(&self) -> &[u8] {
        &self.text
    }

    /// The bytes of a line without its LF, if there is a line of this number, counted from 1.
    pub fn bytes(&self, number: u64) -> Option<&[u8]> {
        let begin = self.begin(number)?;
        let rest = self.text.get(begin..)?;
        match rest.iter().position(|byte| *byte == b'\n') {
            Some(end) => rest.get(..end),
            None => Some(rest),
        }
    }

    /// The number of the last line.
    pub fn count(&self) -> u64 {
        self.begins.len() as u64
    }

    /// The place in the text at which a line of this number begins.
    fn begin(&self, number: u64) -> Option<usize> {
        let Ok(place) = usize::try_from(number.checked_sub(1)?) else {
            return None;
        };
        Some(*self.begins.get(place)?)
    }

    /// The lines from one number on up to another, with their LFs.
    pub fn between(&self, first: u64, end: u64) -> &[u8] {
        let (Some(begin), Some(end)) = (self.begin(first), self.begin(end)) else {
            return &[];
        };
        self.text.get(begin..end).unwrap_or(&[])
    }

    /// A line as it may be shown, without its LF. Two dots end one that is cut. It is empty if there is none of this
    /// number.
    pub fn line(&self, alloc: Global, number: u64) -> Result<String, AllocError> {
        let Some(bytes) = self.bytes(number) else {
            return Ok(String::new(alloc));
        };
        let Some(front) = bytes.get(..MOST_COLUMNS) else {
            return printable(alloc, bytes);
        };
        let mut line = printable(alloc, front)?;
        if bytes.len() > MOST_COLUMNS {
            line.push_str("..")?;
        }
        Ok(line)
    }

    /// The code of a line: without blanks and comment at its ends.
    pub fn code(&self, alloc: Global, number: u64) -> Result<String, AllocError> {
        let line = self.line(alloc, number)?;
        String::from_str(alloc, code_of(line.as_str()))
    }

    /// A word of a line as it may be shown, whose first byte and the byte after whose last are at these places of the
    /// lines from `first` on; the code of the line if that isn't a part of what is shown of it.
    pub fn word(
        &self,
        alloc: Global,
        number: u64,
        first: u64,
        word: Word,
    ) -> Result<String, AllocError> {
        match self.columns(number, first, word) {
            Some((begin, end)) => {
                let bytes = self.bytes(number).unwrap_or(&[]);
                printable(alloc, bytes.get(begin..end).unwrap_or(&[]))
            }
            None => self.code(alloc, number),
        }
    }

    /// A line with its number and an LF, or nothing if it is empty.
    fn numbered(&self, alloc: Global, number: u64) -> Result<String, AllocError> {
        let line = self.line(alloc, number)?;
        if line.is_empty() {
            return Ok(line);
        }
        format!(in alloc; "{number:>7} | {line}\n")
    }

    /// A line between those beside it, with carets below its code and a note after them.
    pub fn around(&self, alloc: Global, number: u64, note: &str) -> Result<String, AllocError> {
        let line = self.line(alloc, number)?;
        let carets = carets(alloc, line.as_str())?;
        self.marked(alloc, number, carets.as_str(), note)
    }

    /// The same with carets below a word alone, whose first byte and the byte after whose last are at these places of
    /// the lines from `first` on. If that isn't a part of the line that is shown, they are below its code.
    pub fn around_word(
        &self,
        alloc: Global,
        number: u64,
        first: u64,
        word: Word,
        note: &str,
    ) -> Result<String, AllocError> {
        match self.columns(number, first, word) {
            Some((begin, end)) => {
                let carets = carets_between(alloc, begin, end)?;
                self.marked(alloc, number, carets.as_str(), note)
            }
            None => self.around(alloc, number, note),
        }
    }

    /// The columns of a line at which a word of the lines from `first` on begins and ends.
    pub fn columns(&self, number: u64, first: u64, word: Word) -> Option<(usize, usize)> {
        let (line, origin) = (self.begin(number)?, self.begin(first)?);
        let begin = origin.checked_add(word.begin)?.checked_sub(line)?;
        let end = origin.checked_add(word.end)?.checked_sub(line)?;
        if end > MOST_COLUMNS || end > self.bytes(number)?.len() {
            return None;
        }
        Some((begin, end))
    }

    /// A line between those beside it, with these carets below it and a note after them.
    fn marked(
        &self,
        alloc: Global,
        number: u64,
        carets: &str,
        note: &str,
    ) -> Result<String, AllocError> {
        let before = self.numbered(alloc, number.saturating_sub(1))?;
        let line = self.numbered(alloc, number)?;
        let after = self.numbered(alloc, number.saturating_add(1))?;
        format!(in alloc; "\n{before}{line}        | {carets} {note}\n{after}\n")
    }
}
