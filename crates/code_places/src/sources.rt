//! The lines of a source, which comments of a code name: `{@ FILE:LINE}`, or `{@ FILE:LINE TEXT}` with the line's text.
//!
//! Such a mark holds for the code of its line and of the lines after it, up to the next mark or the next `FUNC`. No
//! file is read.

use crate::extent::last_line_of;
use refusal_notes::{Lines, Word, printable};
use std::alloc::{AllocError, Global};
use string_builder::StringBuilder;
use vcode_reader::Program;

/// The most files of a source. A mark of a further one is a comment like any other.
const MOST_FILES: usize = 256;

/// The most bytes of the text of a line, and of the name of a file.
const MOST_BYTES: usize = 96;

/// A line of a source.
#[derive(Drop)]
pub struct SourceLine {
    /// The place of its file among the files.
    pub file: usize,
    /// Its number in the file, counted from 1.
    pub number: u64,
    /// Its text, which may be empty.
    pub text: String,
}

/// From a line of the code on, up to the next mark, the code is of a line of the source, or of none.
#[derive(Clone, Copy, Drop)]
pub struct Mark {
    /// The line of the code, counted from 1 in the batch.
    pub line: u64,
    /// The place of the line of the source among these lines.
    pub place: Option<usize>,
}

/// The source of a code. What its comments name is shown as [`printable`] answers it.
#[derive(Drop)]
pub struct Sources {
    /// The names of its files, in the order in which the code names them.
    pub files: Vec<String>,
    /// Its lines that the code names, by file and number, each once.
    pub lines: Vec<SourceLine>,
    /// The marks, by their lines, of each line at most one.
    pub marks: Vec<Mark>,
    last: u64,
}

/// A comment that begins with `@`, on a line of the code.
#[derive(Clone, Copy, Drop)]
struct Comment {
    line: u64,
    word: Word,
}

/// A mark as it was found.
#[derive(Drop)]
struct Found {
    line: u64,
    source: SourceLine,
}

/// The comments of a code that begin with `@`. The first line of the code has this number.
fn comments_of(alloc: Global, code: &[u8], first: u64) -> Result<Vec<Comment>, AllocError> {
    let mut comments = Vec::new(alloc);
    let mut open = None;
    let mut line = first;
    for place in 0..code.len() {
        match (code[place], open) {
            (b'\n', _) => line = line.saturating_add(1),
            (b'{', None) => open = Some((place, line)),
            (b'}', Some((begin, at))) => {
                open = None;
                push_comment(&mut comments, code, begin, place, at)?;
            }
            _ => {}
        }
    }
    Ok(comments)
}

/// Adds the comment between two places, which begins at a line, if it begins with `@`.
fn push_comment(
    comments: &mut Vec<Comment>,
    code: &[u8],
    begin: usize,
    end: usize,
    line: u64,
) -> Result<(), AllocError> {
    let begin = begin.saturating_add(1);
    if code.get(begin) != Some(&b'@') {
        return Ok(());
    }
    let begin = begin.saturating_add(1);
    comments.push(Comment {
        line,
        word: Word { begin, end },
    })?;
    Ok(())
}

/// The front of a text, in the length that is shown.
fn cut(text: &str) -> &str {
    text.get(..MOST_BYTES).unwrap_or(text)
}

/// Whether a text may be the name of a file.
fn is_name(text: &str) -> bool {
    !text.is_empty() && text.len() <= MOST_BYTES
}

/// The file, the line and the text that are named as `FILE:LINE TEXT`.
fn named(text: &str) -> Option<(&str, u64, &str)> {
    let text = text.trim_ascii();
    let (place, text) = text.split_once(' ').unwrap_or((text, ""));
    let (file, number) = place.rsplit_once(':')?;
    match number.parse::<u64>() {
        Ok(number) if number > 0 && is_name(file) => Some((file, number, text.trim_ascii())),
        Ok(_) | Err(_) => None,
    }
}

/// The place of a file among others, to which it is added if it is missing. `None` if there are too many.
fn file_place(
    files: &mut Vec<String>,
    alloc: Global,
    name: &str,
) -> Result<Option<usize>, AllocError> {
    if let Some(place) = files.iter().position(|file| file.as_str() == name) {
        return Ok(Some(place));
    }
    if files.len() >= MOST_FILES {
        return Ok(None);
    }
    files.push(String::from_str(alloc, name)?)?;
    Ok(Some(files.len().saturating_sub(1)))
}

/// The mark that a comment is, if it is one.
fn found_of(
    files: &mut Vec<String>,
    alloc: Global,
    code: &[u8],
    comment: Comment,
) -> Result<Option<Found>, AllocError> {
    let bytes = comment.word.of(code);
    let line = bytes.split(|byte| *byte == b'\n').next().unwrap_or(&[]);
    let shown = printable(alloc, line)?;
    let Some((file, number, text)) = named(shown.as_str()) else {
        return Ok(None);
    };
    let Some(file) = file_place(files, alloc, file)? else {
        return Ok(None);
    };
    let text = String::from_str(alloc, cut(text))?;
    Ok(Some(Found {
        line: comment.line,
        source: SourceLine { file, number, text },
    }))
}

/// The marks of a code, the first of each line.
fn all_found(
    files: &mut Vec<String>,
    alloc: Global,
    code: &[u8],
    first: u64,
) -> Result<Vec<Found>, AllocError> {
    let mut all = Vec::new(alloc);
    for comment in &comments_of(alloc, code, first)? {
        if let Some(found) = found_of(files, alloc, code, *comment)? {
            all.push(found)?;
        }
    }
    all.dedup_by_key(|found: &mut Found| found.line);
    Ok(all)
}

impl Sources {
    /// The source of a program, whose code is in the lines of its batch.
    ///
    /// # Errors
    ///
    /// [`AllocError`] if memory was refused.
    pub fn of(
        alloc: Global,
        lines: &Lines,
        program: &Program<Global>,
    ) -> Result<Sources, AllocError> {
        let (first, last) = (program.first_line(), last_line_of(program));
        let code = lines.between(first, last.saturating_add(1));
        let mut files = Vec::new(alloc);
        let found = all_found(&mut files, alloc, code, first)?;
        let mut sources = Sources {
            files,
            lines: Vec::new(alloc),
            marks: Vec::new(alloc),
            last,
        };
        sources.take_all(found)?;
        if !sources.is_empty() {
            sources.end_at_functions(program)?;
        }
        Ok(sources)
    }

    /// Takes the lines and the marks that were found.
    fn take_all(&mut self, found: Vec<Found>) -> Result<(), AllocError> {
        let mut found = found;
        found.sort_by_key(|found| (found.source.file, found.source.number))?;
        for found in found.into_iter() {
            self.take(found)?;
        }
        Ok(())
    }

    /// Takes a mark. Those of one line of the source come one after the other.
    fn take(&mut self, found: Found) -> Result<(), AllocError> {
        let Found { line, source } = found;
        if self.ends_with(&source) {
            self.join(source);
        } else {
            self.lines.push(source)?;
        }
        let place = self.lines.len().checked_sub(1);
        self.marks.push(Mark { line, place })?;
        Ok(())
    }

    /// Whether the last line is this one.
    fn ends_with(&self, source: &SourceLine) -> bool {
        match self.lines.last() {
            Some(last) => last.file == source.file && last.number == source.number,
            None => false,
        }
    }

    /// Takes the text of the last line from another mark, if it has none.
    fn join(&mut self, source: SourceLine) {
        let SourceLine {
            file: _,
            number: _,
            text,
        } = source;
        if let Some(last) = self.lines.last_mut() {
            if last.text.is_empty() {
                last.text = text;
            }
        }
    }

    /// Ends the marks at the `FUNC` lines that have none, and puts all into order.
    fn end_at_functions(&mut self, program: &Program<Global>) -> Result<(), AllocError> {
        for function in program.functions() {
            self.marks.push(Mark {
                line: function.line(),
                place: None,
            })?;
        }
        self.marks
            .sort_by_key(|mark| (mark.line, mark.place.is_none()))?;
        self.marks.dedup_by_key(|mark: &mut Mark| mark.line);
        Ok(())
    }

    /// Whether the code names no line of a source.
    pub fn is_empty(&self) -> bool {
        self.lines.is_empty()
    }

    /// The place of the line of the source of which a line of the code is, counted from 0 among the lines. `None` if it
    /// is of none.
    pub fn place(&self, line: u64) -> Option<usize> {
        let after = self.marks.partition_point(|mark| mark.line <= line);
        self.marks.get(after.checked_sub(1)?)?.place
    }

    /// The line of the source of which a line of the code is. `None` if it is of none.
    pub fn at(&self, line: u64) -> Option<&SourceLine> {
        self.lines.get(self.place(line)?)
    }

    /// How many lines of the code the mark at a place among the marks holds for, and 0 if there is no such mark.
    pub fn reach(&self, place: usize) -> u64 {
        let Some(mark) = self.marks.get(place) else {
            return 0;
        };
        let end = match self.marks.get(place.saturating_add(1)) {
            Some(next) => next.line,
            None => self.last.saturating_add(1),
        };
        end.saturating_sub(mark.line)
    }
}

/// Adds the place of a line of a source, as in `sort.src:12`.
pub fn push_place(text: &mut StringBuilder<Global>, sources: &Sources, source: &SourceLine) {
    if let Some(file) = sources.files.get(source.file) {
        text.push_str(file.as_str());
    }
    text.push(':');
    text.push_number(source.number);
}

/// Adds the place of a line of a source, and after two blanks its text, if it has one.
pub fn push_source(text: &mut StringBuilder<Global>, sources: &Sources, source: &SourceLine) {
    push_place(text, sources, source);
    if !source.text.is_empty() {
        text.push_str("  ");
        text.push_str(source.text.as_str());
    }
}
