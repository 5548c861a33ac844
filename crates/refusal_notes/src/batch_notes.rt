//! What was expected where a batch is refused as a whole.

use crate::lines::{Lines, printable};
use crate::meanings::batch_meaning;
use crate::parts::{Scan, scan_before};
use batch_reader::{Batch, BatchFault, Feed, Heading, JobEntries, Section, heading_of};
use std::alloc::{AllocError, Global};
use vcode_base::limits::{
    LONGEST_NAME, MOST_BATCH_BYTES, MOST_BUDGET, MOST_CALLS, MOST_CELLS, MOST_JOBS, MOST_WORDS,
};
use vcode_base::{LineWords, Parentheses};

/// The words of a JOB line.
const JOB_WORDS: usize = 6;

/// A limit of a JOB line.
#[derive(Clone, Copy)]
struct Range {
    name: &'static str,
    least: u64,
    most: u64,
}

/// The limits of a JOB line, in their order.
const RANGES: &[Range] = &[
    Range {
        name: "words",
        least: 0,
        most: MOST_WORDS as u64,
    },
    Range {
        name: "cells",
        least: 1,
        most: MOST_CELLS as u64,
    },
    Range {
        name: "calls",
        least: 1,
        most: MOST_CALLS as u64,
    },
    Range {
        name: "budget",
        least: 0,
        most: MOST_BUDGET,
    },
];

/// The jobs of a batch, or why it is refused as a whole.
pub fn batch_of(alloc: Global, text: &[u8]) -> Result<Batch<JobEntries<Global>>, AllocError> {
    let mut feed = Feed::new(alloc, MOST_WORDS)?;
    match feed.feed(text) {
        Ok(()) => feed.end(),
        Err(error) => {
            drop(feed);
            Err(error)
        }
    }
}

/// A batch whose JOB line has this word as the limit at a place, and 1 as the other limits.
fn batch_with(alloc: Global, place: usize, word: &[u8]) -> Result<Vec<u8>, AllocError> {
    let mut text = b"JOB t".to_vec(alloc)?;
    for other in 0..RANGES.len() {
        let limit = if other == place { word } else { b"1" };
        text.push(b' ')?;
        text.extend_from_slice(limit)?;
    }
    text.extend_from_slice(b"\nSIGNATURES\nCODE\nEND\n")?;
    Ok(text)
}

/// Whether a batch is refused as a whole.
fn is_refused(alloc: Global, text: &[u8]) -> Result<bool, AllocError> {
    let batch = batch_of(alloc, text)?;
    let is_refused = matches!(&batch, Batch::Refused(..));
    drop(batch);
    Ok(is_refused)
}

/// Whether a JOB line with this word as the limit at a place, and 1 as the other limits, is refused.
fn is_bad_limit(alloc: Global, place: usize, word: &[u8]) -> Result<bool, AllocError> {
    let text = batch_with(alloc, place, word)?;
    is_refused(alloc, &text)
}

/// What is wrong with the name of a job, if something is.
fn name_note(alloc: Global, name: &[u8]) -> Result<Option<String>, AllocError> {
    let len = name.len();
    if len > LONGEST_NAME {
        let text = format!(in alloc;
            "a name has at most {LONGEST_NAME} bytes, and this has {len}"
        )?;
        return Ok(Some(text));
    }
    for byte in name {
        if *byte < 33 || *byte > 126 {
            let text = String::from_str(alloc, "the name has a byte that isn't from 33 to 126")?;
            return Ok(Some(text));
        }
    }
    Ok(None)
}

/// What is wrong with the first limit that is outside its range.
fn limits_note(alloc: Global, limits: &[&[u8]]) -> Result<String, AllocError> {
    for (place, (word, range)) in limits.iter().zip(RANGES.iter()).enumerate() {
        if is_bad_limit(alloc, place, word)? {
            let word = printable(alloc, word)?;
            let Range { name, least, most } = *range;
            return format!(in alloc;
                "expected as {name}: a number from {least} to {most}, not {word}"
            );
        }
    }
    Ok(String::new(alloc))
}

/// The words of a line.
fn words_of(alloc: Global, line: &[u8]) -> Result<Vec<&[u8]>, AllocError> {
    let mut words = Vec::new(alloc);
    let mut rest = LineWords::new(line, Parentheses::StandInWords);
    for _ in 0..line.len() {
        let Some(word) = rest.next() else {
            break;
        };
        words.push(word)?;
    }
    Ok(words)
}

/// Whether the first word of a line is this one.
fn begins_with(line: &[u8], word: &[u8]) -> bool {
    let mut words = LineWords::new(line, Parentheses::StandInWords);
    match words.next() {
        Some(first) => first == word,
        None => false,
    }
}

/// What is wrong with a JOB line.
fn job_line_note(alloc: Global, line: &[u8]) -> Result<String, AllocError> {
    let words = words_of(alloc, line)?;
    let count = words.len();
    if count != JOB_WORDS {
        return format!(in alloc;
            "expected: the {JOB_WORDS} words JOB name words cells calls budget, not {count} words"
        );
    }
    let (Some(name), Some(limits)) = (words.get(1), words.get(2..)) else {
        return Ok(String::new(alloc));
    };
    match name_note(alloc, name)? {
        Some(text) => Ok(text),
        None => limits_note(alloc, limits),
    }
}

/// What is wrong with a line between jobs.
fn between_note(alloc: Global, line: &[u8]) -> Result<String, AllocError> {
    if begins_with(line, b"JOB") {
        return job_line_note(alloc, line);
    }
    if begins_with(line, b"BATCH") {
        return String::from_str(
            alloc,
            "a rule line is BATCH 2, and only the first line that isn't blank may be one",
        );
    }
    String::from_str(alloc, "expected: a JOB line, or a blank line")
}

/// What was expected at a line that is no good line between jobs, or none after a JOB line.
fn bad_line_note(alloc: Global, lines: &Lines, number: u64) -> Result<String, AllocError> {
    match scan_before(lines, number).section {
        Section::Between => between_note(alloc, lines.bytes(number).unwrap_or(&[])),
        Section::Headed | Section::Signatures | Section::Code => String::from_str(
            alloc,
            "expected: SIGNATURES, alone on the line after the JOB line",
        ),
    }
}

/// What was expected of the job of a JOB line, up to the end of the batch or an END before CODE.
fn unfinished_note(alloc: Global, lines: &Lines, job: u64) -> Result<String, AllocError> {
    let mut scan = Scan::new();
    for number in job..u64::MAX {
        let Some(line) = lines.bytes(number) else {
            break;
        };
        if scan.section == Section::Signatures && heading_of(line) == Heading::End {
            return format!(in alloc; "expected before the END at line {number}: CODE");
        }
        scan.take(number, line);
    }
    String::from_str(
        alloc,
        match scan.section {
            Section::Code => "expected before the end of the batch: END",
            Section::Between | Section::Headed | Section::Signatures =>
                "expected before the end of the batch: CODE, and then END",
        },
    )
}

/// Which limit a line passes.
fn too_large_note(alloc: Global, lines: &Lines, number: u64) -> Result<String, AllocError> {
    let line = lines.bytes(number).unwrap_or(&[]);
    let scan = scan_before(lines, number);
    if scan.section == Section::Between
        && scan.jobs >= MOST_JOBS as u64
        && begins_with(line, b"JOB")
    {
        return format!(in alloc; "a batch has at most {MOST_JOBS} jobs");
    }
    format!(in alloc; "a batch has at most {MOST_BATCH_BYTES} bytes")
}

/// Why a batch is refused at a line: the line, and what was expected there.
pub fn batch_refusal(
    alloc: Global,
    lines: &Lines,
    line: u64,
    fault: BatchFault,
) -> Result<String, AllocError> {
    let code = fault.text();
    let around = lines.around(alloc, line, batch_meaning(fault))?;
    let note = match fault {
        BatchFault::BadJobLine => bad_line_note(alloc, lines, line)?,
        BatchFault::UnfinishedJob => unfinished_note(alloc, lines, line)?,
        BatchFault::TooLarge => too_large_note(alloc, lines, line)?,
    };
    format!(in alloc;
        "BATCH line {line} {code}\n{around}{note}\n\
         Only this fault is sure: what comes after it in the batch wasn't checked.\n"
    )
}
