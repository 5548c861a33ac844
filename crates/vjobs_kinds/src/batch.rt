//! The signatures of the jobs of a batch.

use crate::fault::Fault;
use batch_filler::fill_batch;
use batch_reader::{Batch, JobEntries, JobFault};
use kind_finder::{FindFault, Obstacle, find_signatures};
use refusal_notes::{
    LineSpan, Lines, Parts, batch_of, batch_refusal, parts_of_jobs, printable, refusal,
};
use std::alloc::{AllocError, Global};
use vcode_base::{LineWords, Parentheses};
use vcode_reader::{CodeFault, MOST_CODE_BYTES};

/// A batch with the signatures that were found for its jobs, and why the other jobs have none.
#[derive(Drop)]
pub struct Filled {
    pub batch: Vec<u8>,
    pub notes: String,
}

/// What was found for the jobs so far: for each the signatures that are put into it, and why jobs have none.
#[derive(Drop)]
struct Found {
    texts: Vec<Vec<u8>>,
    notes: String,
}

/// A job of a batch: its place, counted from 1, its name, and its parts.
#[derive(Clone, Copy)]
struct PlacedJob<'a> {
    place: u64,
    name: &'a [u8],
    parts: Parts,
}

/// Whether one of these lines has a word.
fn have_words(lines: &Lines, span: LineSpan) -> bool {
    for number in span.first..span.end {
        let line = lines.bytes(number).unwrap_or(&[]);
        let mut words = LineWords::new(line, Parentheses::AreWords);
        if words.next().is_some() {
            return true;
        }
    }
    false
}

/// The signatures that are put into a job of these parts: none if it has some.
fn find_for(
    alloc: Global,
    lines: &Lines,
    parts: Parts,
    most_entries: usize,
) -> Result<Vec<u8>, FindFault<Vec<u8>>> {
    if have_words(lines, parts.signatures) {
        return Ok(Vec::new(alloc));
    }
    let code = lines.between(parts.code.first, parts.code.end);
    // No batch has so much code.
    if code.len() > MOST_CODE_BYTES {
        return Err(FindFault::Code(CodeFault::TooLarge, 1));
    }
    find_signatures(alloc, code, most_entries)
}

/// What an obstacle means.
fn obstacle_meaning(obstacle: Obstacle) -> &'static str {
    match obstacle {
        Obstacle::TwoKinds =>
            "it gets an operand of one kind here, and of another kind at another place",
        Obstacle::NeverReturns => "each path through it comes to a CALL that never returns",
        Obstacle::ManyOperands => "it takes more operands than a signature may have",
        Obstacle::ManyResults => "it gives more results than a signature may have",
        Obstacle::ManyEntries => "its stack has more entries here than are allowed",
    }
}

/// Why a function of a job has no signature, at a line of the batch.
fn obstacle_note(
    alloc: Global,
    lines: &Lines,
    job: PlacedJob<'_>,
    (obstacle, function): (Obstacle, &[u8]),
    line: u64,
) -> Result<String, AllocError> {
    let place = job.place;
    let name = printable(alloc, job.name)?;
    let function = printable(alloc, function)?;
    let what = obstacle.text();
    let around = lines.around(alloc, line, obstacle_meaning(obstacle))?;
    format!(in alloc; "JOB {place} {name} NO SIGNATURES line {line} {function} {what}\n{around}")
}

/// Why there are no signatures for a job.
fn note_of(
    alloc: Global,
    lines: &Lines,
    job: PlacedJob<'_>,
    fault: FindFault<Vec<u8>>,
) -> Result<String, AllocError> {
    let PlacedJob { place, name, parts } = job;
    let (fault, line) = match fault {
        FindFault::Memory => return Err(AllocError),
        FindFault::Function(obstacle, function, line) => {
            let line = parts.code.line(line);
            return obstacle_note(alloc, lines, job, (obstacle, &function), line);
        }
        FindFault::Code(fault, line) => (JobFault::Read(fault), line),
        FindFault::Program(fault, line) => (JobFault::Kind(fault), line),
    };
    refusal(alloc, lines, place, name, parts.code.line(line), fault)
}

impl Found {
    /// Adds the signatures that are put into the next job, or why there are none.
    fn add(
        &mut self,
        alloc: Global,
        lines: &Lines,
        job: PlacedJob<'_>,
        most_entries: usize,
    ) -> Result<(), AllocError> {
        match find_for(alloc, lines, job.parts, most_entries) {
            Ok(text) => self.texts.push(text)?,
            Err(fault) => {
                let note = note_of(alloc, lines, job, fault)?;
                self.notes.push_str(note.as_str())?;
                self.texts.push(Vec::new(alloc))?;
            }
        }
        Ok(())
    }
}

/// What is found for jobs of these names.
fn find_all(
    alloc: Global,
    lines: &Lines,
    names: &[Vec<u8>],
    most_entries: usize,
) -> Result<Found, AllocError> {
    let parts = parts_of_jobs(alloc, lines)?;
    let mut found = Found {
        texts: Vec::new(alloc),
        notes: String::new(alloc),
    };
    let mut place: u64 = 0;
    for (name, parts) in names.iter().zip(parts.iter()) {
        place = place.saturating_add(1);
        let parts = *parts;
        found.add(alloc, lines, PlacedJob { place, name, parts }, most_entries)?;
    }
    Ok(found)
}

/// A batch with signatures for its jobs, which have these names.
fn fill_jobs(
    alloc: Global,
    lines: &Lines,
    names: &[Vec<u8>],
    most_entries: usize,
) -> Result<Filled, AllocError> {
    let Found { texts, notes } = find_all(alloc, lines, names, most_entries)?;
    let batch = fill_batch(alloc, lines.text(), &texts)?;
    Ok(Filled { batch, notes })
}

/// The names of jobs.
fn names_of(alloc: Global, entries: &JobEntries<Global>) -> Result<Vec<Vec<u8>>, AllocError> {
    let mut names = Vec::new(alloc);
    for entry in entries.as_slice() {
        names.push(entry.name.as_slice().to_vec(alloc)?)?;
    }
    Ok(names)
}

/// A batch in which each job without signatures has those that were found for it. A function's stack has at most
/// `most_entries` entries.
///
/// # Errors
///
/// The text is no batch, or memory was refused.
pub fn fill_signatures(alloc: Global, text: Vec<u8>, most_entries: usize) -> Result<Filled, Fault> {
    let lines = Lines::of(alloc, text)?;
    let names = match batch_of(alloc, lines.text())? {
        Batch::Refused(line, fault) => {
            return Err(Fault::Batch(batch_refusal(alloc, &lines, line, fault)?));
        }
        Batch::Jobs(_, entries) => {
            let names = names_of(alloc, &entries);
            drop(entries);
            names?
        }
    };
    Ok(fill_jobs(alloc, &lines, &names, most_entries)?)
}
