//! Where the parts of a job are among the lines of a batch.

use crate::lines::Lines;
use batch_reader::Section;
use std::alloc::{AllocError, Global};

/// Lines one after another: the number of the first, and the number of the line after the last.
#[derive(Clone, Copy, Drop)]
pub struct LineSpan {
    pub first: u64,
    pub end: u64,
}

impl LineSpan {
    /// The number of the line that is this one of these, counted from 1.
    pub fn line(self, place: u64) -> u64 {
        self.first.saturating_add(place).saturating_sub(1)
    }
}

/// A JOB line, and the lines of the signatures and of the code that follow it.
#[derive(Clone, Copy, Drop)]
pub struct Parts {
    pub job: u64,
    pub signatures: LineSpan,
    pub code: LineSpan,
}

/// What the lines so far have shown: how many jobs they begin, the parts of the last one, and the section of the next
/// line.
#[derive(Clone, Copy, Drop)]
pub(crate) struct Scan {
    pub section: Section,
    pub jobs: u64,
    pub parts: Parts,
}

impl Scan {
    /// A scan of no line.
    pub(crate) fn new() -> Scan {
        let none = LineSpan { first: 0, end: 0 };
        Scan {
            section: Section::Between,
            jobs: 0,
            parts: Parts {
                job: 0,
                signatures: none,
                code: none,
            },
        }
    }

    /// Takes the next line, which has this number.
    pub(crate) fn take(&mut self, number: u64, line: &[u8]) {
        let next = self.section.after(line);
        match (self.section, next) {
            (Section::Between, Section::Headed) => {
                self.jobs = self.jobs.saturating_add(1);
                self.parts.job = number;
            }
            (Section::Headed, _) => self.parts.signatures.first = number.saturating_add(1),
            (Section::Signatures, Section::Code) => {
                self.parts.signatures.end = number;
                self.parts.code.first = number.saturating_add(1);
            }
            (Section::Code, Section::Between) => self.parts.code.end = number,
            _ => {}
        }
        self.section = next;
    }
}

/// What the lines before the one of this number have shown.
pub(crate) fn scan_before(lines: &Lines, number: u64) -> Scan {
    let mut scan = Scan::new();
    for earlier in 1..number {
        let Some(line) = lines.bytes(earlier) else {
            return scan;
        };
        scan.take(earlier, line);
    }
    scan
}

/// The parts of each job of a batch, in their order.
pub fn parts_of_jobs(alloc: Global, lines: &Lines) -> Result<Vec<Parts>, AllocError> {
    let mut found = Vec::new(alloc);
    let mut scan = Scan::new();
    for number in 1..u64::MAX {
        let Some(line) = lines.bytes(number) else {
            break;
        };
        let before = scan.section;
        scan.take(number, line);
        if before == Section::Code && scan.section == Section::Between {
            found.push(scan.parts)?;
        }
    }
    Ok(found)
}

/// The parts of the job at this place of a batch, counted from 1.
pub(crate) fn parts_of(lines: &Lines, place: u64) -> Option<Parts> {
    let mut scan = Scan::new();
    for number in 1..u64::MAX {
        scan.take(number, lines.bytes(number)?);
        if scan.jobs == place && scan.section == Section::Between {
            return Some(scan.parts);
        }
    }
    None
}
