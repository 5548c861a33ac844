//! Why a job is refused: its line, and what was expected there.

use crate::kind_notes::kind_note;
use crate::lines::{Lines, printable};
use crate::meanings::job_meaning;
use crate::parts::{Parts, parts_of};
use crate::signature_notes::signature_fault;
use crate::text_notes::code_fault;
use batch_reader::JobFault;
use std::alloc::{AllocError, Global};

/// The line of a fault, and what was expected there.
fn fault_text(
    alloc: Global,
    lines: &Lines,
    parts: Parts,
    line: u64,
    fault: JobFault,
) -> Result<String, AllocError> {
    let note = job_meaning(fault);
    match fault {
        JobFault::WordsPastRegion => lines.around(alloc, line, note),
        JobFault::Sig(fault) => signature_fault(alloc, lines, parts, line, fault, note),
        JobFault::Read(fault) => code_fault(alloc, lines, parts.code, line, fault, note),
        JobFault::Kind(fault) => {
            let around = lines.around(alloc, line, note)?;
            let expected = kind_note(alloc, lines, parts, line, fault)?;
            format!(in alloc; "{around}{expected}")
        }
    }
}

/// Why the job at a place of the batch, which has this name, is refused.
pub fn refusal(
    alloc: Global,
    lines: &Lines,
    place: u64,
    name: &[u8],
    line: u64,
    fault: JobFault,
) -> Result<String, AllocError> {
    let name = printable(alloc, name)?;
    let code = fault.text();
    let text = match parts_of(lines, place) {
        Some(parts) => fault_text(alloc, lines, parts, line, fault)?,
        None => lines.around(alloc, line, job_meaning(fault))?,
    };
    format!(in alloc;
        "JOB {place} {name} REFUSED line {line} {code}\n{text}\
         Only this fault is sure: what comes after it in the job wasn't checked.\n\n"
    )
}
