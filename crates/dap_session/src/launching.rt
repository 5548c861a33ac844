//! A job that is launched.

use crate::debuggee::Debuggee;
use crate::texts::Texts;
use batch_reader::{Batch, Entry, Fate, JobEntries, JobEntry};
use dap_messages::Launch;
use job_steps::Job;
use refusal_notes::{Lines, batch_of, batch_refusal, refusal};
use shown_text::shown;
use std::alloc::{AllocError, AllocGlobal, Global};
use std::fmt::Display;
use std::io::{self, ErrorKind};
use std::rt::Files;
use vcode_base::Rule;
use vcode_base::limits::MOST_BATCH_BYTES;
use whole_files::read_regular;

/// The words of a MB.
const WORDS: u64 = 131_072;

/// Why a job isn't launched.
#[derive(Drop)]
pub(crate) enum LaunchFault {
    /// Memory was refused.
    Memory,
    /// The reason is said by this text, whose first line says it in short.
    Said(String),
}

impl From<AllocError> for LaunchFault {
    fn from(_: AllocError) -> LaunchFault {
        LaunchFault::Memory
    }
}

/// The fault that a text says.
fn said(text: Result<String, AllocError>) -> LaunchFault {
    match text {
        Ok(text) => LaunchFault::Said(text),
        Err(AllocError) => LaunchFault::Memory,
    }
}

/// The text that says what is wrong with the file of this name.
fn file_text<D: Display>(alloc: Global, name: &str, wrong: &D) -> Result<String, AllocError> {
    let name = shown(alloc, name.as_bytes())?;
    format!(in alloc; "{name}: {wrong}\n")
}

/// The fault of a file of this name that can't be read.
fn unread(alloc: Global, name: &str, error: &io::Error) -> LaunchFault {
    if error.kind() == ErrorKind::OutOfMemory {
        return LaunchFault::Memory;
    }
    said(file_text(alloc, name, error))
}

/// The bytes of the regular file of this name. Of one that is longer than a batch, enough to be refused.
fn read<H: Files + AllocGlobal>(rt: &H, name: &str) -> Result<Vec<u8>, LaunchFault> {
    match read_regular(rt, name, MOST_BATCH_BYTES) {
        Ok(Some(bytes)) => Ok(bytes),
        Ok(None) => Err(said(file_text(rt.alloc(), name, &"it is no regular file"))),
        Err(error) => Err(unread(rt.alloc(), name, &error)),
    }
}

/// The entry at a place of a batch, counted from 1.
fn entry_at(entries: JobEntries<Global>, place: u64) -> Option<JobEntry<Global>> {
    let mut entries = entries.into_vec();
    let Ok(place) = usize::try_from(place.saturating_sub(1)) else {
        return None;
    };
    if place < entries.len() {
        return Some(entries.swap_remove(place));
    }
    None
}

/// The job of an entry, which is at a place of a batch of these lines.
fn job_of(
    alloc: Global,
    lines: &Lines,
    place: u64,
    entry: JobEntry<Global>,
) -> Result<Job<Global>, LaunchFault> {
    let Entry { name, fate } = entry;
    match fate {
        Fate::Ready(job) => Ok(job),
        Fate::Refused(line, fault) => {
            Err(said(refusal(alloc, lines, place, name.as_slice(), line, fault)))
        }
    }
}

/// The job at a place of a batch of these lines, and the rule by which it runs.
fn job_in(alloc: Global, lines: &Lines, place: u64) -> Result<(Rule, Job<Global>), LaunchFault> {
    match batch_of(alloc, lines.text())? {
        Batch::Refused(line, fault) => Err(said(batch_refusal(alloc, lines, line, fault))),
        Batch::Jobs(rule, entries) => match entry_at(entries, place) {
            Some(entry) => Ok((rule, job_of(alloc, lines, place, entry)?)),
            None => Err(said(String::from_str(alloc, "the batch has no such job\n"))),
        },
    }
}

/// How many words the states may take that are kept.
fn room_of(launch: &Launch) -> usize {
    match usize::try_from(launch.memory.saturating_mul(WORDS)) {
        Ok(room) => room,
        Err(_) => usize::MAX,
    }
}

/// The job of a batch that has these lines.
fn launched_of(alloc: Global, lines: Lines, launch: &Launch) -> Result<Debuggee, LaunchFault> {
    let (rule, job) = job_in(alloc, &lines, launch.job)?;
    let program = job.verified().program();
    match Texts::new(alloc, launch.batch.as_str(), lines, program) {
        Ok(texts) => Ok(Debuggee::new(alloc, rule, job, room_of(launch), texts)?),
        Err(AllocError) => {
            drop(job);
            Err(LaunchFault::Memory)
        }
    }
}

/// A job in a box.
fn boxed(alloc: Global, debuggee: Debuggee) -> Result<Box<Debuggee>, AllocError> {
    Ok(Box::new(alloc, debuggee)?)
}

/// The job that is launched, at its first state.
///
/// # Errors
///
/// [`LaunchFault::Said`] if the file can't be read, or if the batch or the job is refused; [`LaunchFault::Memory`] if
/// memory was refused.
pub(crate) fn launched<H: Files + AllocGlobal>(
    rt: &H,
    launch: &Launch,
) -> Result<Box<Debuggee>, LaunchFault> {
    let text = read(rt, launch.batch.as_str())?;
    let lines = Lines::of(rt.alloc(), text)?;
    let debuggee = launched_of(rt.alloc(), lines, launch)?;
    Ok(boxed(rt.alloc(), debuggee)?)
}
