//! Shows why a job of a batch ended, and what there was on the way.
#![tactic(auto)]

mod failure;
mod files;
mod folded;
mod look;
mod output;
mod profile;
mod sought;
mod source_profile;
mod steps;
mod values;

use batch_reader::{Batch, BatchFault, Entry, Fate, JobEntries, JobEntry, JobFault};
use failure::Failure;
use files::{read_batch, write_text};
use job_steps::Job;
use look::show;
use program_words::{Line, line_of, print_fault};
use refusal_notes::{Lines, batch_of, batch_refusal, refusal};
use std::alloc::{AllocError, Global};
use std::io;
use std::process::ExitCode;
use why_command::{Asked, Form, Look, Object, VjobsWhy};
use why_data::{batch_refusal_object, object_of, refusal_object, state_object};
use why_page::page_of;

/// Prints why the job at a place of the batch, which has this name, is refused.
fn print_refusal(
    rt: &HostRuntime,
    lines: &Lines,
    place: u64,
    name: &[u8],
    line: u64,
    fault: JobFault,
) -> io::Result<()> {
    let text = refusal(rt.alloc(), lines, place, name, line, fault)?;
    print!(rt; "{text}")
}

/// Shows as a text what was asked for of an entry of the batch.
fn show_text(
    rt: &HostRuntime,
    batch: job_looks::Batch<'_>,
    place: u64,
    entry: JobEntry<Global>,
    look: &Look,
) -> io::Result<()> {
    let Entry { name, fate } = entry;
    match fate {
        Fate::Ready(job) => show(rt, batch, place, job, look),
        Fate::Refused(line, fault) => match look {
            Look::Folded(_) => Ok(()),
            _ => print_refusal(rt, batch.lines, place, name.as_slice(), line, fault),
        },
    }
}

/// A job that runs as data.
fn job_data(
    alloc: Global,
    batch: job_looks::Batch<'_>,
    place: u64,
    job: Job<Global>,
    object: &Object,
) -> Result<String, AllocError> {
    match object {
        Object::Job => object_of(alloc, batch, place, job),
        Object::State(state, part) => state_object(alloc, batch, place, job, state, *part),
    }
}

/// An entry of the batch as data.
fn entry_data(
    alloc: Global,
    batch: job_looks::Batch<'_>,
    place: u64,
    entry: JobEntry<Global>,
    object: &Object,
) -> Result<String, AllocError> {
    let Entry { name, fate } = entry;
    match fate {
        Fate::Ready(job) => job_data(alloc, batch, place, job, object),
        Fate::Refused(line, fault) => {
            refusal_object(alloc, batch.lines, place, name.as_slice(), line, fault)
        }
    }
}

/// Prints an entry of the batch as data, on a line of its own.
fn print_data(
    rt: &HostRuntime,
    batch: job_looks::Batch<'_>,
    place: u64,
    entry: JobEntry<Global>,
    object: &Object,
) -> io::Result<()> {
    let text = entry_data(rt.alloc(), batch, place, entry, object)?;
    println!(rt; "{text}")
}

/// Adds all that is known of an entry of the batch as data.
fn push_object(
    objects: &mut Vec<String>,
    alloc: Global,
    batch: job_looks::Batch<'_>,
    place: u64,
    entry: JobEntry<Global>,
) -> Result<(), AllocError> {
    let object = entry_data(alloc, batch, place, entry, &Object::Job)?;
    objects.push(object)?;
    Ok(())
}

/// All that is known of the jobs of the batch as data: of the one of this place, or of all.
fn objects_of(
    alloc: Global,
    batch: job_looks::Batch<'_>,
    entries: JobEntries<Global>,
    job: Option<u64>,
) -> Result<Vec<String>, AllocError> {
    let mut objects = Vec::new(alloc);
    let mut place: u64 = 0;
    for entry in entries.into_vec() {
        place = place.saturating_add(1);
        if job.is_none() || job == Some(place) {
            push_object(&mut objects, alloc, batch, place, entry)?;
        } else {
            drop(entry);
        }
    }
    Ok(objects)
}

/// Writes a page that shows the jobs of the batch to the file of this name. Answers whether there was one if one alone
/// was asked for.
fn write_page(
    rt: &HostRuntime,
    batch: job_looks::Batch<'_>,
    entries: JobEntries<Global>,
    job: Option<u64>,
    file: &str,
) -> Result<bool, Failure> {
    let objects = objects_of(rt.alloc(), batch, entries, job)?;
    if objects.is_empty() && job.is_some() {
        return Ok(false);
    }
    let page = page_of(rt.alloc(), &objects)?;
    write_text(rt, file, page.as_str())?;
    Ok(true)
}

/// Shows what was asked for of an entry of the batch, in a form that is printed.
fn show_entry(
    rt: &HostRuntime,
    batch: job_looks::Batch<'_>,
    place: u64,
    entry: JobEntry<Global>,
    form: &Form,
) -> io::Result<()> {
    match form {
        Form::Texts(look) => show_text(rt, batch, place, entry, look),
        Form::Data(object) => print_data(rt, batch, place, entry, object),
        Form::Page(_) => print_data(rt, batch, place, entry, &Object::Job),
    }
}

/// Shows what was asked for of the jobs of the batch, in a form that is printed. Answers whether there was one if one
/// alone was asked for.
fn show_entries(
    rt: &HostRuntime,
    batch: job_looks::Batch<'_>,
    entries: JobEntries<Global>,
    job: Option<u64>,
    form: &Form,
) -> io::Result<bool> {
    let mut place: u64 = 0;
    let mut found = job.is_none();
    for entry in entries.into_vec() {
        place = place.saturating_add(1);
        if job.is_none() || job == Some(place) {
            found = true;
            show_entry(rt, batch, place, entry, form)?;
        } else {
            drop(entry);
        }
    }
    Ok(found)
}

/// Shows the jobs of the batch in the form that was asked for. Answers whether there was one if one alone was asked
/// for.
fn show_jobs(
    rt: &HostRuntime,
    batch: job_looks::Batch<'_>,
    entries: JobEntries<Global>,
    asked: &Asked,
) -> Result<bool, Failure> {
    match &asked.form {
        Form::Page(file) => write_page(rt, batch, entries, asked.job, file.as_str()),
        Form::Texts(_) | Form::Data(_) => {
            match show_entries(rt, batch, entries, asked.job, &asked.form) {
                Ok(found) => Ok(found),
                Err(error) => Err(Failure::of_output(rt.alloc(), error)),
            }
        }
    }
}

/// Prints why a batch is refused as a whole.
fn print_batch_fault(
    rt: &HostRuntime,
    lines: &Lines,
    line: u64,
    fault: BatchFault,
) -> io::Result<()> {
    let text = batch_refusal(rt.alloc(), lines, line, fault)?;
    print!(rt; "{text}")
}

/// Prints as data why a batch is refused as a whole.
fn print_batch_object(
    rt: &HostRuntime,
    lines: &Lines,
    line: u64,
    fault: BatchFault,
) -> io::Result<()> {
    let object = batch_refusal_object(rt.alloc(), lines, line, fault)?;
    println!(rt; "{object}")
}

/// Shows why a batch is refused as a whole, as data or as a text. Answers the exit status.
fn show_refused(
    rt: &HostRuntime,
    lines: &Lines,
    line: u64,
    fault: BatchFault,
    form: &Form,
) -> Result<u8, Failure> {
    let printed = match form {
        Form::Data(_) => print_batch_object(rt, lines, line, fault),
        Form::Texts(_) | Form::Page(_) => print_batch_fault(rt, lines, line, fault),
    };
    match printed {
        Ok(()) => Ok(1),
        Err(error) => Err(Failure::of_output(rt.alloc(), error)),
    }
}

/// Shows what was asked for of the jobs of the batch. Answers the exit status.
fn show_ready(
    rt: &HostRuntime,
    batch: job_looks::Batch<'_>,
    entries: JobEntries<Global>,
    asked: &Asked,
) -> Result<u8, Failure> {
    if show_jobs(rt, batch, entries, asked)? {
        return Ok(0);
    }
    let _ = eprintln!(rt; "vjobs-why: the batch has no such job");
    Ok(1)
}

/// Shows what was asked for of a batch of these lines. Answers the exit status.
fn show_lines(rt: &HostRuntime, lines: &Lines, asked: &Asked) -> Result<u8, Failure> {
    match batch_of(rt.alloc(), lines.text())? {
        Batch::Refused(line, fault) => show_refused(rt, lines, line, fault, &asked.form),
        Batch::Jobs(rule, entries) => {
            let batch = job_looks::Batch {
                rule,
                lines,
                tries_least: asked.tries_least,
            };
            show_ready(rt, batch, entries, asked)
        }
    }
}

/// Shows what was asked for. Answers the exit status.
fn show_asked(rt: &HostRuntime, asked: &Asked) -> Result<u8, Failure> {
    let text = read_batch(rt, asked.file.as_str())?;
    let lines = Lines::of(rt.alloc(), text)?;
    show_lines(rt, &lines, asked)
}

/// Prints why nothing is shown, or not all of it. Answers the exit status.
fn print_failure(rt: &HostRuntime, failure: &Failure) -> u8 {
    let _ = eprintln!(rt; "vjobs-why: {failure}");
    3
}

/// Does what the command line asks for. Answers the exit status.
fn run(rt: &HostRuntime, line: Line<Asked>) -> Result<u8, Failure> {
    match line {
        Line::Run(asked) => show_asked(rt, &asked),
        Line::Help(text) => {
            write_text(rt, "-", text.as_str())?;
            Ok(0)
        }
    }
}

fn main(rt: HostRuntime) -> ExitCode {
    let status = match line_of::<VjobsWhy, HostRuntime>(&rt) {
        Ok(line) => match run(&rt, line) {
            Ok(status) => status,
            Err(failure) => print_failure(&rt, &failure),
        },
        Err(fault) => print_fault(&rt, "vjobs-why", &fault),
    };
    ExitCode::from(status)
}
