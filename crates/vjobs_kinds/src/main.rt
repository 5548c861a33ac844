//! Prints the signatures of VCODE code that has none, or a batch with those of its jobs.
#![tactic(auto)]

ghost use Rattle.std.specs.Prelude.{◌≤◌, IfOk, length};
ghost use Rattle.vcode_base.specs.declared.limits.TheConstants.{MOST_BATCH_BYTES};

mod batch;
mod command;
mod fault;

use batch::{Filled, fill_signatures};
use command::{Asked, Form, VjobsKinds};
use fault::Fault;
use kind_finder::{FindFault, find_signatures};
use program_words::{Line, line_of};
use std::fs::{self, File};
use std::io::{self, ErrorKind, Read, Write};
use std::process::ExitCode;
use vcode_base::limits::MOST_BATCH_BYTES;

/// The bytes of a reader, or one more than `most` if it has more.
fn first_bytes<R: Read + Drop>(rt: &HostRuntime, reader: R, most: u32) -> io::Result<Vec<u8>> {
    let mut bytes = Vec::new(rt.alloc());
    reader.take(u64::from(most) + 1).read_to_end(&mut bytes)?;
    Ok(bytes)
}

/// The same of the file of this name; `-` is standard input. A file that isn't a regular one isn't opened, since that
/// may wait for ever.
fn bytes_of(rt: &HostRuntime, file: &str, most: u32) -> io::Result<Vec<u8>> {
    if file == "-" {
        return first_bytes(rt, rt.stdin(), most);
    }
    if !fs::metadata(rt, file)?.is_file() {
        return Err(io::Error::new(ErrorKind::InvalidInput, "not a regular file"));
    }
    first_bytes(rt, File::open(rt, file)?, most)
}

/// The bytes of the file that is asked for, within its bounds.
fn text_of(rt: &HostRuntime, asked: &Asked) -> Result<Vec<u8>, Fault>
    ensures { IfOk result (λ text. length text.items ≤ MOST_BATCH_BYTES) }
{
    let (file, most) = (asked.file.as_str(), asked.bounds.bytes);
    let text = match bytes_of(rt, file, most) {
        Ok(text) => text,
        Err(error) => return Err(Fault::of_reading(rt.alloc(), file, &error)),
    };
    if text.len() > MOST_BATCH_BYTES.min(most as usize) {
        let reason = format_args!(" more than {most} bytes");
        return Err(Fault::of_code(rt.alloc(), file, reason));
    }
    Ok(text)
}

/// The signatures of the code that is asked for.
fn signatures_of(rt: &HostRuntime, asked: &Asked) -> Result<Vec<u8>, Fault> {
    let code = text_of(rt, asked)?;
    match find_signatures(rt.alloc(), &code, asked.bounds.entries as usize) {
        Ok(text) => Ok(text),
        Err(FindFault::Memory) => Err(Fault::Memory),
        Err(fault) => Err(Fault::of_code(rt.alloc(), asked.file.as_str(), fault)),
    }
}

/// Writes to standard output.
fn write(rt: &HostRuntime, text: &[u8]) -> Result<(), Fault> {
    match rt.stdout().write_all(text) {
        Ok(()) => Ok(()),
        Err(error) => Err(Fault::of_writing(rt.alloc(), &error)),
    }
}

/// Writes the batch that is asked for, with the signatures of its jobs.
fn write_batch(rt: &HostRuntime, asked: &Asked) -> Result<(), Fault> {
    let text = text_of(rt, asked)?;
    let Filled { batch, notes } = fill_signatures(rt.alloc(), text, asked.bounds.entries as usize)?;
    write(rt, &batch)?;
    if notes.is_empty() {
        return Ok(());
    }
    Err(Fault::Batch(notes))
}

/// Does what the command line asks for.
fn run(rt: &HostRuntime) -> Result<(), Fault> {
    match line_of::<VjobsKinds, HostRuntime>(rt)? {
        Line::Help(text) => write(rt, text.as_bytes()),
        Line::Run(asked) => match asked.form {
            Form::Code => write(rt, &signatures_of(rt, &asked)?),
            Form::Batch => write_batch(rt, &asked),
        },
    }
}

fn main(rt: HostRuntime) -> ExitCode {
    let status = match run(&rt) {
        Ok(()) => 0,
        Err(fault) => {
            let _ = eprint!(rt; "{fault}");
            fault.exit_status()
        }
    };
    ExitCode::from(status)
}
