//! The files that a look reads and writes: regular ones alone, so that none makes it wait.

use crate::failure::Failure;
use std::fs::File;
use std::io::{ErrorKind, Read, Write};
use std::{fs, io};
use vcode_base::limits::MOST_BATCH_BYTES;

/// The bytes that are read at a time.
const PIECE: usize = 65_536;

/// The bytes of a reader, or those of one batch and a piece if it has more.
fn read_up_to<R: Read>(rt: &HostRuntime, reader: &mut R) -> io::Result<Vec<u8>> {
    let mut bytes = Vec::new(rt.alloc());
    let mut piece = vec![in rt.alloc(); 0u8; PIECE]?;
    for _ in 0..u64::MAX {
        let count = reader.read(&mut piece)?;
        bytes.extend_from_slice(&piece[..count])?;
        if count == 0 || bytes.len() > MOST_BATCH_BYTES {
            break;
        }
    }
    Ok(bytes)
}

/// Refuses the file of this name unless it is a regular one.
fn check_regular(rt: &HostRuntime, name: &str) -> io::Result<()> {
    if fs::metadata(rt, name)?.is_file() {
        return Ok(());
    }
    Err(io::Error::new(ErrorKind::InvalidInput, "it is no regular file"))
}

/// Refuses the file of this name if it is there and isn't a regular one.
fn check_place(rt: &HostRuntime, name: &str) -> io::Result<()> {
    match check_regular(rt, name) {
        Err(error) if error.kind() == ErrorKind::NotFound => Ok(()),
        checked => checked,
    }
}

/// The bytes of the regular file of this name.
fn read_file(rt: &HostRuntime, name: &str) -> io::Result<Vec<u8>> {
    check_regular(rt, name)?;
    let mut file = File::open(rt, name)?;
    read_up_to(rt, &mut file)
}

/// The bytes of the regular file of this name; `-` is standard input. Of a file that is longer than a batch may be,
/// enough of it to be refused.
pub fn read_batch(rt: &HostRuntime, name: &str) -> Result<Vec<u8>, Failure> {
    if name == "-" {
        return read_up_to(rt, &mut rt.stdin()).map_err(|error| Failure::of(
            rt.alloc(),
            "standard input",
            error,
        ));
    }
    read_file(rt, name).map_err(|error| Failure::of(rt.alloc(), name, error))
}

/// Writes a text to a file, and waits until it is kept.
fn write_all(mut file: File, text: &str) -> io::Result<()> {
    file.write_all(text.as_bytes())?;
    file.sync_all()
}

/// Writes a text to a new file of the name `part`, which then takes the place of the file `name`. After an error there
/// is no new file, and the file `name` is as it was.
fn replace(rt: &HostRuntime, file: File, part: &str, name: &str, text: &str) -> io::Result<()> {
    let replaced = match write_all(file, text) {
        Ok(()) => fs::rename(rt, part, name),
        Err(error) => Err(error),
    };
    if replaced.is_err() {
        let _ = fs::remove_file(rt, part);
    }
    replaced
}

/// Writes a text to the file of this name as a whole, or not at all: to a new file with `.part` after the name, which
/// then takes its place.
fn write_file(rt: &HostRuntime, name: &str, text: &str) -> Result<(), Failure> {
    check_place(rt, name).map_err(|error| Failure::of(rt.alloc(), name, error))?;
    let part = format!(in rt.alloc(); "{name}.part")?;
    let file = File::create_new(rt, part.as_str()).map_err(|error| Failure::of(
        rt.alloc(),
        part.as_str(),
        error,
    ))?;
    replace(rt, file, part.as_str(), name, text).map_err(|error| Failure::of(
        rt.alloc(),
        name,
        error,
    ))
}

/// Writes a text to the file of this name as a whole, or not at all; `-` is standard output.
pub fn write_text(rt: &HostRuntime, name: &str, text: &str) -> Result<(), Failure> {
    if name == "-" {
        return print!(rt; "{text}").map_err(|error| Failure::of_output(rt.alloc(), error));
    }
    write_file(rt, name, text)
}
