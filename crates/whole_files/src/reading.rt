//! Files that are read up to a limit.

use std::fs::{File, OpenFile};
use std::io::Read;
use std::rt::Files;
use std::{fs, io};

/// The bytes that are read at a time.
const PIECE: usize = 65_536;

/// All bytes of a reader. If it has more than `most`, the first ones, which are at most 65,536 more than that.
///
/// # Errors
///
/// The error of the reader, or that memory was refused.
pub fn read_up_to<R: Alloc, S: Read>(
    rt: &R,
    reader: &mut S,
    most: usize,
) -> io::Result<Vec<u8, R::A>> {
    let mut bytes = Vec::new(rt.alloc());
    let mut piece = vec![in rt.alloc(); 0u8; PIECE]?;
    for _ in 0..u64::MAX {
        let count = reader.read(&mut piece)?;
        bytes.extend_from_slice(&piece[..count])?;
        if count == 0 || bytes.len() > most {
            break;
        }
    }
    Ok(bytes)
}

/// All bytes of the file at a path, or `None` if it isn't a regular file. If it has more than `most` bytes, the first
/// ones, which are at most 65,536 more than that.
///
/// That a file isn't regular is seen before it is opened: opening a pipe waits for a writer.
///
/// # Errors
///
/// The error of the system, or that memory was refused.
pub fn read_regular<R: Files + Alloc>(
    rt: &R,
    path: &str,
    most: usize,
) -> io::Result<Option<Vec<u8, R::A>>> {
    if !fs::metadata(rt, path)?.is_file() {
        return Ok(None);
    }
    let mut file = File::open(rt, path)?;
    if !file.metadata()?.is_file() {
        return Ok(None);
    }
    Ok(Some(read_up_to(rt, &mut file, most)?))
}
