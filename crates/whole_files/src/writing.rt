//! Files that are written whole or not at all.

use std::fs::{File, OpenFile};
use std::io::{ErrorKind, Write};
use std::rt::Files;
use std::{fs, io};

/// The most names of parts that are tried in a folder. Each part there is of a run that was killed, or that still goes
/// on.
const MOST_PARTS: u32 = 10_000;

/// A new file that gets another name once it is whole.
#[derive(Drop)]
struct Part<F, T> {
    path: T,
    file: F,
}

/// Makes the part of this number in a folder; `None` if there is one.
fn make_part<R: Files + Alloc>(
    rt: &R,
    folder: &str,
    number: u32,
) -> io::Result<Option<Part<R::File, String<R::A>>>> {
    let path = format!(in rt.alloc(); "{folder}/.vjobs-{number}.part")?;
    match File::create_new(rt, path.as_str()) {
        Ok(file) => Ok(Some(Part { path, file })),
        Err(error) if error.kind() == ErrorKind::AlreadyExists => Ok(None),
        Err(error) => Err(error),
    }
}

/// A new part in a folder.
fn new_part<R: Files + Alloc>(rt: &R, folder: &str) -> io::Result<Part<R::File, String<R::A>>> {
    for number in 0..MOST_PARTS {
        if let Some(part) = make_part(rt, folder, number)? {
            return Ok(part);
        }
    }
    Err(io::Error::from(ErrorKind::AlreadyExists))
}

/// Fills a file at one path, and gives it another.
fn finish<R: Files, F: Write + OpenFile>(
    rt: &R,
    file: &mut F,
    part: &str,
    path: &str,
    bytes: &[u8],
) -> io::Result<()> {
    file.write_all(bytes)?;
    file.sync_all()?;
    fs::rename(rt, part, path)
}

/// Writes a file so that it is there whole or not at all, whenever the program is stopped. `path` is the path of the
/// file, and `folder` that of its folder.
///
/// The bytes go to a new file `.vjobs-N.part` in the folder, which then gets the name. So if there is a file of that
/// name, it is replaced; if there is a link, the link is replaced, and not what it leads to. A program that is killed
/// may leave its part, which no later run touches.
///
/// # Errors
///
/// The error of the system, or that memory was refused. The file is as before, and the part is removed.
pub fn write_whole<R: Files + Alloc>(
    rt: &R,
    folder: &str,
    path: &str,
    bytes: &[u8],
) -> io::Result<()> {
    let Part {
        path: part,
        mut file,
    } = new_part(rt, folder)?;
    if let Err(error) = finish(rt, &mut file, part.as_str(), path, bytes) {
        let _ = fs::remove_file(rt, part.as_str());
        return Err(error);
    }
    Ok(())
}

/// Has the system write the names in a folder to the disk, if it can: what was put there before is there after a fault
/// of the machine.
pub fn sync_folder<R: Files>(rt: &R, folder: &str) {
    if let Ok(folder) = File::open(rt, folder) {
        let _ = folder.sync_all();
    }
}
