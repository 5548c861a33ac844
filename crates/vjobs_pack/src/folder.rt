//! The folder of the batches.

use std::io::ErrorKind;
use std::{fs, io};

/// Whether a file of this name is a batch or a manifest.
fn is_of_batch(name: &str) -> bool {
    name.starts_with("batch-") && (name.ends_with(".vcode") || name.ends_with(".manifest"))
}

/// The name of a batch or of a manifest that is in a folder, if there is one.
pub fn batch_in(rt: &HostRuntime, folder: &str) -> io::Result<Option<String>> {
    for entry in fs::read_dir(rt, folder)? {
        match entry {
            Ok(entry) if is_of_batch(entry.file_name()) => {
                return Ok(Some(String::from_str(rt.alloc(), entry.file_name())?));
            }
            Ok(_) => {}
            // A name that isn't UTF-8 is none of a batch.
            Err(error) if error.kind() == ErrorKind::InvalidFilename => {}
            Err(error) => return Err(error),
        }
    }
    Ok(None)
}
