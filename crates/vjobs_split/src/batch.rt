//! The batch that a manifest names.

use crate::fault::{Stop, stop_at};
use report_splitter::{SealedBatch, is_sealed};
use shown_text::named;
use std::io::ErrorKind;
use std::str;
use vcode_base::limits::MOST_BATCH_BYTES;
use whole_files::read_regular;

/// The folder of the file at a path.
pub fn folder_of(path: &str) -> &str {
    match path.rsplit_once('/') {
        Some(("", _)) => "/",
        Some((folder, _)) => folder,
        None => ".",
    }
}

/// The name of the file of a batch, if it is a name in the folder of the manifest.
pub fn batch_name<'a>(batch: &SealedBatch<'a>) -> Option<&'a str> {
    let name = str::from_utf8(batch.file()).ok()?;
    if name.is_empty() || name.contains('/') {
        None
    } else {
        Some(name)
    }
}

/// Checks that the batch of this name, beside the manifest, is the one that the manifest seals.
pub fn check_batch(
    rt: &HostRuntime,
    manifest: &str,
    batch: &SealedBatch<'_>,
    name: &str,
) -> Result<(), Stop> {
    let folder = folder_of(manifest);
    let path = format!(in rt.alloc(); "{folder}/{name}")?;
    let path = path.as_str();
    match read_regular(rt, path, MOST_BATCH_BYTES) {
        Ok(Some(bytes)) => check_bytes(rt, path, batch, &bytes),
        Ok(None) => Err(Stop::Named(named(rt.alloc(), path, "not a regular file")?)),
        Err(error) if error.kind() == ErrorKind::NotFound => {
            let what = "the batch isn't there (--without-batch splits without it)";
            Err(Stop::Named(named(rt.alloc(), path, what)?))
        }
        Err(error) => Err(stop_at(rt.alloc(), path, &error)),
    }
}

/// Checks that these bytes of a file are those of the batch.
fn check_bytes(
    rt: &HostRuntime,
    path: &str,
    batch: &SealedBatch<'_>,
    bytes: &[u8],
) -> Result<(), Stop> {
    if is_sealed(rt.alloc(), batch, bytes)? {
        Ok(())
    } else {
        let text = named(rt.alloc(), path, "not the batch that the manifest is for")?;
        Err(Stop::Other(text))
    }
}
