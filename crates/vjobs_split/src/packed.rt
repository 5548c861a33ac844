//! The files that were packed, which no report replaces.

use report_splitter::PackedJob;
use std::alloc::AllocError;
use std::fs::{Metadata, metadata, symlink_metadata};
use std::os::unix::fs::MetadataExt;
use std::{io, str};

/// What the system knows a file by.
#[derive(Clone, Copy, PartialEq, Eq, Debug)]
struct FileId {
    device: u64,
    node: u64,
}

impl FileId {
    /// What the system knows this file by.
    fn of(metadata: &Metadata) -> FileId {
        FileId {
            device: metadata.dev(),
            node: metadata.ino(),
        }
    }
}

/// The files that were packed, and the links by which they were named.
#[derive(Drop)]
pub struct PackedFiles {
    ids: Vec<FileId>,
}

impl PackedFiles {
    /// The files of these jobs, as far as they are still there.
    pub fn of(rt: &HostRuntime, jobs: &[PackedJob<'_>]) -> Result<PackedFiles, AllocError> {
        let mut files = PackedFiles {
            ids: Vec::new(rt.alloc()),
        };
        for job in jobs {
            if let Ok(path) = str::from_utf8(job.file()) {
                files.add(metadata(rt, path))?;
                files.add(symlink_metadata(rt, path))?;
            }
        }
        Ok(files)
    }

    /// Adds a file, if it is there.
    fn add(&mut self, found: io::Result<Metadata>) -> Result<(), AllocError> {
        if let Ok(metadata) = found {
            self.ids.push(FileId::of(&metadata))?;
        }
        Ok(())
    }

    /// Whether this is one of them.
    fn has(&self, metadata: &Metadata) -> bool {
        let id = FileId::of(metadata);
        self.ids.iter().any(|other| *other == id)
    }

    /// Why a report can't take this path, if something in its place must stay.
    pub fn obstacle(&self, rt: &HostRuntime, path: &str) -> Option<&'static str> {
        let found = symlink_metadata(rt, path).ok()?;
        if self.has(&found) {
            Some("a file that was packed")
        } else if found.is_file() || found.is_symlink() {
            None
        } else {
            Some("not a regular file")
        }
    }
}
