//! Files that go into batches.

use crate::command::Bounds;
use crate::entries::line_past;
use crate::fault::{Stop, stop_at};
use crate::second::second_job_line;
use batch_packer::{JobFile, Pack, PackFault, one_job};
use report_splitter::{PackedJob, SealedBatch, digest_text, put_batch, put_job};
use shown_text::shown;
use std::alloc::{AllocError, Global};
use std::io;
use std::io::ErrorKind;
use vcode_base::Rule;
use vcode_base::limits::MOST_BATCH_BYTES;
use whole_files::{read_regular, sync_folder, write_whole};

/// A batch that is open for files, with the entries of its manifest.
#[derive(Drop)]
struct Open {
    number: u64,
    pack: Pack<Global>,
    entries: Vec<u8>,
}

impl Open {
    /// Joins a file of this name.
    fn join(&mut self, name: &str, file: &JobFile<Global>) -> Result<bool, AllocError> {
        if !self.pack.has_room(file) {
            return Ok(false);
        }
        let line = self.pack.join(file)?;
        let place = self.pack.jobs() as u64;
        let job = PackedJob::new(line, file.name(), name.as_bytes());
        put_job(&mut self.entries, place, &job)?;
        Ok(true)
    }

    /// The manifest of the batch in the file of this name.
    fn manifest(&self, alloc: Global, batch: &str) -> Result<Vec<u8>, AllocError> {
        let bytes = self.pack.bytes();
        let digest = digest_text(alloc, bytes)?;
        let jobs = self.pack.jobs() as u64;
        let mut manifest = Vec::new(alloc);
        let seal = SealedBatch::new(
            bytes.len() as u64,
            digest.as_bytes(),
            jobs,
            batch.as_bytes(),
        );
        put_batch(&mut manifest, &seal)?;
        manifest.extend_from_slice(&self.entries)?;
        Ok(manifest)
    }

    /// Writes the batch into a folder, and then its manifest, so that a manifest names no batch that isn't there.
    fn write(&self, rt: &HostRuntime, out: &str) -> Result<(), Stop> {
        let number = self.number;
        let batch = format!(in rt.alloc(); "batch-{number}.vcode")?;
        write_into(rt, out, batch.as_str(), self.pack.bytes())?;
        let name = format!(in rt.alloc(); "batch-{number}.manifest")?;
        let manifest = self.manifest(rt.alloc(), batch.as_str())?;
        write_into(rt, out, name.as_str(), &manifest)
    }
}

/// Writes a file of this name into a folder.
fn write_into(rt: &HostRuntime, out: &str, name: &str, bytes: &[u8]) -> Result<(), Stop> {
    let path = format!(in rt.alloc(); "{out}/{name}")?;
    match write_whole(rt, out, path.as_str(), bytes) {
        Ok(()) => {
            sync_folder(rt, out);
            Ok(())
        }
        Err(error) => Err(stop_at(rt.alloc(), path.as_str(), &error)),
    }
}

/// The batches of both rules that are open, and how many were begun.
#[derive(Drop)]
pub struct Packing<'a> {
    out: &'a str,
    region: u32,
    bounds: Bounds,
    begun: u64,
    first: Option<Open>,
    second: Option<Open>,
    all: bool,
}

impl<'a> Packing<'a> {
    /// No batch, for a folder, a region of `region` words, and files within bounds.
    pub fn new(out: &'a str, region: u32, bounds: Bounds) -> Packing<'a> {
        Packing {
            out,
            region,
            bounds,
            begun: 0,
            first: None,
            second: None,
            all: true,
        }
    }

    /// Says why the file of this name isn't packed.
    pub fn refuse(
        &mut self,
        rt: &HostRuntime,
        name: &[u8],
        line: u64,
        text: &str,
    ) -> Result<(), Stop> {
        self.all = false;
        let name = shown(rt.alloc(), name)?;
        eprintln!(rt; "{name}:{line}: {text}").map_err(|_| Stop::NoErrors)
    }

    /// Says by which fault a file isn't packed.
    fn refuse_by(
        &mut self,
        rt: &HostRuntime,
        name: &str,
        bytes: &[u8],
        fault: PackFault,
    ) -> Result<(), Stop> {
        let name = name.as_bytes();
        match fault {
            PackFault::Memory => Err(Stop::Memory),
            PackFault::Batch(line, fault) => self.refuse(rt, name, line, fault.text()),
            PackFault::NoJob => self.refuse(rt, name, 1, "no job"),
            PackFault::ManyJobs => self.refuse(rt, name, second_job_line(bytes), "a second job"),
            PackFault::Job(line, fault) => self.refuse(rt, name, line, fault.text()),
        }
    }

    /// Says by which error a file can't be read. Refused memory is not its fault.
    fn refuse_at(&mut self, rt: &HostRuntime, name: &str, error: &io::Error) -> Result<(), Stop> {
        if error.kind() == ErrorKind::OutOfMemory {
            return Err(Stop::Memory);
        }
        let text = format!(in rt.alloc(); "{error}")?;
        self.refuse(rt, name.as_bytes(), 1, text.as_str())
    }

    /// Packs the file of this name, or says why not.
    pub fn pack(&mut self, rt: &HostRuntime, name: &str) -> Result<(), Stop> {
        match read_regular(rt, name, self.bounds.bytes as usize) {
            Ok(Some(bytes)) => self.pack_bytes(rt, name, &bytes),
            Ok(None) => self.refuse(rt, name.as_bytes(), 1, "not a regular file"),
            Err(error) => self.refuse_at(rt, name, &error),
        }
    }

    /// By which bound a file of these bytes is refused, and at which line, if it is.
    fn past_bound(&self, alloc: Global, bytes: &[u8]) -> Result<Option<(u64, String)>, AllocError> {
        let most = self.bounds.bytes as usize;
        if bytes.len() > most && most < MOST_BATCH_BYTES {
            return Ok(Some((1, format!(in alloc; "more than {most} bytes")?)));
        }
        let Some(most) = self.bounds.entries else {
            return Ok(None);
        };
        match line_past(alloc, bytes, most as usize)? {
            Some(line) => {
                let text = format!(in alloc;
                    "more than {most} entries on the stack of a function"
                )?;
                Ok(Some((line, text)))
            }
            None => Ok(None),
        }
    }

    /// Packs the file of this name and of these bytes, or says why not.
    fn pack_bytes(&mut self, rt: &HostRuntime, name: &str, bytes: &[u8]) -> Result<(), Stop> {
        if let Some((line, text)) = self.past_bound(rt.alloc(), bytes)? {
            return self.refuse(rt, name.as_bytes(), line, text.as_str());
        }
        match one_job(rt.alloc(), bytes, self.region as usize) {
            Ok(file) => self.join(rt, name, &file),
            Err(fault) => self.refuse_by(rt, name, bytes, fault),
        }
    }

    /// Joins a file to the open batch of its rule, or to a new one if it has no room.
    fn join(&mut self, rt: &HostRuntime, name: &str, file: &JobFile<Global>) -> Result<(), Stop> {
        if let Some(mut open) = self.take(file.rule()) {
            if open.join(name, file)? {
                self.put(file.rule(), open);
                return Ok(());
            }
            open.write(rt, self.out)?;
        }
        let mut open = self.begin(rt, file.rule())?;
        if open.join(name, file)? {
            self.put(file.rule(), open);
            return Ok(());
        }
        self.refuse(rt, name.as_bytes(), 1, "B4 TOO_LARGE")
    }

    /// The open batch of a rule.
    fn take(&mut self, rule: Rule) -> Option<Open> {
        match rule {
            Rule::First => self.first.take(),
            Rule::Second => self.second.take(),
        }
    }

    /// Leaves a batch of this rule open.
    fn put(&mut self, rule: Rule, open: Open) {
        match rule {
            Rule::First => self.first = Some(open),
            Rule::Second => self.second = Some(open),
        }
    }

    /// A new batch of a rule.
    fn begin(&mut self, rt: &HostRuntime, rule: Rule) -> Result<Open, AllocError> {
        self.begun = self.begun.saturating_add(1);
        Ok(Open {
            number: self.begun,
            pack: Pack::new(rt.alloc(), rule)?,
            entries: Vec::new(rt.alloc()),
        })
    }

    /// Writes the batches that are open. Answers whether every file was packed.
    pub fn finish(self, rt: &HostRuntime) -> Result<bool, Stop> {
        if let Some(open) = &self.first {
            open.write(rt, self.out)?;
        }
        if let Some(open) = &self.second {
            open.write(rt, self.out)?;
        }
        Ok(self.all)
    }
}
