//! A file of one job.

ghost use Rattle.std.specs.Prelude.{◌≡◌, ℕ, List, MatchResult};
ghost use Rattle.batch_reader.specs.Batches.{JobText};
ghost use Rattle.batch_reader.specs.Fates.{AreEntries};
ghost use Rattle.batch_packer.specs.Joins.{text_of};
ghost use Rattle.batch_packer.specs.Packs.{HoldsNamed, IsNamedRunnable, RefusesFile, RefusesJobs};

use crate::fault::PackFault;
use crate::text::text_of;
use batch_reader::{Batch, Fate, Feed, JobEntries};
use std::alloc::Allocator;
use std::marker::Model;
use vcode_base::Rule;

/// A file of exactly one job as it goes into a batch: without its rule line, and with an LF at its end.
#[derive(Drop)]
pub struct JobFile<A: Allocator> {
    rule: Rule,
    name: Vec<u8, A>,
    text: Vec<u8, A>,
}

impl<A: Allocator> Model for JobFile<A> {
    ghost use Rattle.batch_packer.specs.Packs.{FileState};

    ghost Value = { FileState };

    ghost view = { λ f. record { rule = f.rule; name = f.name.items; text = f.text.items } };
}

impl<A: Allocator> JobFile<A> {
    /// The rule by which the words of its job are counted.
    pub fn rule(&self) -> Rule
        ensures { result ≡ self.now.rule }
    {
        self.rule
    }

    /// The name of its job.
    pub fn name(&self) -> &[u8]
        ensures { result.now ≡ self.now.name }
    {
        &self.name
    }

    /// Its lines as they go into a batch.
    pub fn text(&self) -> &[u8]
        ensures { result.now ≡ self.now.text }
    {
        &self.text
    }
}

/// The file of these bytes, if it is a batch of exactly one job, which may run in a region of `region` words.
///
/// # Errors
///
/// A fault that says why it isn't.
pub fn one_job<A: Allocator + Copy>(
    alloc: A,
    bytes: &[u8],
    region: usize,
) -> Result<JobFile<A>, PackFault>
    ensures { MatchResult result
        (λ file. HoldsNamed region bytes.now file.rule file.name × (file.text ≡ text_of file.rule bytes.now))
        (λ fault. RefusesFile region bytes.now fault) }
{
    let head = head_of(alloc, bytes, region)?;
    let text = text_of(alloc, head.rule, bytes)?;
    Ok(JobFile {
        rule: head.rule,
        name: head.name,
        text,
    })
}

/// The rule of a file, and the name of its job.
#[derive(Drop)]
struct FileHead<A: Allocator> {
    rule: Rule,
    name: Vec<u8, A>,
}

/// The rule of a file of exactly one job, which may run, and the name of that job.
fn head_of<A: Allocator + Copy>(
    alloc: A,
    bytes: &[u8],
    region: usize,
) -> Result<FileHead<A>, PackFault>
    ensures { MatchResult result
        (λ head. HoldsNamed region bytes.now head.rule head.name.items)
        (λ fault. RefusesFile region bytes.now fault) }
{
    let mut feed = Feed::new(alloc, region)?;
    feed.feed(bytes)?;
    match feed.end()? {
        Batch::Refused(line, fault) => Err(PackFault::Batch(line, fault)),
        Batch::Jobs(rule, entries) => match only_name(&entries) {
            Ok(name) => Ok(FileHead {
                rule,
                name: Vec::from_slice(alloc, name)?,
            }),
            Err(fault) => Err(fault),
        },
    }
}

/// The name of the job, if these are one job, which may run.
fn only_name<A: Allocator>(entries: &JobEntries<A>) -> Result<&[u8], PackFault>
    ensures { (region : ℕ) (jobs : List JobText) → AreEntries region jobs entries.now
        → MatchResult result (λ name. IsNamedRunnable region jobs name.now) (λ fault. RefusesJobs region jobs fault) }
{
    if entries.len() == 0 {
        return Err(PackFault::NoJob);
    }
    if entries.len() > 1 {
        return Err(PackFault::ManyJobs);
    }
    let entry = &entries.as_slice()[0];
    match &entry.fate {
        Fate::Ready(_) => Ok(entry.name.as_slice()),
        Fate::Refused(line, fault) => Err(PackFault::Job(*line, *fault)),
    }
}
