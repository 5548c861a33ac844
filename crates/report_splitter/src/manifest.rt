//! The manifest of a batch: which batch it is, and whose job is at which place.

ghost use Rattle.std.specs.Prelude.{
  ◌≡◌,
  ◌<◌,
  ◌^◌,
  ◌+◌,
  ◌++◌,
  ◌∷◌,
  [],
  ℕ,
  List,
  All,
  length,
  IfOk,
  MatchOption,
  MatchResult,
};
ghost use Rattle.report_splitter.specs.declared.manifest.ManifestFault.TheVariants.{Memory};
ghost use Rattle.report_splitter.specs.Manifests.{BatchSeal, IsBatchSeal, IsPackedText, PackedText, batch_words};
ghost use Rattle.report_splitter.specs.Manifests.{job_entries, job_words, manifest_text, seal_words};

use crate::ending::after;
use crate::words::{split_first, split_number_word, split_word};
use std::alloc::{AllocError, Allocator};
use std::marker::Model;

/// What begins a manifest: its format.
pub(crate) const FORMAT: &[u8] = b"vjobs-manifest-2 ";

/// A job of a batch.
#[derive(Drop)]
pub struct PackedJob<'a> {
    first_line: u64,
    name: &'a [u8],
    file: &'a [u8],
}

impl<'a> Model for PackedJob<'a> {
    ghost use Rattle.report_splitter.specs.Manifests.{PackedText};

    ghost Value = { PackedText };

    ghost view = { λ j. record { first_line = j.first_line; name = j.name.now; file = j.file.now } };
}

impl<'a> PackedJob<'a> {
    /// The job of this name in the file of this name, which begins at this line of the batch. Lines count from 1.
    pub fn new(first_line: u64, name: &'a [u8], file: &'a [u8]) -> PackedJob<'a>
        ensures { result ≡ record { first_line = first_line; name = name.entry.now; file = file.entry.now } }
    {
        PackedJob {
            first_line,
            name,
            file,
        }
    }

    /// The line of the batch at which its file begins.
    pub fn first_line(&self) -> u64
        ensures { result ≡ self.now.first_line }
    {
        self.first_line
    }

    /// The name on its JOB line.
    pub fn name(&self) -> &'a [u8]
        ensures { result.now ≡ self.now.name }
    {
        self.name
    }

    /// The name of its file.
    pub fn file(&self) -> &'a [u8]
        ensures { result.now ≡ self.now.file }
    {
        self.file
    }
}

/// A batch, by what a manifest says of it.
#[derive(Drop)]
pub struct SealedBatch<'a> {
    bytes: u64,
    digest: &'a [u8],
    jobs: u64,
    file: &'a [u8],
}

impl<'a> Model for SealedBatch<'a> {
    ghost use Rattle.report_splitter.specs.Manifests.{BatchSeal};

    ghost Value = { BatchSeal };

    ghost view = { λ b. record { bytes = b.bytes; digest = b.digest.now; jobs = b.jobs; file = b.file.now } };
}

impl<'a> SealedBatch<'a> {
    /// A batch of `bytes` bytes and `jobs` jobs in the file of this name. Its SHA-256 is `digest`, in hexadecimal
    /// digits.
    pub fn new(bytes: u64, digest: &'a [u8], jobs: u64, file: &'a [u8]) -> SealedBatch<'a>
        ensures { result ≡ record {
          bytes = bytes;
          digest = digest.entry.now;
          jobs = jobs;
          file = file.entry.now;
        } }
    {
        SealedBatch {
            bytes,
            digest,
            jobs,
            file,
        }
    }

    /// The number of its bytes.
    pub fn bytes(&self) -> u64
        ensures { result ≡ self.now.bytes }
    {
        self.bytes
    }

    /// The SHA-256 of its bytes, in hexadecimal digits.
    pub fn digest(&self) -> &'a [u8]
        ensures { result.now ≡ self.now.digest }
    {
        self.digest
    }

    /// The number of its jobs.
    pub fn jobs(&self) -> u64
        ensures { result ≡ self.now.jobs }
    {
        self.jobs
    }

    /// The name of its file, in the folder of the manifest.
    pub fn file(&self) -> &'a [u8]
        ensures { result.now ≡ self.now.file }
    {
        self.file
    }
}

/// What a manifest says.
#[derive(Drop)]
pub struct Manifest<'a, A: Allocator> {
    /// The batch.
    pub batch: SealedBatch<'a>,
    /// Its jobs, in the order of their places.
    pub jobs: Vec<PackedJob<'a>, A>,
}

/// Why a text isn't read as a manifest.
#[derive(Clone, Copy, PartialEq, Eq, Debug, Drop)]
pub enum ManifestFault {
    /// Memory was refused.
    Memory,
    /// The text is no manifest.
    NoManifest,
}

impl From<AllocError> for ManifestFault {
    ghost use Rattle.std.specs.Prelude.{◌≡◌};
    ghost use Rattle.report_splitter.specs.declared.manifest.ManifestFault.TheVariants.{Memory};

    ghost from_gives = { λ _ fault. fault ≡ Memory };

    fn from(_: AllocError) -> ManifestFault {
        ManifestFault::Memory
    }
}

/// The job of an entry, which has this place.
#[tactic(auto, unfolding(crate::specs::Manifests::job_words))]
fn job_of(entry: &[u8], place: u64) -> Option<PackedJob<'_>>
    ensures { (job : PackedText) → IsPackedText job → place < 2 ^ 64 → entry.now ≡ job_words place job
        → MatchOption result ⊥ (λ r. r ≡ job) }
{
    let (number, rest) = split_number_word(entry)?;
    let (first_line, rest) = split_number_word(rest)?;
    let (name, file) = split_word(rest)?;
    if number == place {
        Some(PackedJob::new(first_line, name, file))
    } else {
        None
    }
}

/// The batch of what follows the format in the first entry.
#[tactic(auto, unfolding(crate::specs::Manifests::seal_words))]
fn seal_of(words: &[u8]) -> Option<SealedBatch<'_>>
    ensures { (seal : BatchSeal) → IsBatchSeal seal → words.now ≡ seal_words seal
        → MatchOption result ⊥ (λ r. r ≡ seal) }
{
    let (bytes, rest) = split_number_word(words)?;
    let (digest, rest) = split_word(rest)?;
    let (jobs, file) = split_number_word(rest)?;
    Some(SealedBatch::new(bytes, digest, jobs, file))
}

/// The batch of the first entry.
fn batch_of(entry: &[u8]) -> Option<SealedBatch<'_>>
    ensures { (seal : BatchSeal) → IsBatchSeal seal → entry.now ≡ batch_words seal
        → MatchOption result ⊥ (λ r. r ≡ seal) }
{
    match after(entry, FORMAT) {
        Some(words) => seal_of(words),
        None => None,
    }
}

/// Puts the job of an entry after the others, if the entry has the place after theirs.
fn push_job<'a, A: Allocator>(
    jobs: &mut Vec<PackedJob<'a>, A>,
    entry: &'a [u8],
) -> Result<(), ManifestFault>
    ensures { (job : PackedText) → IsPackedText job → length jobs.old.items + 1 < 2 ^ 64
        → entry.now ≡ job_words (length jobs.old.items + 1) job
        → MatchResult result (λ _. jobs.new.items ≡ jobs.old.items ++ job ∷ []) (λ fault. fault ≡ Memory) }
{
    let place = (jobs.len() as u64).saturating_add(1);
    match job_of(entry, place) {
        Some(job) => match jobs.push(job) {
            Ok(()) => Ok(()),
            Err(_) => Err(ManifestFault::Memory),
        },
        None => Err(ManifestFault::NoManifest),
    }
}

/// The jobs of these entries, whose places count from 1.
fn read_jobs<'a, A: Allocator>(
    alloc: A,
    entries: &'a [u8],
) -> Result<Vec<PackedJob<'a>, A>, ManifestFault>
    ensures { (jobs : List PackedText) → All IsPackedText jobs → length jobs < 2 ^ 64
        → entries.now ≡ job_entries 1 jobs
        → MatchResult result (λ r. r.items ≡ jobs) (λ fault. fault ≡ Memory) }
{
    let mut jobs = Vec::new(alloc);
    let mut rest = entries;
    while let Some((entry, more)) = split_first(rest, 0) {
        push_job(&mut jobs, entry)?;
        rest = more;
    }
    if rest.is_empty() {
        Ok(jobs)
    } else {
        Err(ManifestFault::NoManifest)
    }
}

/// Reads a manifest.
///
/// # Errors
///
/// [`ManifestFault::NoManifest`] if it isn't one: the first entry doesn't name a batch, the entries after it aren't as
/// many as the jobs that it says, or one of them doesn't have the place that follows that of the one before;
/// [`ManifestFault::Memory`] if memory is refused.
pub fn read_manifest<A: Allocator>(alloc: A, text: &[u8]) -> Result<Manifest<'_, A>, ManifestFault>
    ensures read { (seal : BatchSeal) (jobs : List PackedText) → IsBatchSeal seal → All IsPackedText jobs
        → seal.jobs ≡ length jobs → text.now ≡ manifest_text seal jobs
        → MatchResult result (λ r. (r.batch ≡ seal) × (r.jobs.items ≡ jobs)) (λ fault. fault ≡ Memory) }
    ensures counted { IfOk result (λ r. r.batch.jobs ≡ length r.jobs.items) }
{
    let Some((entry, entries)) = split_first(text, 0) else {
        return Err(ManifestFault::NoManifest);
    };
    let Some(batch) = batch_of(entry) else {
        return Err(ManifestFault::NoManifest);
    };
    let jobs = read_jobs(alloc, entries)?;
    if jobs.len() as u64 == batch.jobs() {
        Ok(Manifest { batch, jobs })
    } else {
        Err(ManifestFault::NoManifest)
    }
}
