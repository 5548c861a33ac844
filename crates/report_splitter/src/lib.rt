//! The report of a batch, cut into what the owner of each job gets, by the manifest of the batch.
//!
//! `ReportTexts` in `specs/` says what a report is: an entry for each job, and a last line. [`cut_job`] cuts one entry
//! off the front of a report, by the place of the job, and makes it the report of the job's own file. What an entry
//! says decides nothing but that report.
//!
//! A manifest names its batch, and says whose job is at which place. [`read_manifest`] reads it, [`put_batch`] and
//! [`put_job`] write it. [`check_heads`] checks before a report is cut that it is one on the jobs of the manifest: it
//! fails exactly if a head of the report has another place or another name, or if the report has another number of
//! jobs. [`is_sealed`] checks that a batch is the one that the manifest names.
#![tactic(auto)]

mod cut;
mod ending;
mod fault;
mod front;
mod heads;
mod manifest;
mod manifest_text;
mod seal;
mod text;
mod words;

pub use cut::{Cut, cut_job};
pub use ending::{LineEnd, Stop};
pub use fault::CutFault;
pub use heads::{HeadFault, check_heads};
pub use manifest::{Manifest, ManifestFault, PackedJob, SealedBatch, read_manifest};
pub use manifest_text::{put_batch, put_job};
pub use seal::{digest_text, is_sealed};
