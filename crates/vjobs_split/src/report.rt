//! Whose report standard input has.

use crate::fault::Stop;
use report_splitter::{CutFault, HeadFault, Manifest, check_heads, cut_job};
use shown_text::shown;
use std::alloc::{AllocError, Global};

/// That the job with this index of a report isn't that of the manifest.
fn other_text(
    alloc: Global,
    manifest: &Manifest<'_, Global>,
    index: usize,
) -> Result<String, AllocError> {
    let Some(job) = manifest.jobs.get(index) else {
        return format!(in alloc; "the report is none of this batch: the manifest has {index} jobs");
    };
    let place = index.saturating_add(1);
    let name = shown(alloc, job.name())?;
    format!(in alloc;
        "the report is none of this batch: the manifest has job {name} at place {place}"
    )
}

/// The stop for a report whose job with this index isn't that of the manifest.
fn other_job(alloc: Global, manifest: &Manifest<'_, Global>, index: usize) -> Stop {
    match other_text(alloc, manifest, index) {
        Ok(text) => Stop::Other(text),
        Err(AllocError) => Stop::Memory,
    }
}

/// How many jobs a report has whole, from the first on.
fn count_whole(
    alloc: Global,
    manifest: &Manifest<'_, Global>,
    report: &[u8],
) -> Result<usize, Stop> {
    let jobs = manifest.jobs.len() as u64;
    let mut rest = report;
    for (index, job) in manifest.jobs.iter().enumerate() {
        let place = (index as u64).saturating_add(1);
        match cut_job(alloc, rest, place, jobs, job.first_line()) {
            Ok(cut) => rest = cut.rest,
            Err(CutFault::BrokenOff) => return Ok(index),
            Err(CutFault::OtherBatch) => return Err(other_job(alloc, manifest, index)),
            Err(CutFault::Memory) => return Err(Stop::Memory),
        }
    }
    Ok(manifest.jobs.len())
}

/// Checks that a report is one on the jobs of a manifest: each place, each name, and the number of jobs. Answers how
/// many jobs it has whole, which are fewer than all if it breaks off.
pub fn check_report(
    alloc: Global,
    manifest: &Manifest<'_, Global>,
    report: &[u8],
) -> Result<usize, Stop> {
    match check_heads(alloc, report, &manifest.jobs) {
        Ok(()) => count_whole(alloc, manifest, report),
        Err(HeadFault::OtherJob(index)) => Err(other_job(alloc, manifest, index)),
        Err(HeadFault::Memory) => Err(Stop::Memory),
    }
}
