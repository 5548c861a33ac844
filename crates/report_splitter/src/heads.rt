//! The heads of a report, beside those that a manifest wants.

ghost use Rattle.std.specs.Prelude.{◌≡◌, ◌≤◌, ◌<◌, ◌+◌, ◌∷◌, ◌↔◌, ℕ, List, [], IfOk, IsTrue, MatchOption, MatchResult};
ghost use Rattle.std.specs.Prelude.{filter, length};
ghost use Rattle.report_splitter.specs.Fronts.{Begins};
ghost use Rattle.report_splitter.specs.Heads.{AllFit, Fits, IsFirstOther, IsHeadFault, heads, is_head, named_head};
ghost use Rattle.report_splitter.specs.Heads.{whole_lines};
ghost use Rattle.report_splitter.specs.ReportTexts.{last_head};

use crate::manifest::PackedJob;
use crate::text::{put_head, put_last_head};
use crate::words::split_first;
use std::alloc::{AllocError, Allocator};

/// Why a report isn't one on the jobs of a manifest.
#[derive(Clone, Copy, PartialEq, Eq, Debug, Drop)]
pub enum HeadFault {
    /// Memory was refused.
    Memory,
    /// What the report has at this index isn't the job that the manifest has there; if the index is the number of jobs,
    /// the report doesn't end after them. Indices count from 0.
    OtherJob(usize),
}

impl From<AllocError> for HeadFault {
    ghost use Rattle.std.specs.Prelude.{◌≡◌};
    ghost use Rattle.report_splitter.specs.declared.heads.HeadFault.TheVariants.{Memory};

    ghost from_gives = { λ _ fault. fault ≡ Memory };

    fn from(_: AllocError) -> HeadFault {
        HeadFault::Memory
    }
}

/// The first line of a text that an LF ends, without it, and what comes after it.
fn first_line(text: &[u8]) -> Option<(&[u8], &[u8])>
    ensures { MatchOption result
        (whole_lines text.now ≡ [])
        (λ r. (whole_lines text.now ≡ r.0.now ∷ whole_lines r.1.now) × (length r.1.now < length text.now)) }
{
    split_first(text, b'\n')
}

/// Whether a line begins as the first of an entry does, or as the last of a report.
fn is_head(line: &[u8]) -> bool
    ensures { result ≡ is_head line.now }
{
    line.starts_with(b"JOB ") || line.starts_with(b"END ")
}

/// What begins the first line of the entry of a job of this name.
#[tactic(auto, unfolding(crate::specs::Heads::named_head))]
fn named_head<A: Allocator>(alloc: A, place: u64, name: &[u8]) -> Result<Vec<u8, A>, AllocError>
    ensures { IfOk result (λ head. head.items ≡ named_head place name.now) }
{
    let mut head = Vec::new(alloc);
    put_head(&mut head, place)?;
    head.extend_from_slice(name)?;
    head.push(b' ')?;
    Ok(head)
}

/// What begins the last line of a report on this number of jobs.
fn last_head<A: Allocator>(alloc: A, jobs: u64) -> Result<Vec<u8, A>, AllocError>
    ensures { IfOk result (λ head. head.items ≡ last_head jobs) }
{
    let mut head = Vec::new(alloc);
    put_last_head(&mut head, jobs)?;
    Ok(head)
}

/// Whether a line begins with this head.
fn begins(line: &[u8], head: &[u8]) -> bool
    ensures { IsTrue result ↔ Begins head.now line.now }
{
    line.starts_with(head)
}

/// Whether a line is the head with this index of a report on these jobs.
fn fits<A: Allocator>(
    alloc: A,
    jobs: &[PackedJob<'_>],
    index: usize,
    line: &[u8],
) -> Result<bool, AllocError>
    ensures { IfOk result (λ yes. IsTrue yes ↔ Fits jobs.now index line.now) }
{
    match jobs.get(index) {
        Some(job) => {
            let head = named_head(alloc, index as u64 + 1, job.name())?;
            Ok(begins(line, &head))
        }
        None => {
            if index != jobs.len() {
                return Ok(false);
            }
            let head = last_head(alloc, index as u64)?;
            Ok(begins(line, &head))
        }
    }
}

/// The index that the next head has after a line, whose own index is this if it is a head.
fn next_index<A: Allocator>(
    alloc: A,
    jobs: &[PackedJob<'_>],
    index: usize,
    line: &[u8],
) -> Result<usize, HeadFault>
    requires { index < usize.MAX }
    ensures near { IfOk result (λ next. next ≤ index + 1) }
    ensures fit { (lines : List (List ℕ)) → IfOk result (λ next. AllFit jobs.now next (filter is_head lines)
        → AllFit jobs.now index (filter is_head (line.now ∷ lines))) }
    ensures other { (lines : List (List ℕ)) → MatchResult result
        (λ next. (other : ℕ) → IsFirstOther jobs.now next (filter is_head lines) other
        → IsFirstOther jobs.now index (filter is_head (line.now ∷ lines)) other)
        (λ fault. IsHeadFault jobs.now index (filter is_head (line.now ∷ lines)) fault) }
{
    if !is_head(line) {
        return Ok(index);
    }
    if fits(alloc, jobs, index, line)? {
        Ok(index + 1)
    } else {
        Err(HeadFault::OtherJob(index))
    }
}

/// Checks that the heads of a report are those of a report on the jobs of a manifest, as far as its lines are whole:
/// each has its place and the name of the job there, and the last line counts the jobs. A report may break off: then
/// the heads that it has are checked.
///
/// # Errors
///
/// [`HeadFault::OtherJob`] with the index of the first head that is another; [`HeadFault::Memory`] if memory is
/// refused.
pub fn check_heads<A: Allocator + Copy>(
    alloc: A,
    report: &[u8],
    jobs: &[PackedJob<'_>],
) -> Result<(), HeadFault>
    ensures { MatchResult result
        (λ _. AllFit jobs.now 0 (heads report.now))
        (λ fault. IsHeadFault jobs.now 0 (heads report.now) fault) }
{
    let mut rest = report;
    let mut index = 0;
    while let Some((line, more)) = first_line(rest) {
        index = next_index(alloc, jobs, index, line)?;
        rest = more;
    }
    Ok(())
}
