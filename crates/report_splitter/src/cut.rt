//! A report, cut job by job.

ghost use Rattle.std.specs.Prelude.{◌≡◌, ◌≢◌, ◌⊎◌, ◌+◌, ◌∷◌, [], ℕ, List, All, length, take, IfOk, OnErr, MatchOption};
ghost use Rattle.std.specs.Prelude.{MatchResult};
ghost use Rattle.report_splitter.specs.declared.fault.CutFault.TheVariants.{BrokenOff, Memory};
ghost use Rattle.report_splitter.specs.Answers.{HasEntry, IsEarlyEnd, IsFaultOf};
ghost use Rattle.report_splitter.specs.ReportTexts.{EntryText, IsEndFrom, IsEntryText, head_text, next_head};
ghost use Rattle.report_splitter.specs.ReportTexts.{own_report, refused_in, report_from, tail_text};

use crate::ending::{LineEnd, own_end, split_blank, split_end};
use crate::fault::CutFault;
use crate::front::cut_front;
use crate::text::{head, next_head, put_end, put_head, put_last};
use std::alloc::{AllocError, Allocator};

/// The report of one job, cut out of a batch's.
#[derive(Drop)]
pub struct Cut<'a, A: Allocator> {
    /// The report of the job's own file.
    pub report: Vec<u8, A>,
    /// The rest of the batch's report.
    pub rest: &'a [u8],
}

/// An entry of a report: the job's name, its end if that names a line, and the text after that.
#[derive(Drop)]
struct Entry<'a> {
    name: &'a [u8],
    end: Option<LineEnd>,
    text: &'a [u8],
}

/// The entry of this tail: what follows the place of its job.
#[tactic(auto, using(crate::proofs::EntryLemmas::after_byte), unfolding(crate::specs::ReportTexts::tail_text))]
fn entry_of(tail: &[u8]) -> Option<Entry<'_>>
    ensures { (entry : EntryText) → IsEntryText entry → tail.now ≡ tail_text entry
        → MatchOption result ⊥ (λ e. (e.name.now ≡ entry.name) × (e.end ≡ entry.end) × (e.text.now ≡ entry.text)) }
{
    match split_blank(tail) {
        Some((name, rest)) => match split_end(&rest[1..]) {
            Some((end, text)) => Some(Entry { name, end, text }),
            None => None,
        },
        None => None,
    }
}

/// The report on one job of this entry.
#[tactic(auto, unfolding(crate::specs::ReportTexts::tail_text))]
fn report_on<A: Allocator>(
    alloc: A,
    name: &[u8],
    end: Option<LineEnd>,
    text: &[u8],
) -> Result<Vec<u8, A>, AllocError>
    ensures { IfOk result (λ report. report.items
        ≡ report_from 1 1 (refused_in end) (record { name = name.now; end = end; text = text.now } ∷ [])) }
{
    let refused = match end {
        Some(end) => end.stop.refused(),
        None => 0,
    };
    let mut report = Vec::new(alloc);
    put_head(&mut report, 1)?;
    report.extend_from_slice(name)?;
    report.push(b' ')?;
    put_end(&mut report, end)?;
    report.extend_from_slice(text)?;
    put_last(&mut report, 1, refused)?;
    Ok(report)
}

/// The report of the job's own file for an entry of this tail, if the file begins at this line.
fn own_report<A: Allocator>(alloc: A, tail: &[u8], first_line: u64) -> Result<Vec<u8, A>, CutFault>
    ensures own { (entry : EntryText) → IsEntryText entry → IsEndFrom first_line entry.end → tail.now ≡ tail_text entry
        → MatchResult result (λ report. report.items ≡ own_report first_line entry) (λ fault. fault ≡ Memory) }
    ensures early { (entry : EntryText) → IsEntryText entry → IsEarlyEnd first_line entry.end
        → tail.now ≡ tail_text entry → IfOk result (λ _. ⊥) }
    ensures not_broken { MatchResult result (λ _. Unit {0}) (λ fault. fault ≢ BrokenOff) }
{
    match entry_of(tail) {
        Some(entry) => match own_end(entry.end, first_line) {
            Some(end) => Ok(report_on(alloc, entry.name, end, entry.text)?),
            None => Err(CutFault::OtherBatch),
        },
        None => Err(CutFault::OtherBatch),
    }
}

/// The report of the job's own file for an entry of this tail, and this rest.
fn cut_of<'a, A: Allocator>(
    alloc: A,
    tail: &[u8],
    rest: &'a [u8],
    first_line: u64,
) -> Result<Cut<'a, A>, CutFault>
    ensures whole { (entry : EntryText) (more : List ℕ) → IsEntryText entry → IsEndFrom first_line entry.end
        → tail.now ≡ tail_text entry → rest.now ≡ more → MatchResult result
        (λ cut. (cut.report.items ≡ own_report first_line entry) × (cut.rest.now ≡ more))
        (λ fault. fault ≡ Memory) }
    ensures front { (entry : EntryText) (n : ℕ) (more : List ℕ) → IsEntryText entry → IsEndFrom first_line entry.end
        → tail.now ≡ tail_text entry → rest.now ≡ take n more → MatchResult result
        (λ cut. (cut.report.items ≡ own_report first_line entry) × ((m : ℕ) × (cut.rest.now ≡ take m more)))
        (λ fault. (fault ≡ Memory) ⊎ (fault ≡ BrokenOff)) }
    ensures early { (entry : EntryText) → IsEntryText entry → IsEarlyEnd first_line entry.end
        → tail.now ≡ tail_text entry → IfOk result (λ _. ⊥) }
    ensures not_broken { MatchResult result (λ _. Unit {0}) (λ fault. fault ≢ BrokenOff) }
{
    match own_report(alloc, tail, first_line) {
        Ok(report) => Ok(Cut { report, rest }),
        Err(fault) => Err(fault),
    }
}

/// Cuts the entry of the job at this place off the front of a batch's report on `jobs` jobs, and makes it the report of
/// the job's own file, which begins at this line of the batch.
///
/// Places and lines are counted from 1. The entry is found by its place; the name in it decides nothing.
///
/// # Errors
///
/// [`CutFault::BrokenOff`] if the report ends before the line after the entry has its LF, [`CutFault::OtherBatch`] if
/// it doesn't begin with an entry of this place, or that entry's end names a line before the file; [`CutFault::Memory`]
/// if memory is refused.
pub fn cut_job<'a, A: Allocator + Copy>(
    alloc: A,
    report: &'a [u8],
    place: u64,
    jobs: u64,
    first_line: u64,
) -> Result<Cut<'a, A>, CutFault>
    // Off a report comes that entry, in the lines of the job's file, and the others are left.
    ensures whole { (refused : ℕ) (entry : EntryText) (entries : List EntryText) → All IsEntryText (entry ∷ entries)
        → place + length entries ≡ jobs → IsEndFrom first_line entry.end
        → report.now ≡ report_from place jobs refused (entry ∷ entries) → MatchResult result
        (λ cut. (cut.report.items ≡ own_report first_line entry)
        × (cut.rest.now ≡ report_from (place + 1) jobs refused entries))
        (λ fault. fault ≡ Memory) }
    // Off a report that breaks off comes the same or nothing.
    ensures front { (n refused : ℕ) (entry : EntryText) (entries : List EntryText) → All IsEntryText (entry ∷ entries)
        → place + length entries ≡ jobs → IsEndFrom first_line entry.end
        → report.now ≡ take n (report_from place jobs refused (entry ∷ entries)) → MatchResult result
        (λ cut. (cut.report.items ≡ own_report first_line entry)
        × ((m : ℕ) × (cut.rest.now ≡ take m (report_from (place + 1) jobs refused entries))))
        (λ fault. (fault ≡ Memory) ⊎ (fault ≡ BrokenOff)) }
    // Off one whose entry names a line before the file comes nothing.
    ensures early { (n refused : ℕ) (entry : EntryText) (entries : List EntryText) → All IsEntryText (entry ∷ entries)
        → place + length entries ≡ jobs → IsEarlyEnd first_line entry.end
        → report.now ≡ take n (report_from place jobs refused (entry ∷ entries)) → IfOk result (λ _. ⊥) }
    // Any report whatever: what comes has the entry; it is said to break off exactly if it does.
    ensures answer { MatchResult result
        (λ _. HasEntry (head_text place) (next_head place jobs) report.now)
        (λ fault. IsFaultOf (head_text place) (next_head place jobs) report.now fault) }
{
    let head = head(alloc, place)?;
    let next = next_head(alloc, place, jobs)?;
    match cut_front(report, &head, &next) {
        Ok((tail, rest)) => cut_of(alloc, tail, rest, first_line),
        Err(fault) => Err(fault),
    }
}
