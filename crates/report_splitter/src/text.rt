//! The texts of a report.

ghost use Rattle.std.specs.Prelude.{◌≡◌, ◌∷◌, ◌++◌, ℕ, codes, decimal, OnOk, IfOk, nat_lt, if◌then◌else◌};
ghost use Rattle.report_splitter.specs.ReportTexts.{end_text, head_text, last_head, last_line, next_head};

use crate::ending::LineEnd;
use itoa::Buffer;
use std::alloc::{AllocError, Allocator};

/// Puts a number after a text.
pub(crate) fn put_number<A: Allocator>(text: &mut Vec<u8, A>, number: u64) -> Result<(), AllocError>
    ensures { OnOk result (text.new.items ≡ text.old.items ++ decimal number) }
{
    let mut buffer = Buffer::new();
    text.extend_from_slice(buffer.format(number).as_bytes())
}

/// Puts what begins the first line of the entry at this place.
#[tactic(auto, unfolding(crate::specs::ReportTexts::head_text))]
pub(crate) fn put_head<A: Allocator>(text: &mut Vec<u8, A>, place: u64) -> Result<(), AllocError>
    ensures { OnOk result (text.new.items ≡ text.old.items ++ head_text place) }
{
    text.extend_from_slice(b"JOB ")?;
    put_number(text, place)?;
    text.extend_from_slice(b" ")
}

/// Puts an end that names a line, if there is one.
pub(crate) fn put_end<A: Allocator>(
    text: &mut Vec<u8, A>,
    end: Option<LineEnd>,
) -> Result<(), AllocError>
    ensures { OnOk result (text.new.items ≡ text.old.items ++ end_text end) }
{
    let Some(end) = end else {
        return Ok(());
    };
    text.extend_from_slice(end.stop.text())?;
    put_number(text, end.line)
}

/// Puts what begins the last line of a report on `jobs` jobs.
#[tactic(auto, unfolding(crate::specs::ReportTexts::last_head))]
pub(crate) fn put_last_head<A: Allocator>(
    text: &mut Vec<u8, A>,
    jobs: u64,
) -> Result<(), AllocError>
    ensures { OnOk result (text.new.items ≡ text.old.items ++ last_head jobs) }
{
    text.extend_from_slice(b"END ")?;
    put_number(text, jobs)?;
    text.extend_from_slice(b" jobs ")
}

/// Puts the last line of a report.
pub(crate) fn put_last<A: Allocator>(
    text: &mut Vec<u8, A>,
    jobs: u64,
    refused: u64,
) -> Result<(), AllocError>
    ensures { OnOk result (text.new.items ≡ text.old.items ++ last_line jobs refused) }
{
    put_last_head(text, jobs)?;
    put_number(text, refused)?;
    text.extend_from_slice(b" refused\n")
}

/// What begins the first line of the entry at this place.
pub(crate) fn head<A: Allocator>(alloc: A, place: u64) -> Result<Vec<u8, A>, AllocError>
    ensures { IfOk result (λ text. text.items ≡ head_text place) }
{
    let mut text = Vec::new(alloc);
    put_head(&mut text, place)?;
    Ok(text)
}

/// An LF, and what begins the line after the entry at this place.
pub(crate) fn next_head<A: Allocator>(
    alloc: A,
    place: u64,
    jobs: u64,
) -> Result<Vec<u8, A>, AllocError>
    ensures { IfOk result (λ text. text.items ≡ 10 ∷ next_head place jobs) }
{
    let mut text = Vec::new(alloc);
    text.push(b'\n')?;
    put_next_head(&mut text, place, jobs)?;
    Ok(text)
}

/// Puts what begins the line after the entry at this place.
fn put_next_head<A: Allocator>(
    text: &mut Vec<u8, A>,
    place: u64,
    jobs: u64,
) -> Result<(), AllocError>
    ensures { OnOk result (text.new.items ≡ text.old.items ++ next_head place jobs) }
{
    if place < jobs {
        put_head(text, place + 1)
    } else {
        put_last_head(text, jobs)
    }
}
