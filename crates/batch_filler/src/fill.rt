//! Texts that are put into a batch.

ghost use Rattle.std.specs.Prelude.{◌≡◌, IfOk, map};
ghost use Rattle.batch_reader.specs.Lines.{lines};
ghost use Rattle.batch_reader.specs.declared.section.Section.TheVariants.{Between};
ghost use Rattle.batch_filler.specs.Filled.{ends_signatures, filled, text_before, texts_after};

use crate::line::first_line;
use batch_reader::Section;
use std::alloc::{AllocError, Allocator};

/// Whether a line that belongs to a section ends the signature lines of a job, if the next line belongs to `next`.
fn ends_signatures(section: Section, next: Section) -> bool
    ensures { result ≡ ends_signatures section next }
{
    matches!((section, next), (Section::Signatures, Section::Code))
}

/// What comes before a line that belongs to a section: the first of the texts if the line ends the signature lines of
/// a job.
fn text_before<'a, A: Allocator>(
    section: Section,
    next: Section,
    texts: &'a [Vec<u8, A>],
) -> &'a [u8]
    ensures { result.now ≡ text_before section next (map (λ text. text.items) texts.now) }
{
    if !ends_signatures(section, next) {
        return &[];
    }
    match texts.first() {
        Some(text) => text.as_slice(),
        None => &[],
    }
}

/// The texts that are left after such a line.
fn texts_after<'a, A: Allocator>(
    section: Section,
    next: Section,
    texts: &'a [Vec<u8, A>],
) -> &'a [Vec<u8, A>]
    ensures { map (λ text. text.items) result.now ≡ texts_after section next (map (λ text. text.items) texts.now) }
{
    if !ends_signatures(section, next) {
        return texts;
    }
    match texts.split_first() {
        Some((_, others)) => others,
        None => texts,
    }
}

/// A batch with the first of the texts before the `CODE` of its first job, the second before that of the second, and
/// so on. Each byte of the batch stays, in its order. A text is the whole lines of signatures, or empty. Whether the
/// batch is refused isn't looked at: each of its lines is in the section that [`Section::after`] gives.
///
/// # Errors
///
/// Memory was refused.
pub fn fill_batch<A: Allocator>(
    alloc: A,
    batch: &[u8],
    texts: &[Vec<u8, A>],
) -> Result<Vec<u8, A>, AllocError>
    ensures { IfOk result
        (λ new. new.items ≡ filled Between (map (λ text. text.items) texts.now) (lines batch.now)) }
{
    let mut new = Vec::new(alloc);
    let mut section = Section::Between;
    let mut left = texts;
    let mut rest = batch;
    while let Some((line, after)) = first_line(rest) {
        let next = section.after(line);
        new.extend_from_slice(text_before(section, next, left))?;
        new.extend_from_slice(line)?;
        left = texts_after(section, next, left);
        section = next;
        rest = after;
    }
    Ok(new)
}
