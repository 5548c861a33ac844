//! Lines of code that are taken at once.

ghost use Rattle.std.specs.Prelude.{◌≡◌, ◌≤◌, ◌++◌, false, length, take, IfSome};
ghost use Rattle.memchr.specs.Find.{NoneBefore, Passes, is_byte};
ghost use Rattle.batch_reader.specs.Runs.{AreCodeLines, IsAfterCode, IsCodeText, IsOfEnd};

use crate::heading::{is_end, may_be_around_end};
use crate::line::{count_line_feeds, first_line, whole_lines_before};
use memchr::memchr;

/// Lines one after another, each with the LF that ends it, of which none is `END`.
#[derive(Clone, Copy)]
pub(crate) struct CodeRun<'a> {
    pub(crate) text: &'a [u8],
    pub(crate) count: u64,
}

/// The lines at the front of a text that have an LF, up to the first that is `END`, as far as they have at most `most`
/// bytes, and the rest after them.
#[tactic(auto, using(crate::proofs::CodeTexts::of_run))]
pub(crate) fn code_run(text: &[u8], most: usize) -> (CodeRun<'_>, &[u8])
    ensures lines { AreCodeLines result.0.count result.0.text.now }
    ensures parts { text.now ≡ result.0.text.now ++ result.1.now }
    ensures within { length result.0.text.now ≤ most }
{
    let (within, _) = text.split_at(text.len().min(most));
    let (front, rest) = text.split_at(code_len(within));
    let count = count_line_feeds(front);
    (CodeRun { text: front, count }, rest)
}

/// How many bytes the lines at the front of a text have that an LF ends, up to the first that is `END`. Such a line has
/// a `D`, and lines without one aren't looked at.
#[tactic(auto, using(crate::proofs::CodeTexts::of_code_len))]
fn code_len(text: &[u8]) -> usize
    ensures within { result ≤ length text.now }
    ensures code { IsCodeText (take result text.now) }
{
    let mut rest = text;
    'lines: while let Some(place) = memchr(b'D', rest) {
        let Some(behind) = behind_line_at(rest, place) else {
            let (_, from) = whole_lines_before(rest, place);
            return text.len() - from.len();
        };
        rest = behind;
    }
    let (_, open) = whole_lines_before(rest, rest.len());
    text.len() - open.len()
}

/// The rest of a text after the line that holds its first `D`, which is at this place, if the line has an LF and isn't
/// `END`.
#[tactic(auto, using(crate::proofs::CodeTexts::after_d))]
#[inline(always)]
fn behind_line_at(text: &[u8], place: usize) -> Option<&[u8]>
    requires first { NoneBefore (Passes (is_byte 68) text.now) 0 (length text.now) place }
    requires found { Passes (is_byte 68) text.now place }
    ensures { IfSome result (λ rest. IsAfterCode text.now rest.now) }
{
    let (before, from) = text.split_at(place);
    if may_be_of_end(before, from) {
        let (_, line) = whole_lines_before(text, place);
        return behind_code_line(line);
    }
    let (_, rest) = first_line(from)?;
    Some(rest)
}

/// Whether the `D` at which a text is parted may be that of `END`.
fn may_be_of_end(before: &[u8], from: &[u8]) -> bool
    ensures { result ≡ false → IsOfEnd before.now from.now → ⊥ }
{
    if before.len() < 2 || from.len() < 2 {
        return false;
    }
    may_be_around_end(before[before.len() - 2], from[1])
}

/// The rest of a text after its first line, if that has an LF and isn't `END`.
#[tactic(auto, using(crate::proofs::CodeTexts::after_line))]
#[inline(always)]
fn behind_code_line(text: &[u8]) -> Option<&[u8]>
    ensures { IfSome result (λ rest. IsAfterCode text.now rest.now) }
{
    let (line, rest) = first_line(text)?;
    if is_end(line) {
        return None;
    }
    Some(rest)
}
