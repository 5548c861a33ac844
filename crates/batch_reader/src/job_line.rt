//! The JOB line: a job's name and its limits.

ghost use Rattle.std.specs.Prelude.{◌≡◌, ◌≤◌, [], ◌∷◌, length, Some, None, MatchOption};
ghost use Rattle.std.specs.List.{list_all};
ghost use Rattle.vcode_base.specs.Bytes.{is_visible};
ghost use Rattle.vcode_base.specs.declared.limits.TheConstants.{LONGEST_NAME};
ghost use Rattle.batch_reader.specs.JobLines.{is_name, job_line_of, limits_of, number_of};
ghost use Rattle.batch_reader.specs.Lines.{batch_words};

use vcode_base::laws::few_digits_fit;
use vcode_base::limits::{LONGEST_NAME, MOST_BUDGET, MOST_CALLS, MOST_CELLS, MOST_WORDS};
use vcode_base::{Limits, LineWords, Parentheses, decimal, is_visible};

/// The most digits of a number.
const MOST_DIGITS: usize = 10;

/// What a good JOB line says.
#[derive(Clone, Copy)]
pub(crate) struct JobLine<'a> {
    /// At most [`LONGEST_NAME`] visible bytes, and at least one.
    pub(crate) name: &'a [u8],
    pub(crate) limits: Limits,
    ghost named: { (1 ≤ length name.now) × (length name.now ≤ LONGEST_NAME) },
}

/// The words of a line that has six.
#[derive(Clone, Copy)]
struct SixWords<'a> {
    keyword: &'a [u8],
    name: &'a [u8],
    words: &'a [u8],
    cells: &'a [u8],
    calls: &'a [u8],
    budget: &'a [u8],
}

/// What a line says that is a good JOB line.
pub(crate) fn job_line(line: &[u8]) -> Option<JobLine<'_>>
    ensures { MatchOption result (job_line_of (batch_words line.now) ≡ None)
        (λ j. job_line_of (batch_words line.now) ≡ Some (record { name = j.name.now; limits = j.limits })) }
{
    let six = six_words(line)?;
    if six.keyword != b"JOB".as_slice() || !is_name(six.name) {
        return None;
    }
    let limits = limits(
        number(six.words),
        number(six.cells),
        number(six.calls),
        number(six.budget),
    )?;
    Some(JobLine {
        name: six.name,
        limits,
    })
}

/// The words of a line, if there are six.
fn six_words(line: &[u8]) -> Option<SixWords<'_>>
    ensures { MatchOption result (job_line_of (batch_words line.now) ≡ None)
        (λ s. batch_words line.now ≡ s.keyword.now ∷ s.name.now ∷ s.words.now ∷ s.cells.now ∷ s.calls.now
        ∷ s.budget.now ∷ []) }
{
    let mut line_words = LineWords::new(line, Parentheses::StandInWords);
    let keyword = line_words.next()?;
    let name = line_words.next()?;
    let words = line_words.next()?;
    let cells = line_words.next()?;
    let calls = line_words.next()?;
    let budget = line_words.next()?;
    if line_words.next().is_some() {
        return None;
    }
    Some(SixWords {
        keyword,
        name,
        words,
        cells,
        calls,
        budget,
    })
}

/// Whether each byte of a word is visible.
fn are_visible(word: &[u8]) -> bool
    ensures { result ≡ list_all is_visible word.now }
{
    word.iter().all(|byte| is_visible(*byte))
}

/// Whether a word is a job's name.
fn is_name(word: &[u8]) -> bool
    ensures { result ≡ is_name word.now }
{
    if word.is_empty() {
        return false;
    }
    if word.len() > LONGEST_NAME {
        return false;
    }
    are_visible(word)
}

/// The number that a word is of at most 10 decimal digits.
#[tactic(auto, using(crate::proofs::JobLineLemmas::number_is))]
fn number(word: &[u8]) -> Option<u64>
    ensures { result ≡ number_of word.now }
{
    few_digits_fit();
    if word.len() > MOST_DIGITS {
        return None;
    }
    decimal(word)
}

/// These limits, if all four are numbers within their ranges.
fn limits(
    words: Option<u64>,
    cells: Option<u64>,
    calls: Option<u64>,
    budget: Option<u64>,
) -> Option<Limits>
    ensures { result ≡ limits_of words cells calls budget }
{
    limits_within(words?, cells?, calls?, budget?)
}

/// These limits, if they are within their ranges.
fn limits_within(words: u64, cells: u64, calls: u64, budget: u64) -> Option<Limits>
    ensures { result ≡ limits_of (Some words) (Some cells) (Some calls) (Some budget) }
{
    if words > MOST_WORDS as u64 || cells == 0 || cells > MOST_CELLS as u64 {
        return None;
    }
    if calls == 0 || calls > MOST_CALLS as u64 || budget > MOST_BUDGET {
        return None;
    }
    Some(Limits {
        words: words as usize,
        cells: cells as usize,
        calls: calls as usize,
        budget,
    })
}
