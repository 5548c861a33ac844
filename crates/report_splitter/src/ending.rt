//! How a job ends, as the first line of its entry says it.

ghost use Rattle.std.specs.Prelude.{◌≡◌, ◌≢◌, ◌<◌, ◌≤◌, ◌^◌, ◌++◌, ◌-◌, ◌+◌, ℕ, List, All, None, Some, Option, codes};
ghost use Rattle.std.specs.Prelude.{decimal, length, option_map, MatchOption, IfSome};
ghost use Rattle.report_splitter.specs.Answers.{IsEarlyEnd};
ghost use Rattle.report_splitter.specs.ReportTexts.{IsEnd, IsEndFrom, IsPlain, end_text, own_end, stop_refused};
ghost use Rattle.report_splitter.specs.ReportTexts.{stop_text};

use memchr::memchr;

/// Why a job stopped at a line.
#[derive(Clone, Copy, PartialEq, Eq, Debug)]
pub enum Stop {
    /// A fault of its data.
    Fault,
    /// A refusal of memory.
    Memory,
    /// A refusal before it ran.
    Refused,
}

impl Stop {
    /// What is before the line.
    pub(crate) fn text(self) -> &'static [u8]
        ensures { result.now ≡ stop_text self }
    {
        match self {
            Stop::Fault => b"FAULT line ",
            Stop::Memory => b"MEMORY line ",
            Stop::Refused => b"REFUSED line ",
        }
    }

    /// How many jobs are refused by it: one or none.
    pub(crate) fn refused(self) -> u64
        ensures { result ≡ stop_refused self }
    {
        match self {
            Stop::Fault | Stop::Memory => 0,
            Stop::Refused => 1,
        }
    }
}

/// An end that names a line.
#[derive(Clone, Copy, PartialEq, Eq, Debug)]
pub struct LineEnd {
    /// Why the job stopped.
    pub stop: Stop,
    /// The line.
    pub line: u64,
}

/// The end with its line counted from the first line of a file, if it names a line; `None` if that is before the file.
pub(crate) fn own_end(end: Option<LineEnd>, first_line: u64) -> Option<Option<LineEnd>>
    ensures own { IsEndFrom first_line end → result ≡ Some (option_map (own_end first_line) end) }
    ensures early { IsEarlyEnd first_line end → result ≡ None }
{
    let Some(LineEnd { stop, line }) = end else {
        return Some(None);
    };
    let line = line.checked_sub(first_line)?.checked_add(1)?;
    Some(Some(LineEnd { stop, line }))
}

/// What follows this front of a text, if it has that front.
pub(crate) fn after<'a>(text: &'a [u8], front: &[u8]) -> Option<&'a [u8]>
    ensures found { (rest : List ℕ) → text.now ≡ front.now ++ rest → MatchOption result ⊥ (λ r. r.now ≡ rest) }
    ensures front { IfSome result (λ r. text.now ≡ front.now ++ r.now) }
{
    text.strip_prefix(front)
}

/// Why a job stopped, and what follows that up to the line.
fn split_stop(ending: &[u8]) -> Option<(Stop, &[u8])>
    ensures stop { (stop : Stop) (rest : List ℕ) → ending.now ≡ stop_text stop ++ rest
        → MatchOption result ⊥ (λ r. (r.0 ≡ stop) × (r.1.now ≡ rest)) }
    ensures plain { IsPlain ending.now → result ≡ None }
{
    match after(ending, Stop::Fault.text()) {
        Some(rest) => Some((Stop::Fault, rest)),
        None => match after(ending, Stop::Memory.text()) {
            Some(rest) => Some((Stop::Memory, rest)),
            None => match after(ending, Stop::Refused.text()) {
                Some(rest) => Some((Stop::Refused, rest)),
                None => None,
            },
        },
    }
}

/// The number that these digits are.
#[tactic(auto, using(crate::proofs::EntryLemmas::read_number))]
pub(crate) fn parse_digits(digits: &[u8]) -> Option<u64>
    ensures { (number : ℕ) → number < 2 ^ 64 → digits.now ≡ decimal number → result ≡ Some number }
{
    match str::from_utf8(digits) {
        Ok(digits) => match digits.parse::<u64>() {
            Ok(number) => Some(number),
            Err(_) => None,
        },
        Err(_) => None,
    }
}

/// What comes before the first blank of a text, and the text from that blank on.
pub(crate) fn split_blank(text: &[u8]) -> Option<(&[u8], &[u8])>
    ensures blank { (front rest : List ℕ) → All (λ byte. byte ≢ 32) front → text.now ≡ front ++ (codes " " ++ rest)
        → MatchOption result ⊥ (λ r. (r.0.now ≡ front) × (r.1.now ≡ codes " " ++ rest)) }
    ensures some { IfSome result (λ r. 0 < length r.1.now) }
{
    match memchr(b' ', text) {
        Some(blank) => Some((&text[..blank], &text[blank..])),
        None => None,
    }
}

/// A number and what follows it, where a blank ends the number.
#[tactic(auto, using(crate::proofs::EntryLemmas::blank_apart))]
fn split_number(text: &[u8]) -> Option<(u64, &[u8])>
    ensures { (number : ℕ) (rest : List ℕ) → number < 2 ^ 64 → text.now ≡ decimal number ++ (codes " " ++ rest)
        → MatchOption result ⊥ (λ r. (r.0 ≡ number) × (r.1.now ≡ codes " " ++ rest)) }
{
    match split_blank(text) {
        Some((digits, rest)) => match parse_digits(digits) {
            Some(number) => Some((number, rest)),
            None => None,
        },
        None => None,
    }
}

/// The end of a job if it names a line, and the text after that; `None` if the line is no number.
pub(crate) fn split_end(ending: &[u8]) -> Option<(Option<LineEnd>, &[u8])>
    ensures { (end : Option LineEnd) (text : List ℕ) → IsEnd end text → ending.now ≡ end_text end ++ text
        → MatchOption result ⊥ (λ r. (r.0 ≡ end) × (r.1.now ≡ text)) }
{
    match split_stop(ending) {
        None => Some((None, ending)),
        Some((stop, rest)) => match split_number(rest) {
            Some((line, text)) => Some((Some(LineEnd { stop, line }), text)),
            None => None,
        },
    }
}
