//! What a line of a batch is by itself.

ghost use Rattle.std.specs.Prelude.{◌≡◌, ◌∷◌, List, false, ℕ};
ghost use Rattle.batch_reader.specs.Blocks.{is_end};
ghost use Rattle.batch_reader.specs.Headings.{heading_of, marker_of, may_be_around_end, may_begin_end};
ghost use Rattle.batch_reader.specs.Headings.{may_begin_heading};
ghost use Rattle.batch_reader.specs.Headings.{may_go_on_in_code, pair_of};
ghost use Rattle.batch_reader.specs.Lines.{batch_words};
ghost use Rattle.batch_reader.specs.declared.heading.Heading.TheVariants.{Other};

use vcode_base::{LineWords, Parentheses};

/// What a line of a batch is by itself.
#[derive(Clone, Copy, PartialEq, Eq, Debug)]
pub enum Heading {
    /// It has no word.
    Blank,
    /// Its words are `BATCH` and `2`.
    SecondRule,
    /// Its only word is `SIGNATURES`.
    Signatures,
    /// Its only word is `CODE`.
    Code,
    /// Its only word is `END`.
    End,
    /// It is none of these.
    Other,
}

/// What a line is.
#[inline(always)]
pub fn heading_of(line: &[u8]) -> Heading
    ensures { result ≡ heading_of (batch_words line.now) }
{
    if !may_be_heading(line) {
        return Heading::Other;
    }
    let mut words = LineWords::new(line, Parentheses::StandInWords);
    let Some(word) = words.next() else {
        return Heading::Blank;
    };
    if !begins_heading(word) {
        return Heading::Other;
    }
    let Some(second) = words.next() else {
        return marker(word);
    };
    match words.next() {
        None => pair(word, second),
        Some(_) => Heading::Other,
    }
}

/// Whether a line is `END`. Few lines of code begin as it does.
#[tactic(auto, using(crate::proofs::HeadingLemmas::no_end, crate::proofs::HeadingLemmas::no_end_in_none))]
#[inline(always)]
pub(crate) fn is_end(line: &[u8]) -> bool
    ensures { result ≡ is_end (heading_of (batch_words line.now)) }
{
    if line.is_empty() {
        return false;
    }
    if !may_begin_end(line[0]) {
        return false;
    }
    matches!(heading_of(line), Heading::End)
}

/// Whether a byte may be the first of a line that is `END`.
fn may_begin_end(byte: u8) -> bool
    ensures { result ≡ may_begin_end byte }
{
    byte == b'E' || byte <= b' '
}

/// Whether these may be the first byte of a word `END` and the byte after it.
pub(crate) fn may_be_around_end(first: u8, next: u8) -> bool
    ensures { result ≡ may_be_around_end first next }
{
    first == b'E' && next <= b' '
}

/// Whether a line may be a heading, or have no word, as its first bytes say. Few lines of code may.
#[tactic(auto, using(crate::proofs::HeadingLemmas::other_in_code, crate::proofs::HeadingLemmas::other_line))]
fn may_be_heading(line: &[u8]) -> bool
    ensures { result ≡ false → heading_of (batch_words line.now) ≡ Other }
{
    if line.is_empty() {
        return true;
    }
    if line[0] == b'C' && line.len() > 2 {
        return may_go_on_in_code(line[1], line[2]);
    }
    may_begin_heading(line[0])
}

/// Whether these may be the bytes after the first of a line whose first word is `CODE`. Those of most instructions that
/// begin with `C` may not.
fn may_go_on_in_code(second: u8, third: u8) -> bool
    ensures { result ≡ may_go_on_in_code second third }
{
    third == b'D' || second <= b' ' || third <= b' '
}

/// Whether a byte separates words, or begins the first word of a heading.
fn may_begin_heading(byte: u8) -> bool
    ensures { result ≡ may_begin_heading byte }
{
    matches!(
        byte,
        b' ' | b'\t' | b'\r' | b'\n' | b'B' | b'C' | b'E' | b'S'
    )
}

/// Whether a heading has this first word.
fn begins_heading(word: &[u8]) -> bool
    ensures { result ≡ false → (words : List (List ℕ)) → heading_of (word.now ∷ words) ≡ Other }
{
    word == b"CODE".as_slice()
        || word == b"END".as_slice()
        || word == b"SIGNATURES".as_slice()
        || word == b"BATCH".as_slice()
}

/// What a line of this only word is.
fn marker(word: &[u8]) -> Heading
    ensures { result ≡ marker_of word.now }
{
    if word == b"SIGNATURES".as_slice() {
        Heading::Signatures
    } else if word == b"CODE".as_slice() {
        Heading::Code
    } else if word == b"END".as_slice() {
        Heading::End
    } else {
        Heading::Other
    }
}

/// What a line of these two words is.
fn pair(first: &[u8], second: &[u8]) -> Heading
    ensures { result ≡ pair_of first.now second.now }
{
    if first == b"BATCH".as_slice() && second == b"2".as_slice() {
        Heading::SecondRule
    } else {
        Heading::Other
    }
}
