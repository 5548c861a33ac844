//! The words of a line.

ghost use Rattle.std.specs.Prelude.{◌≡◌, ◌∷◌, [], MatchOption, true};
ghost use Rattle.vcode_base.specs.LineWords.{begins_with_word, is_parenthesis, is_separator, stands_alone};
ghost use Rattle.vcode_base.specs.LineWords.{words_of_line};

use std::marker::Model;

/// What a parenthesis is in a line.
#[derive(Clone, Copy, PartialEq, Eq, Debug)]
pub enum Parentheses {
    /// Each is a word by itself, as in a signature.
    AreWords,
    /// They are part of words like other bytes, as in a job's name.
    StandInWords,
}

/// The words of a line that are still to come: its runs of bytes other than blank, tab, CR and the
/// LF that ends it.
#[derive(Drop)]
pub struct LineWords<'a> {
    rest: &'a [u8],
    parentheses: Parentheses,
}

impl<'a> Model for LineWords<'a> {
    ghost use Rattle.std.specs.Prelude.{ℕ, List};
    ghost use Rattle.vcode_base.specs.LineWords.{words_of_line};

    ghost Value = { List (List ℕ) };

    ghost view = { λ w. words_of_line w.parentheses w.rest.now };
}

impl<'a> LineWords<'a> {
    /// The words of a line.
    pub fn new(line: &'a [u8], parentheses: Parentheses) -> LineWords<'a>
        ensures { result ≡ words_of_line parentheses line.now }
    {
        LineWords {
            rest: line,
            parentheses,
        }
    }

    /// Takes the first word off, if there is one.
    pub fn next(&mut self) -> Option<&'a [u8]>
        ensures { MatchOption result
            ((self.old ≡ []) × (self.new ≡ []))
            (λ word. self.old ≡ word.now ∷ self.new) }
    {
        let (word, rest) = first_word(self.rest, self.parentheses)?;
        self.rest = rest;
        Some(word)
    }
}

/// Whether a byte separates words.
fn is_separator(byte: u8) -> bool
    ensures { result ≡ is_separator byte }
{
    byte == b' ' || byte == b'\t' || byte == b'\r' || byte == b'\n'
}

/// Whether a byte is a word by itself.
fn stands_alone(byte: u8, parentheses: Parentheses) -> bool
    ensures { result ≡ stands_alone parentheses byte }
{
    match parentheses {
        Parentheses::AreWords => byte == b'(' || byte == b')',
        Parentheses::StandInWords => false,
    }
}

/// The first word of a line and the rest after it; `None` if there is no word.
#[tactic(auto, unfolding(crate::specs::LineWords::words_of_line))]
fn first_word(line: &[u8], parentheses: Parentheses) -> Option<(&[u8], &[u8])>
    ensures { MatchOption result (words_of_line parentheses line.now ≡ [])
        (λ parts. words_of_line parentheses line.now
        ≡ parts.0.now ∷ words_of_line parentheses parts.1.now) }
{
    for (i, byte) in line.iter().enumerate() {
        if !is_separator(*byte) {
            return Some(split_word(&line[i..], parentheses));
        }
    }
    None
}

/// The word at the front and the rest after it.
#[tactic(auto, using(crate::proofs::LineWordLemmas::word_steps), unfolding(crate::specs::LineWords::words_of_line))]
fn split_word(text: &[u8], parentheses: Parentheses) -> (&[u8], &[u8])
    requires { begins_with_word text.now ≡ true }
    ensures { words_of_line parentheses text.now
        ≡ result.0.now ∷ words_of_line parentheses result.1.now }
{
    if stands_alone(text[0], parentheses) {
        return text.split_at(1);
    }
    for (i, byte) in text.iter().enumerate() {
        if is_separator(*byte) || stands_alone(*byte, parentheses) {
            return text.split_at(i);
        }
    }
    text.split_at(text.len())
}
