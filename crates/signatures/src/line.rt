//! A line of signatures.

ghost use Rattle.std.specs.Prelude.{◌≡◌, ◌∷◌, [], None, Some, MatchResult, MatchOption};
ghost use Rattle.signatures.specs.Faults.{OnBadLine};
ghost use Rattle.signatures.specs.Reading.{kind_of, words_behind, list_in, kinds_from, arrow_in};
ghost use Rattle.signatures.specs.Spelling.{is_name, is_name_byte};

use crate::fault::{EntryFault, SignatureFault};
use crate::function_type::FunctionType;
use std::alloc::Allocator;
use vcode_base::{Kind, LineWords, is_visible};

/// The kind of this word.
fn kind_of(word: &[u8]) -> Option<Kind>
    ensures { result ≡ kind_of word.now }
{
    if word == b"INT".as_slice() {
        Some(Kind::Int)
    } else if word == b"BOOL".as_slice() {
        Some(Kind::Bool)
    } else if word == b"SEGDES".as_slice() {
        Some(Kind::Segdes)
    } else {
        None
    }
}

/// Whether a byte may be in a name.
fn is_name_byte(byte: u8) -> bool
    ensures { result ≡ is_name_byte byte }
{
    is_visible(byte) && !matches!(byte, b'(' | b')' | b'{' | b'}')
}

/// Whether a word may be a name.
pub(crate) fn is_name(word: &[u8]) -> bool
    ensures { result ≡ is_name word.now }
{
    word.iter().all(|byte| is_name_byte(*byte))
}

/// Takes a required word.
fn expect(words: &mut LineWords<'_>, expected: &[u8]) -> Result<(), EntryFault>
    ensures { MatchResult result
        (λ _. words_behind expected.now words.old ≡ Some words.new)
        (λ fault. OnBadLine fault (words_behind expected.now words.old ≡ None)) }
{
    match words.next() {
        Some(word) if word == expected => Ok(()),
        _ => Err(EntryFault::Wrong(SignatureFault::BadLine)),
    }
}

/// Takes a list of kinds in parentheses.
fn list<A: Allocator>(alloc: A, words: &mut LineWords<'_>) -> Result<Vec<Kind, A>, EntryFault>
    ensures { MatchResult result
        (λ kinds. list_in words.old ≡ Some (kinds.items, words.new))
        (λ fault. OnBadLine fault (list_in words.old ≡ None)) }
{
    expect(words, b"(")?;
    kinds(alloc, words)
}

/// Takes kinds up to a closing parenthesis.
#[tactic(auto, unfolding(crate::specs::Reading::kinds_from))]
fn kinds<A: Allocator>(alloc: A, words: &mut LineWords<'_>) -> Result<Vec<Kind, A>, EntryFault>
    ensures { MatchResult result
        (λ kinds. kinds_from [] words.old ≡ Some (kinds.items, words.new))
        (λ fault. OnBadLine fault (kinds_from [] words.old ≡ None)) }
{
    let mut kinds = Vec::new(alloc);
    while let Some(word) = words.next() {
        if word == b")".as_slice() {
            return Ok(kinds);
        }
        let Some(kind) = kind_of(word) else {
            return Err(EntryFault::Wrong(SignatureFault::BadLine));
        };
        kinds.push(kind)?;
    }
    Err(EntryFault::Wrong(SignatureFault::BadLine))
}

/// The kinds that the words after a name say.
#[tactic(auto, unfolding(crate::specs::Reading::arrow_in))]
pub(crate) fn arrow<A: Allocator + Clone>(
    alloc: A,
    mut words: LineWords<'_>,
) -> Result<FunctionType<A>, EntryFault>
    ensures { MatchResult result
        (λ kinds. arrow_in words.entry ≡ Some kinds)
        (λ fault. OnBadLine fault (arrow_in words.entry ≡ None)) }
{
    let operands = list(alloc.clone()?, &mut words)?;
    expect(&mut words, b"->")?;
    let results = list(alloc, &mut words)?;
    match words.next() {
        None => Ok(FunctionType::new(operands, results)),
        Some(_) => Err(EntryFault::Wrong(SignatureFault::BadLine)),
    }
}
