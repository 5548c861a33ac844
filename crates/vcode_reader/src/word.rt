//! What one word is, at the place of a number, a kind or a name.

ghost use Rattle.std.specs.Prelude.{◌≡◌};
ghost use Rattle.vcode_reader.specs.Numbers.{natural_of};
ghost use Rattle.vcode_reader.specs.Parsing.{is_bad_byte, is_bad, is_parenthesis, is_no_name, no_number};
ghost use Rattle.vcode_reader.specs.Parsing.{no_value, int_of, kind_of, count_in};

use crate::fault::CodeFault;
use crate::number::natural_of;
use vcode_base::limits::MOST_MOVED;
use vcode_base::{Scalar, is_visible};

fn is_bad_byte(byte: u8) -> bool
    ensures { result ≡ is_bad_byte byte }
{
    !is_visible(byte) || byte == b'{' || byte == b'}'
}

/// Is the word a byte that no text has?
fn is_bad(word: &[u8]) -> bool
    ensures { result ≡ is_bad word.now }
{
    match word {
        [byte] => is_bad_byte(*byte),
        _ => false,
    }
}

fn is_parenthesis(word: &[u8]) -> bool
    ensures { result ≡ is_parenthesis word.now }
{
    word == b"(".as_slice() || word == b")".as_slice()
}

pub(crate) fn is_no_name(word: &[u8]) -> bool
    ensures { result ≡ is_no_name word.now }
{
    is_parenthesis(word) || is_bad(word)
}

/// What is wrong with a word that is not the required number.
fn no_number(word: &[u8]) -> CodeFault
    ensures { result ≡ no_number word.now }
{
    if is_bad(word) {
        CodeFault::BadWord
    } else {
        CodeFault::BadNumber
    }
}

/// What is wrong with a word that is no value of this kind at the place of one.
pub(crate) fn no_value(kind: Scalar, word: &[u8]) -> CodeFault
    ensures { result ≡ no_value kind word.now }
{
    match kind {
        Scalar::Int => no_number(word),
        Scalar::Bool => CodeFault::BadWord,
    }
}

/// The kind `INT`, if the word is that.
pub(crate) fn int_of(word: &[u8]) -> Option<Scalar>
    ensures { result ≡ int_of word.now }
{
    if word == b"INT".as_slice() {
        Some(Scalar::Int)
    } else {
        None
    }
}

/// The kind that a word is.
pub(crate) fn kind_of(word: &[u8]) -> Option<Scalar>
    ensures { result ≡ kind_of word.now }
{
    match word {
        b"INT" => Some(Scalar::Int),
        b"BOOL" => Some(Scalar::Bool),
        _ => None,
    }
}

/// The count of a motion of the stack that a word is, or what is wrong with it.
pub(crate) fn count_in(word: &[u8]) -> Result<u16, CodeFault>
    ensures { result ≡ count_in (natural_of word.now) word.now }
{
    match natural_of(word) {
        None => Err(no_number(word)),
        Some(count) => {
            if count > MOST_MOVED {
                return Err(CodeFault::TooLarge);
            }
            Ok(count as u16)
        }
    }
}
