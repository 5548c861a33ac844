//! The bytes of a text.

ghost use Rattle.std.specs.Prelude.{◌≡◌};
ghost use Rattle.vcode_reader.specs.Classes.{class_of, is_passed, is_plain, passed_length, plain_length};

/// What a byte does in a text.
#[derive(Clone, Copy)]
pub enum Class {
    /// It ends a word and a line.
    LineFeed,
    /// It ends a word.
    Blank,
    /// It begins a comment.
    OpenBrace,
    /// It ends a comment, and is refused outside one.
    CloseBrace,
    /// It is a word by itself.
    Parenthesis,
    /// It is a part of a word.
    Plain,
    /// It is allowed only in a comment.
    Refused,
}

/// What a byte does.
#[tactic(auto, unfolding(crate::specs::Classes::class_of))]
pub(crate) fn class_of(byte: u8) -> Class
    ensures { result ≡ class_of byte }
{
    match byte {
        b'\n' => Class::LineFeed,
        b' ' | b'\t' | b'\r' => Class::Blank,
        b'{' => Class::OpenBrace,
        b'}' => Class::CloseBrace,
        b'(' | b')' => Class::Parenthesis,
        33..=126 => Class::Plain,
        _ => Class::Refused,
    }
}

/// Whether a byte is a part of a word.
#[inline(always)]
#[tactic(auto, using(crate::proofs::Pieces::plain_range))]
pub(crate) fn is_plain(byte: u8) -> bool
    ensures { result ≡ is_plain (class_of byte) }
{
    // Nearly all of them lie in one range.
    if b'*' <= byte && byte <= b'z' {
        return true;
    }
    matches!(class_of(byte), Class::Plain)
}

/// How many bytes at the front of a text are parts of a word.
#[inline(always)]
#[tactic(auto, using(crate::proofs::Pieces::plain_steps))]
pub(crate) fn plain_length(text: &[u8]) -> usize
    ensures { result ≡ plain_length text.now }
{
    for (place, byte) in text.iter().enumerate() {
        if !is_plain(*byte) {
            return place;
        }
    }
    text.len()
}

/// Whether a byte changes nothing in a comment.
#[inline(always)]
#[tactic(auto, unfolding(crate::specs::Classes::class_of))]
fn is_passed(byte: u8) -> bool
    ensures { result ≡ is_passed (class_of byte) }
{
    match byte {
        b'\n' | b'}' => false,
        _ => true,
    }
}

/// How many bytes at the front of a text change nothing in a comment.
#[inline(always)]
#[tactic(auto, using(crate::proofs::Pieces::passed_steps))]
pub(crate) fn passed_length(text: &[u8]) -> usize
    ensures { result ≡ passed_length text.now }
{
    for (place, byte) in text.iter().enumerate() {
        if !is_passed(*byte) {
            return place;
        }
    }
    text.len()
}
