//! Bytes that a stranger chose, as a text of one line that a terminal shows as it is; and a program's arguments.
//!
//! Names of files and arguments may have any bytes. Printed as they are, some of them move the cursor, ring, begin a
//! line that nobody wrote, or turn the direction of reading. [`shown`] writes these as escapes. [`shown_lines`] keeps a
//! text of lines that has none of them. [`arguments`] reads the arguments, and names one that is no text.
#![tactic(auto)]

ghost use Rattle.std.specs.Prelude.{◌≡◌, ◌≤◌, ◌∷◌, ◌++◌, IfOk, OnOk, string_bytes, encode_utf8_all, flat_map, chars};
ghost use Rattle.std.specs.Char.Iter.{escape_rest, escape_end};
ghost use Rattle.shown_text.specs.Shown.{is_printable, is_plain, shown_char, shown_byte, shown_text};

use std::alloc::{AllocError, Allocator};
use std::char::EscapeDefault;
use ucd_category::{GeneralCategory, GeneralCategoryGroup};
use ucd_derived::is_default_ignorable_code_point;

mod argument;
pub mod laws;
mod lines;

pub use argument::{ArgumentFault, arguments};
pub use lines::{has_shown_lines, shown_lines};

/// Whether the character has a shape, or is the blank: by its category it is none of the others (controls, formats,
/// private and unassigned ones) and no separator, and it isn't one that may be left out where it isn't known.
#[tactic(auto, unfolding(crate::specs::Shown::is_printable))]
pub fn is_printable(c: char) -> bool
    ensures { result ≡ is_printable c }
{
    let category = GeneralCategory::for_char(c);
    let is_other = GeneralCategoryGroup::Other.contains(category);
    let is_separator = GeneralCategoryGroup::Separator.contains(category);
    (c == ' ') | !(is_other | is_separator | is_default_ignorable_code_point(c))
}

/// Whether the character stands for itself.
fn is_plain(c: char) -> bool
    ensures { result ≡ is_plain c }
{
    (c != '\\') & is_printable(c)
}

/// Appends the characters of an escape.
fn push_escape<A: Allocator>(text: &mut String<A>, escape: EscapeDefault) -> Result<(), AllocError>
    requires { escape_end escape ≤ 10 }
    ensures { OnOk result (string_bytes text.new ≡ string_bytes text.old ++ encode_utf8_all (escape_rest escape)) }
{
    for part in escape {
        text.push(part)?;
    }
    Ok(())
}

/// Appends a character, as itself or as its escape.
#[tactic(auto, unfolding(crate::specs::Shown::shown_char))]
fn push_char<A: Allocator>(text: &mut String<A>, c: char) -> Result<(), AllocError>
    ensures { OnOk result (string_bytes text.new ≡ string_bytes text.old ++ encode_utf8_all (shown_char c)) }
{
    if is_plain(c) {
        text.push(c)
    } else {
        push_escape(text, c.escape_default())
    }
}

/// Appends the characters of a text.
fn push_text<A: Allocator>(text: &mut String<A>, valid: &str) -> Result<(), AllocError>
    ensures { OnOk result (string_bytes text.new ≡ string_bytes text.old
        ++ encode_utf8_all (flat_map shown_char (chars valid.now))) }
{
    for c in valid.chars() {
        push_char(text, c)?;
    }
    Ok(())
}

/// Appends a byte that is part of no character, as its escape.
#[tactic(auto, unfolding(crate::specs::Shown::shown_byte))]
fn push_byte<A: Allocator>(text: &mut String<A>, byte: u8) -> Result<(), AllocError>
    ensures { OnOk result (string_bytes text.new ≡ string_bytes text.old ++ encode_utf8_all (shown_byte byte)) }
{
    for part in byte.escape_ascii() {
        text.push(char::from(part))?;
    }
    Ok(())
}

/// Appends bytes that are parts of no character.
fn push_bytes<A: Allocator>(text: &mut String<A>, invalid: &[u8]) -> Result<(), AllocError>
    ensures { OnOk result (string_bytes text.new ≡ string_bytes text.old
        ++ encode_utf8_all (flat_map shown_byte invalid.now)) }
{
    for byte in invalid {
        push_byte(text, *byte)?;
    }
    Ok(())
}

/// The bytes as they may be printed: printable characters stay as they are, all others are written as escapes.
///
/// A backslash becomes `\\`. LF, CR and TAB become `\n`, `\r` and `\t`. Any other character that isn't printable
/// becomes `\u{..}` with its hexadecimal number, and each byte that is part of no character `\x..`. So the text is one
/// line, and different bytes give different texts.
///
/// # Errors
///
/// [`AllocError`] if the memory for the text is refused.
pub fn shown<A: Allocator>(alloc: A, bytes: &[u8]) -> Result<String<A>, AllocError>
    ensures { IfOk result (λ text. string_bytes text ≡ encode_utf8_all (shown_text bytes.now)) }
{
    let mut text = String::new(alloc);
    for chunk in bytes.utf8_chunks() {
        push_text(&mut text, chunk.valid())?;
        push_bytes(&mut text, chunk.invalid())?;
    }
    Ok(text)
}

/// What is wrong with the file or folder of this name: the name as it may be printed, a colon, a blank, and the reason.
///
/// # Errors
///
/// [`AllocError`] if the memory for the text is refused.
pub fn named<A: Allocator>(alloc: A, name: &str, reason: &str) -> Result<String<A>, AllocError>
    ensures { IfOk result (λ text. string_bytes text
        ≡ encode_utf8_all (shown_text name.now) ++ (58 ∷ 32 ∷ reason.now)) }
{
    let mut text = shown(alloc, name.as_bytes())?;
    text.push_str(": ")?;
    text.push_str(reason)?;
    Ok(text)
}
