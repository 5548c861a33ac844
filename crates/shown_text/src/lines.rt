//! Texts of lines.
ghost use Rattle.std.specs.Prelude.{◌≡◌, ◌↔◌, IfOk, IsTrue, string_bytes};
ghost use Rattle.shown_text.specs.Lines.{IsOfLines, HasShownLines};

use crate::{is_printable, shown};
use std::alloc::{AllocError, Allocator};

/// Whether the character is printable or ends a line.
fn is_of_lines(c: char) -> bool
    ensures { IsTrue result ↔ IsOfLines c }
{
    (c == '\n') | is_printable(c)
}

/// Whether a terminal shows the text as it is: each of its characters is printable or ends a line.
pub fn has_shown_lines(text: &str) -> bool
    ensures { IsTrue result ↔ HasShownLines text.now }
{
    for c in text.chars() {
        if !is_of_lines(c) {
            return false;
        }
    }
    true
}

/// A text that a terminal shows as it is: this one if it is such a text, and else what is [`shown`] of its bytes.
///
/// # Errors
///
/// [`AllocError`] if the memory for the text is refused.
pub fn shown_lines<A: Allocator>(alloc: A, text: String<A>) -> Result<String<A>, AllocError>
    ensures lines { IfOk result (λ shown. HasShownLines (string_bytes shown)) }
    ensures same { HasShownLines (string_bytes text) → IfOk result (λ shown. string_bytes shown ≡ string_bytes text) }
{
    if has_shown_lines(text.as_str()) {
        return Ok(text);
    }
    shown(alloc, text.as_bytes())
}
