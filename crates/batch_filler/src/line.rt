//! The lines of a batch.

ghost use Rattle.std.specs.Prelude.{◌≡◌, ◌∷◌, ◌<◌, [], MatchOption, length};
ghost use Rattle.batch_reader.specs.Lines.{lines};

use memchr::memchr;

/// The first line of a text, with the LF that ends it if one does, and what comes after it.
pub(crate) fn first_line(text: &[u8]) -> Option<(&[u8], &[u8])>
    ensures { MatchOption result
        (lines text.now ≡ [])
        (λ parts. (lines text.now ≡ parts.0.now ∷ lines parts.1.now) × (length parts.1.now < length text.now)) }
{
    if text.is_empty() {
        return None;
    }
    match memchr(b'\n', text) {
        Some(place) => Some(text.split_at(place + 1)),
        None => Some((text, &[])),
    }
}
