//! The lines of a text.

ghost use Rattle.std.specs.Prelude.{◌≡◌, ◌<◌, ◌≤◌, ◌++◌, get_or, length, IsTrue, MatchOption};
ghost use Rattle.vcode_base.specs.Lines.{line_feeds};
ghost use Rattle.batch_reader.specs.Feeds.{HoldsNoLineFeed, IsWholeLine};
ghost use Rattle.batch_reader.specs.Runs.{AreWholeLines};

use memchr::{memchr, memrchr};

/// The bytes of a piece whose LFs a byte counts.
const PIECE: usize = 224;

/// The first line of a text that an LF ends, with that LF, and the rest after it; `None` if there is no LF.
#[tactic(auto, using(crate::proofs::LineLemmas::of_first_line))]
pub(crate) fn first_line(text: &[u8]) -> Option<(&[u8], &[u8])>
    ensures { MatchOption result (HoldsNoLineFeed text.now)
        (λ parts. IsWholeLine parts.0.now × (text.now ≡ parts.0.now ++ parts.1.now)) }
{
    if begins_with_line_feed(text) {
        return Some(text.split_at(1));
    }
    let place = memchr(b'\n', text)?;
    Some(text.split_at(place + 1))
}

/// Whether the first byte of a text is an LF.
#[inline(always)]
fn begins_with_line_feed(text: &[u8]) -> bool
    ensures some { IsTrue result → 0 < length text.now }
    ensures feed { IsTrue result → get_or text.now 0 0 ≡ 10 }
{
    if text.is_empty() {
        return false;
    }
    text[0] == b'\n'
}

/// The lines of a text that an LF before this place ends, and the rest after them.
#[tactic(auto, using(crate::proofs::CodeTexts::of_front))]
#[inline(always)]
pub(crate) fn whole_lines_before(text: &[u8], place: usize) -> (&[u8], &[u8])
    requires { place ≤ length text.now }
    ensures parts { text.now ≡ result.0.now ++ result.1.now }
    ensures whole { AreWholeLines result.0.now }
    ensures within { length result.0.now ≤ place }
{
    let (before, _) = text.split_at(place);
    match memrchr(b'\n', before) {
        Some(last) => text.split_at(last + 1),
        None => text.split_at(0),
    }
}

/// How many LFs a text has.
#[tactic(auto, using(crate::proofs::CodeTexts::feeds_of_parts, crate::proofs::CodeTexts::few_feeds))]
pub(crate) fn count_line_feeds(text: &[u8]) -> u64
    ensures { result ≡ line_feeds text.now }
{
    let mut rest = text;
    let mut count = 0;
    'pieces: while rest.len() > PIECE {
        let (piece, behind) = rest.split_at(PIECE);
        count += u64::from(count_in_piece(piece));
        rest = behind;
    }
    count + u64::from(count_in_piece(rest))
}

/// How many LFs a text of at most 255 bytes has. The count is a byte, so that one instruction looks at many bytes.
#[tactic(auto, using(crate::proofs::CodeTexts::feeds_taken))]
fn count_in_piece(piece: &[u8]) -> u8
    requires { length piece.now ≤ 255 }
    ensures { result ≡ line_feeds piece.now }
{
    let mut count = 0;
    for byte in piece {
        count += u8::from(*byte == b'\n');
    }
    count
}
