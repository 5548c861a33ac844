//! A line of a batch.

ghost use Rattle.std.specs.Prelude.{◌+◌, ◌≤◌, length};
ghost use Rattle.vcode_base.specs.Lines.{line_feeds};
ghost use Rattle.vcode_base.specs.declared.limits.TheConstants.{MOST_BATCH_BYTES};

use crate::heading::Heading;

/// A line of a batch that is within its limit: its number, how many bytes of the batch come before it, its bytes, with
/// the LF that ends it if one does, and what it is.
#[derive(Clone, Copy)]
pub(crate) struct BatchLine<'a> {
    pub(crate) number: u64,
    pub(crate) place: usize,
    pub(crate) text: &'a [u8],
    pub(crate) heading: Heading,
    ghost number_in_range: { number ≤ place + 1 },
    ghost bytes_in_range: { place + length text.now ≤ MOST_BATCH_BYTES },
    ghost some: { 1 ≤ length text.now },
    ghost line: { line_feeds text.now ≤ 1 },
}
