//! Ranges of words of a region, by number, that are taken and given back.

ghost use Rattle.std.specs.Prelude.{◌≡◌, ◌+◌, ◌≤◌, All, length};
ghost use Rattle.bench_ops.specs.Spans.{AreApart};

use holes::laws::no_more_holes_than_words;
use holes::{Holes, LONGEST_REGION};
use std::alloc::{AllocError, Global};

/// The words `place..place + len`.
#[derive(Clone, Copy)]
struct Span {
    place: usize,
    len: usize,
}

impl Span {
    /// No words.
    const NONE: Span = Span { place: 0, len: 0 };
}

/// The holes of a region, and for each number the words that were taken for it.
#[derive(Drop)]
pub struct Spans {
    holes: Holes<Global>,
    spans: Vec<Span>,
    ghost within: { All (λ span. span.place + span.len ≤ length holes.free) spans.items },
    ghost apart: { AreApart holes.free spans.items },
}

impl Spans {
    /// A region of `size` words, of which no number has any.
    pub fn new(alloc: Global, size: usize, numbers: usize) -> Result<Self, AllocError>
        requires { size ≤ LONGEST_REGION }
    {
        let spans = vec![in alloc; Span::NONE; numbers]?;
        let most = size.saturating_add(1);
        let holes = Holes::new(alloc, size, most)?;
        Ok(Self { holes, spans })
    }

    /// Gives back the words of a number.
    pub fn give(&mut self, number: usize) {
        let Some(span) = self.spans.get(number) else {
            return;
        };
        let Span { place, len } = *span;
        if len == 0 || self.holes.free() >= self.holes.most() {
            return;
        }
        no_more_holes_than_words();
        self.holes.give(place, len);
        self.spans[number] = Span::NONE;
    }

    /// Takes `len` words for a number that has none, if there are as many in a row.
    pub fn take(&mut self, number: usize, len: usize) {
        let Some(span) = self.spans.get(number) else {
            return;
        };
        if len == 0 || span.len > 0 {
            return;
        }
        if let Some(place) = self.holes.take(len) {
            self.spans[number] = Span { place, len };
        }
    }

    /// The holes that are left.
    pub fn holes(&self) -> &Holes<Global>
        ensures { result.now ≡ self.now.holes }
    {
        &self.holes
    }
}
