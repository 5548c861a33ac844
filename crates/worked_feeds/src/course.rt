//! How a text is read in pieces.
ghost use Rattle.std.specs.Prelude.{◌<◌, ◌≤◌, ◌+◌, ℕ, IfOk, length};
ghost use Rattle.worked_feeds.specs.declared.course.TheConstants.{MOST_BYTES};

use crate::shortage::Shortage;
use linked_list_allocator::LocalHeap;
use std::alloc::AllocError;

/// The most bytes of a text.
pub const MOST_BYTES: usize = 1_000;

/// How a text is cut: the length of its first piece, and that of each further one.
#[derive(Clone, Copy)]
pub struct Cuts {
    pub first: usize,
    pub further: usize,
}

/// The result of reading a text in pieces.
#[derive(Clone, Copy, PartialEq, Eq, Debug)]
pub enum Course {
    /// No memory was refused, and the answer is that of the text in one piece.
    Right,
    /// Memory was refused, and each later call said so.
    Refused,
    /// Anything else.
    Wrong,
}

impl Course {
    /// The result of the pieces, if the next one is answered so.
    fn behind(self, fed: Result<(), AllocError>) -> Course {
        match (self, fed) {
            (Course::Right, Ok(())) => Course::Right,
            (Course::Right | Course::Refused, Err(AllocError)) => Course::Refused,
            _ => Course::Wrong,
        }
    }

    /// The result of a text, if its end is answered as that of the text in one piece is, or otherwise, or refused.
    fn at_end(self, end: End) -> Course {
        match (self, end) {
            (Course::Right, End::Same) => Course::Right,
            (Course::Right | Course::Refused, End::Refused) => Course::Refused,
            _ => Course::Wrong,
        }
    }
}

/// How a text ends that came in pieces.
#[derive(Clone, Copy, PartialEq, Eq, Debug)]
pub enum End {
    /// As the text in one piece.
    Same,
    /// With a refusal of memory.
    Refused,
    /// With anything else.
    Other,
}

impl End {
    /// How a text ends with an answer that is a refusal, or that of the text in one piece.
    pub(crate) fn of(is_refusal: bool, is_same: bool) -> End {
        if is_refusal {
            End::Refused
        } else if is_same {
            End::Same
        } else {
            End::Other
        }
    }
}

/// A reader that is fed a text, with memory of a heap.
pub trait Reader<'h>: Drop {
    /// The reading of a text, or a refusal of memory.
    type Reading: Drop;

    /// The bytes that may still come are fewer.
    ghost room: { Self → ℕ };

    /// Reads a text in one piece.
    fn at_once(heap: &'h LocalHeap, text: &[u8]) -> Self::Reading
        requires { length text.now ≤ MOST_BYTES };

    /// A reader of which nothing has come.
    fn begin(heap: &'h LocalHeap) -> Result<Self, AllocError>
        ensures { IfOk result (λ reader. MOST_BYTES < room reader) };

    /// Takes the next piece.
    fn take(&mut self, piece: &[u8]) -> Result<(), AllocError>
        requires { length piece.now < room self.old }
        ensures { room self.old ≤ length piece.now + room self.new };

    /// How the text ends, beside its reading in one piece.
    fn end_beside(self, whole: &Self::Reading) -> End;
}

/// The reading of a text in one piece, and then in pieces over a heap that runs short before one of the calls.
pub(crate) fn read_in_pieces<'h, R: Reader<'h>>(
    heap: &'h LocalHeap,
    text: &[u8],
    cuts: Cuts,
    shortage: &mut Shortage<'h>,
) -> Result<Course, AllocError> {
    if text.len() > MOST_BYTES {
        return Ok(Course::Wrong);
    }
    let whole = R::at_once(heap, text);
    read_beside::<R>(heap, text, cuts, shortage, &whole)
}

/// The reading of a text in pieces, beside its reading in one.
fn read_beside<'h, R: Reader<'h>>(
    heap: &'h LocalHeap,
    text: &[u8],
    cuts: Cuts,
    shortage: &mut Shortage<'h>,
    whole: &R::Reading,
) -> Result<Course, AllocError>
    requires { length text.now ≤ MOST_BYTES }
{
    shortage.next_call()?;
    let Ok(mut reader) = R::begin(heap) else {
        return Ok(Course::Refused);
    };
    let course = feed_pieces(&mut reader, text, cuts, shortage)?;
    Ok(course.at_end(reader.end_beside(whole)))
}

/// Feeds a text in pieces, up to the call that ends it.
fn feed_pieces<'h, R: Reader<'h>>(
    reader: &mut R,
    text: &[u8],
    cuts: Cuts,
    shortage: &mut Shortage<'h>,
) -> Result<Course, AllocError>
    requires { length text.now < R.room reader.old }
{
    let mut course = Course::Right;
    let mut size = cuts.first;
    let mut rest = text;
    'pieces: for _ in 0..=text.len() {
        let (piece, behind) = rest.split_at(size.min(rest.len()));
        shortage.next_call()?;
        let fed = reader.take(piece);
        if fed.is_err() {
            shortage.end();
        }
        course = course.behind(fed);
        size = cuts.further;
        rest = behind;
        if rest.is_empty() {
            break;
        }
    }
    shortage.next_call()?;
    Ok(course)
}
