//! Each cut of a text, and each refusal.
use crate::course::{Course, Cuts, Reader, read_in_pieces};
use crate::shortage::{HEAP, LEAST_BLOCK, Shortage};
use linked_list_allocator::LocalHeap;
use std::alloc::{AllocError, Global};
use std::process::Abort;

/// The bytes of the pieces of a text that is cut into more than two: one, a few, and more than any text has.
const PIECES: [usize; 3] = [1, 7, 4_096];

/// Cut into two at any place, and in pieces of three sizes, the text is answered as it is in one piece.
pub(crate) fn is_read_however_cut<'h, R: Reader<'h>>(
    rt: &impl Abort,
    alloc: Global,
    heap: &'h LocalHeap,
    text: &[u8],
) -> Result<(), AllocError> {
    for first in 0..=text.len() {
        let cuts = Cuts {
            first,
            further: text.len(),
        };
        reads_right::<R>(rt, alloc, heap, text, cuts)?;
    }
    for size in PIECES {
        let cuts = Cuts {
            first: size,
            further: size,
        };
        reads_right::<R>(rt, alloc, heap, text, cuts)?;
    }
    Ok(())
}

/// So cut, the answer is that of the text in one piece, and no memory is kept.
fn reads_right<'h, R: Reader<'h>>(
    rt: &impl Abort,
    alloc: Global,
    heap: &'h LocalHeap,
    text: &[u8],
    cuts: Cuts,
) -> Result<(), AllocError> {
    let course = read_in_pieces::<R>(heap, text, cuts, &mut Shortage::never(alloc, heap))?;
    assert_eq!(rt;
        course,
        Course::Right,
        "{} and {}",
        cuts.first,
        cuts.further
    );
    assert_eq!(rt; heap.used(), 0);
    Ok(())
}

/// Whichever growth is refused of the text in pieces of this size, each later call answers it; without a refusal the
/// answer is right.
pub(crate) fn tells_each_refusal<'h, R: Reader<'h>>(
    rt: &impl Abort,
    alloc: Global,
    heap: &'h LocalHeap,
    text: &[u8],
    size: usize,
) -> Result<(), AllocError> {
    let cuts = Cuts {
        first: size,
        further: size,
    };
    let mut refusals = 0;
    // One call makes the reader, and one ends the text.
    for call in 0..(text.len() / size.max(1)).saturating_add(3) {
        refusals = refusals.max(refusals_from::<R>(rt, alloc, heap, text, cuts, call)?);
    }
    assert!(rt; refusals > 0);
    Ok(())
}

/// The reading of a text over a heap of which at most this number of bytes is left before the call of this number.
fn course_in_want<'h, R: Reader<'h>>(
    alloc: Global,
    heap: &'h LocalHeap,
    text: &[u8],
    cuts: Cuts,
    call: usize,
    spare: usize,
) -> Result<Course, AllocError> {
    let mut shortage = Shortage::before(alloc, heap, call, spare);
    read_in_pieces::<R>(heap, text, cuts, &mut shortage)
}

/// How many refusals there are before the heap has room enough that is taken before the call of this number.
fn refusals_from<'h, R: Reader<'h>>(
    rt: &impl Abort,
    alloc: Global,
    heap: &'h LocalHeap,
    text: &[u8],
    cuts: Cuts,
    call: usize,
) -> Result<usize, AllocError> {
    for spare in (0..HEAP).step_by(LEAST_BLOCK) {
        let course = course_in_want::<R>(alloc, heap, text, cuts, call, spare)?;
        assert_eq!(rt; heap.used(), 0);
        if course == Course::Right {
            return Ok(spare / LEAST_BLOCK);
        }
        assert_eq!(rt; course, Course::Refused, "{call} and {spare}");
    }
    assert!(rt; false, "no heap is large enough");
    Ok(0)
}
