//! Signatures in pieces.
ghost use Rattle.std.specs.Prelude.{◌-◌, ◌^◌, cond};

use crate::course::{End, Reader};
use crate::shortage::HEAP;
use crate::sweeps::{is_read_however_cut, tells_each_refusal};
use linked_list_allocator::LocalHeap;
use signatures::{SigFault, SigReader, Signatures, read};
use std::alloc::AllocError;
use std::test::Fail;
use vcode_base::TextFault;
use vcode_base::laws::line_feeds_are_few;

/// The number of the first line.
const FIRST_LINE: u64 = 3;

/// Three signatures, with CRLFs, of which the last line has no LF.
const THREE: &[u8] =
    b"MAIN()->(INT)\r\n\r\nf (INT\tBOOL) -> ()\r\n-> (SEGDES) -> (INT INT INT INT INT)";

/// The third line has the name of the first.
const NAME_TWICE: &[u8] = b"MAIN () -> (INT)\r\n\nMAIN () -> (INT)\r\nMAIN () (INT)";

/// The second line lacks a word.
const BAD_LINE: &[u8] = b"MAIN () -> (INT)\r\nf () (INT)\r\nMAIN () -> (INT)";

/// Signatures, or why there are none.
type Reading<'h> = Result<Signatures<&'h LocalHeap>, SigFault>;

impl<'h> Reader<'h> for SigReader<&'h LocalHeap> {
    type Reading = Reading<'h>;

    ghost room = { λ r. cond r.failed (2 ^ 64) (2 ^ 64 - r.scan.number) };

    fn at_once(heap: &'h LocalHeap, text: &[u8]) -> Self::Reading {
        line_feeds_are_few();
        read(heap, text, FIRST_LINE)
    }

    fn begin(heap: &'h LocalHeap) -> Result<Self, AllocError> {
        Ok(SigReader::new(heap, FIRST_LINE))
    }

    fn take(&mut self, piece: &[u8]) -> Result<(), AllocError> {
        line_feeds_are_few();
        self.feed(piece)
    }

    fn end_beside(self, whole: &Self::Reading) -> End {
        let answer = self.finish();
        let is_refusal = matches!(answer, Err(TextFault::Memory));
        End::of(is_refusal, are_read_alike(&answer, whole))
    }
}

/// Whether both are the same signatures, or the same fault.
fn are_read_alike(left: &Reading<'_>, right: &Reading<'_>) -> bool {
    match (left, right) {
        (Ok(left), Ok(right)) => are_same(left, right),
        (Err(left), Err(right)) => left == right,
        _ => false,
    }
}

/// Whether both are the same signatures in the same order.
fn are_same(left: &Signatures<&LocalHeap>, right: &Signatures<&LocalHeap>) -> bool {
    // After the last both have none.
    (0..=left.len()).all(|place| left.at(place) == right.at(place))
}

#[test]
fn signatures_are_read_however_cut(rt: HostRuntime) -> Result<(), Fail> {
    let heap = LocalHeap::new(rt.alloc(), HEAP)?;
    for text in [THREE, NAME_TWICE, BAD_LINE] {
        is_read_however_cut::<SigReader<_>>(&rt, rt.alloc(), &heap, text)?;
    }
    Ok(())
}

#[test]
fn signatures_tell_each_refusal(rt: HostRuntime) -> Result<(), Fail> {
    let heap = LocalHeap::new(rt.alloc(), HEAP)?;
    for text in [THREE, NAME_TWICE, BAD_LINE] {
        tells_each_refusal::<SigReader<_>>(&rt, rt.alloc(), &heap, text, 1)?;
    }
    Ok(())
}
