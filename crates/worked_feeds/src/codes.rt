//! Code in pieces.
ghost use Rattle.std.specs.Prelude.{◌+◌, ◌-◌, ◌^◌, cond, min};
ghost use Rattle.vcode_reader.specs.declared.reader.TheConstants.{MOST_CODE_BYTES};

use crate::course::{End, Reader};
use crate::shortage::HEAP;
use crate::sweeps::{is_read_however_cut, tells_each_refusal};
use linked_list_allocator::LocalHeap;
use std::alloc::AllocError;
use std::test::Fail;
use vcode_base::TextFault;
use vcode_base::laws::line_feeds_are_few;
use vcode_reader::{CodeReader, Program, ReadFault, read};

/// The number of the first line.
const FIRST_LINE: u64 = 5;

/// Two functions, with CRLFs and comments that hold lines.
const TWO_FUNCTIONS: &[u8] =
    b"FUNC MAIN\r\n{ one\r\n{two }CONST INT(1 -23\n) CONST BOOL T\r\nIF CALL f ENDIF\nRET\r\nFUNC f{}RET{}";

/// The comment on the third line is left open.
const OPEN_COMMENT: &[u8] = b"FUNC MAIN\nRET\n{ open\r\nRET";

/// The word on the second line is none.
const BAD_WORD: &[u8] = b"FUNC MAIN\r\nCONSTANT INT 1\r\nRET\r\n{ open";

impl<'h> Reader<'h> for CodeReader<&'h LocalHeap> {
    type Reading = Result<Program<&'h LocalHeap>, ReadFault>;

    ghost room = { λ r. cond r.failed (2 ^ 64) (min (2 ^ 64 - r.scan.line) (MOST_CODE_BYTES + 1 - r.size)) };

    fn at_once(heap: &'h LocalHeap, text: &[u8]) -> Self::Reading {
        line_feeds_are_few();
        read(heap, text, FIRST_LINE)
    }

    fn begin(heap: &'h LocalHeap) -> Result<Self, AllocError> {
        CodeReader::new(heap, FIRST_LINE)
    }

    fn take(&mut self, piece: &[u8]) -> Result<(), AllocError> {
        line_feeds_are_few();
        self.feed(piece)
    }

    fn end_beside(self, whole: &Self::Reading) -> End {
        let answer = self.finish();
        End::of(answer == Err(TextFault::Memory), answer == *whole)
    }
}

#[test]
fn code_is_read_however_cut(rt: HostRuntime) -> Result<(), Fail> {
    let heap = LocalHeap::new(rt.alloc(), HEAP)?;
    for text in [TWO_FUNCTIONS, OPEN_COMMENT, BAD_WORD] {
        is_read_however_cut::<CodeReader<_>>(&rt, rt.alloc(), &heap, text)?;
    }
    Ok(())
}

#[test]
fn code_tells_each_refusal(rt: HostRuntime) -> Result<(), Fail> {
    let heap = LocalHeap::new(rt.alloc(), HEAP)?;
    for text in [TWO_FUNCTIONS, OPEN_COMMENT, BAD_WORD] {
        tells_each_refusal::<CodeReader<_>>(&rt, rt.alloc(), &heap, text, 1)?;
    }
    Ok(())
}
