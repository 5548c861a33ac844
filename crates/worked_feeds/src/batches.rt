//! Batches in pieces.
ghost use Rattle.std.specs.Prelude.{◌^◌};

use crate::course::{End, Reader};
use crate::shortage::HEAP;
use crate::sweeps::{is_read_however_cut, tells_each_refusal};
use batch_reader::{Batch, Feed, JobEntries};
use linked_list_allocator::LocalHeap;
use std::alloc::AllocError;
use std::test::Fail;

/// The words of the region.
const REGION: usize = 64;

/// The bytes of the pieces among which memory is refused: in pieces of one byte a batch takes too long.
const PIECE: usize = 4;

/// A job that may run, and one for each fault of a job; CRLFs, comments that hold lines, and a last line without LF.
const FIVE_JOBS: &[u8] = b"JOB runs 9 16 4 100\r\nSIGNATURES\r\nMAIN () -> (INT)\r\nCODE\r\n\
    FUNC MAIN { one\r\nEND two }\r\nCONST INT 1\r\nRET\r\nEND\r\n \r\n\
    JOB wide 65 16 4 100\nSIGNATURES\nCODE\nEND\n\
    JOB twice 9 16 4 100\nSIGNATURES\nf()->()\nf()->()\nCODE\nEND\n\
    JOB bad 9 16 4 100\nSIGNATURES\nCODE\nFUNK\nEND\n\
    JOB bare 9 16 4 100\nSIGNATURES\nCODE\nFUNC MAIN\nRET\nEND";

/// Two jobs, of which the first may run.
const TWO_JOBS: &[u8] =
    b"JOB a 9 16 4 100\r\nSIGNATURES\nMAIN () -> ()\nCODE\nFUNC MAIN{}CONST INT(1 2)\r\n\
    POP 1 0\nRET\nEND\n\nJOB b 9 16 4 100\nSIGNATURES\nf\nCODE\nEND";

/// The second job has no `END`.
const UNFINISHED: &[u8] =
    b"JOB a 9 16 4 100\nSIGNATURES\nCODE\nEND\n\nJOB b 9 16 4 100\nSIGNATURES\nCODE\n{ END }\n";

/// After the job comes a line that is none of a job.
const BAD_LINE: &[u8] = b"JOB a 9 16 4 100\nSIGNATURES\nCODE\nEND\r\nEND\r\nJOB b 9 16 4 100";

/// Blank lines before the rule line and after it, and a job that is refused.
const SECOND_RULE: &[u8] = b"\n \r\n\tBATCH  2\r\n\nJOB a 9 16 4 100\nSIGNATURES\nCODE\nEND\n";

/// The rule line comes twice.
const RULE_TWICE: &[u8] = b"BATCH 2\n\nBATCH 2\nJOB a 9 16 4 100\n";

/// The rule line comes after a job.
const LATE_RULE: &[u8] = b"JOB a 9 16 4 100\nSIGNATURES\nCODE\nEND\nBATCH 2\n";

/// The answer to a batch, or a refusal of memory.
type Reading<'h> = Result<Batch<JobEntries<&'h LocalHeap>>, AllocError>;

/// A batch in one piece. What `feed` refuses `end` answers again.
fn read<'h>(heap: &'h LocalHeap, text: &[u8]) -> Reading<'h> {
    let mut feed = Feed::new(heap, REGION)?;
    let _ = feed.feed(text);
    feed.end()
}

impl<'h> Reader<'h> for Feed<&'h LocalHeap> {
    type Reading = Reading<'h>;

    ghost room = { λ _. 2 ^ 64 };

    fn at_once(heap: &'h LocalHeap, text: &[u8]) -> Self::Reading {
        read(heap, text)
    }

    fn begin(heap: &'h LocalHeap) -> Result<Self, AllocError> {
        Feed::new(heap, REGION)
    }

    fn take(&mut self, piece: &[u8]) -> Result<(), AllocError> {
        self.feed(piece)
    }

    fn end_beside(self, whole: &Self::Reading) -> End {
        let answer = self.end();
        End::of(answer == Err(AllocError), answer == *whole)
    }
}

#[test]
fn batches_are_read_however_cut(rt: HostRuntime) -> Result<(), Fail> {
    let heap = LocalHeap::new(rt.alloc(), HEAP)?;
    for text in [
        FIVE_JOBS,
        TWO_JOBS,
        UNFINISHED,
        BAD_LINE,
        SECOND_RULE,
        RULE_TWICE,
        LATE_RULE,
        b"BATCH 2",
        b"\nBATCH 02\n",
    ] {
        is_read_however_cut::<Feed<_>>(&rt, rt.alloc(), &heap, text)?;
    }
    Ok(())
}

#[test]
fn batches_tell_each_refusal(rt: HostRuntime) -> Result<(), Fail> {
    let heap = LocalHeap::new(rt.alloc(), HEAP)?;
    for text in [TWO_JOBS, UNFINISHED] {
        tells_each_refusal::<Feed<_>>(&rt, rt.alloc(), &heap, text, PIECE)?;
    }
    Ok(())
}
