//! The whole program over a heap of few bytes.
use batch_front::{Device, FrontFault, Options, Status, run_alone};
use linked_list_allocator::LocalHeap;
use std::alloc::{AllocError, Global};
use std::process::Abort;
use std::test::Fail;

/// The bytes of the shortest block of a heap, of which the length of each other is a multiple.
const LEAST_BLOCK: usize = 16;

/// The most bytes of a heap.
const MOST_BYTES: usize = 1_048_576;

/// The words of the region.
const REGION: u32 = 64;

/// Jobs that return, that are refused, and that want more words than they have.
const BATCH: &[u8] =
    b"JOB a 9 16 4 100\nSIGNATURES\nMAIN () -> (INT)\nCODE\nFUNC MAIN\nCONST INT (1 2)\nRET\nEND\n\
    JOB b 9 16 4 100\nSIGNATURES\nCODE\nEND\n\
    JOB c 1 16 4 100\nSIGNATURES\nMAIN () -> (INT)\nCODE\nFUNC MAIN\nCONST INT (1 2)\nRET\nEND\n";

const REPORT: &[u8] = b"JOB 1 a RETURNED\nINT (1 2)\nUSED 2 instructions 2 words\n\
    JOB 2 b REFUSED line 12 V7 NO_MAIN\n\
    JOB 3 c MEMORY line 18 M1 WORDS\nUSED 0 instructions 0 words\nEND 3 jobs 1 refused\n";

/// The answer of a run that takes its memory of this heap, and what was written.
fn ending(heap: &LocalHeap, alloc: Global) -> (Result<Status, FrontFault>, Vec<u8>) {
    let options = Options {
        region: REGION,
        workers: 1,
        lanes: 1,
        schedule: None,
    };
    let mut reader = Device::new(BATCH);
    let mut writer = Device::new(Vec::new(alloc));
    let outcome = run_alone(heap, &mut reader, &mut writer, &options);
    (outcome, writer.into_inner())
}

/// Whether a run over this heap writes the whole report. If it doesn't, it is out of memory and writes nothing.
fn is_whole(rt: &impl Abort, alloc: Global, heap: &LocalHeap) -> bool {
    let (outcome, written) = ending(heap, alloc);
    let is_whole = outcome == Ok(Status::SomeNot);
    assert!(rt; is_whole || outcome == Err(FrontFault::Memory));
    let report = if is_whole { REPORT } else { b"" };
    assert_eq!(rt; written.as_slice(), report);
    is_whole
}

/// The same of a heap of `size` bytes, of which a run keeps none.
fn is_whole_over(rt: &impl Abort, alloc: Global, size: usize) -> Result<bool, AllocError> {
    let heap = LocalHeap::new(alloc, size)?;
    let is_whole = is_whole(rt, alloc, &heap);
    assert_eq!(rt; heap.used(), 0, "{size}");
    Ok(is_whole)
}

#[test]
fn a_run_ends_whole_or_with_nothing(rt: HostRuntime) -> Result<(), Fail> {
    assert!(rt; !is_whole_over(&rt, rt.alloc(), 0)?);
    for size in (LEAST_BLOCK..MOST_BYTES).step_by(LEAST_BLOCK) {
        if is_whole_over(&rt, rt.alloc(), size)? {
            return Ok(());
        }
    }
    Err(Fail::from("no heap is large enough"))
}
