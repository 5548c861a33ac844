//! The greatest lines and regions: the heap alone refuses them.

use crate::refusals::heaps::Heap;
use holes::Holes;
use std::process::Abort;
use std::test::Fail;
use test_support::RefusingHeap;
use vcode_reader::{Program, read};

/// A first line that leaves fewer than 2^32 numbers of 64 bits for the lines after it.
const LATE_LINE: u64 = 18_446_744_069_414_584_321;

/// The words of the longest region.
const LONGEST_REGION: usize = 1_073_741_824;

/// The number of the line of the first instruction of the first function of a program.
fn first_number(program: &Program<&Heap>) -> Option<u64> {
    let function = program.functions().first()?;
    Some(function.item(0)?.number)
}

/// A code of two lines is read from a late line on.
fn late_code_is_read(rt: &impl Abort, heap: &Heap) -> Result<(), Fail> {
    let Ok(program) = read(heap, b"FUNC MAIN\nRET\n", LATE_LINE) else {
        return Err(Fail::from("the code is refused"));
    };
    assert_eq!(rt; program.first_line(), LATE_LINE);
    assert_eq!(rt; first_number(&program), Some(LATE_LINE + 1));
    drop(program);
    Ok(())
}

#[test]
fn late_lines_are_no_want_of_memory(rt: HostRuntime) -> Result<(), Fail> {
    let heap = RefusingHeap::new(rt.alloc());
    late_code_is_read(&rt, &heap)?;
    assert!(rt; heap.growths() > 0);
    assert!(rt; !heap.has_refused());
    Ok(())
}

/// Whether the longest region is refused.
fn is_refused(heap: &Heap) -> bool {
    Holes::new(heap, LONGEST_REGION, 4).is_err()
}

#[test]
fn the_longest_region_is_refused_by_the_heap(rt: HostRuntime) -> Result<(), Fail> {
    let heap = RefusingHeap::new(rt.alloc());
    heap.refuse(1);
    assert!(rt; is_refused(&heap));
    assert!(rt; heap.has_refused());
    Ok(())
}
