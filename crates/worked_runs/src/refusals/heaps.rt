//! The heap that refuses.
use job_machine::Machine;
use std::alloc::Global;
use std::process::Abort;
use std::test::Fail;
use test_support::RefusingHeap;

/// The heap of these tests.
pub type Heap = RefusingHeap<Global>;

/// A machine over this heap.
pub type HeapMachine<'h> = Machine<&'h Heap>;

/// More growths than any call of these tests asks for.
pub const MOST_GROWTHS: u64 = 10_000;

/// A heap was asked for this number of growths, refused one or none of them, and has this number of bytes in blocks.
fn has_counted(rt: &impl Abort, heap: &Heap, growths: u64, has_refused: bool, bytes: usize) {
    assert_eq!(rt; heap.growths(), growths);
    assert_eq!(rt; heap.has_refused(), has_refused);
    assert_eq!(rt; heap.live_bytes(), bytes);
}

/// A list of one word, with room for four.
fn list<'h>(rt: &impl Abort, heap: &'h Heap) -> Result<Vec<u64, &'h Heap>, Fail> {
    let mut words = Vec::with_capacity(heap, 4)?;
    words.push(7)?;
    has_counted(rt, heap, 1, false, 32);
    Ok(words)
}

/// The list wants room for eight words. The growth is refused first, and asked for again.
fn grows<'h>(rt: &impl Abort, heap: &'h Heap, words: &mut Vec<u64, &'h Heap>) -> Result<(), Fail> {
    heap.refuse(1);
    let refused = words.reserve_exact(7).is_err();
    assert!(rt; refused);
    has_counted(rt, heap, 1, true, 32);
    words.reserve_exact(7)?;
    has_counted(rt, heap, 2, true, 64);
    assert_eq!(rt; words.as_slice(), [7].as_slice());
    Ok(())
}

/// The list gives back the room that it doesn't use, which is no growth.
fn shrinks<'h>(rt: &impl Abort, heap: &'h Heap, words: &mut Vec<u64, &'h Heap>) {
    heap.refuse(1);
    words.shrink_to_fit();
    has_counted(rt, heap, 0, false, 8);
    assert_eq!(rt; words.as_slice(), [7].as_slice());
}

/// A list is made, grows, shrinks and goes.
fn a_list_comes_and_goes(rt: &impl Abort, heap: &Heap) -> Result<(), Fail> {
    let mut words = list(rt, heap)?;
    grows(rt, heap, &mut words)?;
    shrinks(rt, heap, &mut words);
    Ok(())
}

#[test]
fn a_heap_refuses_the_growth_of_its_number(rt: HostRuntime) -> Result<(), Fail> {
    let heap = RefusingHeap::new(rt.alloc());
    a_list_comes_and_goes(&rt, &heap)?;
    has_counted(&rt, &heap, 0, false, 0);
    // While the list grew, the old and the new block were there.
    assert_eq!(rt; heap.peak_bytes(), 96);
    Ok(())
}
