//! Memories with a region, of which a growth is refused.

use crate::refusals::heaps::Heap;
use block_memory::{RegionMemory, SlidingMemory};
use std::alloc::AllocError;
use std::process::Abort;

/// The words of a region.
const REGION: usize = 64;

/// The most blocks.
const MOST_BLOCKS: usize = 8;

/// Whether something was made. If not, memory was refused. No memory is kept.
pub(crate) fn is_made<M: Drop>(rt: &impl Abort, heap: &Heap, made: Result<M, AllocError>) -> bool {
    let is_made = made.is_ok();
    assert_eq!(rt; is_made, !heap.has_refused());
    drop(made);
    assert_eq!(rt; heap.live_bytes(), 0);
    heap.refuse(0);
    is_made
}

/// Whether a region was made.
pub(crate) fn is_region_made(rt: &impl Abort, heap: &Heap, growth: u64) -> bool {
    heap.refuse(growth);
    is_made(rt, heap, RegionMemory::new(heap, REGION, MOST_BLOCKS))
}

/// Whether a sliding region was made.
pub(crate) fn is_sliding_region_made(rt: &impl Abort, heap: &Heap, growth: u64) -> bool {
    heap.refuse(growth);
    is_made(rt, heap, SlidingMemory::new(heap, REGION, MOST_BLOCKS))
}
