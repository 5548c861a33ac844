//! What tests of runs need: a heap that refuses one growth, and counts, and batches with a report.
//!
//! A [`RefusingHeap`] takes its blocks from another allocator. It refuses the growth of one number, which a test
//! chooses: so a test lets each growth of a run fail in turn, a small one after large ones too, counting upwards until
//! a run meets no refusal. Threads share it: a `&RefusingHeap<Global>` is an allocator that is `Copy` and `Clone`, and
//! that may be sent.
#![tactic(auto)]

mod batches;
mod counts;

pub use batches::{REPORT_ON_TWELVE, TWELVE_JOBS, TWO_JOBS};
use counts::Counts;
use std::alloc::{AllocError, Allocator};
use std::mem::size_of;

/// An allocator that takes its blocks from `inner`, and refuses the growth of a chosen number.
///
/// A growth is an `allocate` or a `grow`. A block can be freed or made smaller at all times.
///
/// What it counts is in atomics, which threads share, and no contract can name the number that an atomic holds: another
/// thread may change it at any time. So the calls that choose a growth and that read counts have no clauses, and the
/// tests of `worked_runs` show what they count. The contract of an allocator says what its blocks are.
pub struct RefusingHeap<B: Allocator> {
    inner: B,
    counts: Counts,
}

impl<B: Allocator> Drop for RefusingHeap<B> {
    fn drop(self) {
        let Self {
            inner: _,
            counts: _,
        } = self;
    }
}

impl<B: Allocator> RefusingHeap<B> {
    /// A heap that takes its blocks from `inner`, and refuses no growth until one is chosen.
    pub fn new(inner: B) -> RefusingHeap<B> {
        RefusingHeap {
            inner,
            counts: Counts::new(),
        }
    }

    /// From now on the growth of the number `growth` is refused: 1 is the next one. 0 is none.
    pub fn refuse(&self, growth: u64) {
        self.counts.refuse(growth);
    }

    /// How many growths were asked for after the last call of `refuse`, or from the beginning. The refused one counts.
    pub fn growths(&self) -> u64 {
        self.counts.asked()
    }

    /// Whether the growth was asked for that is refused.
    pub fn has_refused(&self) -> bool {
        let refused = self.counts.refused();
        refused != 0 && refused <= self.counts.asked()
    }

    /// The bytes of the blocks that were taken and aren't freed. A block that `inner` refused counts as taken.
    pub fn live_bytes(&self) -> usize {
        self.counts.live()
    }

    /// The most bytes that they were. While a block grows, the old and the new one count.
    pub fn peak_bytes(&self) -> usize {
        self.counts.peak()
    }
}

unsafe impl<B: Allocator> Allocator for RefusingHeap<B> {
    ghost dealloc_token = { λ heap ty ptr. B.dealloc_token heap.inner ty ptr };

    fn allocate(&self, size: usize, align: usize) -> Result<*mut u8, AllocError> {
        if self.counts.admits(size) {
            self.inner.allocate(size, align)
        } else {
            Err(AllocError)
        }
    }

    unsafe fn deallocate(&self, ptr: *mut u8, size: usize, align: usize) {
        self.counts.frees(size);
        self.inner.deallocate(ptr, size, align);
    }

    unsafe fn shrink<T>(
        &self,
        ptr: *mut T,
        len: usize,
        old_cap: usize,
        new_cap: usize,
    ) -> Result<*mut T, AllocError> {
        self.counts.shrinks(size_of::<T>(), old_cap, new_cap);
        self.inner.shrink(ptr, len, old_cap, new_cap)
    }
}
