//! A heap that runs short.
use linked_list_allocator::LocalHeap;
use std::alloc::{AllocError, Global};

/// The bytes of a heap.
pub const HEAP: usize = 262_144;

/// The bytes of the shortest block of a heap, of which the length of each other is a multiple.
pub const LEAST_BLOCK: usize = 16;

/// The bytes of the blocks that are taken if all but a few are to go, the longest first.
const BLOCKS: [usize; 4] = [65_536, 4_096, 256, LEAST_BLOCK];

/// Takes what is free of a heap before one of the calls of a run, but for a number of bytes.
#[derive(Drop)]
pub struct Shortage<'h> {
    heap: &'h LocalHeap,
    calls: usize,
    before: Option<usize>,
    spare: usize,
    taken: Vec<Vec<u8, &'h LocalHeap>>,
}

impl<'h> Shortage<'h> {
    /// None at all.
    pub(crate) fn never(alloc: Global, heap: &'h LocalHeap) -> Shortage<'h> {
        Shortage {
            heap,
            calls: 0,
            before: None,
            spare: 0,
            taken: Vec::new(alloc),
        }
    }

    /// Takes before the call of this number, counted from 0, and leaves at most `spare` bytes.
    pub(crate) fn before(
        alloc: Global,
        heap: &'h LocalHeap,
        call: usize,
        spare: usize,
    ) -> Shortage<'h> {
        Shortage {
            heap,
            calls: 0,
            before: Some(call),
            spare,
            taken: Vec::new(alloc),
        }
    }

    /// The next call comes.
    pub(crate) fn next_call(&mut self) -> Result<(), AllocError> {
        if self.before == Some(self.calls) {
            self.take_all()?;
        }
        self.calls = self.calls.saturating_add(1);
        Ok(())
    }

    /// Gives back what was taken.
    pub(crate) fn end(&mut self) {
        self.taken.clear();
    }

    /// Takes blocks, the longest first, while more than the spare bytes are free.
    fn take_all(&mut self) -> Result<(), AllocError> {
        for size in BLOCKS {
            for _ in 0..HEAP {
                if self.heap.free() < self.spare.saturating_add(size) {
                    break;
                }
                let Ok(block) = Vec::with_capacity(self.heap, size) else {
                    break;
                };
                self.taken.push(block)?;
            }
        }
        Ok(())
    }
}
