//! What a heap counts.

use std::sync::atomic::{AtomicU64, AtomicUsize, Ordering};

/// How often a thread tries to raise the peak, which another thread may have raised meanwhile.
const MOST_TRIES: u32 = 1_000;

/// The growths that were asked for, the one that is refused, and the bytes of the blocks. Threads share it, so that no
/// contract can name its numbers.
#[derive(Drop)]
pub(crate) struct Counts {
    /// The growths that were asked for after the last call of `refuse`.
    asked: AtomicU64,
    /// The number among these of the growth that is refused. 0 if none is.
    refused: AtomicU64,
    /// The bytes of the blocks that aren't freed.
    live: AtomicUsize,
    /// The most that they were.
    peak: AtomicUsize,
}

impl Counts {
    /// No growth, and none that is refused.
    pub(crate) fn new() -> Counts {
        Counts {
            asked: AtomicU64::new(0),
            refused: AtomicU64::new(0),
            live: AtomicUsize::new(0),
            peak: AtomicUsize::new(0),
        }
    }

    /// Counts growths from 0 again, and refuses that of this number.
    pub(crate) fn refuse(&self, growth: u64) {
        self.asked.store(0, Ordering::SeqCst);
        self.refused.store(growth, Ordering::SeqCst);
    }

    /// The growths that were asked for.
    pub(crate) fn asked(&self) -> u64 {
        self.asked.load(Ordering::SeqCst)
    }

    /// The number of the growth that is refused, or 0.
    pub(crate) fn refused(&self) -> u64 {
        self.refused.load(Ordering::SeqCst)
    }

    /// The bytes of the blocks that aren't freed.
    pub(crate) fn live(&self) -> usize {
        self.live.load(Ordering::SeqCst)
    }

    /// The most that they were.
    pub(crate) fn peak(&self) -> usize {
        self.peak.load(Ordering::SeqCst)
    }

    /// Counts a growth by a block of `size` bytes. Whether it isn't the one that is refused; then the bytes count too.
    pub(crate) fn admits(&self, size: usize) -> bool {
        let growth = self.asked.fetch_add(1, Ordering::SeqCst).wrapping_add(1);
        if growth == self.refused() {
            return false;
        }
        let live = self.live.fetch_add(size, Ordering::SeqCst);
        self.raise_peak(live.wrapping_add(size));
        true
    }

    /// Counts `size` bytes as freed.
    pub(crate) fn frees(&self, size: usize) {
        self.live.fetch_sub(size, Ordering::SeqCst);
    }

    /// Counts the bytes as freed by which a block shrinks from `old` values to `new`, each of `size` bytes.
    pub(crate) fn shrinks(&self, size: usize, old: usize, new: usize) {
        self.frees(old.wrapping_sub(new).wrapping_mul(size));
    }

    /// Raises the peak to this number of bytes, if it is lower.
    fn raise_peak(&self, live: usize) {
        for _ in 0..MOST_TRIES {
            let peak = self.peak();
            if live <= peak {
                return;
            }
            let raised = self
                .peak
                .compare_exchange(peak, live, Ordering::SeqCst, Ordering::SeqCst);
            if raised.is_ok() {
                return;
            }
        }
    }
}
