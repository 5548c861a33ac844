//! Which of many variables are given.

use std::ops::Range;

/// The most variables that one body has.
pub const MOST_VARIABLES: usize = 65_536;

/// A part of a list: at most `count` items, after the first `first`. All that are left after these if `count` is 0.
#[derive(Clone, Copy, Drop)]
pub(crate) struct Page {
    pub first: usize,
    pub count: usize,
}

impl Page {
    /// The places of the items in a list of this length, at most [`MOST_VARIABLES`].
    pub(crate) fn places(self, length: usize) -> Range<usize> {
        let most = match self.count {
            0 => MOST_VARIABLES,
            count => count.min(MOST_VARIABLES),
        };
        let first = self.first.min(length);
        first..first.saturating_add(most).min(length)
    }
}
