//! The paths through the parts of IFs.

use std::alloc::{AllocError, Allocator};
use std::mem;

/// A path through a body, and for each open IF the path of its other part. A path that has ended is None.
#[derive(Drop)]
pub(crate) struct Paths<P: Copy, A: Allocator> {
    pub path: Option<P>,
    /// For each open IF the path with which its other part begins, or with which it ended.
    others: Vec<Option<P>, A>,
}

impl<P: Copy, A: Allocator> Paths<P, A> {
    /// No path.
    pub(crate) fn new(alloc: A) -> Paths<P, A> {
        Paths {
            path: None,
            others: Vec::new(alloc),
        }
    }

    /// Begins with this path, in no IF.
    pub(crate) fn begin(&mut self, path: P) {
        self.path = Some(path);
        self.others.clear();
    }

    /// At an IF: both parts begin with the path.
    pub(crate) fn begin_if(&mut self) -> Result<(), AllocError> {
        self.others.push(self.path)?;
        Ok(())
    }

    /// At an ELSE: the first part has ended with the path, and the second begins.
    pub(crate) fn begin_else(&mut self) {
        if let Some(other) = self.others.last_mut() {
            mem::swap(&mut self.path, other);
        }
    }

    /// At an ENDIF: answers how the first part has ended and how the second has. The path has ended.
    pub(crate) fn end_if(&mut self) -> (Option<P>, Option<P>) {
        let second = self.path.take();
        match self.others.pop() {
            Some(first) => (first, second),
            None => (None, second),
        }
    }
}
