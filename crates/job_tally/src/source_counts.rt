//! What chains of functions executed, by the lines of the source.

use std::alloc::{AllocError, Global};
use std::collections::BTreeMap;

/// The most counts that are kept. What has none counts for its function alone.
const MOST_COUNTS: usize = 65_536;

/// A line of the source that was executed in a chain of functions.
#[derive(Clone, Copy, PartialEq, Eq, PartialOrd, Ord, Drop)]
pub struct Row {
    /// The place of the chain.
    pub chain: usize,
    /// The place of the line among those of its source.
    pub line: usize,
}

/// How many instructions of lines of the source were executed in chains, and how many of one line in one chain were the
/// last ones, which aren't counted yet.
#[derive(Drop)]
pub(crate) struct SourceCounts {
    counts: BTreeMap<Row, u64>,
    last: Option<Row>,
    number: u64,
}

impl SourceCounts {
    /// Nothing was executed.
    pub(crate) fn new(alloc: Global) -> SourceCounts {
        SourceCounts {
            counts: BTreeMap::new(alloc),
            last: None,
            number: 0,
        }
    }

    /// Counts the last ones.
    pub(crate) fn end(&mut self) -> Result<(), AllocError> {
        let number = self.number;
        self.number = 0;
        let Some(row) = self.last else {
            return Ok(());
        };
        if self.counts.len() >= MOST_COUNTS && !self.counts.contains_key(&row) {
            return Ok(());
        }
        let count = self.counts.entry(row)?.or_insert(0);
        *count = count.saturating_add(number);
        Ok(())
    }

    /// Counts an instruction of a line in a chain, or of no line.
    pub(crate) fn count(&mut self, row: Option<Row>) -> Result<(), AllocError> {
        if row != self.last {
            self.end()?;
            self.last = row;
        }
        self.number = self.number.saturating_add(1);
        Ok(())
    }

    /// The counts, by chains and lines.
    pub(crate) fn rows(&self, alloc: Global) -> Result<Vec<(Row, u64)>, AllocError> {
        let mut rows = Vec::new(alloc);
        for (row, count) in &self.counts {
            rows.push((*row, *count))?;
        }
        Ok(rows)
    }
}
