//! The words that a job holds over time, as a drawing of text.

use job_looks::{Text, push_column, push_number};
use job_profile::Column;
use std::alloc::{AllocError, Global};

/// The most columns of a drawing.
const MOST_DRAWN: usize = 64;

/// The most rows of a drawing.
const MOST_ROWS: usize = 12;

/// What is drawn: columns, of how many instructions each is, and the limit.
#[derive(Drop)]
struct Drawing {
    columns: Vec<Column>,
    each: u64,
    limit: usize,
}

/// These columns, which follow one another, as one.
fn joined(columns: &[Column]) -> Column {
    let mut all = Column {
        most: 0,
        least: usize::MAX,
        line: 0,
    };
    for column in columns {
        if column.most > all.most {
            all.line = column.line;
        }
        all.most = all.most.max(column.most);
        all.least = all.least.min(column.least);
    }
    all
}

/// The most words of these columns.
fn greatest(columns: &[Column]) -> usize {
    joined(columns).most
}

/// The mark of a column in the row of the words above `below`.
fn mark(column: Column, below: usize, peak: usize, blank: char) -> char {
    if column.most <= below {
        blank
    } else if column.most == peak {
        '*'
    } else if column.least > below {
        '#'
    } else {
        ':'
    }
}

impl Drawing {
    /// The drawing of columns of `each` instructions: some that follow one another are drawn as one, so that there are
    /// few.
    fn of(
        alloc: Global,
        columns: &[Column],
        each: u64,
        limit: usize,
    ) -> Result<Drawing, AllocError> {
        let together = columns.len().div_ceil(MOST_DRAWN).max(1);
        let mut drawn = Vec::new(alloc);
        let mut rest = columns;
        for _ in 0..MOST_DRAWN {
            if rest.is_empty() {
                break;
            }
            let (front, others) = rest.split_at(together.min(rest.len()));
            drawn.push(joined(front))?;
            rest = others;
        }
        Ok(Drawing {
            columns: drawn,
            each: each.saturating_mul(together as u64),
            limit,
        })
    }

    /// The greatest number of words that is drawn: the limit if it is near the peak, else the peak.
    fn top(&self) -> usize {
        let peak = greatest(self.columns.as_slice());
        if self.limit <= peak.saturating_add(peak / 2) {
            self.limit.max(peak)
        } else {
            peak
        }
    }

    /// The row of words above `below`, up to `words`.
    fn row(&self, alloc: Global, below: usize, words: usize) -> Text {
        let peak = greatest(self.columns.as_slice());
        let is_limit = below < self.limit && self.limit <= words;
        let blank = if is_limit { '-' } else { ' ' };
        let mut row = Text::new(alloc);
        for column in &self.columns {
            row.push(mark(*column, below, peak, blank));
        }
        if is_limit {
            row.push_str(" the limit");
        }
        row
    }

    /// Adds the row of words above `below`, up to `words`, with this number.
    fn push_row(&self, text: &mut Text, alloc: Global, below: usize, words: usize) {
        text.push(' ');
        push_column(text, words as u64, 12);
        text.push_str(" |");
        if let Some(row) = text.get(self.row(alloc, below, words).finish()) {
            text.push_str(row.as_str().trim_ascii_end());
        }
        text.push('\n');
    }

    /// Adds the rows, the greatest words first.
    fn push_rows(&self, text: &mut Text, alloc: Global) {
        let top = self.top();
        let unit = top.div_ceil(MOST_ROWS).max(1);
        for place in (0..top.div_ceil(unit)).rev() {
            let below = place.saturating_mul(unit);
            self.push_row(text, alloc, below, below.saturating_add(unit));
        }
    }

    /// Adds the axis.
    fn push_axis(&self, text: &mut Text) {
        text.push(' ');
        push_column(text, 0, 12);
        text.push_str(" +");
        for _ in 0..self.columns.len() {
            text.push('-');
        }
        text.push('\n');
    }

    /// Adds the drawing with what is said of it.
    fn push_all(&self, text: &mut Text, alloc: Global) {
        push_number(
            text,
            "\nthe words over time; instructions to a column: ",
            self.each,
        );
        text.push_str("\n# held after each, : held and needed at one, * the column of the peak\n");
        self.push_rows(text, alloc);
        self.push_axis(text);
    }
}

/// Adds the words that a job held over time, by columns of `each` instructions.
pub(crate) fn push_drawing(
    text: &mut Text,
    alloc: Global,
    columns: &[Column],
    each: u64,
    limit: usize,
) {
    if let Some(drawing) = text.get(Drawing::of(alloc, columns, each, limit)) {
        drawing.push_all(text, alloc);
    }
}
