//! Which function executed the most instructions in each column of the words over time.

use job_profile::Run;
use std::alloc::{AllocError, Global};
use std::mem;

/// How many instructions of a column a function executed itself.
#[derive(Clone, Copy, Drop)]
struct Part {
    column: u64,
    function: usize,
    count: u64,
}

/// How many instructions each function executed itself in each column, one column after the other. A column is of
/// `each` instructions that follow one another, and the last has room for those up to the number `end`. It is open: it
/// has a count for each function, and a list of those with a count. The others have parts.
#[derive(Drop)]
pub struct Bands {
    alloc: Global,
    each: u64,
    column: u64,
    end: u64,
    parts: Vec<Part>,
    counts: Vec<u64>,
    counted: Vec<usize>,
}

impl Bands {
    /// The bands of a run that has executed nothing.
    ///
    /// # Errors
    ///
    /// [`AllocError`] if memory was refused.
    pub fn new(alloc: Global, run: &Run<Global>) -> Result<Bands, AllocError> {
        let functions = run.job().verified().program().functions().len();
        Ok(Bands {
            alloc,
            each: 1,
            column: 0,
            end: 1,
            parts: Vec::new(alloc),
            counts: vec![in alloc; 0; functions]?,
            counted: Vec::new(alloc),
        })
    }

    /// Adds a number of instructions of a function to the last column.
    #[inline(always)]
    fn add(&mut self, function: usize, number: u64) -> Result<(), AllocError> {
        let Some(count) = self.counts.get_mut(function) else {
            return Ok(());
        };
        let before = *count;
        *count = before.wrapping_add(number);
        if before == 0 {
            return self.list(function, number);
        }
        Ok(())
    }

    /// Lists a function that has this count in the last column now, unless it is 0.
    #[inline(never)]
    fn list(&mut self, function: usize, number: u64) -> Result<(), AllocError> {
        if number > 0 {
            self.counted.push(function)?;
        }
        Ok(())
    }

    /// Makes parts of the counts of the last column.
    fn close(&mut self) -> Result<(), AllocError> {
        for function in &self.counted {
            if let Some(count) = self.counts.get_mut(*function) {
                self.parts.push(Part {
                    column: self.column,
                    function: *function,
                    count: *count,
                })?;
                *count = 0;
            }
        }
        self.counted.clear();
        Ok(())
    }

    /// Adds a number of instructions of a function to a column, which is the last one or comes after it.
    fn put(&mut self, column: u64, function: usize, number: u64) -> Result<(), AllocError> {
        if column != self.column {
            self.close()?;
            self.column = column;
        }
        self.add(function, number)
    }

    /// Counts instructions of a function that come after those that were counted: this many, up to the one of this
    /// number, counted from 1. Columns are of `each` instructions now: of as many as before, or of more if the last one
    /// had no room for them.
    ///
    /// # Errors
    ///
    /// [`AllocError`] if memory was refused. The bands aren't those of the run then.
    #[inline(always)]
    pub fn count(
        &mut self,
        function: usize,
        number: u64,
        last: u64,
        each: u64,
    ) -> Result<(), AllocError> {
        if last <= self.end {
            return self.add(function, number);
        }
        self.spread(function, number, last, each)
    }

    /// The same for instructions that are not all of the last column.
    #[inline(never)]
    fn spread(
        &mut self,
        function: usize,
        number: u64,
        last: u64,
        each: u64,
    ) -> Result<(), AllocError> {
        self.widen(each)?;
        let each = self.each.max(1);
        let begin = last.saturating_sub(number);
        for column in begin / each..=last.saturating_sub(1) / each {
            let from = column.saturating_mul(each);
            self.end = from.saturating_add(each);
            let part = last.min(self.end).saturating_sub(begin.max(from));
            self.put(column, function, part)?;
        }
        Ok(())
    }

    /// Makes each two columns one until they are of `each` instructions.
    fn widen(&mut self, each: u64) -> Result<(), AllocError> {
        for _ in 0..u64::BITS {
            if each <= self.each {
                break;
            }
            self.each = self.each.saturating_mul(2);
            self.join()?;
        }
        Ok(())
    }

    /// Makes each two columns one.
    fn join(&mut self) -> Result<(), AllocError> {
        self.close()?;
        let parts = mem::replace(&mut self.parts, Vec::new(self.alloc));
        self.column = 0;
        for part in &parts {
            self.put(part.column / 2, part.function, part.count)?;
        }
        Ok(())
    }

    /// Closes the last column, after which nothing is counted.
    ///
    /// # Errors
    ///
    /// As of [`Bands::count`].
    pub fn end(&mut self) -> Result<(), AllocError> {
        self.close()
    }

    /// Of each column but an open one the function that executed the most instructions in it: the first of them in the
    /// code, if some executed as many.
    ///
    /// # Errors
    ///
    /// [`AllocError`] if memory was refused.
    pub fn places(&self, alloc: Global) -> Result<Vec<usize>, AllocError> {
        let mut places = Vec::new(alloc);
        let Some(first) = self.parts.first() else {
            return Ok(places);
        };
        let mut greatest = *first;
        for part in &self.parts {
            if part.column == greatest.column {
                greatest = greater(greatest, *part);
            } else {
                places.push(greatest.function)?;
                greatest = *part;
            }
        }
        places.push(greatest.function)?;
        Ok(places)
    }
}

/// Of two parts of a column the one with more instructions, or that of the function that comes first in the code.
fn greater(part: Part, other: Part) -> Part {
    let is_more = other.count > part.count;
    let is_first = other.count == part.count && other.function < part.function;
    if is_more || is_first { other } else { part }
}
