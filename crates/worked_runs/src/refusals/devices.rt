//! Readers and writers that fail.
use crate::refusals::batches::ONE_JOB;
use std::io::{Error, ErrorKind, Read, Result as IoResult, Write};

/// Is interrupted at first, then gives one byte a read. The read of the number `fails_at` fails, counted from 1.
#[derive(Drop)]
pub struct Reader {
    pub reads: usize,
    pub given: usize,
    pub interrupts: u32,
    pub fails_at: usize,
}

impl Read for Reader {
    fn read(&mut self, buf: &mut [u8]) -> IoResult<usize> {
        if self.interrupts > 0 {
            self.interrupts -= 1;
            return Err(Error::from(ErrorKind::Interrupted));
        }
        self.reads = self.reads.saturating_add(1);
        if self.reads == self.fails_at {
            return Err(Error::from(ErrorKind::StorageFull));
        }
        let Some(byte) = ONE_JOB.get(self.given) else {
            return Ok(0);
        };
        if buf.is_empty() {
            return Ok(0);
        }
        buf[0] = *byte;
        self.given += 1;
        Ok(1)
    }
}

/// How a writer fails.
#[derive(Clone, Copy, PartialEq, Eq)]
pub enum Failure {
    Never,
    /// The write after this number of bytes takes none.
    TakesNone(usize),
    /// The write after this number of bytes fails.
    Fails(usize),
    /// The flush fails.
    AtFlush,
}

/// Is interrupted at first, then takes one byte a write, or fails.
#[derive(Drop)]
pub struct Writer {
    pub taken: Vec<u8>,
    pub interrupts: u32,
    /// How often a flush is interrupted.
    pub flush_interrupts: u32,
    pub failure: Failure,
}

impl Write for Writer {
    fn write(&mut self, buf: &[u8]) -> IoResult<usize> {
        if self.interrupts > 0 {
            self.interrupts -= 1;
            return Err(Error::from(ErrorKind::Interrupted));
        }
        if self.failure == Failure::TakesNone(self.taken.len()) {
            return Ok(0);
        }
        if self.failure == Failure::Fails(self.taken.len()) {
            return Err(Error::from(ErrorKind::StorageFull));
        }
        if buf.is_empty() {
            return Ok(0);
        }
        self.taken.push(buf[0])?;
        Ok(1)
    }

    fn flush(&mut self) -> IoResult<()> {
        if self.flush_interrupts > 0 {
            self.flush_interrupts -= 1;
            return Err(Error::from(ErrorKind::Interrupted));
        }
        if self.failure == Failure::AtFlush {
            return Err(Error::from(ErrorKind::StorageFull));
        }
        Ok(())
    }
}
