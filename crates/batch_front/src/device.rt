//! A reader or a writer of std that keeps count of its interruptions.
ghost use Rattle.std.specs.Prelude.{◌≡◌, ◌<◌, ◌≤◌, ◌↔◌, true, false, length, IfOk, OnOk, MatchResult};
ghost use Rattle.std.specs.Io.KnownBytes.{Keeps, ReadConsumes, WriteAppends};

use std::io::{ErrorKind, Read, Write};

/// The interruptions of a run that are passed over: one more is a fault.
pub const MOST_INTERRUPTIONS: u64 = 64;

/// Why a call of a device gave nothing.
#[derive(Clone, Copy, PartialEq, Eq, Debug)]
pub(crate) enum Trouble {
    /// It was interrupted, and may be tried again.
    Interrupted,
    /// It failed, or took none of some bytes.
    Failed,
}

/// A reader or a writer, whether it has failed, and how often it was interrupted. Of a writer also whether its last
/// call was a flush, and whether that flush gave no error.
#[derive(Drop)]
pub struct Device<D> {
    inner: D,
    failed: bool,
    interrupts: u64,
    flushing: bool,
    flushed: bool,
}

impl<D> Device<D> {
    ghost use Rattle.batch_front.specs.Devices.{inner_of, has_failed, interrupts_of, is_flushed, is_flushing};
    ghost use Rattle.batch_front.specs.Devices.{IsFresh, IsTroubled};

    /// A device that was not used, over a reader or a writer.
    pub fn new(inner: D) -> Device<D>
        ensures inner { inner_of result ≡ inner }
        ensures fresh { IsFresh result }
        ensures not_flushing { is_flushing result ≡ false }
        ensures not_flushed { is_flushed result ≡ false }
    {
        Device {
            inner,
            failed: false,
            interrupts: 0,
            flushing: false,
            flushed: false,
        }
    }

    /// Whether it gave an error other than an interruption, or took none of some bytes.
    pub fn failed(&self) -> bool
        ensures { result ≡ has_failed self.now }
    {
        self.failed
    }

    /// How often it answered that it was interrupted; the greatest `u64` means that many or more.
    pub fn interrupts(&self) -> u64
        ensures { result ≡ interrupts_of self.now }
    {
        self.interrupts
    }

    /// Whether it was flushed, and nothing was written since.
    pub fn flushed(&self) -> bool
        ensures { result ≡ is_flushed self.now }
    {
        self.flushed
    }

    /// Whether a flush was called, and nothing was written since. That flush may have failed.
    pub fn flushing(&self) -> bool
        ensures { result ≡ is_flushing self.now }
    {
        self.flushing
    }

    /// The reader or the writer.
    pub fn into_inner(self) -> D
        ensures { result ≡ inner_of self }
    {
        let Device {
            inner,
            failed: _,
            interrupts: _,
            flushing: _,
            flushed: _,
        } = self;
        inner
    }

    /// Keeps in mind that it failed.
    fn fail(&mut self) -> Trouble
        ensures inner { inner_of self.new ≡ inner_of self.old }
        ensures flushing { is_flushing self.new ≡ is_flushing self.old }
        ensures trouble { result ≡ Trouble.Failed }
        ensures state { IsTroubled self.old self.new result }
    {
        self.failed = true;
        Trouble::Failed
    }

    /// Keeps in mind that it gave an error of this kind.
    fn note(&mut self, kind: ErrorKind) -> Trouble
        ensures inner { inner_of self.new ≡ inner_of self.old }
        ensures flushing { is_flushing self.new ≡ is_flushing self.old }
        ensures state { IsTroubled self.old self.new result }
        ensures trouble { (result ≡ Trouble.Interrupted) ↔ (kind ≡ ErrorKind.Interrupted) }
    {
        if kind == ErrorKind::Interrupted {
            self.interrupts = self.interrupts.saturating_add(1);
            Trouble::Interrupted
        } else {
            self.fail()
        }
    }
}

impl<R: Read> Device<R> {
    ghost use Rattle.batch_front.specs.Devices.{inner_of, IsSteady, IsTroubled};

    /// One read.
    pub(crate) fn read(&mut self, buf: &mut [u8]) -> Result<usize, Trouble>
        ensures bytes { ReadConsumes (R.remaining (inner_of self.old)) (R.remaining (inner_of self.new))
            result buf.new }
        ensures within { IfOk result (λ n. n ≤ length buf.new) }
        ensures state { MatchResult result (λ _. IsSteady self.old self.new) (λ t. IsTroubled self.old self.new t) }
    {
        match self.inner.read(buf) {
            Ok(n) => Ok(n),
            Err(error) => Err(self.note(error.kind())),
        }
    }
}

impl<W: Write> Device<W> {
    ghost use Rattle.batch_front.specs.Devices.{inner_of, is_flushed, is_flushing, IsSteady, IsTroubled};

    /// One write of some bytes.
    pub(crate) fn write(&mut self, buf: &[u8]) -> Result<usize, Trouble>
        requires { 0 < length buf.now }
        ensures bytes { WriteAppends (W.contents (inner_of self.old)) (W.contents (inner_of self.new)) result buf.now }
        ensures within { IfOk result (λ n. (0 < n) × (n ≤ length buf.now)) }
        ensures writing { is_flushing self.new ≡ false }
        ensures state { MatchResult result (λ _. IsSteady self.old self.new) (λ t. IsTroubled self.old self.new t) }
    {
        self.flushing = false;
        self.flushed = false;
        match self.inner.write(buf) {
            Ok(0) => Err(self.fail()),
            Ok(n) => Ok(n),
            Err(error) => Err(self.note(error.kind())),
        }
    }

    /// One flush.
    pub(crate) fn flush(&mut self) -> Result<(), Trouble>
        ensures bytes { Keeps (W.contents (inner_of self.old)) (W.contents (inner_of self.new)) }
        ensures state { MatchResult result (λ _. IsSteady self.old self.new) (λ t. IsTroubled self.old self.new t) }
        ensures flushing { is_flushing self.new ≡ true }
        ensures flushed { OnOk result (is_flushed self.new ≡ true) }
    {
        self.flushing = true;
        match self.inner.flush() {
            Ok(()) => {
                self.flushed = true;
                Ok(())
            }
            Err(error) => Err(self.note(error.kind())),
        }
    }
}
