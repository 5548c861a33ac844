//! A text, byte by byte.

ghost use Rattle.std.specs.Prelude.{◌≡◌, ◌+◌, ◌<◌, ◌^◌, ℕ, List, [], ◌++◌, false, Ok, IsTrue};
ghost use Rattle.std.specs.Prelude.{OnOk, OnErr, IsErr, IsErrOf, IfOk, MatchResult};
ghost use Rattle.vcode_base.specs.Lines.{is_line_feed, line_feeds};
ghost use Rattle.vcode_base.specs.TextAnswers.{Answers};
ghost use Rattle.vcode_base.specs.declared.fault.TextFault.TheVariants.{Memory};
ghost use Rattle.signatures.specs.Faults.{OnWrong};
ghost use Rattle.signatures.specs.First.{IsAnswer};
ghost use Rattle.signatures.specs.Reading.{after_line, reading};
ghost use Rattle.signatures.specs.Scan.{beginning, scan_after_line, scan_after_byte};
ghost use Rattle.signatures.specs.Scan.{scan_after_bytes, outcome, HasCome};

use crate::fault::{EntryFault, SigFault, SignatureFault};
use crate::line::{arrow, is_name};
use crate::table::Signatures;
use std::alloc::{AllocError, Allocator};
use std::marker::Model;
use vcode_base::{LineWords, Parentheses};

/// Adds what a line says to the signatures of the lines before it. At an `Err` they are as before.
#[tactic(auto, unfolding(crate::specs::Reading::after_line))]
fn add_line<A: Allocator + Copy>(
    signatures: &mut Signatures<A>,
    line: &[u8],
) -> Result<(), EntryFault>
    ensures added { MatchResult result
        (λ _. after_line signatures.old line.now ≡ Ok signatures.new)
        (λ fault. OnWrong fault (after_line signatures.old line.now)) }
    ensures err { OnErr result (signatures.new ≡ signatures.old) }
{
    let mut words = LineWords::new(line, Parentheses::AreWords);
    let Some(name) = words.next() else {
        return Ok(());
    };
    if !is_name(name) {
        return Err(EntryFault::Wrong(SignatureFault::BadLine));
    }
    match arrow(signatures.allocator(), words) {
        Ok(kinds) => signatures.add(name, kinds),
        Err(fault) => Err(fault),
    }
}

/// The state of a text that comes byte by byte.
#[derive(Drop)]
struct Scanner<A: Allocator> {
    signatures: Signatures<A>,
    fault: Option<(SignatureFault, u64)>,
    line: Vec<u8, A>,
    number: u64,
}

impl<A: Allocator> Model for Scanner<A> {
    ghost use Rattle.signatures.specs.Scan.{Scan};

    ghost Value = { Scan };

    ghost view = { λ s. record { known = s.signatures; fault = s.fault; line = s.line.items; number = s.number } };
}

impl<A: Allocator + Copy> Scanner<A> {
    fn new(alloc: A, first_line: u64) -> Scanner<A>
        ensures { result ≡ beginning first_line }
    {
        Scanner {
            signatures: Signatures::new(alloc),
            fault: None,
            line: Vec::new(alloc),
            number: first_line,
        }
    }

    /// The open line is whole.
    #[tactic(auto, unfolding(crate::specs::Scan::scan_after_line))]
    fn end_line(&mut self) -> Result<(), AllocError>
        ensures ended { OnOk result (self.new ≡ scan_after_line self.old) }
        ensures number { self.new.number ≡ self.old.number }
    {
        if self.fault.is_some() {
            return Ok(());
        }
        match add_line(&mut self.signatures, self.line.as_slice()) {
            Ok(()) => {}
            Err(EntryFault::Wrong(fault)) => self.fault = Some((fault, self.number)),
            Err(EntryFault::Memory) => return Err(AllocError),
        }
        Ok(())
    }

    #[tactic(auto, unfolding(crate::specs::Scan::scan_after_byte))]
    fn take_byte(&mut self, byte: u8) -> Result<(), AllocError>
        requires { IsTrue (is_line_feed byte) → self.old.number + 1 < 2 ^ 64 }
        ensures { OnOk result (self.new ≡ scan_after_byte self.old byte) }
    {
        if byte == b'\n' {
            self.end_line()?;
            self.line.clear();
            self.number += 1;
        } else {
            self.line.push(byte)?;
        }
        Ok(())
    }

    #[tactic(auto, using(crate::proofs::Lines::scan_steps), unfolding(crate::specs::Scan::scan_after_bytes))]
    fn take_bytes(&mut self, piece: &[u8]) -> Result<(), AllocError>
        requires { self.old.number + line_feeds piece.now < 2 ^ 64 }
        ensures { OnOk result (self.new ≡ scan_after_bytes self.old piece.now) }
    {
        for byte in piece {
            self.take_byte(*byte)?;
        }
        Ok(())
    }

    #[tactic(auto, unfolding(crate::specs::Scan::outcome))]
    fn outcome(mut self) -> Result<Signatures<A>, SigFault>
        ensures { Answers result (outcome self) }
    {
        self.end_line()?;
        match self.fault {
            None => Ok(self.signatures),
            Some((fault, number)) => Err(SigFault::At(fault, number)),
        }
    }
}

/// Reads a text of signatures that comes in pieces, as [`read`] does one that is there at once: what
/// counts are the pieces joined, wherever they are cut.
///
/// The first fault of a text is kept, and the pieces after it are passed over. If memory is refused
/// the reader has failed, and no later call succeeds.
#[derive(Drop)]
pub struct SigReader<A: Allocator> {
    scanner: Scanner<A>,
    failed: bool,
}

impl<A: Allocator> Model for SigReader<A> {
    ghost use Rattle.signatures.specs.Scan.{ReaderState};

    ghost Value = { ReaderState };

    ghost view = { λ r. record { scan = r.scanner; failed = r.failed } };
}

impl<A: Allocator + Copy> SigReader<A> {
    /// A reader of a text whose first line has this number, of which nothing has come. It takes no
    /// memory.
    #[tactic(auto, unfolding(crate::specs::Scan::scan_after_bytes))]
    pub fn new(alloc: A, first_line: u64) -> SigReader<A>
        ensures come { HasCome result first_line [] }
        ensures line { result.scan.number ≡ first_line }
    {
        SigReader {
            scanner: Scanner::new(alloc, first_line),
            failed: false,
        }
    }

    /// Takes the next piece of the text. The number of the line that is then open must fit.
    ///
    /// # Errors
    ///
    /// [`AllocError`] if memory is refused, and from then on at each piece.
    #[tactic(auto, using(crate::proofs::Lines::scan_steps))]
    pub fn feed(&mut self, piece: &[u8]) -> Result<(), AllocError>
        requires { self.old.failed ≡ false → self.old.scan.number + line_feeds piece.now < 2 ^ 64 }
        // What has come is what had come before and then the piece.
        ensures fed { OnOk result ((first : ℕ) (before : List ℕ) →
            HasCome self.old first before → HasCome self.new first (before ++ piece.now)) }
        ensures line { OnOk result (self.new.scan.number ≡ self.old.scan.number + line_feeds piece.now) }
        ensures failed { OnErr result (IsTrue self.new.failed) }
        ensures again { IsTrue self.old.failed → IsErr result }
    {
        if self.failed {
            return Err(AllocError);
        }
        let fed = self.scanner.take_bytes(piece);
        if fed.is_err() {
            self.failed = true;
        }
        fed
    }

    /// The reading of the pieces.
    ///
    /// # Errors
    ///
    /// The first fault of the text with its line; `Memory` if memory is refused, or was in a piece.
    #[tactic(auto, using(crate::proofs::Lines::comes_to_reading))]
    pub fn finish(self) -> Result<Signatures<A>, SigFault>
        ensures answer { (first : ℕ) (bytes : List ℕ) → HasCome self first bytes
            → Answers result (reading first bytes) }
        ensures failed { IsTrue self.failed → IsErrOf result Memory }
    {
        if self.failed {
            return Err(SigFault::Memory);
        }
        self.scanner.outcome()
    }
}

/// Reads a text of signatures.
///
/// It answers what the lines say, or what is wrong with the first wrong line and that line's number, or
/// `Memory` if memory is refused. The lines are numbered upwards from `first_line`, and the last
/// number must fit.
#[tactic(auto, using(crate::proofs::Readings::is_answer))]
pub fn read<A: Allocator + Copy>(
    alloc: A,
    text: &[u8],
    first_line: u64,
) -> Result<Signatures<A>, SigFault>
    requires { first_line + line_feeds text.now < 2 ^ 64 }
    ensures answer { Answers result (reading first_line text.now) }
    ensures says { IsAnswer result first_line text.now }
{
    let mut reader = SigReader::new(alloc, first_line);
    reader.feed(text)?;
    reader.finish()
}
