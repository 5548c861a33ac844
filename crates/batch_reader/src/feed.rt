//! A batch that comes in pieces.

ghost use Rattle.std.specs.Prelude.{◌≡◌, ◌+◌, ◌≤◌, ℕ, List, [], ◌++◌, length, IsErr, OnOk, OnErr, IfOk, MatchResult};
ghost use Rattle.batch_reader.specs.Fates.{IsBatch};
ghost use Rattle.batch_reader.specs.Feeds.{RefusesLongLine, Stands};
ghost use Rattle.batch_reader.specs.Feeds.{ByLines, HasCome, HasComeIn, HasEnded, HasFailed, HasFewJobs};
ghost use Rattle.batch_reader.specs.Feeds.{HoldsNoLineFeed, IsWholeLine};

use crate::code_run::code_run;
use crate::entry::{Batch, JobEntries};
use crate::line::first_line;
use crate::line_reader::LineReader;
use std::alloc::{AllocError, Allocator};
use std::marker::Model;

/// Reads a batch that comes in pieces: what counts are the pieces joined, wherever they are cut.
///
/// A line is held back until it is whole, and each job is read and verified by its `END` line; of the lines
/// before the open one nothing is kept but the jobs. If memory is refused the feed has failed, and no
/// later call succeeds.
#[derive(Drop)]
pub struct Feed<A: Allocator> {
    alloc: A,
    held: Vec<u8, A>,
    lines: LineReader<A>,
}

impl<A: Allocator> Model for Feed<A> {
    ghost use Rattle.std.specs.Coded.{codes};
    ghost use Rattle.vcode_reader.specs.ParseCode.{fed_code, parse_code, scan_code};
    ghost use Rattle.job_steps.specs.Jobs.{job_code};
    ghost use Rattle.batch_reader.specs.Feeds.{FeedState, IsOpenLine, feed_code, lines_code};

    ghost Value = { FeedState };

    ghost coded = { feed_code (lines_code (Prim.hlevel codes) (Prim.hlevel (
      codes,
      fed_code (scan_code
          (parse_code (Prim.hlevel codes) (Prim.hlevel codes) (Prim.hlevel codes) (Prim.hlevel codes)
          (Prim.hlevel codes)
          (Prim.hlevel codes)) (Prim.hlevel codes)),
    ))
        (Prim.hlevel (codes, job_code (Prim.hlevel codes) (Prim.hlevel codes) (Prim.hlevel codes)))) };

    ghost view = { λ f. record { held = f.held.items; lines = f.lines } };

    ghost invariant = { λ f. IsOpenLine f.held.items f.lines.left };
}

impl<A: Allocator + Copy> Feed<A> {
    /// A batch of which nothing has come, over a region of `region` words.
    ///
    /// # Errors
    ///
    /// [`AllocError`] if memory for the list of its jobs is refused.
    pub fn new(alloc: A, region: usize) -> Result<Feed<A>, AllocError>
        ensures come { IfOk result (λ f. HasCome f []) }
        ensures region { IfOk result (λ f. f.lines.region ≡ region) }
    {
        let lines = LineReader::new(alloc, region)?;
        Ok(Feed {
            alloc,
            held: Vec::new(alloc),
            lines,
        })
    }

    /// Takes the next piece of the batch.
    ///
    /// # Errors
    ///
    /// [`AllocError`] if memory is refused, and from then on at each piece.
    #[tactic(auto, using(crate::proofs::FeedLemmas::refused_has_come))]
    pub fn feed(&mut self, piece: &[u8]) -> Result<(), AllocError>
        // The bytes of the piece follow the bytes before.
        ensures fed { OnOk result ((before : List ℕ) → HasCome self.old before
            → HasCome self.new (before ++ piece.now)) }
        ensures region { self.new.lines.region ≡ self.old.lines.region }
        ensures failed { OnErr result (HasFailed self.new.lines) }
        ensures again { HasFailed self.old.lines → IsErr result }
    {
        if self.lines.has_failed() {
            return Err(AllocError);
        }
        if self.lines.is_refused() {
            self.held.clear();
            return Ok(());
        }
        let rest = self.feed_lines(piece)?;
        self.hold(rest)
    }

    /// The answer to the pieces: the jobs of the batch in the order of their lines, each ready to run or with
    /// the first refusal of its own, or else the refusal of the batch that is met first from the front.
    ///
    /// # Errors
    ///
    /// [`AllocError`] if memory is refused, or was in a piece.
    pub fn end(mut self) -> Result<Batch<JobEntries<A>>, AllocError>
        ensures batch { IfOk result (λ batch. (bytes : List ℕ) → HasCome self bytes
            → IsBatch self.lines.region bytes batch) }
        // No more than a batch may have.
        ensures few { IfOk result (λ batch. (bytes : List ℕ) → HasCome self bytes → HasFewJobs batch) }
        ensures failed { HasFailed self.lines → IsErr result }
    {
        self.end_open()?;
        self.lines.finish()
    }

    /// Takes the open line, which nothing follows.
    #[tactic(auto, using(crate::proofs::FeedLemmas::of_end_open))]
    fn end_open(&mut self) -> Result<(), AllocError>
        ensures ended { OnOk result ((bytes : List ℕ) → HasCome self.old bytes → HasEnded self.new.lines bytes) }
        ensures region { self.new.lines.region ≡ self.old.lines.region }
        ensures failed { HasFailed self.old.lines → OnOk result (HasFailed self.new.lines) }
    {
        if self.held.is_empty() {
            return Ok(());
        }
        let taken = self.lines.take(self.held.as_slice());
        self.held.clear();
        taken
    }

    /// Takes the lines of a piece that an LF ends, and answers the rest after them.
    fn feed_lines<'p>(&mut self, piece: &'p [u8]) -> Result<&'p [u8], AllocError>
        ensures fed { MatchResult result
            (λ rest. HoldsNoLineFeed rest.now × HasComeIn self.old self.new piece.now rest.now)
            (λ _. HasFailed self.new.lines) }
        ensures region { self.new.lines.region ≡ self.old.lines.region }
    {
        let mut rest = piece;
        'lines: while let Some((line, behind)) = first_line(rest) {
            self.end_line(line)?;
            rest = self.feed_code(behind)?;
        }
        Ok(rest)
    }

    /// Takes the lines at the front of a piece that are lines of the open code, at once, and answers the rest after
    /// them.
    #[tactic(auto, using(crate::proofs::FeedLemmas::nothing_comes_in))]
    fn feed_code<'p>(&mut self, piece: &'p [u8]) -> Result<&'p [u8], AllocError>
        ensures fed { MatchResult result
            (λ rest. HasComeIn self.old self.new piece.now rest.now)
            (λ _. HasFailed self.new.lines) }
        ensures region { self.new.lines.region ≡ self.old.lines.region }
        ensures within { IfOk result (λ rest. length rest.now ≤ length piece.now) }
    {
        if !self.held.is_empty() {
            return Ok(piece);
        }
        if !self.lines.is_in_code() {
            return Ok(piece);
        }
        let (run, rest) = code_run(piece, self.lines.left());
        self.lines.take_code(run)?;
        Ok(rest)
    }

    /// Takes the rest of the open line, with its LF.
    #[tactic(auto, using(crate::proofs::FeedLemmas::of_end_line))]
    fn end_line(&mut self, rest: &[u8]) -> Result<(), AllocError>
        requires { IsWholeLine rest.now }
        ensures fed { OnOk result ((before : List ℕ) → HasCome self.old before
            → HasCome self.new (before ++ rest.now)) }
        ensures region { self.new.lines.region ≡ self.old.lines.region }
        ensures failed { OnErr result (HasFailed self.new.lines) }
    {
        if rest.len() > self.lines.left() - self.held.len() {
            self.pass_over();
            return Ok(());
        }
        if self.held.is_empty() {
            return self.lines.take(rest);
        }
        keep(&mut self.held, rest, &mut self.lines)?;
        let taken = self.lines.take(self.held.as_slice());
        self.held.clear();
        taken
    }

    /// Takes more of the open line, in which there is no LF.
    #[tactic(auto, using(crate::proofs::FeedLemmas::long_rest_has_come, crate::proofs::FeedLemmas::more_has_come))]
    fn hold(&mut self, more: &[u8]) -> Result<(), AllocError>
        requires { HoldsNoLineFeed more.now }
        ensures fed { OnOk result ((before : List ℕ) → HasCome self.old before
            → HasCome self.new (before ++ more.now)) }
        ensures region { self.new.lines.region ≡ self.old.lines.region }
        ensures failed { OnErr result (HasFailed self.new.lines) }
    {
        if more.len() > self.lines.left() - self.held.len() {
            self.pass_over();
            return Ok(());
        }
        keep(&mut self.held, more, &mut self.lines)
    }

    /// Passes over the open line, which holds the first byte past the limit of a batch.
    fn pass_over(&mut self)
        ensures held { self.new.held ≡ [] }
        ensures refused { (come : ByLines) → Stands self.old.lines come
            → RefusesLongLine self.old.lines self.new.lines come }
        ensures region { self.new.lines.region ≡ self.old.lines.region }
    {
        self.lines.take_long_line();
        self.held.clear();
    }
}

/// Holds more bytes back. If memory is refused they are as before, and the lines have failed.
fn keep<A: Allocator + Copy>(
    held: &mut Vec<u8, A>,
    more: &[u8],
    lines: &mut LineReader<A>,
) -> Result<(), AllocError>
    ensures kept { OnOk result (held.new.items ≡ held.old.items ++ more.now) }
    ensures lines { OnOk result (lines.new ≡ lines.old) }
    ensures unchanged { OnErr result (held.new.items ≡ held.old.items) }
    ensures failed { OnErr result (HasFailed lines.new) }
    ensures region { lines.new.region ≡ lines.old.region }
    ensures left { lines.new.left ≡ lines.old.left }
{
    if held.extend_from_slice(more).is_err() {
        lines.fail();
        return Err(AllocError);
    }
    Ok(())
}
