//! What writes the words of a block where it lies, and further words beside it, from the words of other blocks.
ghost use Rattle.std.specs.Prelude.{◌≡◌, ◌≤◌, ◌+◌, ◌^◌, ◌<◌, ◌++◌, ℕ, ℤ, List, [], All, MatchResult, slice_index_or};
ghost use Rattle.std.specs.Prelude.{length, take, drop, map};
ghost use Rattle.std.specs.List.{SameBelow, SameFrom};
ghost use Rattle.block_memory.specs.Writing.{contents, IsOutside, IsApart, words_in};

use crate::span::Span;

/// The most blocks whose words a writer is lent.
pub const MOST_LENT: usize = 5;

/// Writes the words of a new block from the words of other blocks, and further words beside it in a slice that the
/// caller lends.
pub trait Writer {
    ghost use Rattle.std.specs.Prelude.{List, ℤ, ℕ, MatchResult};

    /// Why there are no words to write.
    type Fault;

    /// From these lists so many words can be written beside a block of this length.
    ghost can_write: { Self → List (List ℤ) → ℕ → ℕ → Type 0 };

    /// From these lists these words are written beside the block, and these are the words of the block.
    ghost writes: { Self → List (List ℤ) → List ℤ → List ℤ → Type 0 };

    /// These lists have this fault.
    ghost faults: { Self → List (List ℤ) → Self.Fault → Type 0 };

    /// Writes a block, and the words beside it, from lists that are lent.
    ///
    /// # Errors
    ///
    /// The fault that the lists have. Nothing is said of the words of the block and beside it then.
    fn write(
        &self,
        lent: &[&[i64]],
        beside: &mut [i64],
        block: &mut [i64],
    ) -> Result<(), Self::Fault>
        requires { can_write self.now (contents lent.now) (length beside.old) (length block.old) }
        ensures { MatchResult result (λ _. writes self.now (contents lent.now) beside.new block.new)
            (λ fault. faults self.now (contents lent.now) fault) };
}

/// Writes other words over those of a block from the words of other blocks, and further words beside it in a slice that
/// the caller lends.
pub trait Rewriter {
    ghost use Rattle.std.specs.Prelude.{List, ℤ, ℕ, MatchResult};

    /// Why there are no words to write.
    type Fault;

    /// From these lists so many words can be written beside a block of these words, and others over them.
    ghost can_rewrite: { Self → List (List ℤ) → ℕ → List ℤ → Type 0 };

    /// From these lists these words are written beside the block, and over its words these others.
    ghost rewrites: { Self → List (List ℤ) → List ℤ → List ℤ → List ℤ → Type 0 };

    /// These lists and the words of a block have this fault.
    ghost faults_over: { Self → List (List ℤ) → List ℤ → Self.Fault → Type 0 };

    /// Writes over the words of a block, and beside it, from lists that are lent.
    ///
    /// # Errors
    ///
    /// The fault that they have. Nothing is said of the words of the block and beside it then.
    fn rewrite(
        &self,
        lent: &[&[i64]],
        beside: &mut [i64],
        block: &mut [i64],
    ) -> Result<(), Self::Fault>
        requires { can_rewrite self.now (contents lent.now) (length beside.old) block.old }
        ensures { MatchResult result (λ _. rewrites self.now (contents lent.now) beside.new block.old block.new)
            (λ fault. faults_over self.now (contents lent.now) block.old fault) };
}

/// A writer of new blocks, whatever words the block had.
impl<W: Writer> Rewriter for &W {
    ghost use Rattle.std.specs.Prelude.{length};

    type Fault = W::Fault;

    ghost can_rewrite = { λ w lent beside old. W.can_write w.now lent beside (length old) };

    ghost rewrites = { λ w lent beside old new. W.writes w.now lent beside new };

    ghost faults_over = { λ w lent old fault. W.faults w.now lent fault };

    fn rewrite(
        &self,
        lent: &[&[i64]],
        beside: &mut [i64],
        block: &mut [i64],
    ) -> Result<(), W::Fault> {
        self.write(lent, beside, block)
    }
}

// The words of a span that lies outside of a block, or has none. `before` and `behind` are the words of the region
// before and after the block.
#[tactic(auto, using(crate::proofs::WriterLemmas::for_words_outside))]
fn words_outside<'a>(before: &'a [i64], behind: &'a [i64], len: usize, span: Span) -> &'a [i64]
    requires outside { IsOutside (length before.now + len + length behind.now) (length before.now) len span }
    requires size { length before.now + len + length behind.now < 2 ^ 64 }
    ensures { (block : List ℤ) → length block ≡ len → result.now ≡ words_in (before.now ++ block ++ behind.now) span }
{
    if span.len == 0 {
        return &[];
    }
    let end = before.len() + len;
    if span.place < end {
        &before[span.place..span.place + span.len]
    } else {
        let from = span.place - end;
        &behind[from..from + span.len]
    }
}

// The words of the span at this place of a list. After the last there are none.
fn words_at<'a>(
    before: &'a [i64],
    behind: &'a [i64],
    len: usize,
    spans: &[Span],
    index: usize,
) -> &'a [i64]
    requires outside { All (IsOutside (length before.now + len + length behind.now) (length before.now) len) spans.now }
    requires size { length before.now + len + length behind.now < 2 ^ 64 }
    ensures { (block : List ℤ) → length block ≡ len
        → result.now ≡ slice_index_or (map (words_in (before.now ++ block ++ behind.now)) spans.now) index [] }
{
    match spans.get(index) {
        Some(span) => words_outside(before, behind, len, *span),
        None => &[],
    }
}

// Writes a block, and the words beside it, from the words of spans outside of it.
#[tactic(auto, using(crate::proofs::WriterLemmas::for_write_between))]
fn write_between<R: Rewriter>(
    before: &[i64],
    block: &mut [i64],
    behind: &[i64],
    spans: &[Span],
    writer: &R,
    beside: &mut [i64],
) -> Result<(), R::Fault>
    requires few { length spans.now ≤ MOST_LENT }
    requires outside { All (IsOutside (length before.now + length block.old + length behind.now) (length before.now)
        (length block.old)) spans.now }
    requires size { length before.now + length block.old + length behind.now < 2 ^ 64 }
    requires can { R.can_rewrite writer.now (map (words_in (before.now ++ block.old ++ behind.now)) spans.now)
        (length beside.old) block.old }
    ensures { let lent = map (words_in (before.now ++ block.old ++ behind.now)) spans.now in
        MatchResult result (λ _. R.rewrites writer.now lent beside.new block.old block.new)
        (λ fault. R.faults_over writer.now lent block.old fault) }
{
    let len = block.len();
    let lent = [
        words_at(before, behind, len, spans, 0),
        words_at(before, behind, len, spans, 1),
        words_at(before, behind, len, spans, 2),
        words_at(before, behind, len, spans, 3),
        words_at(before, behind, len, spans, 4),
    ];
    writer.rewrite(&lent[..spans.len()], beside, block)
}

/// Writes `len` words of a region from a place on, and the words beside them, from the words of spans outside of them.
pub(crate) fn write_block<R: Rewriter>(
    region: &mut [i64],
    place: usize,
    len: usize,
    spans: &[Span],
    writer: &R,
    beside: &mut [i64],
) -> Result<(), R::Fault>
    requires inside { place + len ≤ length region.old }
    requires few { length spans.now ≤ MOST_LENT }
    requires apart { All (IsApart (length region.old) place len) spans.now }
    requires can { R.can_rewrite writer.now (map (words_in region.old) spans.now) (length beside.old)
        (take len (drop place region.old)) }
    ensures written { let lent = map (words_in region.old) spans.now in let old = take len (drop place region.old) in
        MatchResult result (λ _. R.rewrites writer.now lent beside.new old (take len (drop place region.new)))
        (λ fault. R.faults_over writer.now lent old fault) }
    ensures same_size { length region.new ≡ length region.old }
    ensures below { SameBelow region.old region.new place }
    ensures behind { SameFrom region.old region.new (place + len) }
{
    if len == 0 {
        return write_between(region, &mut [], &[], spans, writer, beside);
    }
    let (before, rest) = region.split_at_mut(place);
    let (block, behind) = rest.split_at_mut(len);
    match write_between(before, block, behind, spans, writer, beside) {
        Ok(()) => Ok(()),
        Err(fault) => Err(fault),
    }
}
