//! Numbered blocks of words: a block of one word lies in the word of its number, others in one region, each at a place
//! of its own.
ghost use Rattle.std.specs.Prelude.{◌≡◌, ◌+◌, ◌^◌, ◌<◌, ◌≤◌, ℕ, length, take, drop, replicate, None, Some};
ghost use Rattle.std.specs.Prelude.{IsSome, is_some, IfOk, IfSome, IfNone, All, MatchResult, map, slice_index_or};
ghost use Rattle.std.specs.Prelude.{vec_capacity, [], ◌-◌, ◌⊎◌, ◌≢◌};
ghost use Rattle.block_memory.specs.BlocksInside.{covered_in};
ghost use Rattle.block_memory.specs.Table.{value_at, value_count};
ghost use Rattle.block_memory.specs.Layout.{IsBare, IsClear, Begins, owner_at, place_at, covered_at, words_at};
ghost use Rattle.block_memory.specs.Layout.{with_slot, layout_after_move, layout_after_rewrite};
ghost use Rattle.block_memory.specs.BlocksWritten.{IsWritten, IsMarked, IsLengthened};
ghost use Rattle.block_memory.specs.Writing.{IsPutWith, IsRewrittenBy, IsApart, span_at, span_of, words_in};

use crate::memory::{BlockId, MOST_BLOCKS};
use crate::span::{Freed, Span};
use crate::table::Table;
use crate::writer::{MOST_LENT, Rewriter, Writer, write_block};
use holes::LONGEST_REGION;
use std::alloc::{AllocError, Allocator};
use std::marker::Model;

/// Numbered blocks. All memory is taken when it is made, and written when it is used: the list of words is as long as
/// the words that were in use so far, and the list of starts ends at the highest word of the region at which a block
/// began so far.
#[derive(Drop)]
pub struct Blocks<A: Allocator> {
    size: usize,
    // One word of each number, and after them the words of the region.
    words: Vec<i64, A>,
    // At the first word of each block that has words in the region, the block's number. Elsewhere any number, which
    // says nothing: whether a block begins at a word is seen by its span.
    starts: Vec<usize, A>,
    spans: Table<Span, A>,
}

impl<A: Allocator> Model for Blocks<A> {
    ghost use Rattle.std.specs.Prelude.{length, vec_capacity};
    ghost use Rattle.block_memory.specs.Layout.{Layout};

    ghost Value = { Layout };

    ghost use Rattle.block_memory.specs.BlocksInside.{slots_from, AreBlocks};

    ghost view = { λ b. record { size = b.size; slots = slots_from (length b.spans) b.words.items b.spans } };

    ghost invariant = { λ b. AreBlocks (length b.spans) b.words.items b.starts.items b.spans b.size
        (vec_capacity b.words) (vec_capacity b.starts) };
}

// Makes a list at least so long, within what is reserved for it. Only items that it did not have are written.
#[inline(always)]
fn lengthen<A: Allocator, T: Copy>(list: &mut Vec<T, A>, len: usize, item: T)
    requires { len ≤ vec_capacity list.old }
    ensures enough { len ≤ length list.new.items }
    ensures longer { length list.old.items ≤ length list.new.items }
    ensures lengthened { IsLengthened list.old.items list.new.items len }
    ensures capacity { vec_capacity list.old ≤ vec_capacity list.new }
{
    let before = list.len();
    if before < len {
        fill_up(list, len, item);
    }
}

// Puts an item at each place of a list from its end on until it is so long.
#[inline(never)]
#[tactic(auto, using(crate::proofs::Lists::with_more))]
fn fill_up<A: Allocator, T: Copy>(list: &mut Vec<T, A>, len: usize, item: T)
    requires room { len ≤ vec_capacity list.old }
    requires longer { length list.old.items ≤ len }
    ensures long { length list.new.items ≡ len }
    ensures lengthened { IsLengthened list.old.items list.new.items len }
    ensures capacity { vec_capacity list.old ≤ vec_capacity list.new }
{
    let _before = list.len();
    let Ok(()) = list.resize(len, item) else {
        unreachable!()
    };
}

// Copies the new words to a place of the region. One word alone costs no call.
#[inline(always)]
fn write_words(region: &mut [i64], place: usize, words: &[i64])
    requires { place + length words.now ≤ length region.old }
    ensures { IsWritten region.old region.new place words.now }
{
    match words {
        [word] => region[place] = *word,
        _ => region[place..place + words.len()].copy_from_slice(words),
    }
}

// Moves `len` words from one place of the region to another, and answers how many moved: none if it is the same place.
fn move_words(region: &mut [i64], from: usize, len: usize, to: usize) -> usize
    requires from { from + len ≤ length region.old }
    requires to { to + len ≤ length region.old }
    ensures written { IsWritten region.old region.new to (take len (drop from region.old)) }
    ensures few { result ≤ len }
{
    if from == to {
        return 0;
    }
    region.copy_within(from..from + len, to);
    len
}

// Writes a block's number at its first word, if it has words. The list then reaches up to that word.
#[inline(always)]
fn mark_start<A: Allocator>(starts: &mut Vec<usize, A>, place: usize, len: usize, number: usize)
    requires { place + len ≤ vec_capacity starts.old }
    ensures marked { IsMarked starts.old.items starts.new.items place len number }
    ensures capacity { vec_capacity starts.old ≤ vec_capacity starts.new }
{
    if len > 0 {
        lengthen(starts, place + 1, 0);
        starts[place] = number;
    }
}

// The span of the block at this place of a list. After the last it is one of no words.
fn lent_span<A: Allocator>(spans: &Table<Span, A>, lent: &[BlockId], index: usize) -> Span
    requires { All (λ id. IsSome (value_at spans.now id)) lent.now }
    ensures { result ≡ slice_index_or (map (span_at spans.now) lent.now) index (span_of None) }
{
    match lent.get(index) {
        Some(id) => *spans.value(id.number()),
        None => Span {
            owner: 0,
            place: 0,
            len: 0,
        },
    }
}

// Writes the words of a block at a place where no other is, and the words beside it, lent those of other blocks.
#[tactic(auto, using(crate::proofs::BlocksLemmas::for_write_lent))]
fn write_lent<A: Allocator, R: Rewriter>(
    words: &mut [i64],
    spans: &Table<Span, A>,
    place: usize,
    len: usize,
    lent: &[BlockId],
    writer: &R,
    beside: &mut [i64],
) -> Result<(), R::Fault>
    requires within { place + len ≤ length words.old }
    requires few { length lent.now ≤ MOST_LENT }
    requires there { All (λ id. IsSome (value_at spans.now id)) lent.now }
    requires apart { All (λ id. IsApart (length words.old) place len (span_at spans.now id)) lent.now }
    requires can { R.can_rewrite writer.now (map (λ id. words_in words.old (span_at spans.now id)) lent.now)
        (length beside.old) (take len (drop place words.old)) }
    ensures written { IsWritten words.old words.new place (take len (drop place words.new)) }
    ensures by_writer { let others = map (λ id. words_in words.old (span_at spans.now id)) lent.now in
        let old = take len (drop place words.old) in
        MatchResult result (λ _. R.rewrites writer.now others beside.new old (take len (drop place words.new)))
        (λ fault. R.faults_over writer.now others old fault) }
{
    let lent_spans = [
        lent_span(spans, lent, 0),
        lent_span(spans, lent, 1),
        lent_span(spans, lent, 2),
        lent_span(spans, lent, 3),
        lent_span(spans, lent, 4),
    ];
    match write_block(words, place, len, &lent_spans[..lent.len()], writer, beside) {
        Ok(()) => Ok(()),
        Err(fault) => Err(fault),
    }
}

// What the block of a span had: its word before the words of the region, or words of the region.
#[inline(always)]
fn freed(span: Span, front: usize) -> Freed
    requires { (span.place + span.len ≤ front) ⊎ (front ≤ span.place) }
    ensures words { result.words ≡ span.len }
    ensures place { result.place ≡ span.place - front }
    ensures covered { result.covered ≡ covered_in front span }
{
    if span.place < front {
        return Freed {
            words: span.len,
            place: 0,
            covered: 0,
        };
    }
    Freed {
        words: span.len,
        place: span.place - front,
        covered: span.len,
    }
}

impl<A: Allocator> Blocks<A> {
    /// A region of `size` words with numbers for `most` blocks, and no block.
    pub(crate) fn new(alloc: A, size: usize, most: usize) -> Result<Self, AllocError>
    where
        A: Clone,
        requires region { size ≤ LONGEST_REGION }
        requires blocks { most ≤ MOST_BLOCKS }
        ensures { IfOk result (λ blocks. blocks ≡ record { size = size; slots = replicate most None }) }
    {
        let spans = Table::new(alloc.clone()?, most)?;
        let starts = Vec::with_capacity(alloc.clone()?, size)?;
        let words = Vec::with_capacity(alloc, most + size)?;
        Ok(Blocks {
            size,
            words,
            starts,
            spans,
        })
    }

    /// How many words the region has.
    #[inline(always)]
    pub(crate) fn size(&self) -> usize
        ensures { result ≡ self.now.size }
    {
        self.size
    }

    /// How many numbers there are.
    #[inline(always)]
    pub(crate) fn numbers(&self) -> usize
        ensures { result ≡ length self.now.slots }
    {
        self.spans.len()
    }

    /// How many blocks there are.
    #[inline(always)]
    pub(crate) fn count(&self) -> usize
        ensures { result ≡ value_count self.now.slots }
    {
        self.spans.values()
    }

    /// Whether a number has a block.
    #[inline(always)]
    pub(crate) fn is_there(&self, number: usize) -> bool
        ensures { result ≡ is_some (value_at self.now.slots number) }
    {
        self.spans.find(number).is_some()
    }

    /// The owner of the block of a number.
    #[inline(always)]
    pub(crate) fn owner(&self, number: usize) -> usize
        requires { IsSome (value_at self.now.slots number) }
        ensures { result ≡ owner_at self.now.slots number }
    {
        self.spans.value(number).owner
    }

    /// The place of the block of a number in the region, in which it has words, and how many these are.
    #[inline(always)]
    #[tactic(auto, using(crate::proofs::BlocksLemmas::in_region))]
    pub(crate) fn range(&self, number: usize) -> (usize, usize)
        requires there { IsSome (value_at self.now.slots number) }
        requires some { 1 ≤ covered_at self.now.slots number }
        ensures place { result.0 ≡ place_at self.now.slots number }
        ensures len { result.1 ≡ covered_at self.now.slots number }
    {
        let front = self.spans.len();
        let span = self.spans.value(number);
        (span.place - front, span.len)
    }

    /// The words of the block of a number.
    #[inline(always)]
    pub(crate) fn words(&self, number: usize) -> &[i64]
        requires { IsSome (value_at self.now.slots number) }
        ensures { result.now ≡ words_at self.now.slots number }
    {
        let span = self.spans.value(number);
        &self.words[span.place..span.place + span.len]
    }

    // The words of the block at this place of a list. After the last there are none.
    fn lent_words(&self, lent: &[BlockId], index: usize) -> &[i64]
        requires { All (λ id. IsSome (value_at self.now.slots id)) lent.now }
        ensures { result.now ≡ slice_index_or (map (words_at self.now.slots) lent.now) index [] }
    {
        match lent.get(index) {
            Some(id) => self.words(id.number()),
            None => &[],
        }
    }

    // The word of a new block that a writer writes from the words of others, with the words beside it, and what it
    // answers.
    #[tactic(auto, using(crate::proofs::BlocksLemmas::for_written_word))]
    fn written_word<W: Writer>(
        &self,
        lent: &[BlockId],
        writer: &W,
        beside: &mut [i64],
    ) -> ([i64; 1], Result<(), W::Fault>)
        requires few { length lent.now ≤ MOST_LENT }
        requires there { All (λ id. IsSome (value_at self.now.slots id)) lent.now }
        requires can { W.can_write writer.now (map (words_at self.now.slots) lent.now) (length beside.old) 1 }
        ensures { MatchResult result.1
            (λ _. W.writes writer.now (map (words_at self.now.slots) lent.now) beside.new result.0)
            (λ fault. W.faults writer.now (map (words_at self.now.slots) lent.now) fault) }
    {
        let words = [
            self.lent_words(lent, 0),
            self.lent_words(lent, 1),
            self.lent_words(lent, 2),
            self.lent_words(lent, 3),
            self.lent_words(lent, 4),
        ];
        let mut word = [0];
        let written = writer.write(&words[..lent.len()], beside, &mut word);
        (word, written)
    }

    /// The number of the block that has words in the region and begins at a place, if one does.
    pub(crate) fn beginning_at(&self, place: usize) -> Option<usize>
        requires { place < self.now.size }
        ensures found { IfSome result (λ number. Begins self.now.slots number place) }
        ensures none { IfNone result ((number : ℕ) → Begins self.now.slots number place → ⊥) }
        ensures in_memory { self.now.size < 2 ^ 64 }
    {
        let reached = self.starts.len();
        if place >= reached {
            return None;
        }
        let number = self.starts[place];
        let front = self.spans.len();
        let span = self.spans.find(number)?;
        if span.place != front + place {
            return None;
        }
        if span.len == 0 {
            return None;
        }
        Some(number)
    }

    /// Puts a block of one word into the word of its number, which had no block, and answers the number.
    #[inline(always)]
    #[tactic(auto, using(crate::proofs::BlocksLemmas::for_put_word))]
    pub(crate) fn put_word(&mut self, owner: usize, word: &[i64]) -> usize
        requires number { value_count self.old.slots < length self.old.slots }
        requires one { length word.now ≡ 1 }
        ensures in_range { result < length self.old.slots }
        ensures vacant { value_at self.old.slots result ≡ None }
        ensures put { self.new ≡ with_slot self.old result
            (Some (record { owner = owner; place = 0; len = 0; words = word.now })) }
    {
        let number = self.spans.insert_with(|place| Span {
            owner,
            place,
            len: 1,
        });
        lengthen(&mut self.words, number + 1, 0);
        write_words(&mut self.words, number, word);
        number
    }

    /// Puts a block of one word as `put_word` does. A writer writes the word and those beside it, and is lent the words
    /// of other blocks for that. Answers its number and what the writer answers. If that is a fault, nothing is said of
    /// the word and those beside it.
    pub(crate) fn put_word_with<W: Writer>(
        &mut self,
        owner: usize,
        lent: &[BlockId],
        writer: &W,
        beside: &mut [i64],
    ) -> (usize, Result<(), W::Fault>)
        requires number { value_count self.old.slots < length self.old.slots }
        requires few { length lent.now ≤ MOST_LENT }
        requires there { All (λ id. IsSome (value_at self.old.slots id)) lent.now }
        requires can { W.can_write writer.now (map (words_at self.old.slots) lent.now) (length beside.old) 1 }
        ensures in_range { result.0 < length self.old.slots }
        ensures vacant { value_at self.old.slots result.0 ≡ None }
        ensures put { IsPutWith self.old self.new result.0 owner 0 0 1 (λ words. MatchResult result.1
            (λ _. W.writes writer.now (map (words_at self.old.slots) lent.now) beside.new words)
            (λ fault. W.faults writer.now (map (words_at self.old.slots) lent.now) fault)) }
    {
        let (word, written) = self.written_word(lent, writer, beside);
        let number = self.put_word(owner, &word);
        (number, written)
    }

    /// Puts a block of the words at a place at which no block covers a word, and answers its number, which had none.
    #[inline(always)]
    #[tactic(auto, using(crate::proofs::BlocksLemmas::for_put))]
    pub(crate) fn put(&mut self, owner: usize, place: usize, words: &[i64]) -> usize
        requires number { value_count self.old.slots < length self.old.slots }
        requires within { place + length words.now ≤ self.old.size }
        requires bare { IsBare self.old.slots place (length words.now) }
        ensures in_range { result < length self.old.slots }
        ensures vacant { value_at self.old.slots result ≡ None }
        ensures put { self.new ≡ with_slot self.old result
            (Some (record { owner = owner; place = place; len = length words.now; words = words.now })) }
    {
        let len = words.len();
        let front = self.spans.len();
        let at = front + place;
        lengthen(&mut self.words, at + len, 0);
        write_words(&mut self.words, at, words);
        let span = Span {
            owner,
            place: at,
            len,
        };
        let number = self.spans.insert(span);
        mark_start(&mut self.starts, place, len, number);
        number
    }

    /// Puts a block of `len` words at a place where no block covers a word. A writer writes it and the words beside it,
    /// and is lent the words of other blocks for that. Answers its number, which had none, and what the writer answers.
    /// If that is a fault, nothing is said of the words of the block and beside it.
    #[tactic(auto, using(crate::proofs::BlocksLemmas::for_put))]
    pub(crate) fn put_with<W: Writer>(
        &mut self,
        owner: usize,
        place: usize,
        len: usize,
        lent: &[BlockId],
        writer: &W,
        beside: &mut [i64],
    ) -> (usize, Result<(), W::Fault>)
        requires number { value_count self.old.slots < length self.old.slots }
        requires within { place + len ≤ self.old.size }
        requires bare { IsBare self.old.slots place len }
        requires few { length lent.now ≤ MOST_LENT }
        requires there { All (λ id. IsSome (value_at self.old.slots id)) lent.now }
        requires can { W.can_write writer.now (map (words_at self.old.slots) lent.now) (length beside.old) len }
        ensures in_range { result.0 < length self.old.slots }
        ensures vacant { value_at self.old.slots result.0 ≡ None }
        ensures put { IsPutWith self.old self.new result.0 owner place len len (λ words. MatchResult result.1
            (λ _. W.writes writer.now (map (words_at self.old.slots) lent.now) beside.new words)
            (λ fault. W.faults writer.now (map (words_at self.old.slots) lent.now) fault)) }
    {
        let front = self.spans.len();
        let at = front + place;
        lengthen(&mut self.words, at + len, 0);
        let written = write_lent(&mut self.words, &self.spans, at, len, lent, &writer, beside);
        let span = Span {
            owner,
            place: at,
            len,
        };
        let number = self.spans.insert(span);
        mark_start(&mut self.starts, place, len, number);
        (number, written)
    }

    /// Writes other words over those of the block of a number, which has as many and shares none with another.
    #[inline(always)]
    #[tactic(auto, using(crate::proofs::BlocksLemmas::for_rewrite))]
    pub(crate) fn rewrite(&mut self, number: usize, words: &[i64])
        requires there { IsSome (value_at self.old.slots number) }
        requires same_length { length words.now ≡ length (words_at self.old.slots number) }
        requires clear { IsClear self.old.slots number (place_at self.old.slots number)
            (covered_at self.old.slots number) }
        ensures { self.new ≡ layout_after_rewrite self.old number words.now }
    {
        let span = *self.spans.value(number);
        write_words(&mut self.words, span.place, words);
    }

    /// Writes other words over those of the block of a number, which shares none with another. A rewriter writes them,
    /// and is lent the words of other blocks for that. If it finds a fault, nothing is said of the block's words.
    #[tactic(auto, using(crate::proofs::BlocksLemmas::for_rewrite_with))]
    pub(crate) fn rewrite_with<R: Rewriter>(
        &mut self,
        number: usize,
        lent: &[BlockId],
        rewriter: &R,
    ) -> Result<(), R::Fault>
        requires there { IsSome (value_at self.old.slots number) }
        requires clear { IsClear self.old.slots number (place_at self.old.slots number)
            (covered_at self.old.slots number) }
        requires few { length lent.now ≤ MOST_LENT }
        requires lent_there { All (λ id. IsSome (value_at self.old.slots id)) lent.now }
        requires others { All (λ id. id ≢ number) lent.now }
        requires can { R.can_rewrite rewriter.now (map (words_at self.old.slots) lent.now) 0
            (words_at self.old.slots number) }
        ensures { IsRewrittenBy (words_at self.old.slots number) (λ words. self.new
            ≡ layout_after_rewrite self.old number words) (λ words. MatchResult result
            (λ _. R.rewrites rewriter.now (map (words_at self.old.slots) lent.now) []
            (words_at self.old.slots number) words)
            (λ fault. R.faults_over rewriter.now (map (words_at self.old.slots) lent.now)
            (words_at self.old.slots number) fault)) }
    {
        let span = *self.spans.value(number);
        write_lent(
            &mut self.words,
            &self.spans,
            span.place,
            span.len,
            lent,
            rewriter,
            &mut [],
        )
    }

    /// Takes the block of a number away, and answers what it had.
    #[inline(always)]
    #[tactic(auto, using(crate::proofs::BlocksLemmas::for_remove))]
    pub(crate) fn remove(&mut self, number: usize) -> Freed
        requires { IsSome (value_at self.old.slots number) }
        ensures words { result.words ≡ length (words_at self.old.slots number) }
        ensures place { result.place ≡ place_at self.old.slots number }
        ensures covered { result.covered ≡ covered_at self.old.slots number }
        ensures removed { self.new ≡ with_slot self.old number None }
    {
        let front = self.spans.len();
        let span = self.spans.remove(number);
        freed(span, front)
    }

    /// Moves the block of a number, which has words in the region, to a place from which on no other block covers one
    /// of its words. Answers how many words moved.
    #[tactic(auto, using(crate::proofs::BlocksLemmas::for_put))]
    pub(crate) fn slide(&mut self, number: usize, to: usize) -> usize
        requires there { IsSome (value_at self.old.slots number) }
        requires some { 1 ≤ covered_at self.old.slots number }
        requires within { to + covered_at self.old.slots number ≤ self.old.size }
        requires clear { IsClear self.old.slots number to (covered_at self.old.slots number) }
        ensures moved { self.new ≡ layout_after_move self.old number to }
        ensures few { result ≤ covered_at self.old.slots number }
    {
        let Span { owner, place, len } = *self.spans.value(number);
        let front = self.spans.len();
        let at = front + to;
        lengthen(&mut self.words, at + len, 0);
        let moved = move_words(&mut self.words, place, len, at);
        mark_start(&mut self.starts, to, len, number);
        let span = Span {
            owner,
            place: at,
            len,
        };
        self.spans.set(number, span);
        moved
    }
}
