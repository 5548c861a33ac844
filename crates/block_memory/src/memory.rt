//! The contract of a vector memory.
ghost use Rattle.std.specs.Prelude.{◌≡◌, ◌+◌, ◌<◌, ◌≤◌, ◌↔◌, ℕ, Bool, Option, Some, None, length, map, All, slice_get};
ghost use Rattle.std.specs.Prelude.{IsTrue, IfOk, IfErr, OnErr, MatchResult, ◌≢◌, []};
ghost use Rattle.block_memory.specs.Content.{Content, IsLive, block_at, owner_at, words_at, used_words};
ghost use Rattle.block_memory.specs.Content.{block_count, with_block, without_block};
ghost use Rattle.block_memory.specs.Placing.{IsPlacedWith, IsRewrittenWith};

use crate::writer::{MOST_LENT, Rewriter, Writer};
use std::marker::Model;

/// The most blocks that a memory may be made for.
pub const MOST_BLOCKS: usize = 1 << 30;

/// The number of a block in a memory. It may be used again for another block once its block is freed.
#[derive(Clone, Copy, Debug, PartialEq, Eq)]
pub struct BlockId {
    number: usize,
}

impl Model for BlockId {
    ghost use Rattle.std.specs.Prelude.{ℕ};

    ghost Value = { ℕ };

    ghost view = { λ id. id.number };

    ghost inverse = { λ number. record { number = number } };
}

impl BlockId {
    /// The number itself, which is below `ids()` of the memory that gave it.
    #[inline(always)]
    pub fn number(self) -> usize
        ensures { result ≡ self }
    {
        self.number
    }

    #[inline(always)]
    pub(crate) fn new(number: usize) -> Self
        ensures { result ≡ number }
    {
        BlockId { number }
    }
}

/// Why a block was not placed.
#[derive(Clone, Copy, Debug, PartialEq, Eq)]
pub enum NoRoom {
    /// The words in use and those of the block are more than the memory was made for.
    Full,
    /// The words would fit, but the machine refused the memory for them.
    Memory,
}

/// A memory of numbered blocks, each a list of words with an owner.
///
/// A call that names a block has the condition that the number has a block, and changes or reads this block alone.
pub trait VectorMemory {
    /// The block of each number, or nothing.
    ghost content: { Self → Content };

    /// How many words fit.
    ghost room: { Self → ℕ };

    /// Whether `place` may answer `Memory`.
    ghost may_refuse: { Bool };

    /// Places a new block of the words at a number that has none, for an owner. There has to be such a number.
    ///
    /// The answer is `Full` exactly if the words in use and these together are more than fit. It is `Memory` only if
    /// they would fit, and only in a memory that may refuse. Nothing changes at either.
    fn place(&mut self, owner: usize, words: &[i64]) -> Result<BlockId, NoRoom>
        requires { block_count (content self.old) < length (content self.old) }
        ensures fresh { IfOk result (λ id. (id < length (content self.old)) × (block_at (content self.old) id ≡ None)) }
        ensures placed { IfOk result
            (λ id. content self.new ≡ with_block (content self.old) id (record { owner = owner; words = words.now })) }
        ensures full { (result ≡ Err NoRoom.Full) ↔ (room self.old < used_words (content self.old) + length words.now) }
        ensures memory { result ≡ Err NoRoom.Memory → IsTrue may_refuse
            × (used_words (content self.old) + length words.now ≤ room self.old) }
        ensures err { OnErr result (content self.new ≡ content self.old) }
        ensures same_room { room self.new ≡ room self.old };

    /// Takes a block away. Its words are free again, and so is its number.
    fn free(&mut self, id: BlockId)
        requires { IsLive (content self.old) id }
        ensures freed { content self.new ≡ without_block (content self.old) id }
        ensures same_room { room self.new ≡ room self.old };

    /// Whether a number has a block.
    fn is_live(&self, id: BlockId) -> bool
        ensures { IsTrue result ↔ IsLive (content self.now) id };

    /// Whose a block is.
    fn owner(&self, id: BlockId) -> usize
        requires { IsLive (content self.now) id }
        ensures { result ≡ owner_at (content self.now) id };

    /// The words of a block.
    fn words(&self, id: BlockId) -> &[i64]
        requires { IsLive (content self.now) id }
        ensures { result.now ≡ words_at (content self.now) id };

    /// How many words a block has.
    #[inline(always)]
    fn len(&self, id: BlockId) -> usize
        requires { IsLive (content self.now) id }
        ensures { result ≡ length (words_at (content self.now) id) }
    {
        self.words(id).len()
    }

    /// A word of a block, counted from 0.
    #[inline(always)]
    fn word(&self, id: BlockId, i: usize) -> i64
        requires live { IsLive (content self.now) id }
        requires within { i < length (words_at (content self.now) id) }
        ensures { slice_get (words_at (content self.now) id) i ≡ Some result }
    {
        self.words(id)[i]
    }

    /// Copies the words of a block to `buf`, which has its length.
    fn read_into(&self, id: BlockId, buf: &mut [i64])
        requires live { IsLive (content self.now) id }
        requires same_length { length buf.old ≡ length (words_at (content self.now) id) }
        ensures { buf.new ≡ words_at (content self.now) id }
    {
        buf.copy_from_slice(self.words(id));
    }

    /// Moves blocks together if the memory keeps them in one region. No block changes.
    fn pack(&mut self)
        ensures kept { content self.new ≡ content self.old }
        ensures same_room { room self.new ≡ room self.old };

    /// How many words the blocks have together, at most `size()`.
    fn used(&self) -> usize
        ensures value { result ≡ used_words (content self.now) }
        ensures within { result ≤ room self.now };

    /// How many words fit: the size that the memory was made with.
    fn size(&self) -> usize
        ensures { result ≡ room self.now };

    /// How many blocks there are.
    fn blocks(&self) -> usize
        ensures { result ≡ block_count (content self.now) };

    /// How many numbers there are: the number of blocks that the memory was made for. Each number is below it.
    fn ids(&self) -> usize
        ensures { result ≡ length (content self.now) };
}

/// A memory in which other words can be written over those of a block.
pub trait RewritableMemory: VectorMemory {
    /// Writes other words over those of a block, which has as many.
    fn rewrite(&mut self, id: BlockId, words: &[i64])
        requires live { IsLive (Self.content self.old) id }
        requires same_length { length words.now ≡ length (words_at (Self.content self.old) id) }
        ensures rewritten { Self.content self.new ≡ with_block (Self.content self.old) id
            (record { owner = owner_at (Self.content self.old) id; words = words.now }) }
        ensures same_room { Self.room self.new ≡ Self.room self.old };
}

/// A memory that lends the words of its blocks to what writes another: a [`Writer`] of a new one, or a [`Rewriter`].
pub trait LendingMemory: VectorMemory {
    /// Places a new block of `len` words, which fit, for an owner. A writer writes it where it lies, and writes the
    /// words of `beside`. It is lent the words of other blocks for that. There has to be a number without a block.
    ///
    /// # Errors
    ///
    /// The fault that the writer finds. The memory doesn't change then, and nothing is said of the words of `beside`.
    fn place_with<W: Writer>(
        &mut self,
        owner: usize,
        len: usize,
        lent: &[BlockId],
        writer: &W,
        beside: &mut [i64],
    ) -> Result<BlockId, W::Fault>
        requires numbers { block_count (Self.content self.old) < length (Self.content self.old) }
        requires room { used_words (Self.content self.old) + len ≤ Self.room self.old }
        requires few { length lent.now ≤ MOST_LENT }
        requires live { All (IsLive (Self.content self.old)) lent.now }
        requires can { W.can_write writer.now (map (words_at (Self.content self.old)) lent.now) (length beside.old)
            len }
        ensures placed { IfOk result (λ id. IsPlacedWith (Self.content self.old) (Self.content self.new) id owner len
            (W.writes writer.now (map (words_at (Self.content self.old)) lent.now) beside.new)) }
        ensures unchanged { OnErr result (Self.content self.new ≡ Self.content self.old) }
        ensures fault { IfErr result (W.faults writer.now (map (words_at (Self.content self.old)) lent.now)) }
        ensures same_room { Self.room self.new ≡ Self.room self.old };

    /// Writes other words over those of a block. A rewriter writes them where they lie, and none beside them. It is
    /// lent the words of other blocks for that.
    ///
    /// # Errors
    ///
    /// The fault that the rewriter finds. Nothing is said of the block's words then.
    fn rewrite_with<R: Rewriter>(
        &mut self,
        id: BlockId,
        lent: &[BlockId],
        rewriter: &R,
    ) -> Result<(), R::Fault>
        requires live { IsLive (Self.content self.old) id }
        requires few { length lent.now ≤ MOST_LENT }
        requires lent_live { All (IsLive (Self.content self.old)) lent.now }
        requires others { All (λ other. other ≢ id) lent.now }
        requires can { R.can_rewrite rewriter.now (map (words_at (Self.content self.old)) lent.now) 0
            (words_at (Self.content self.old) id) }
        ensures rewritten { let lists = map (words_at (Self.content self.old)) lent.now in
            let old = words_at (Self.content self.old) id in
            IsRewrittenWith (Self.content self.old) (Self.content self.new) id (λ words. MatchResult result
            (λ _. R.rewrites rewriter.now lists [] old words) (λ fault. R.faults_over rewriter.now lists old fault)) }
        ensures same_room { Self.room self.new ≡ Self.room self.old };
}
