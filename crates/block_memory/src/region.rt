//! A vector memory whose blocks lie in one region.
ghost use Rattle.std.specs.Prelude.{◌≡◌, ◌+◌, ◌<◌, ◌≤◌, All, map, length, replicate, true, None, IfOk};
ghost use Rattle.std.specs.Prelude.{IfErr};
ghost use Rattle.holes.specs.FreeWords.{hole_count};
ghost use Rattle.block_memory.specs.Content.{IsLive, no_blocks, block_count, used_words, words_at, block_at};
ghost use Rattle.block_memory.specs.Content.{with_block};
ghost use Rattle.block_memory.specs.Placing.{IsPlacedWith};

use crate::blocks::Blocks;
use crate::memory::{BlockId, LendingMemory, MOST_BLOCKS, NoRoom, RewritableMemory, VectorMemory};
use crate::pack::WholePacking;
use crate::packing::{MoveCounts, Packing};
use crate::places::Places;
use crate::slide::SlidingPacking;
use crate::writer::{MOST_LENT, Rewriter, Writer};
use holes::LONGEST_REGION;
use std::alloc::{AllocError, Allocator};
use std::marker::{Model, PhantomData};

/// A vector memory in one region of words, in which blocks are moved in the way `P` if no hole is wide enough. It takes
/// all its memory when it is made, and `place` never answers [`NoRoom::Memory`]. Memory for words is written when the
/// words are first used.
///
/// A block lies in a row of words, and a block of no words covers none. If a hole is wide enough, `place` costs the
/// words of the block and a look for the hole, or for the words of a block of its length that was freed lately. `free`
/// costs keeping the words or giving them back to the holes, however many blocks there are. [`RegionMemory`] and
/// [`SlidingMemory`] say what `place` does else.
///
/// A block of one word lies in the word of its number, and covers no word of the region. It counts as every other in
/// what is used and in what fits: as many words of the region stay free for it.
#[derive(Drop)]
pub struct PackedRegion<P, A: Allocator> {
    blocks: Blocks<A>,
    places: Places<A>,
    // The words of all blocks.
    used: usize,
    // Those of them that lie in the region.
    covered: usize,
    counts: MoveCounts,
    packing: PhantomData<P>,
}

// A block that was placed, and the fault that its writer found.
#[derive(Drop)]
struct Unwritten<F> {
    id: BlockId,
    fault: F,
}

/// A region in which `place` moves all blocks together at once if no hole is wide enough.
pub type RegionMemory<A> = PackedRegion<WholePacking, A>;

/// A region in which `place` slides blocks down if no hole is wide enough: those after the lowest hole, one after
/// another, and only until the words that are asked for fit before the next. Once more words slid than the region has,
/// `place` moves all blocks together instead, and counts anew.
pub type SlidingMemory<A> = PackedRegion<SlidingPacking, A>;

impl<P, A: Allocator> Model for PackedRegion<P, A> {
    ghost use Rattle.block_memory.specs.Region.{RegionState, IsPackedRegion};
    ghost use Rattle.block_memory.specs.Layout.{content_of};

    ghost Value = { RegionState };

    ghost view = { λ m. record
        { room = m.blocks.size; content = content_of m.blocks.slots; free = m.places.free; moved = m.counts.last } };

    ghost invariant = { λ m. IsPackedRegion m.blocks m.places m.covered m.used };
}

impl<P: Packing, A: Allocator> PackedRegion<P, A> {
    /// A memory for `size` words in at most `most_blocks` blocks, with no block yet. All words are free. There are at
    /// most [`LONGEST_REGION`] words, and numbers for at most [`MOST_BLOCKS`] blocks.
    ///
    /// An error means that the allocator refused the room for the words, the numbers of the blocks or the holes.
    #[tactic(auto, using(crate::proofs::RegionLemmas::for_new))]
    pub fn new(alloc: A, size: usize, most_blocks: usize) -> Result<Self, AllocError>
    where
        A: Clone,
        requires region { size ≤ LONGEST_REGION }
        requires blocks { most_blocks ≤ MOST_BLOCKS }
        ensures empty { IfOk result (λ m. m.content ≡ no_blocks most_blocks) }
        ensures size { IfOk result (λ m. m.room ≡ size) }
        ensures free { IfOk result (λ m. m.free ≡ replicate size true) }
        ensures moved { IfOk result (λ m. m.moved ≡ 0) }
    {
        let blocks = Blocks::new(alloc.clone()?, size, most_blocks)?;
        let places = Places::new(alloc, size)?;
        Ok(PackedRegion {
            blocks,
            places,
            used: 0,
            covered: 0,
            counts: MoveCounts { last: 0, slid: 0 },
            packing: PhantomData,
        })
    }

    // Places a block of one word, which fits.
    #[inline(always)]
    #[tactic(auto, using(crate::proofs::RegionLemmas::for_put_word))]
    fn put_word(&mut self, owner: usize, word: &[i64]) -> BlockId
        requires one { length word.now ≡ 1 }
        requires numbers { block_count self.old.content < length self.old.content }
        requires room { used_words self.old.content + 1 ≤ self.old.room }
        ensures in_range { result < length self.old.content }
        ensures vacant { block_at self.old.content result ≡ None }
        ensures placed { self.new.content ≡ with_block self.old.content result
            (record { owner = owner; words = word.now }) }
        ensures same_room { self.new.room ≡ self.old.room }
    {
        let _size = self.blocks.size();
        self.counts.last = 0;
        let number = self.blocks.put_word(owner, word);
        self.used += 1;
        BlockId::new(number)
    }

    // Places a block in the region, which fits.
    #[inline(never)]
    #[tactic(auto, using(crate::proofs::RegionLemmas::for_put))]
    fn put(&mut self, owner: usize, words: &[i64]) -> BlockId
        requires numbers { block_count self.old.content < length self.old.content }
        requires room { used_words self.old.content + length words.now ≤ self.old.room }
        ensures in_range { result < length self.old.content }
        ensures vacant { block_at self.old.content result ≡ None }
        ensures placed { self.new.content ≡ with_block self.old.content result
            (record { owner = owner; words = words.now }) }
        ensures same_room { self.new.room ≡ self.old.room }
    {
        let _size = self.blocks.size();
        let len = words.len();
        let place = self
            .places
            .take_room::<P>(&mut self.blocks, self.covered, len, &mut self.counts);
        let number = self.blocks.put(owner, place, words);
        self.used += len;
        self.covered += len;
        BlockId::new(number)
    }

    // As `put_with`, in the word of the number.
    #[tactic(auto, using(crate::proofs::RegionLemmas::for_put_word_with))]
    fn put_word_with<W: Writer>(
        &mut self,
        owner: usize,
        lent: &[BlockId],
        writer: &W,
        beside: &mut [i64],
    ) -> Result<BlockId, Unwritten<W::Fault>>
        requires numbers { block_count self.old.content < length self.old.content }
        requires room { used_words self.old.content + 1 ≤ self.old.room }
        requires few { length lent.now ≤ MOST_LENT }
        requires live { All (IsLive self.old.content) lent.now }
        requires can { W.can_write writer.now (map (words_at self.old.content) lent.now) (length beside.old) 1 }
        ensures placed { IfOk result (λ id. IsPlacedWith self.old.content self.new.content id owner 1
            (W.writes writer.now (map (words_at self.old.content) lent.now) beside.new)) }
        ensures fault { IfErr result (λ u. IsPlacedWith self.old.content self.new.content u.id owner 1
            (λ words. W.faults writer.now (map (words_at self.old.content) lent.now) u.fault)) }
        ensures same_room { self.new.room ≡ self.old.room }
    {
        let _size = self.blocks.size();
        self.counts.last = 0;
        let (number, written) = self.blocks.put_word_with(owner, lent, writer, beside);
        self.used += 1;
        let id = BlockId::new(number);
        match written {
            Ok(()) => Ok(id),
            Err(fault) => Err(Unwritten { id, fault }),
        }
    }

    // Places a block that a writer writes, as `place_with`. If the writer finds a fault, the block stays, with any
    // words.
    #[inline(always)]
    #[tactic(auto, using(crate::proofs::RegionLemmas::for_put_with))]
    fn put_with<W: Writer>(
        &mut self,
        owner: usize,
        len: usize,
        lent: &[BlockId],
        writer: &W,
        beside: &mut [i64],
    ) -> Result<BlockId, Unwritten<W::Fault>>
        requires numbers { block_count self.old.content < length self.old.content }
        requires room { used_words self.old.content + len ≤ self.old.room }
        requires few { length lent.now ≤ MOST_LENT }
        requires live { All (IsLive self.old.content) lent.now }
        requires can { W.can_write writer.now (map (words_at self.old.content) lent.now) (length beside.old) len }
        ensures placed { IfOk result (λ id. IsPlacedWith self.old.content self.new.content id owner len
            (W.writes writer.now (map (words_at self.old.content) lent.now) beside.new)) }
        ensures fault { IfErr result (λ u. IsPlacedWith self.old.content self.new.content u.id owner len
            (λ words. W.faults writer.now (map (words_at self.old.content) lent.now) u.fault)) }
        ensures same_room { self.new.room ≡ self.old.room }
    {
        if len == 1 {
            return self.put_word_with(owner, lent, writer, beside);
        }
        let _size = self.blocks.size();
        let place = self
            .places
            .take_room::<P>(&mut self.blocks, self.covered, len, &mut self.counts);
        let (number, written) = self
            .blocks
            .put_with(owner, place, len, lent, writer, beside);
        self.used += len;
        self.covered += len;
        let id = BlockId::new(number);
        match written {
            Ok(()) => Ok(id),
            Err(fault) => Err(Unwritten { id, fault }),
        }
    }

    /// How many words of other blocks the last `place` moved that placed a block, 0 before the first.
    ///
    /// That it is 0 before the first is a clause of `new`. After a `place` no clause says what it is: tests compare it.
    pub fn moved(&self) -> usize
        ensures { result ≡ self.now.moved }
    {
        self.counts.last
    }
}

impl<P: Packing, A: Allocator> VectorMemory for PackedRegion<P, A> {
    ghost use Rattle.std.specs.Prelude.{false};

    ghost content = { λ m. m.content };

    ghost room = { λ m. m.room };

    ghost may_refuse = { false };

    #[inline(always)]
    fn place(&mut self, owner: usize, words: &[i64]) -> Result<BlockId, NoRoom> {
        if words.len() > self.blocks.size() - self.used {
            return Err(NoRoom::Full);
        }
        match words {
            [_] => Ok(self.put_word(owner, words)),
            _ => Ok(self.put(owner, words)),
        }
    }

    #[inline(always)]
    #[tactic(auto, using(crate::proofs::RegionLemmas::for_free))]
    fn free(&mut self, id: BlockId) {
        let freed = self.blocks.remove(id.number());
        self.used -= freed.words;
        if freed.covered == 0 {
            return;
        }
        self.covered -= freed.covered;
        self.places.give(freed.place, freed.covered);
    }

    #[inline(always)]
    fn is_live(&self, id: BlockId) -> bool {
        self.blocks.is_there(id.number())
    }

    #[inline(always)]
    fn owner(&self, id: BlockId) -> usize {
        self.blocks.owner(id.number())
    }

    #[inline(always)]
    fn words(&self, id: BlockId) -> &[i64] {
        self.blocks.words(id.number())
    }

    /// Moves the blocks to the front of the region. The free words are one hole then, or none.
    #[tactic(auto, using(crate::proofs::RegionLemmas::for_pack))]
    fn pack(&mut self)
        ensures kept { self.new.content ≡ self.old.content }
        ensures same_room { self.new.room ≡ self.old.room }
        ensures one_hole { hole_count self.new.free ≤ 1 }
    {
        self.places.pack(&mut self.blocks, self.covered);
        self.counts.slid = 0;
    }

    #[inline(always)]
    fn used(&self) -> usize {
        self.used
    }

    #[inline(always)]
    fn size(&self) -> usize {
        self.blocks.size()
    }

    #[tactic(auto, using(crate::proofs::RegionLemmas::for_blocks))]
    fn blocks(&self) -> usize {
        self.blocks.count()
    }

    fn ids(&self) -> usize {
        self.blocks.numbers()
    }
}

impl<P: Packing, A: Allocator> RewritableMemory for PackedRegion<P, A> {
    #[inline(always)]
    #[tactic(auto, using(crate::proofs::RegionLemmas::can_rewrite))]
    fn rewrite(&mut self, id: BlockId, words: &[i64]) {
        self.blocks.rewrite(id.number(), words);
    }
}

impl<P: Packing, A: Allocator> LendingMemory for PackedRegion<P, A> {
    #[tactic(auto, using(crate::proofs::ContentLemmas::comes_and_goes))]
    fn place_with<W: Writer>(
        &mut self,
        owner: usize,
        len: usize,
        lent: &[BlockId],
        writer: &W,
        beside: &mut [i64],
    ) -> Result<BlockId, W::Fault> {
        match self.put_with(owner, len, lent, writer, beside) {
            Ok(id) => Ok(id),
            Err(unwritten) => {
                let Unwritten { id, fault } = unwritten;
                self.free(id);
                Err(fault)
            }
        }
    }

    #[tactic(auto, using(crate::proofs::RegionLemmas::for_rewrite_with))]
    fn rewrite_with<R: Rewriter>(
        &mut self,
        id: BlockId,
        lent: &[BlockId],
        rewriter: &R,
    ) -> Result<(), R::Fault> {
        self.blocks.rewrite_with(id.number(), lent, rewriter)
    }
}
