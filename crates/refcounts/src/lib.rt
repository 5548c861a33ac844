//! Counted references to the blocks of a vector memory.
//!
//! A [`SharedMemory`] keeps, over any [`VectorMemory`], how many references name each block. A block lives while its
//! count is above 0: [`make`](SharedMemory::make) places it with the first reference, [`share`](SharedMemory::share)
//! adds one, and the last [`release`](SharedMemory::release) frees it. Contracts see a slot for each block number, with
//! the block's owner, count and words, and one empty slot for a number that has no block.
#![tactic(auto)]

ghost use Rattle.std.specs.Prelude.{◌≡◌, ◌+◌, ◌-◌, ◌^◌, ◌<◌, ◌≤◌, ◌↔◌, length, replicate, slice_get, Some};
ghost use Rattle.std.specs.Prelude.{IsTrue, IfOk, OnErr};
ghost use Rattle.block_memory.specs.Content.{block_count as block_count_of};
ghost use Rattle.refcounts.specs.SharedState.{empty_slot, slot_at, IsLive, IsTidy, used_words, block_count};
ghost use Rattle.refcounts.specs.SharedState.{with_slot, new_slot, state_after_share, state_after_release};
ghost use Rattle.refcounts.specs.SharedState.{state_after_releases, occurrences, AreNamed};

mod counting;
pub mod laws;
mod making;
mod rewriting;

use block_memory::{BlockId, NoRoom, VectorMemory};
use counting::count_first;
use std::alloc::{AllocError, Allocator};
use std::marker::Model;

/// A vector memory whose blocks are counted.
///
/// The room for the counts is reserved once, when it is made, and a count is written when its number is first used. Its
/// other calls take no memory of their own. A call that names a block has the condition that the block lives;
/// [`count`](SharedMemory::count) alone takes any number.
#[derive(Drop)]
pub struct SharedMemory<M: VectorMemory, A: Allocator> {
    memory: M,
    /// By block number, 0 for a number without a block. Numbers past the end had no block yet.
    counts: Vec<u64, A>,
}

impl<M: VectorMemory, A: Allocator> Model for SharedMemory<M, A> {
    ghost use Rattle.refcounts.specs.SharedState.{SharedState};

    ghost Value = { SharedState };

    ghost use Rattle.std.specs.Prelude.{vec_capacity};
    ghost use Rattle.refcounts.specs.Inside.{state_of, HasCounts};

    ghost view = { λ a. state_of (M.room a.memory) (M.content a.memory) a.counts.items };

    ghost invariant = { λ a. HasCounts (M.content a.memory) a.counts.items (vec_capacity a.counts) };
}

impl<M: VectorMemory, A: Allocator> SharedMemory<M, A> {
    /// Counts the blocks of a memory, which holds none yet.
    ///
    /// The counts take memory of `alloc` once, for as many blocks as the memory has numbers, and none of it is written
    /// here. An error means that the allocator refused it; the memory is dropped then.
    #[tactic(auto, using(crate::proofs::Slots::slots_of_none))]
    pub fn new(alloc: A, memory: M) -> Result<Self, AllocError>
    where
        M: Drop,
        requires { block_count_of (M.content memory) ≡ 0 }
        ensures { IfOk result
            (λ shared. shared ≡ record {
              room = M.room memory;
              slots = replicate (length (M.content memory)) empty_slot;
            }) }
    {
        let counts = Vec::with_capacity(alloc, memory.ids())?;
        Ok(Self { memory, counts })
    }

    /// A new block of the words for an owner, with one reference. There has to be a number without a block.
    ///
    /// `Full` exactly if the words in use and these together are more than fit; `Memory` only if they would fit,
    /// and only over a memory that may refuse. Nothing changes at either.
    #[tactic(auto, using(crate::proofs::Slots::of_first))]
    #[inline(always)]
    pub fn make(&mut self, owner: usize, words: &[i64]) -> Result<BlockId, NoRoom>
        requires { block_count self.old < length self.old.slots }
        ensures fresh { IfOk result (λ id. (id < length self.old.slots) × (slot_at self.old id ≡ empty_slot)) }
        ensures made { IfOk result (λ id. self.new ≡ with_slot self.old id (new_slot owner words.now)) }

        ensures full { (result ≡ Err NoRoom.Full) ↔ (self.old.room < used_words self.old + length words.now) }
        ensures memory { result ≡ Err NoRoom.Memory → IsTrue M.may_refuse
            × (used_words self.old + length words.now ≤ self.old.room) }
        ensures err { OnErr result (self.new ≡ self.old) }
    {
        let id = self.memory.place(owner, words)?;
        count_first(&mut self.counts, id.number());
        Ok(id)
    }

    /// One reference more to a block, which has fewer than the greatest `u64`. Nothing else changes.
    #[tactic(auto, using(crate::proofs::Slots::of_count))]
    #[inline(always)]
    pub fn share(&mut self, id: BlockId)
        requires live { IsLive self.old id }
        requires few { (slot_at self.old id).count < u64.MAX }
        ensures { self.new ≡ state_after_share self.old id }
    {
        self.counts[id.number()] += 1;
    }

    /// One reference less to a block. True exactly if it was the last one, and then the block is freed. No other block
    /// changes.
    #[tactic(auto, using(crate::proofs::Slots::of_count))]
    #[inline(always)]
    pub fn release(&mut self, id: BlockId) -> bool
        requires { IsLive self.old id }
        ensures last { IsTrue result ↔ ((slot_at self.old id).count ≡ 1) }
        ensures released { self.new ≡ state_after_release self.old id }
    {
        let count = &mut self.counts[id.number()];
        *count -= 1;
        let last = *count == 0;
        if last {
            self.memory.free(id);
        }
        last
    }

    /// One reference less to each of these blocks, once for each time that it is listed: at most as often as references
    /// name it. The last one of a block frees it. Answers how many words this frees.
    #[tactic(auto, using(crate::proofs::Freed::of_releases))]
    #[inline(always)]
    pub fn release_all(&mut self, ids: &[BlockId]) -> u64
        requires { AreNamed self.old ids.now }
        ensures released { self.new ≡ state_after_releases self.old ids.now }
        ensures freed { result + used_words self.new ≡ used_words self.old }
    {
        let used = self.used();
        for id in ids {
            self.release(*id);
        }
        let freed = used - self.used();
        freed as u64
    }

    /// The number of words that would be in use after `release_all` of these references. Nothing changes.
    #[tactic(auto, using(crate::proofs::Freed::of_releases))]
    pub fn used_without(&self, ids: &[BlockId]) -> usize
        requires { AreNamed self.now ids.now }
        ensures value { result ≡ used_words (state_after_releases self.now ids.now) }
        ensures within { result ≤ used_words self.now }
    {
        let mut used = self.used();
        for (index, id) in ids.iter().enumerate() {
            if self.is_last(*id, &ids[..index]) {
                used -= self.len(*id);
            }
        }
        used
    }

    /// Whether exactly one reference to a block is left once these are released.
    fn is_last(&self, id: BlockId, released: &[BlockId]) -> bool
        ensures { IsTrue result ↔ ((slot_at self.now id).count ≡ occurrences id released.now + 1) }
    {
        let earlier = released.iter().filter(|other| **other == id).count();
        self.count(id) == earlier as u64 + 1
    }

    /// The number of references to a block, 0 for a number without a block.
    #[tactic(auto, using(crate::proofs::Slots::of_block))]
    #[inline(always)]
    pub fn count(&self, id: BlockId) -> u64
        ensures value { result ≡ (slot_at self.now id).count }
        ensures tidy { IsTidy self.now }
    {
        self.counts.get(id.number()).copied().unwrap_or(0)
    }

    /// The number of words of a block.
    #[tactic(auto, using(crate::proofs::Slots::of_block))]
    #[inline(always)]
    pub fn len(&self, id: BlockId) -> usize
        requires { IsLive self.now id }
        ensures { result ≡ length (slot_at self.now id).words }
    {
        self.memory.len(id)
    }

    /// Whose a block is.
    #[tactic(auto, using(crate::proofs::Slots::of_block))]
    #[inline(always)]
    pub fn owner(&self, id: BlockId) -> usize
        requires { IsLive self.now id }
        ensures { result ≡ (slot_at self.now id).owner }
    {
        self.memory.owner(id)
    }

    /// The words of a block.
    #[tactic(auto, using(crate::proofs::Slots::of_block))]
    #[inline(always)]
    pub fn words(&self, id: BlockId) -> &[i64]
        requires { IsLive self.now id }
        ensures { result.now ≡ (slot_at self.now id).words }
    {
        self.memory.words(id)
    }

    /// A word of a block, counted from 0.
    #[tactic(auto, using(crate::proofs::Slots::of_block))]
    #[inline(always)]
    pub fn word(&self, id: BlockId, i: usize) -> i64
        requires live { IsLive self.now id }
        requires within { i < length (slot_at self.now id).words }
        ensures { slice_get (slot_at self.now id).words i ≡ Some result }
    {
        self.memory.word(id, i)
    }

    /// Copies the words of a block to `buf`, which has its length.
    #[tactic(auto, using(crate::proofs::Slots::of_block))]
    pub fn read_into(&self, id: BlockId, buf: &mut [i64])
        requires live { IsLive self.now id }
        requires same_length { length buf.old ≡ length (slot_at self.now id).words }
        ensures { buf.new ≡ (slot_at self.now id).words }
    {
        self.memory.read_into(id, buf);
    }

    /// The number of words of all blocks, at most `size()`. A block counts once, however many references name it. A
    /// number that no reference names has no block.
    #[tactic(auto, using(crate::proofs::Slots::of_all))]
    #[inline(always)]
    pub fn used(&self) -> usize
        ensures value { result ≡ used_words self.now }
        ensures within { result ≤ self.now.room }
        ensures tidy { IsTidy self.now }
    {
        self.memory.used()
    }

    /// The number of words that fit.
    #[inline(always)]
    pub fn size(&self) -> usize
        ensures { result ≡ self.now.room }
    {
        self.memory.size()
    }

    /// The number of blocks.
    #[tactic(auto, using(crate::proofs::Slots::of_all))]
    pub fn blocks(&self) -> usize
        ensures value { result ≡ block_count self.now }
        ensures within { result ≤ length self.now.slots }
    {
        self.memory.blocks()
    }

    /// The number of block numbers, each of which is below it.
    #[tactic(auto, using(crate::proofs::Slots::of_all))]
    pub fn ids(&self) -> usize
        ensures { result ≡ length self.now.slots }
    {
        self.memory.ids()
    }
}
