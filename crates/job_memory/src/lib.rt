//! The blocks of jobs that share one region of words.
//!
//! A [`JobMemory`] keeps counted blocks, each of which one job owns, and a book of the words that each job was granted.
//! A block is placed only within its job's grant, and then there is always room for it: the words of all grants
//! together are at most the region. Memory is counted in words, and a block counts once, however many references name
//! it. Contracts see the blocks by number, and the grant of each job.
#![tactic(auto)]

ghost use Rattle.std.specs.Prelude.{◌≡◌, ◌+◌, ◌<◌, ◌≤◌, ◌↔◌, length, replicate, All, Some, None, IsTrue, IsErr};
ghost use Rattle.std.specs.Prelude.{IfOk, OnOk, OnErr};
ghost use Rattle.refcounts.specs.SharedState.{empty_slot, slot_at, IsLive, AreLive, IsTidy, used_words, block_count};
ghost use Rattle.refcounts.specs.SharedState.{state_after_share, state_after_shares, state_after_releases};
ghost use Rattle.job_memory.specs.JobBlocks.{IsJob, HasGrant, AreOwn, grant_of, words_of, granted_words};
ghost use Rattle.job_memory.specs.JobBlocks.{held_words, with_grant, with_memory, with_block};

pub mod laws;
mod placing;
mod rewriting;

use block_memory::{BlockId, SlidingMemory};
pub use block_memory::{LONGEST_REGION, MOST_BLOCKS};
use refcounts::SharedMemory;
use refcounts::laws::{making_changes_only_own, releases_only_free, releasing_changes_only_own};
use reservations::Book;
use reservations::laws::{granted_words_are_there, held_is_within_granted};
pub use reservations::{MOST_BOOKED, NotNow, Spent};
use std::alloc::{AllocError, Allocator};
use std::marker::Model;

/// Counted blocks of jobs in one region, and the words of it that each job was granted.
///
/// The jobs are numbered `1..=jobs()`. All memory is taken when it is made. No call shows at which place of the region
/// a block lies, or when blocks are moved together.
#[derive(Drop)]
pub struct JobMemory<A: Allocator> {
    memory: SharedMemory<SlidingMemory<A>, A>,
    book: Book<A>,
}

impl<A: Allocator> Model for JobMemory<A> {
    ghost use Rattle.job_memory.specs.JobBlocks.{JobBlocks};

    ghost Value = { JobBlocks };

    ghost use Rattle.job_memory.specs.Inside.{blocks_by, IsBooked};

    ghost view = { λ a. blocks_by a.memory a.book };

    ghost invariant = { λ a. IsBooked a.memory a.book };
}

impl<A: Allocator> JobMemory<A> {
    /// A region of `region` words without a block, with numbers for `most_blocks` blocks, for jobs `1..=jobs`, none of
    /// which has a grant. There are at most [`LONGEST_REGION`] words, [`MOST_BLOCKS`] numbers and [`MOST_BOOKED`] jobs.
    ///
    /// An error means that the allocator refused the memory. No other call takes memory.
    #[tactic(auto, using(crate::proofs::Grants::no_grants))]
    pub fn new(alloc: A, region: usize, jobs: usize, most_blocks: usize) -> Result<Self, AllocError>
    where
        A: Clone,
        requires region { region ≤ LONGEST_REGION }
        requires blocks { most_blocks ≤ MOST_BLOCKS }
        requires jobs { jobs ≤ MOST_BOOKED }
        ensures memory { IfOk result
            (λ blocks. blocks.memory ≡ record { room = region; slots = replicate most_blocks empty_slot }) }
        ensures grants { IfOk result (λ blocks. blocks.grants ≡ replicate jobs None) }
    {
        let memory = SlidingMemory::new(alloc.clone()?, region, most_blocks)?;
        let memory = SharedMemory::new(alloc.clone()?, memory)?;
        let book = Book::new(alloc, region, jobs)?;
        Ok(Self { memory, book })
    }

    /// Grants words of the region to a job that has no grant and no block. A grant may be of 0 words.
    ///
    /// `NotNow` exactly if all granted words and these together are more than the region has; then nothing changes.
    #[tactic(auto, using(crate::proofs::Grants::of_grants))]
    pub fn grant(&mut self, job: usize, words: usize) -> Result<(), NotNow>
        requires is_job { IsJob self.old job }
        requires no_grant { grant_of self.old job ≡ None }
        ensures not_now { IsErr result ↔ (self.old.memory.room < granted_words self.old + words) }
        ensures granted { OnOk result (self.new ≡ with_grant self.old job (Some words)) }
        ensures unchanged { OnErr result (self.new ≡ self.old) }
    {
        self.book.grant(job, words)
    }

    /// Whether `grant` of this number of words to a job that has no grant would be `Ok` now.
    #[tactic(auto, using(crate::proofs::Grants::of_grants))]
    pub fn fits(&self, words: usize) -> bool
        ensures { IsTrue result ↔ (granted_words self.now + words ≤ self.now.memory.room) }
    {
        self.book.fits(words)
    }

    /// Ends the grant of a job, whose blocks have no words any more. They can be granted anew.
    #[tactic(auto, using(crate::proofs::Grants::of_grants))]
    pub fn close(&mut self, job: usize)
        requires has_grant { HasGrant self.old job }
        requires holds_none { held_words job self.old ≡ 0 }
        ensures { self.new ≡ with_grant self.old job None }
    {
        self.book.close(job)
    }

    /// A new block of the words for a job that has a grant, with one reference. There has to be a number without a
    /// block.
    ///
    /// `Spent` exactly if the words of the job's blocks and of this one are more than its grant; then nothing changes.
    /// The region always has room for the others.
    #[tactic(auto, using(crate::proofs::Grants::of_grants, crate::proofs::Slots::own_count))]
    #[inline(always)]
    pub fn place(&mut self, job: usize, words: &[i64]) -> Result<BlockId, Spent>
        requires has_grant { HasGrant self.old job }
        requires numbers { block_count self.old.memory < length self.old.memory.slots }
        ensures spent { IsErr result ↔ (words_of (grant_of self.old job) < held_words job self.old + length words.now) }
        ensures fresh { IfOk result (λ id. (id < length self.old.memory.slots) × (slot_at self.old.memory id
            ≡ empty_slot)) }
        ensures placed { IfOk result (λ id. self.new ≡ with_block self.old job id words.now) }
        ensures unchanged { OnErr result (self.new ≡ self.old) }
    {
        making_changes_only_own();
        granted_words_are_there();
        let _reserved = self.book.granted();
        self.book.charge(job, words.len())?;
        let Ok(id) = self.memory.make(job, words) else {
            unreachable!()
        };
        Ok(id)
    }

    /// One reference more to each of these blocks, once for each time that it is listed. Nothing else changes.
    ///
    /// Each of them is there, and has so few references that they and the length of the list are at most what a `u64`
    /// counts.
    #[tactic(auto, using(crate::proofs::Turns::of_share))]
    #[inline(always)]
    pub fn share_all(&mut self, ids: &[BlockId])
        requires live { AreLive self.old.memory ids.now }
        requires few { All (λ id. (slot_at self.old.memory id).count + length ids.now ≤ u64.MAX) ids.now }
        ensures { self.new ≡ with_memory self.old (state_after_shares self.old.memory ids.now) }
    {
        for id in ids {
            self.share(*id);
        }
    }

    /// One reference more to a block.
    #[inline(always)]
    fn share(&mut self, id: BlockId)
        requires live { IsLive self.old.memory id }
        requires few { (slot_at self.old.memory id).count < u64.MAX }
        ensures { self.new ≡ with_memory self.old (state_after_share self.old.memory id) }
    {
        self.memory.share(id);
    }

    /// One reference less to each of these blocks of a job, once for each time that it is listed; the last one of a
    /// block frees it. Nothing else changes.
    #[tactic(auto, using(crate::proofs::Grants::of_grants, crate::proofs::Slots::own_count))]
    #[inline(always)]
    pub fn release_all(&mut self, job: usize, ids: &[BlockId])
        requires has_grant { HasGrant self.old job }
        requires own { AreOwn job self.old ids.now }
        ensures { self.new ≡ with_memory self.old (state_after_releases self.old.memory ids.now) }
    {
        releasing_changes_only_own();
        let freed = self.memory.release_all(ids);
        self.book.refund(job, freed as usize);
    }

    /// One reference less to each of these blocks of a job, as `release_all`, and a new block of the words for the job,
    /// as `place`, in one: the words that are freed are there for the new block.
    ///
    /// There has to be a number without a block before the releases, and the job's grant has to have the words after
    /// them.
    #[tactic(auto, using(crate::proofs::Grants::of_grants, crate::proofs::Slots::own_count))]
    pub fn exchange(&mut self, job: usize, taken: &[BlockId], words: &[i64]) -> BlockId
        requires has_grant { HasGrant self.old job }
        requires own { AreOwn job self.old taken.now }
        requires numbers { block_count self.old.memory < length self.old.memory.slots }
        requires room { held_words job (with_memory self.old (state_after_releases self.old.memory taken.now))
            + length words.now ≤ words_of (grant_of self.old job) }
        ensures fresh { (result < length self.old.memory.slots)
            × (slot_at (state_after_releases self.old.memory taken.now) result ≡ empty_slot) }
        ensures exchanged { self.new ≡ with_block
            (with_memory self.old (state_after_releases self.old.memory taken.now)) job result words.now }
    {
        making_changes_only_own();
        releasing_changes_only_own();
        releases_only_free();
        granted_words_are_there();
        let _covered = self.book.granted();
        let freed = self.memory.release_all(taken);
        let Ok(()) = self.book.exchange(job, freed as usize, words.len()) else {
            unreachable!()
        };
        let Ok(placed) = self.memory.make(job, words) else {
            unreachable!()
        };
        placed
    }

    /// The words of a block.
    #[inline(always)]
    pub fn words(&self, id: BlockId) -> &[i64]
        requires { IsLive self.now.memory id }
        ensures { result.now ≡ (slot_at self.now.memory id).words }
    {
        self.memory.words(id)
    }

    /// The words of a job's blocks, at most those of its grant.
    #[inline(always)]
    pub fn held(&self, job: usize) -> usize
        requires { IsJob self.now job }
        ensures value { result ≡ held_words job self.now }
        ensures within { held_words job self.now ≤ words_of (grant_of self.now job) }
    {
        self.book.held(job)
    }

    /// What a job would hold after `release_all` of these references: the words of its blocks that others name too, or
    /// that aren't listed.
    #[tactic(auto, using(crate::proofs::Grants::of_grants, crate::proofs::Slots::own_count))]
    pub fn held_without(&self, job: usize, ids: &[BlockId]) -> usize
        requires has_grant { HasGrant self.now job }
        requires own { AreOwn job self.now ids.now }
        ensures value { result ≡ held_words job
            (with_memory self.now (state_after_releases self.now.memory ids.now)) }
        ensures within { result ≤ held_words job self.now }
    {
        releasing_changes_only_own();
        let freed = self.memory.used() - self.memory.used_without(ids);
        self.book.held(job) - freed
    }

    /// The words of all grants together, at most those of the region.
    pub fn granted(&self) -> usize
        ensures value { result ≡ granted_words self.now }
        ensures within { granted_words self.now ≤ self.now.memory.room }
    {
        self.book.granted()
    }

    /// The words of all blocks, at most those of all grants. A number that no reference names has no block.
    pub fn used(&self) -> usize
        ensures value { result ≡ used_words self.now.memory }
        ensures within { used_words self.now.memory ≤ granted_words self.now }
        ensures tidy { IsTidy self.now.memory }
    {
        held_is_within_granted();
        let _granted = self.book.granted();
        self.memory.used()
    }
}
