//! Writing a new block over one that goes.
ghost use Rattle.std.specs.Prelude.{◌≡◌, ◌≢◌, ◌+◌, ◌<◌, ◌≤◌, ◌↔◌, length, map, All, IsTrue, IfOk, IfErr};
ghost use Rattle.std.specs.Prelude.{MatchResult, []};
ghost use Rattle.block_memory.specs.declared.writer.TheConstants.{MOST_LENT};
ghost use Rattle.refcounts.specs.Making.{words_at};
ghost use Rattle.refcounts.specs.SharedState.{AreLive, empty_slot, slot_at, occurrences, state_after_releases};
ghost use Rattle.job_memory.specs.JobBlocks.{HasGrant, AreOwn, with_memory, with_block};
ghost use Rattle.job_memory.specs.Placing.{IsRewrittenWith};

use crate::JobMemory;
use block_memory::{BlockId, Rewriter};
use refcounts::laws::{releases_are_counted, releases_keep_blocks};
use std::alloc::Allocator;

impl<A: Allocator> JobMemory<A> {
    /// Whether exactly one reference names a block.
    #[inline(always)]
    pub fn is_single(&self, id: BlockId) -> bool
        ensures { IsTrue result ↔ ((slot_at self.now.memory id).count ≡ 1) }
    {
        self.memory.count(id) == 1
    }

    /// One reference less to each of these blocks of a job and a new block of the words for the job, as `exchange`. The
    /// new block has the number of one of these blocks, and its words are written over that one's. No other reference
    /// names that block, and it has as many words.
    #[tactic(auto, using(crate::proofs::Slots::live_within))]
    #[inline(always)]
    pub fn exchange_at(&mut self, job: usize, taken: &[BlockId], id: BlockId, words: &[i64])
        requires has_grant { HasGrant self.old job }
        requires own { AreOwn job self.old taken.now }
        requires listed { 1 ≤ occurrences id taken.now }
        requires single { (slot_at self.old.memory id).count ≡ 1 }
        requires same_length { length words.now ≡ length (slot_at self.old.memory id).words }
        ensures fresh { (id < length self.old.memory.slots)
            × (slot_at (state_after_releases self.old.memory taken.now) id ≡ empty_slot) }
        ensures exchanged { self.new ≡ with_block
            (with_memory self.old (state_after_releases self.old.memory taken.now)) job id words.now }
    {
        releases_are_counted();
        releases_keep_blocks();
        self.share(id);
        self.release_all(job, taken);
        self.rewrite(id, words);
    }

    // Writes other words over those of a block, which has as many, and which one reference names.
    #[tactic(auto, using(crate::proofs::Slots::live_within))]
    #[inline(always)]
    fn rewrite(&mut self, id: BlockId, words: &[i64])
        requires single { (slot_at self.old.memory id).count ≡ 1 }
        requires same_length { length words.now ≡ length (slot_at self.old.memory id).words }
        ensures { self.new ≡ with_block self.old (slot_at self.old.memory id).owner id words.now }
    {
        self.memory.rewrite(id, words);
    }

    /// One reference less to each of these blocks of a job and a new block for the job, as `exchange_at`. A rewriter
    /// writes the words of the new block over those of the other, and none beside them. It is lent the words of further
    /// blocks for that.
    ///
    /// # Errors
    ///
    /// The fault that the rewriter finds. No reference goes then, and nothing is said of the block's words.
    #[tactic(auto, using(crate::proofs::Slots::put))]
    #[inline(always)]
    pub fn exchange_with<R: Rewriter>(
        &mut self,
        job: usize,
        taken: &[BlockId],
        id: BlockId,
        lent: &[BlockId],
        rewriter: &R,
    ) -> Result<(), R::Fault>
        requires has_grant { HasGrant self.old job }
        requires own { AreOwn job self.old taken.now }
        requires listed { 1 ≤ occurrences id taken.now }
        requires single { (slot_at self.old.memory id).count ≡ 1 }
        requires few { length lent.now ≤ MOST_LENT }
        requires live { AreLive self.old.memory lent.now }
        requires others { All (λ other. other ≢ id) lent.now }
        requires can { R.can_rewrite rewriter.now (map (words_at self.old.memory) lent.now) 0
            (words_at self.old.memory id) }
        ensures fresh { (id < length self.old.memory.slots)
            × (slot_at (state_after_releases self.old.memory taken.now) id ≡ empty_slot) }
        ensures exchanged { IfOk result (λ _. IsRewrittenWith self.old
            (with_memory self.old (state_after_releases self.old.memory taken.now)) self.new job id
            (R.rewrites rewriter.now (map (words_at self.old.memory) lent.now) [] (words_at self.old.memory id))) }
        ensures fault { IfErr result (λ fault. IsRewrittenWith self.old self.old self.new job id
            (λ words. R.faults_over rewriter.now (map (words_at self.old.memory) lent.now)
            (words_at self.old.memory id) fault)) }
    {
        releases_are_counted();
        releases_keep_blocks();
        match self.rewrite_with(id, lent, rewriter) {
            Ok(()) => {
                self.share(id);
                self.release_all(job, taken);
                Ok(())
            }
            Err(fault) => Err(fault),
        }
    }

    // Writes other words over those of a block, which one reference names. A rewriter writes them, and is lent the
    // words of other blocks for that.
    #[tactic(auto, using(crate::proofs::Slots::live_within))]
    #[inline(always)]
    fn rewrite_with<R: Rewriter>(
        &mut self,
        id: BlockId,
        lent: &[BlockId],
        rewriter: &R,
    ) -> Result<(), R::Fault>
        requires single { (slot_at self.old.memory id).count ≡ 1 }
        requires few { length lent.now ≤ MOST_LENT }
        requires live { AreLive self.old.memory lent.now }
        requires others { All (λ other. other ≢ id) lent.now }
        requires can { R.can_rewrite rewriter.now (map (words_at self.old.memory) lent.now) 0
            (words_at self.old.memory id) }
        ensures { let lists = map (words_at self.old.memory) lent.now in
            IsRewrittenWith self.old self.old self.new (slot_at self.old.memory id).owner id
            (λ words. MatchResult result (λ _. R.rewrites rewriter.now lists [] (words_at self.old.memory id) words)
            (λ fault. R.faults_over rewriter.now lists (words_at self.old.memory id) fault)) }
    {
        self.memory.rewrite_with(id, lent, rewriter)
    }
}
