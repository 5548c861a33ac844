//! Writing other words over those of a block.
ghost use Rattle.std.specs.Prelude.{◌≡◌, ◌≢◌, ◌≤◌, [], length, map, All, MatchResult};
ghost use Rattle.block_memory.specs.declared.writer.TheConstants.{MOST_LENT};
ghost use Rattle.refcounts.specs.SharedState.{AreLive, slot_at, with_slot, new_slot};
ghost use Rattle.refcounts.specs.Making.{IsRewrittenWith, words_at};

use crate::SharedMemory;
use block_memory::{BlockId, LendingMemory, RewritableMemory, Rewriter};
use std::alloc::Allocator;

impl<M: RewritableMemory, A: Allocator> SharedMemory<M, A> {
    /// Writes other words over those of a block, which has as many, and which one reference names.
    #[tactic(auto, using(crate::proofs::Slots::of_rewrite))]
    #[inline(always)]
    pub fn rewrite(&mut self, id: BlockId, words: &[i64])
        requires single { (slot_at self.old id).count ≡ 1 }
        requires same_length { length words.now ≡ length (slot_at self.old id).words }
        ensures { self.new ≡ with_slot self.old id (new_slot (slot_at self.old id).owner words.now) }
    {
        self.memory.rewrite(id, words);
    }
}

impl<M: LendingMemory, A: Allocator> SharedMemory<M, A> {
    /// Writes other words over those of a block, which one reference names. A rewriter writes them, and none beside
    /// them. It is lent the words of other blocks for that.
    ///
    /// # Errors
    ///
    /// The fault that the rewriter finds. Nothing is said of the block's words then.
    #[tactic(auto, using(crate::proofs::Slots::of_rewrite))]
    #[inline(always)]
    pub fn rewrite_with<R: Rewriter>(
        &mut self,
        id: BlockId,
        lent: &[BlockId],
        rewriter: &R,
    ) -> Result<(), R::Fault>
        requires single { (slot_at self.old id).count ≡ 1 }
        requires few { length lent.now ≤ MOST_LENT }
        requires live { AreLive self.old lent.now }
        requires others { All (λ other. other ≢ id) lent.now }
        requires can { R.can_rewrite rewriter.now (map (words_at self.old) lent.now) 0 (words_at self.old id) }
        ensures { let lists = map (words_at self.old) lent.now in
            IsRewrittenWith self.old self.new id (λ words. MatchResult result
            (λ _. R.rewrites rewriter.now lists [] (words_at self.old id) words)
            (λ fault. R.faults_over rewriter.now lists (words_at self.old id) fault)) }
    {
        self.memory.rewrite_with(id, lent, rewriter)
    }
}
