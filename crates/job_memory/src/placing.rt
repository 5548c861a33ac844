//! Placing blocks that a writer writes.
ghost use Rattle.std.specs.Prelude.{◌≡◌, ◌+◌, ◌<◌, ◌≤◌, length, map, IfOk, IfErr, OnErr};
ghost use Rattle.block_memory.specs.declared.writer.TheConstants.{MOST_LENT};
ghost use Rattle.refcounts.specs.Making.{words_at};
ghost use Rattle.refcounts.specs.SharedState.{AreLive, block_count};
ghost use Rattle.job_memory.specs.JobBlocks.{HasGrant, grant_of, words_of, held_words};
ghost use Rattle.job_memory.specs.Placing.{IsPlacedWith};

use crate::JobMemory;
use block_memory::{BlockId, Writer};
use refcounts::laws::making_changes_only_own;
use reservations::laws::granted_words_are_there;
use std::alloc::Allocator;

impl<A: Allocator> JobMemory<A> {
    /// A new block of `len` words for a job whose grant has room for them, with one reference. A writer writes it, and
    /// writes the words of `beside`. It is lent the words of other blocks for that. There has to be a number without a
    /// block.
    ///
    /// # Errors
    ///
    /// The fault that the writer finds. The memory doesn't change then, and nothing is said of the words of `beside`.
    #[tactic(auto, using(crate::proofs::Grants::of_grants))]
    #[inline(always)]
    pub fn place_with<W: Writer>(
        &mut self,
        job: usize,
        len: usize,
        lent: &[BlockId],
        writer: &W,
        beside: &mut [i64],
    ) -> Result<BlockId, W::Fault>
        requires has_grant { HasGrant self.old job }
        requires numbers { block_count self.old.memory < length self.old.memory.slots }
        requires room { held_words job self.old + len ≤ words_of (grant_of self.old job) }
        requires few { length lent.now ≤ MOST_LENT }
        requires live { AreLive self.old.memory lent.now }
        requires can { W.can_write writer.now (map (words_at self.old.memory) lent.now) (length beside.old) len }
        ensures placed { IfOk result (λ id. IsPlacedWith self.old self.new job id len
            (W.writes writer.now (map (words_at self.old.memory) lent.now) beside.new)) }
        ensures unchanged { OnErr result (self.new ≡ self.old) }
        ensures fault { IfErr result (W.faults writer.now (map (words_at self.old.memory) lent.now)) }
    {
        making_changes_only_own();
        granted_words_are_there();
        let _reserved = self.book.granted();
        match self.memory.make_with(job, len, lent, writer, beside) {
            Ok(id) => {
                let Ok(()) = self.book.charge(job, len) else {
                    unreachable!()
                };
                Ok(id)
            }
            Err(fault) => Err(fault),
        }
    }
}
