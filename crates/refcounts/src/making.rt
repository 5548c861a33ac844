//! Making blocks that a writer writes.
ghost use Rattle.std.specs.Prelude.{◌≡◌, ◌+◌, ◌<◌, ◌≤◌, length, map, IfOk, IfErr, OnErr};
ghost use Rattle.block_memory.specs.declared.writer.TheConstants.{MOST_LENT};
ghost use Rattle.refcounts.specs.SharedState.{AreLive, used_words, block_count};
ghost use Rattle.refcounts.specs.Making.{IsMadeWith, words_at};

use crate::SharedMemory;
use crate::counting::count_first;
use block_memory::{BlockId, LendingMemory, Writer};
use std::alloc::Allocator;

impl<M: LendingMemory, A: Allocator> SharedMemory<M, A> {
    /// A new block of `len` words, which fit, for an owner, with one reference. A writer writes it, and writes the
    /// words of `beside`. It is lent the words of other blocks for that. There has to be a number without a block.
    ///
    /// # Errors
    ///
    /// The fault that the writer finds. The memory doesn't change then, and nothing is said of the words of `beside`.
    #[tactic(auto, using(crate::proofs::Slots::of_first))]
    #[inline(always)]
    pub fn make_with<W: Writer>(
        &mut self,
        owner: usize,
        len: usize,
        lent: &[BlockId],
        writer: &W,
        beside: &mut [i64],
    ) -> Result<BlockId, W::Fault>
        requires numbers { block_count self.old < length self.old.slots }
        requires room { used_words self.old + len ≤ self.old.room }
        requires few { length lent.now ≤ MOST_LENT }
        requires live { AreLive self.old lent.now }
        requires can { W.can_write writer.now (map (words_at self.old) lent.now) (length beside.old) len }
        ensures made { IfOk result (λ id. IsMadeWith self.old self.new id owner len
            (W.writes writer.now (map (words_at self.old) lent.now) beside.new)) }
        ensures unchanged { OnErr result (self.new ≡ self.old) }
        ensures fault { IfErr result (W.faults writer.now (map (words_at self.old) lent.now)) }
    {
        match self.memory.place_with(owner, len, lent, writer, beside) {
            Ok(id) => {
                count_first(&mut self.counts, id.number());
                Ok(id)
            }
            Err(fault) => Err(fault),
        }
    }
}
