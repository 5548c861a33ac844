//! A vector memory with a list of its own for each block.
ghost use Rattle.std.specs.Prelude.{◌≡◌, ◌≢◌, ◌≤◌, IfOk};
ghost use Rattle.block_memory.specs.Content.{no_blocks};

use crate::memory::{BlockId, MOST_BLOCKS, NoRoom, VectorMemory};
use crate::table::Table;
use std::alloc::{AllocError, Allocator};
use std::marker::Model;

// A block with a list of its own.
#[derive(Drop)]
struct PlainBlock<A: Allocator> {
    owner: usize,
    words: Vec<i64, A>,
}

/// A vector memory that keeps each block in a list of its own, and takes memory for it when it is placed: `place`
/// answers [`NoRoom::Memory`] if that is refused.
#[derive(Drop)]
pub struct PlainMemory<A: Allocator> {
    alloc: A,
    size: usize,
    used: usize,
    table: Table<PlainBlock<A>, A>,
}

impl<A: Allocator> Model for PlainMemory<A> {
    ghost use Rattle.block_memory.specs.Content.{Memory};

    ghost Value = { Memory };

    ghost use Rattle.block_memory.specs.Plain.{content_of, IsPlain};

    ghost view = { λ m. record { room = m.size; content = content_of m.table } };

    ghost invariant = { λ m. IsPlain m.size m.used (content_of m.table) };
}

impl<A: Allocator + Clone> PlainMemory<A> {
    /// A memory for `size` words in at most `most_blocks` blocks, with no block yet. There are numbers for at most
    /// [`MOST_BLOCKS`] blocks.
    ///
    /// An error means that the allocator refused the room for the numbers of the blocks.
    #[tactic(auto, using(crate::proofs::PlainLemmas::for_new))]
    pub fn new(alloc: A, size: usize, most_blocks: usize) -> Result<Self, AllocError>
        requires { most_blocks ≤ MOST_BLOCKS }
        ensures empty { IfOk result (λ m. m.content ≡ no_blocks most_blocks) }
        ensures size { IfOk result (λ m. m.room ≡ size) }
    {
        let table = Table::new(alloc.clone()?, most_blocks)?;
        Ok(PlainMemory {
            alloc,
            size,
            used: 0,
            table,
        })
    }

    // A list with these words.
    fn copy_of(&self, words: &[i64]) -> Result<Vec<i64, A>, NoRoom>
        ensures ok { IfOk result (λ list. list.items ≡ words.now) }
        ensures err { result ≢ Err NoRoom.Full }
    {
        let alloc = self.alloc.clone().map_err(|_| NoRoom::Memory)?;
        Vec::from_slice(alloc, words).map_err(|_| NoRoom::Memory)
    }
}

impl<A: Allocator + Clone> VectorMemory for PlainMemory<A> {
    ghost use Rattle.std.specs.Prelude.{true};

    ghost content = { λ m. m.content };

    ghost room = { λ m. m.room };

    ghost may_refuse = { true };

    #[tactic(auto, using(crate::proofs::PlainLemmas::for_place))]
    fn place(&mut self, owner: usize, words: &[i64]) -> Result<BlockId, NoRoom> {
        if words.len() > self.size - self.used {
            return Err(NoRoom::Full);
        }
        let copy = self.copy_of(words)?;
        self.used += words.len();
        let number = self.table.insert(PlainBlock { owner, words: copy });
        Ok(BlockId::new(number))
    }

    #[tactic(auto, using(crate::proofs::PlainLemmas::for_free))]
    fn free(&mut self, id: BlockId) {
        let block = self.table.remove(id.number());
        self.used -= block.words.len();
    }

    fn is_live(&self, id: BlockId) -> bool {
        self.table.find(id.number()).is_some()
    }

    fn owner(&self, id: BlockId) -> usize {
        self.table.value(id.number()).owner
    }

    fn words(&self, id: BlockId) -> &[i64] {
        &self.table.value(id.number()).words
    }

    fn pack(&mut self) {}

    fn used(&self) -> usize {
        self.used
    }

    fn size(&self) -> usize {
        self.size
    }

    fn blocks(&self) -> usize {
        self.table.values()
    }

    fn ids(&self) -> usize {
        self.table.len()
    }
}
