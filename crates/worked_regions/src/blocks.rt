//! Blocks of a memory, counted in the order in which they were placed.

ghost use Rattle.std.specs.Prelude.{◌≡◌, ◌<◌, IfSome, vec_len};
ghost use Rattle.block_memory.specs.Content.{IsLive};

use block_memory::{BlockId, NoRoom, VectorMemory};
use std::alloc::{AllocError, Global};

/// A memory, with the number that it gave to each block that was placed. None if the block is gone.
#[derive(Drop)]
pub struct Blocks<M> {
    memory: M,
    placed: Vec<Option<BlockId>>,
}

/// The result of placing a block.
#[derive(Clone, Copy, Debug)]
pub enum Placing {
    /// The block's number among those that were placed.
    Placed(usize),
    NotPlaced(NoRoom),
    /// Each number of the memory has a block.
    NoNumber,
}

impl<M: VectorMemory> Blocks<M> {
    /// A memory of which no block is known.
    pub fn new(alloc: Global, memory: M) -> Self {
        Blocks {
            memory,
            placed: Vec::new(alloc),
        }
    }

    pub fn memory(&self) -> &M
        ensures { result.now ≡ self.now.memory }
    {
        &self.memory
    }

    /// Places a block, if the memory has a number for it.
    pub fn place(&mut self, owner: usize, words: &[i64]) -> Result<Placing, AllocError> {
        if self.memory.blocks() >= self.memory.ids() {
            return Ok(Placing::NoNumber);
        }
        let number = self.placed.len();
        match self.memory.place(owner, words) {
            Ok(id) => {
                self.placed.push(Some(id))?;
                Ok(Placing::Placed(number))
            }
            Err(fault) => Ok(Placing::NotPlaced(fault)),
        }
    }

    /// The number that the memory has for a block, if the block is there.
    fn id(&self, number: usize) -> Option<BlockId>
        ensures live { IfSome result (IsLive (M.content self.now.memory)) }
        ensures known { IfSome result (λ _. number < vec_len self.now.placed) }
    {
        let id = (*self.placed.get(number)?)?;
        if self.memory.is_live(id) {
            Some(id)
        } else {
            None
        }
    }

    /// Takes a block away, if it is there, and answers whether it was.
    pub fn free(&mut self, number: usize) -> bool {
        let Some(id) = self.id(number) else {
            return false;
        };
        self.memory.free(id);
        self.placed[number] = None;
        true
    }

    pub fn pack(&mut self) {
        self.memory.pack();
    }

    /// Whose a block is, and its words, if it is there.
    pub fn block(&self, number: usize) -> Option<(usize, &[i64])> {
        let id = self.id(number)?;
        Some((self.memory.owner(id), self.memory.words(id)))
    }
}
