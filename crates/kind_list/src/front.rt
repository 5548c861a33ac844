ghost use Rattle.std.specs.Prelude.{◌≡◌, ◌<◌, ◌++◌, [], length, IfSome, OnOk, OnErr, MatchOption};

use crate::chunk::Chunk;
use crate::full::FullChunk;
use crate::list::KindList;
use std::alloc::{AllocError, Allocator};
use std::marker::Model;
use std::mem;

/// A list of kinds that grows and shrinks at its front, by chunks.
///
/// If the list grows and memory for it is refused, it stays as it was.
#[derive(Drop)]
pub struct FrontList<A: Allocator> {
    /// The kinds before the end, the last chunk first.
    chunks: Vec<FullChunk, A>,
    /// The kinds at the end.
    end: Chunk,
}

impl<A: Allocator> Model for FrontList<A> {
    ghost use Rattle.std.specs.Prelude.{List, ◌++◌};
    ghost use Rattle.vcode_base.specs.declared.kind.Kind.{Kind};
    ghost use Rattle.kind_list.specs.Lists.{from_end};

    ghost Value = { List Kind };

    ghost view = { λ l. from_end l.chunks.items ++ l.end };
}

impl<A: Allocator> FrontList<A> {
    /// The kinds of a chunk. No memory is taken.
    pub fn new(alloc: A, end: Chunk) -> FrontList<A>
        ensures { result ≡ end }
    {
        FrontList {
            chunks: Vec::new(alloc),
            end,
        }
    }

    /// Adds the kinds of a chunk, which are 32, at the front.
    pub fn prepend(&mut self, chunk: &Chunk) -> Result<(), AllocError>
        requires { length chunk.now ≡ 32 }
        ensures added { OnOk result (self.new ≡ chunk.now ++ self.old) }
        ensures unchanged { OnErr result (self.new ≡ self.old) }
    {
        self.chunks.push(FullChunk::new(chunk))?;
        Ok(())
    }

    /// Takes some of the first kinds, if there are any.
    #[inline(always)]
    fn take_front(&mut self) -> Option<Chunk>
        ensures taken { MatchOption result ((self.old ≡ []) × (self.new ≡ [])) (λ chunk. self.old ≡ chunk ++ self.new) }
        ensures some { IfSome result (λ chunk. 0 < length chunk) }
    {
        if let Some(full) = self.chunks.pop() {
            return Some(full.chunk());
        }
        if self.end.len() == 0 {
            return None;
        }
        Some(mem::replace(&mut self.end, Chunk::empty()))
    }

    /// Adds the kinds of the list at the end of another. If memory is refused, it gets only some of them.
    pub fn append_to(mut self, kinds: &mut KindList<A>) -> Result<(), AllocError>
        ensures { OnOk result (kinds.new ≡ kinds.old ++ self) }
    {
        while let Some(chunk) = self.take_front() {
            kinds.push_mostly_full(&chunk)?;
        }
        Ok(())
    }
}
