//! How the blocks of a region are moved if no hole is wide enough for a new one.
ghost use Rattle.std.specs.Prelude.{◌≡◌, ◌+◌, ◌≤◌};
ghost use Rattle.block_memory.specs.Layout.{content_of};
ghost use Rattle.block_memory.specs.Region.{IsRegion, HasRoom};

use crate::blocks::Blocks;
use holes::Holes;
use std::alloc::Allocator;

/// How many words moved to make room.
#[derive(Clone, Copy, Debug)]
pub struct MoveCounts {
    /// Those of other blocks that moved for the last block.
    pub last: usize,
    /// Those that slid since all blocks were last moved together.
    pub slid: usize,
}

/// A way to move the blocks of a region until a hole is wide enough. It is known inside of this crate alone.
pub trait Packing {
    /// Moves blocks until a hole has `len` words, takes these, counts what moved, and answers the place of the first.
    /// As many words are free.
    fn make_room<A: Allocator>(
        blocks: &mut Blocks<A>,
        holes: &mut Holes<A>,
        covered: usize,
        len: usize,
        counts: &mut MoveCounts,
    ) -> usize
        requires region { IsRegion blocks.old holes.old covered }
        requires some { 1 ≤ len }
        requires fits { covered + len ≤ blocks.old.size }
        ensures size { blocks.new.size ≡ blocks.old.size }
        ensures content { content_of blocks.new.slots ≡ content_of blocks.old.slots }
        ensures room { HasRoom blocks.new holes.new covered result len };
}
