//! Moving the blocks of a region together.
ghost use Rattle.std.specs.Prelude.{◌≡◌};
ghost use Rattle.holes.specs.FreeWords.{free_from};
ghost use Rattle.block_memory.specs.Layout.{content_of, covered_words};
ghost use Rattle.block_memory.specs.Region.{AreWithin, ArePacked, IsRegion};

use crate::blocks::Blocks;
use crate::packing::{MoveCounts, Packing};
use holes::Holes;
use std::alloc::Allocator;

// Moves the blocks to the front of the region, in the order in which they lie, each word at most once. Those below the
// lowest free word stay. Answers how many words moved.
#[tactic(auto, using(crate::proofs::FrontLemmas::for_pack_blocks))]
fn pack_blocks<A: Allocator>(blocks: &mut Blocks<A>, holes: &Holes<A>, covered: usize) -> usize
    requires { IsRegion blocks.old holes.now covered }
    ensures size { blocks.new.size ≡ blocks.old.size }
    ensures content { content_of blocks.new.slots ≡ content_of blocks.old.slots }
    ensures within { AreWithin blocks.new.slots blocks.new.size }
    ensures packed { ArePacked blocks.new.slots covered }
    ensures counted { covered ≡ covered_words blocks.new.slots }
{
    let mut packed = holes.lowest_free();
    let mut place = packed;
    let mut moved = 0;
    while packed < covered {
        match blocks.beginning_at(place) {
            Some(number) => {
                let (_, len) = blocks.range(number);
                moved += blocks.slide(number, packed);
                packed += len;
                place += len;
            }
            None => place += 1,
        }
    }
    moved
}

/// Moves the blocks of a region to its front, so that the free words are one hole after them. Answers how many words
/// moved.
pub(crate) fn pack_region<A: Allocator>(
    blocks: &mut Blocks<A>,
    holes: &mut Holes<A>,
    covered: usize,
) -> usize
    requires { IsRegion blocks.old holes.old covered }
    ensures size { blocks.new.size ≡ blocks.old.size }
    ensures content { content_of blocks.new.slots ≡ content_of blocks.old.slots }
    ensures region { IsRegion blocks.new holes.new covered }
    ensures packed { holes.new.free ≡ free_from covered blocks.new.size }
{
    let moved = pack_blocks(blocks, holes, covered);
    holes.reset(covered);
    moved
}

/// All blocks are moved to the front of the region at once, and the words are taken after them.
#[derive(Clone, Copy, Debug)]
pub struct WholePacking;

impl Packing for WholePacking {
    #[inline(never)]
    fn make_room<A: Allocator>(
        blocks: &mut Blocks<A>,
        holes: &mut Holes<A>,
        covered: usize,
        len: usize,
        counts: &mut MoveCounts,
    ) -> usize {
        counts.last = pack_region(blocks, holes, covered);
        counts.slid = 0;
        match holes.take(len) {
            Some(place) => place,
            None => unreachable!(),
        }
    }
}
