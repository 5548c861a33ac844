//! Sliding blocks down until a hole is wide enough.
ghost use Rattle.std.specs.Prelude.{◌≡◌, ◌-◌, ◌≤◌, length, IsSome};
ghost use Rattle.holes.specs.FreeWords.{AllFree, NoneFree};
ghost use Rattle.block_memory.specs.Table.{value_at};
ghost use Rattle.block_memory.specs.Layout.{place_at, covered_at, layout_after_move};
ghost use Rattle.block_memory.specs.Region.{IsRegion};

use crate::blocks::Blocks;
use crate::pack::WholePacking;
use crate::packing::{MoveCounts, Packing};
use holes::Holes;
use holes::laws::no_more_holes_than_words;
use std::alloc::Allocator;

// Moves a block down to the front of the lowest hole, if a hole reaches up to it, and answers how many words moved.
#[tactic(auto, using(crate::proofs::FrontLemmas::for_slide_down))]
fn slide_down<A: Allocator>(
    blocks: &mut Blocks<A>,
    holes: &mut Holes<A>,
    covered: usize,
    number: usize,
    front: usize,
) -> usize
    requires region { IsRegion blocks.old holes.old covered }
    requires there { IsSome (value_at blocks.old.slots number) }
    requires some { 1 ≤ covered_at blocks.old.slots number }
    requires down { front ≤ place_at blocks.old.slots number }
    requires none_below { NoneFree holes.old.free 0 front }
    requires hole { AllFree holes.old.free front (place_at blocks.old.slots number - front) }
    ensures moved { blocks.new ≡ layout_after_move blocks.old number front }
    ensures region { IsRegion blocks.new holes.new covered }
    ensures few { result ≤ covered_at blocks.old.slots number }
{
    let (place, len) = blocks.range(number);
    if place == front {
        return 0;
    }
    no_more_holes_than_words();
    holes.give(place, len);
    match holes.take(len) {
        Some(to) => blocks.slide(number, to),
        None => unreachable!(),
    }
}

/// The blocks after the lowest hole slide down in order of place until the hole before the next one is wide enough. Its
/// first words are taken. Once more words slid than the region has, all blocks move together: slides make the front
/// dense, so that each later one has more words to move.
#[derive(Clone, Copy, Debug)]
pub struct SlidingPacking;

impl Packing for SlidingPacking {
    #[inline(never)]
    #[tactic(auto, using(crate::proofs::FrontLemmas::for_slide_make_room))]
    fn make_room<A: Allocator>(
        blocks: &mut Blocks<A>,
        holes: &mut Holes<A>,
        covered: usize,
        len: usize,
        counts: &mut MoveCounts,
    ) -> usize {
        if counts.slid > blocks.size() {
            return WholePacking::make_room(blocks, holes, covered, len, counts);
        }
        let mut moved = 0;
        // The blocks before `place` lie together up to `packed`, and the words from there on to `place` are free.
        // No block below the lowest free word moves.
        let mut packed = holes.lowest_free();
        let mut place = packed;
        while place - packed < len {
            match blocks.beginning_at(place) {
                Some(number) => {
                    let (_, words) = blocks.range(number);
                    moved += slide_down(blocks, holes, covered, number, packed);
                    packed += words;
                    place += words;
                }
                None => place += 1,
            }
        }
        counts.last = moved;
        counts.slid = counts.slid.saturating_add(moved);
        match holes.take(len) {
            Some(place) => place,
            None => unreachable!(),
        }
    }
}
