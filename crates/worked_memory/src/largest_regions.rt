//! The largest region of a run: filled, and filled again at the places of every other block. And the longest holes.
ghost use Rattle.std.specs.Prelude.{◌≤◌};

use crate::compare::same;
use block_memory::{BlockId, MOST_BLOCKS, NoRoom, RegionMemory, SlidingMemory, VectorMemory};
use holes::{Holes, LONGEST_REGION};
use std::alloc::Global;
use std::process::Abort;
use std::test::Fail;
use test_support::RefusingHeap;
use vcode_base::limits::MOST_WORDS;

/// The words of a block.
const LEN: usize = 128;

/// The words of the largest region, as a number that a proof doesn't compute with.
fn largest_region() -> usize
    ensures { result ≤ LONGEST_REGION }
{
    MOST_WORDS
}

/// The blocks that fill it.
fn most_blocks() -> usize
    ensures { result ≤ MOST_BLOCKS }
{
    8_192
}

fn put<M: VectorMemory>(
    rt: &impl Abort,
    memory: &mut M,
    owner: usize,
    words: &[i64],
) -> Result<BlockId, NoRoom> {
    assert!(rt; memory.blocks() < memory.ids());
    memory.place(owner, words)
}

/// A block has this owner and these words, both lent and copied out.
fn reads<M: VectorMemory>(
    rt: &impl Abort,
    memory: &M,
    id: BlockId,
    owner: usize,
    expected: &[i64],
    words: &mut [i64],
) {
    assert!(rt; memory.is_live(id));
    assert!(rt; memory.len(id) == words.len());
    same(rt, &memory.owner(id), &owner);
    same(rt, &memory.words(id), &expected);
    memory.read_into(id, words);
    same(rt, &&*words, &expected);
}

/// `blocks` blocks, which are placed in order. The words of each are its number, again and again.
fn put_all<M: VectorMemory>(
    rt: &impl Abort,
    alloc: Global,
    memory: &mut M,
    blocks: usize,
) -> Result<Vec<BlockId>, Fail> {
    let mut ids = Vec::new(alloc);
    for number in 0..blocks {
        ids.push(put(rt, memory, number, &[i64::try_from(number)?; LEN])?)?;
    }
    Ok(ids)
}

/// Frees the first, the third and so on.
fn frees_every_other<M: VectorMemory>(rt: &impl Abort, memory: &mut M, ids: &[BlockId]) {
    for id in ids.iter().step_by(2) {
        assert!(rt; memory.is_live(*id));
        memory.free(*id);
        assert!(rt; !memory.is_live(*id));
    }
}

/// Reads the second, the fourth and so on.
fn reads_every_other<M: VectorMemory>(
    rt: &impl Abort,
    memory: &M,
    ids: &[BlockId],
) -> Result<(), Fail> {
    for (number, id) in ids.iter().enumerate().skip(1).step_by(2) {
        let expected = [i64::try_from(number)?; LEN];
        reads(rt, memory, *id, number, &expected, &mut [0; LEN]);
    }
    Ok(())
}

/// Places a block as large as all holes together.
fn fills_the_holes<M: VectorMemory>(
    rt: &impl Abort,
    alloc: Global,
    memory: &mut M,
) -> Result<(), Fail> {
    let words = vec![in alloc; -1; memory.size() - memory.used()]?;
    let id = put(rt, memory, 0, &words)?;
    let mut read = vec![in alloc; 0; words.len()]?;
    reads(rt, memory, id, 0, &words, &mut read);
    Ok(())
}

/// Frees every other block of a full memory, and fills all their words again with one.
fn is_filled_again<M: VectorMemory>(
    rt: &impl Abort,
    alloc: Global,
    memory: &mut M,
    ids: &[BlockId],
) -> Result<(), Fail> {
    same(rt, &memory.used(), &memory.size());
    frees_every_other(rt, memory, ids);
    fills_the_holes(rt, alloc, memory)?;
    same(rt, &memory.used(), &memory.size());
    reads_every_other(rt, memory, ids)
}

/// Fills a memory with blocks, frees every other one, and fills all their words again with one.
fn is_filled_twice<M: VectorMemory>(
    rt: &impl Abort,
    alloc: Global,
    memory: &mut M,
) -> Result<(), Fail> {
    let ids = put_all(rt, alloc, memory, most_blocks())?;
    is_filled_again(rt, alloc, memory, &ids)
}

#[test]
fn the_largest_region_is_filled(rt: HostRuntime) -> Result<(), Fail> {
    let mut memory = RegionMemory::new(rt.alloc(), largest_region(), most_blocks())?;
    is_filled_twice(&rt, rt.alloc(), &mut memory)
}

#[test]
fn the_largest_sliding_region_is_filled(rt: HostRuntime) -> Result<(), Fail> {
    let mut memory = SlidingMemory::new(rt.alloc(), largest_region(), most_blocks())?;
    is_filled_twice(&rt, rt.alloc(), &mut memory)
}

/// Makes the longest holes over a heap that refuses the growth of this number, and reports whether it was asked for.
fn is_growth_refused(rt: &impl Abort, heap: &RefusingHeap<Global>, growth: u64) -> bool {
    heap.refuse(growth);
    let made = Holes::new(heap, LONGEST_REGION, 4);
    same(rt, &made.is_ok(), &!heap.has_refused());
    heap.has_refused()
}

#[test]
fn the_longest_holes_are_refused_by_the_heap_alone(rt: HostRuntime) {
    let heap = RefusingHeap::new(rt.alloc());
    assert!(rt; is_growth_refused(&rt, &heap, 1));
    assert!(rt; is_growth_refused(&rt, &heap, 2));
}
