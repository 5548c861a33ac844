//! Blocks that live while references name them.
use crate::compare::same;
use block_memory::{BlockId, PlainMemory, RegionMemory, SlidingMemory, VectorMemory};
use refcounts::SharedMemory;
use std::alloc::Global;
use std::process::Abort;
use std::test::Fail;

const OWNER: usize = 7;

const WORDS: &[i64] = &[4, 5, 6];

/// One reference more to a block, and how many it then has.
fn shares<M: VectorMemory>(
    rt: &impl Abort,
    shared: &mut SharedMemory<M, Global>,
    id: BlockId,
    count: u64,
) {
    assert!(rt; 0 < shared.count(id));
    assert!(rt; shared.count(id) < u64::MAX);
    shared.share(id);
    same(rt, &shared.count(id), &count);
}

/// One reference less to a block, and how many it then has; whether that was the last one.
fn releases<M: VectorMemory>(
    rt: &impl Abort,
    shared: &mut SharedMemory<M, Global>,
    id: BlockId,
    count: u64,
) {
    assert!(rt; shared.count(id) > 0);
    same(rt, &shared.release(id), &(count == 0));
    same(rt, &shared.count(id), &count);
}

/// One reference less to a block, in a list, and how many words are freed by it.
fn frees<M: VectorMemory>(
    rt: &impl Abort,
    shared: &mut SharedMemory<M, Global>,
    id: BlockId,
    freed: u64,
) {
    assert!(rt; shared.count(id) > 0);
    let left = shared.used_without(&[id]);
    same(rt, &shared.release_all(&[id]), &freed);
    same(rt, &shared.used(), &left);
}

/// The block is there, with its owner and its words.
fn is_there<M: VectorMemory>(rt: &impl Abort, shared: &SharedMemory<M, Global>, id: BlockId) {
    assert!(rt; shared.count(id) > 0);
    same(rt, &shared.owner(id), &OWNER);
    same(rt, &shared.words(id), &WORDS);
    let len = shared.len(id);
    assert!(rt; len == 3);
    same(rt, &shared.word(id, len - 1), &6);
}

/// A memory has this many words in use, in this many blocks.
fn holds<M: VectorMemory>(
    rt: &impl Abort,
    shared: &SharedMemory<M, Global>,
    words: usize,
    blocks: usize,
) {
    same(rt, &shared.used(), &words);
    same(rt, &shared.blocks(), &blocks);
}

/// A new block with this number of references.
fn make<M: VectorMemory>(
    rt: &impl Abort,
    shared: &mut SharedMemory<M, Global>,
    count: u64,
) -> Result<BlockId, Fail> {
    assert!(rt; shared.blocks() < shared.ids());
    let id = shared.make(OWNER, WORDS)?;
    for references in 2..=count {
        shares(rt, shared, id, references);
    }
    is_there(rt, shared, id);
    holds(rt, shared, WORDS.len(), 1);
    Ok(id)
}

/// A block lives while references name it, and then its words are free.
fn lives_while_named<M: VectorMemory>(
    rt: &impl Abort,
    shared: &mut SharedMemory<M, Global>,
) -> Result<(), Fail> {
    let id = make(rt, shared, 3)?;
    for count in [2, 1, 0] {
        releases(rt, shared, id, count);
    }
    holds(rt, shared, 0, 0);
    let id = make(rt, shared, 2)?;
    frees(rt, shared, id, 0);
    frees(rt, shared, id, 3);
    Ok(())
}

/// Over this memory, which has no blocks, a block lives while references name it.
fn blocks_live_while_named<M: VectorMemory + Drop>(
    rt: &impl Abort,
    alloc: Global,
    memory: M,
) -> Result<(), Fail> {
    assert!(rt; memory.blocks() == 0);
    let mut shared = SharedMemory::new(alloc, memory)?;
    let tried = lives_while_named(rt, &mut shared);
    drop(shared);
    tried
}

#[test]
fn plain_blocks_live_while_named(rt: HostRuntime) -> Result<(), Fail> {
    blocks_live_while_named(&rt, rt.alloc(), PlainMemory::new(rt.alloc(), 10, 4)?)
}

#[test]
fn region_blocks_live_while_named(rt: HostRuntime) -> Result<(), Fail> {
    blocks_live_while_named(&rt, rt.alloc(), RegionMemory::new(rt.alloc(), 10, 4)?)
}

#[test]
fn sliding_blocks_live_while_named(rt: HostRuntime) -> Result<(), Fail> {
    blocks_live_while_named(&rt, rt.alloc(), SlidingMemory::new(rt.alloc(), 10, 4)?)
}
