//! A fragmenting load of counted blocks: blocks of mixed lengths are released and made in no order.
//!
//! The short load has a small region, the long one 4,096 live blocks that nearly fill the largest. An operation is a
//! release and a make.

use crate::draw::{SEED, next, pick};
use block_memory::{BlockId, RegionMemory, VectorMemory};
use refcounts::SharedMemory;
use std::alloc::Global;
use std::io;
use std::time::Instant;
use string_builder::StringBuilder;
use vcode_base::limits::MOST_WORDS;

/// How large the load is.
#[derive(Clone, Copy)]
struct Load {
    region: usize,
    blocks: usize,
    longest: usize,
    operations: usize,
}

const SHORT: Load = Load {
    region: 2048,
    blocks: 64,
    longest: 48,
    operations: 2_000,
};

const LONG: Load = Load {
    region: MOST_WORDS,
    blocks: 4_096,
    longest: 495,
    operations: 200_000,
};

/// Makes a block of a length that the seed gives. None if its words don't fit, and then no block is made.
fn make<M: VectorMemory>(
    memory: &mut SharedMemory<M, Global>,
    words: &[i64],
    seed: u64,
) -> Option<BlockId> {
    if memory.blocks() >= memory.ids() {
        return None;
    }
    let words = words.get(..pick(seed, words.len() + 1))?;
    memory.make(1, words).ok()
}

/// Releases one block after another and makes another in its place.
fn churn<M: VectorMemory>(
    memory: &mut SharedMemory<M, Global>,
    blocks: &mut [Option<BlockId>],
    words: &[i64],
    operations: usize,
) {
    if blocks.is_empty() {
        return;
    }
    let mut seed = SEED;
    for _ in 0..operations {
        seed = next(seed);
        let place = pick(seed, blocks.len());
        if let Some(id) = blocks[place] {
            if memory.count(id) > 0 {
                let _ = memory.release(id);
            }
        }
        seed = next(seed);
        blocks[place] = make(memory, words, seed);
    }
}

/// Prints the state after the load.
fn show<M: VectorMemory>(rt: &HostRuntime, memory: &SharedMemory<M, Global>) -> io::Result<()> {
    let mut text = StringBuilder::new(rt.alloc());
    text.push_number(memory.blocks() as u64);
    text.push_str(" blocks of ");
    text.push_number(memory.used() as u64);
    text.push_str(" words");
    let text = text.finish()?;
    println!(rt; "{text}")
}

/// Prints the time that an operation of a load took.
fn show_time(rt: &HostRuntime, load: Load, nanoseconds: u128) -> io::Result<()> {
    let each = nanoseconds / (load.operations.max(1) as u128);
    println!(rt; "{each} nanoseconds an operation")
}

/// Runs a quarter of a load, and then the load itself, which is timed.
fn run_twice<M: VectorMemory>(
    rt: &HostRuntime,
    load: Load,
    memory: &mut SharedMemory<M, Global>,
    blocks: &mut [Option<BlockId>],
    words: &[i64],
) -> io::Result<u128> {
    churn(memory, blocks, words, load.operations / 4);
    let start = Instant::now(rt)?;
    churn(memory, blocks, words, load.operations);
    Ok(start.elapsed(rt)?.as_nanos())
}

/// Runs a load over a memory of no blocks, and answers how long it took.
fn run_new<M: VectorMemory>(
    rt: &HostRuntime,
    load: Load,
    memory: &mut SharedMemory<M, Global>,
) -> io::Result<u128> {
    let mut blocks = vec![in rt.alloc(); None; load.blocks]?;
    let words = vec![in rt.alloc(); 7; load.longest]?;
    run_twice(rt, load, memory, &mut blocks, &words)
}

/// Runs a load over a memory of no blocks, and prints what came of it, and the time if it is timed.
fn run_load<M: VectorMemory>(
    rt: &HostRuntime,
    load: Load,
    memory: &mut SharedMemory<M, Global>,
    is_timed: bool,
) -> io::Result<()> {
    let took = run_new(rt, load, memory)?;
    show(rt, memory)?;
    if is_timed {
        return show_time(rt, load, took);
    }
    Ok(())
}

/// Runs the short load, or the long one and times it.
pub fn run(rt: &HostRuntime, is_timed: bool) -> io::Result<()> {
    let load = if is_timed { LONG } else { SHORT };
    let region = RegionMemory::new(rt.alloc(), load.region, load.blocks)?;
    let mut memory = SharedMemory::new(rt.alloc(), region)?;
    let ran = run_load(rt, load, &mut memory, is_timed);
    drop(memory);
    ran
}
