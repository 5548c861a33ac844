//! Prints a table of calls on holes and on memories of one region with the answer of each.
//!
//! Each line of standard input is a call: its word and its operands, split by one blank each. It is printed as it
//! is, and after it ` = ` and the answer, which is `no case` if the line isn't understood. Blank lines and those
//! that begin with `#` are printed alone.
//!
//! | TableLine | What it does |
//! |---|---|
//! | `holes SIZE MOST` | makes free words, with room for `MOST` holes |
//! | `take LEN` | takes words, and answers their place, or `none` |
//! | `give PLACE LEN` | gives words back |
//! | `reset PLACE` | makes exactly the words from a place on free |
//! | `plain WORDS BLOCKS` | makes a memory in which each block lies apart and none moves |
//! | `packed WORDS BLOCKS` | makes a memory that moves all blocks together at once |
//! | `sliding WORDS BLOCKS` | makes a memory that slides blocks down one after another |
//! | `place OWNER WORD ..` | places a block, and answers its number, or `full` |
//! | `free NUMBER` | takes a block away |
//! | `pack` | moves the blocks together |
//! | `words NUMBER` | answers whose a block is, and its words |
//!
//! Calls go to what was made last. What isn't there or what a contract doesn't allow isn't called: the answer is
//! `refused`. Blocks are counted from 0 in the order in which they were placed.
//!
//! After the answer comes what there is then: how many holes, the words of the widest and the free words, or the words
//! in use, how many blocks, and the words that the last `place` moved.
#![tactic(auto)]

mod answers;
mod blocks;
mod free_words;
mod lines;

use crate::answers::{Made, answer};
use std::io;

/// Prints a line of the table, and after it the answer.
fn show(rt: &HostRuntime, made: &mut Made, line: &str) -> io::Result<()> {
    if line.is_empty() || line.starts_with('#') {
        return println!(rt; "{line}");
    }
    let told = answer(rt.alloc(), made, line)?;
    println!(rt; "{line} = {told}")
}

/// Prints the lines of the table, each with the answer.
fn show_all(rt: &HostRuntime, made: &mut Made) -> io::Result<()> {
    for line in rt.lines(rt.alloc()) {
        show(rt, made, line?.as_str())?;
    }
    Ok(())
}

fn main(rt: HostRuntime) -> io::Result<()> {
    show_all(&rt, &mut Made::Nothing)
}
