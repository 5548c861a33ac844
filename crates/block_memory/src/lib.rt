//! Vector memories: blocks of 64-bit words, each with an owner and a number, in a room of a fixed number of words.
//!
//! [`VectorMemory`] is the one contract, and what it says of a memory is a finite map from block numbers to owners and
//! words. [`PlainMemory`] keeps a list of its own for each block. [`RegionMemory`] and [`SlidingMemory`] keep a block
//! of one word in a word of its number, and the words of all others in one region. They take their memory once, and
//! move blocks if no hole is wide enough: the first moves all of them, the second moves one after another from the
//! lowest hole on, until a hole is.
#![tactic(auto)]

mod blocks;
mod memory;
mod pack;
mod packing;
mod places;
mod plain;
mod region;
mod slide;
mod span;
mod table;
mod writer;

pub use holes::LONGEST_REGION;
pub use memory::{BlockId, LendingMemory, MOST_BLOCKS, NoRoom, RewritableMemory, VectorMemory};
pub use plain::PlainMemory;
pub use region::{PackedRegion, RegionMemory, SlidingMemory};
pub use writer::{MOST_LENT, Rewriter, Writer};
