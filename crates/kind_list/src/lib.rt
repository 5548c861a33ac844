//! Lists of kinds that take two bits for each kind.
//!
//! Everything is done in chunks of at most 32 kinds, which are a word of them.
#![tactic(auto)]

mod bits;
mod chunk;
mod front;
mod full;
mod list;

pub use chunk::Chunk;
pub use front::FrontList;
pub use list::KindList;
