//! One run of a job with all that is counted on the way, and what it held.
//!
//! A [`Survey`] is a job that has run to its end. Its [`Holdings`] say what was held where the words were most, by the
//! lines that made it. [`Levels`] are the entries or calls over time, which take another run.
#![tactic(auto)]

mod holders;
mod levels;
mod survey;
mod works;

pub use holders::{Holder, Holdings};
pub use levels::{Counted, Levels};
pub use survey::{Again, Counts, LastPlace, Survey, Words};
