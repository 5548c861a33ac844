//! What the functions and the lines of a run did, counted an instruction at a time.
//!
//! What was executed between two instructions that begin or end a call is a [`Stretch`], and is counted as one: by
//! functions in a [`Tally`], by functions that run inside one another in [`Chains`], and by columns of instructions in
//! [`Bands`]. The elements of operands and results are counted by lines too. [`totals_of`] adds up by lines of a
//! source.
#![tactic(auto)]

mod bands;
mod chains;
mod folded;
mod lists;
mod source_counts;
mod source_totals;
mod tally;

pub use bands::Bands;
pub use chains::{Chain, Chains, innermost};
pub use folded::{chains_of, counted_by_source};
pub use lists::{FunctionHead, LineCount, function_places, functions_of, lines_of};
pub use source_counts::Row;
pub use source_totals::{SourceTotal, totals_of};
pub use tally::{Count, FunctionTally, LineTally, Stretch, Tally};
