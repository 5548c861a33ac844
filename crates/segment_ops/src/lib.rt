//! The instructions that make, read or take a segment descriptor, over slices that the caller
//! lends.
//!
//! A descriptor is a vector of segment lengths. Its segments lie one after the other in another
//! vector, and their total is that vector's length.
//!
//! An instruction runs in three calls: [`shape`] says whether the lengths of its operands fit,
//! [`need`] how many words its results have, and [`fill`] writes them. None of them takes memory,
//! and each goes a fixed number of times over the operands and the results.
//!
//! [`overlay`] writes `DPERMUTE` into the words of its default, for a caller that no longer needs those.
//!
//! `vcode_base` defines what the instructions mean. Each row of its table has a function in the module
//! of the row's family, and what that function ensures is the row.
#![tactic(auto)]

mod descriptors;
mod distributions;
mod extractions;
mod fills;
mod folds;
mod gathers;
mod indices;
mod needs;
mod overlays;
mod packs;
mod permutations;
mod reductions;
mod replacements;
mod scans;
mod scatters;
mod shapes;

pub use fills::fill;
pub use needs::need;
pub use overlays::overlay;
pub use shapes::shape;
