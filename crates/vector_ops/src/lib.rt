//! The elementwise instructions, over slices that the caller lends.
//!
//! An instruction runs in three calls: [`shape`] says whether the lengths of its operands fit,
//! [`need`] how many words its result has, and [`fill`] writes it. None of them takes memory,
//! and each goes at most twice over the elements.
//!
//! [`copy`] writes the result of `CONST`, which has no operand but its list.
//!
//! What the instructions mean is defined in `vcode_base`. What a row of its table makes of the
//! elements at one place is a type of its own: those that segments use too are in
//! `vcode_base::element`, the others in the module of the row's family. `steps` has the loops.
#![tactic(auto)]

mod arithmetic;
mod comparisons;
mod fills;
mod logic;
mod selection;
mod shapes;
mod steps;

pub use fills::{copy, fill};
pub use shapes::{need, shape};
