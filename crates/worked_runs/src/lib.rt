//! Tests of whole runs and of machines, of what no table of batches can say.
//!
//! This crate has tests alone. Reports were worked out by hand from docs/FORMATS.md.
//!
//! Each way out of a function takes apart what the function owns, which is what is dear to prove here. So machines and
//! what belongs to them are lent to functions that have the ways out, and dropped by name.
#![tactic(auto)]

#[cfg(test)]
mod fronts;
#[cfg(test)]
mod machines;
#[cfg(test)]
mod refusals;
