//! A batch whose jobs get texts after their signature lines.
//!
//! [`fill_batch`] puts a text before the `CODE` of each job. Every byte of the batch stays, in its order.
#![tactic(auto)]

mod fill;
mod line;

pub use fill::fill_batch;
