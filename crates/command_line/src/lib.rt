//! The command line of the program.
//!
//! [`read_line`] reads it. It gives a [`LineFault`] with its text and its exit if there is nothing to run. The options
//! and the schedule are those of `batch_front`, which stands without this crate and so without `clap`.
#![tactic(auto)]

mod command;
mod fault;
mod line;

pub use command::Vjobs;
pub use fault::LineFault;
pub use line::{Line, read_line};
