//! Where the code of a job is in the text of its batch, and which lines of a source it is of.
//!
//! [`Spans`] has the text of each instruction. [`Sources`] has the lines of a source, which comments of the code name.
//! [`last_line_of`] is the line at which the code ends.
#![tactic(auto)]

mod extent;
mod sources;
mod spans;

pub use extent::last_line_of;
pub use sources::{Mark, SourceLine, Sources, push_place, push_source};
pub use spans::Spans;
