//! The command line of `vjobs-why`, by `clap`: what is to be shown of which jobs, and in which form.
#![tactic(auto)]

mod command;
mod selection;

pub use command::{Asked, Form, Look, Object, Unit, VjobsWhy};
pub use selection::{LineRange, Picker, Selection};
