//! What a client of the Debug Adapter Protocol is shown of a state of a run: its calls, its stack and its numbers, and
//! what is said of its end.
//!
//! A [`Shown`] is the run at its state, with the text that it runs. The functions whose names begin with `push_` add
//! the body of a response to a [`Text`](dap_messages::Text), as JSON, or a text that is a part of one. None of them
//! moves the run.
//!
//! A client asks for more of a state by a number, which is that of a [`Reference`].
#![tactic(auto)]

mod columns;
mod ends;
mod entries;
mod fault;
mod frames;
mod json;
mod numbers;
mod page;
mod reference;
mod scopes;
mod shown;
mod values;
mod variables;

pub use ends::{JobEnd, end_of_job, push_end_text, push_exception, push_last_line};
pub use fault::Fault;
pub use frames::push_stack_trace;
pub use page::MOST_VARIABLES;
pub use reference::Reference;
pub use scopes::push_scopes;
pub use shown::{Shown, push_state_line};
pub use values::{MOST_TEXT_VALUES, push_values_of};
pub use variables::push_variables;
