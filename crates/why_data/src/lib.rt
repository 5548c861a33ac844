//! What is known of a job, of a state of it or of a refusal, as data: one JSON object.
#![tactic(auto)]

mod data;
mod object;
mod page_data;
mod picture_data;
mod source_data;
mod state_data;

pub use data::{batch_refusal_object, refusal_object};
pub use object::object_of;
pub use state_data::state_object;
