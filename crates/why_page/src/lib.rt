//! A page for a browser that draws jobs from their data, with no other file.
#![tactic(auto)]

mod page;
mod page_script;
mod page_style;
mod script_base;
mod script_calls;
mod script_code;
mod script_ending;
mod script_jobs;
mod script_over_time;

pub use page::page_of;
