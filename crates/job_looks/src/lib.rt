//! What there is at a state of a job, and what is said of it: the stack and the calls, the note at its last line, how
//! it ended and what it used.
//!
//! A [`JobState`] is any state that can be looked at, as that of a history is. A [`Watch`] is a run with its trail, and
//! is at such a state after each instruction. A [`Picture`] is what is kept of a state, and [`note_of`] says why the
//! instruction that comes next there is the last. [`see`] runs a job to its [`End`], and [`last_of`] finds the state
//! before it. [`count_to`] finds a state by its [`Stop`](job_profile::Stop).
//!
//! Texts are made by functions whose names begin with `push_`. Each adds to a [`Text`], which keeps whether memory was
//! refused.
#![tactic(auto)]

mod batch;
mod elements;
mod end;
mod end_texts;
mod ended;
mod histories;
mod last;
mod memory_notes;
mod padding;
mod picture;
mod pieces;
mod reasons;
mod stack;
mod state;
mod step;
mod stops;
mod text;
mod values;
mod watch;
mod wide;

pub use batch::Batch;
pub use elements::elements_of;
pub use end::{End, Ending, end_of, ending_of, run_through, with_job};
pub use end_texts::{push_ending, push_limits};
pub use ended::{Ended, ended_of, last_told};
pub use last::{BeforeEnd, Last, Seen, before_of, last_at, last_of, note_of, picture_of, see};
pub use memory_notes::depth_after;
pub use padding::{push_column, push_right, push_text_right};
pub use picture::{
    MOST_KEPT_VALUES, MOST_SHOWN_CALLS, Picture, ShownCall, ShownEntry, call_at, entry_at,
};
pub use pieces::{push_answer, push_more, push_number, push_signed, push_size};
pub use reasons::total;
pub use stack::{
    MOST_ENTRIES, name_at, push_calls, push_line, push_stack, push_value, push_values,
};
pub use state::{JobState, Traced, place_of};
pub use step::{Passed, Step, pass_one, push_made, push_step, push_step_head};
pub use stops::{Sought, State, by_bytes, count_to, place_sought, push_none, state_sought};
pub use text::Text;
pub use values::{Part, ValueRange, push_list, value_range};
pub use watch::Watch;
pub use wide::{Course, WideEnd, Work, run_wide};
