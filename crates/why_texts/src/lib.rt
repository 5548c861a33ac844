//! What is shown of a job on a terminal, as texts.
#![tactic(auto)]

mod drawing;
mod folded;
mod profile;
mod shares;
mod source_lines;
mod states;
mod values;

pub use folded::{Stack, chain_text, names_of, source_line_text};
pub use profile::{
    Shown, function_text, functions_head, line_text, lines_head, sorted_functions, sorted_lines,
    words_text,
};
pub use source_lines::{sorted_totals, total_text, totals_head};
pub use states::{Places, limits_text, picture_text, state_text, steps_text};
pub use values::{head_text, no_entry_text, no_place_text, push_row};
