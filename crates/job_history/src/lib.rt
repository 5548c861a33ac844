//! The run of one job, that goes both ways: forward as the job runs, and back to states that were before.
//!
//! A [`History`] is at a state of the run, and shows it: the words of the entries, where each comes from and which are
//! copies, the calls and where each was made, the next instruction, and the counts. The number of a state is how many
//! states are before it. `specs/Places.antt` says which state each move leads to, over the states of `job_steps`, and
//! `specs/Goals.antt` what may be sought.
//!
//! A run goes forward alone. To go back it is made anew, up to the state that is wanted, and the last states before
//! that are kept, within a bound on memory: so the next moves back only look up what is kept. `specs/Kept.antt` says
//! what a state that is kept has, and `specs/Sound.antt` when what a history keeps is that of its run.
#![tactic(auto)]

mod counts;
mod goal;
mod history;
mod kept;
mod mirror;
mod next;
mod trail;
mod walk;
mod window;

pub use goal::{Found, Goal};
pub use history::History;
pub use next::{Next, op_of};
pub use trail::{Caller, Origin, Trail};
