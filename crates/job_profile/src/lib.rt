//! One job alone, from its first instruction to its end: what there is at each state of its run, how often each line is
//! executed, when the job first holds its peak, the words that it holds over time, and what it uses of its limits.
//!
//! A [`Run`] executes a job an instruction at a time, over a slot and a memory of its own. Between two instructions it
//! shows the state of the run: the words of the entries and which of them are copies, the calls, the next line, and the
//! counts. A run is a function of its job, so nothing is recorded: to look at an earlier state the run is made anew.
//! `specs/Walks.antt` says what there is at a state, over the definitions of `job_steps`. `specs/SoundRun.antt` says
//! when what a run keeps is that of its job. A [`Coming`] is what each step has to know of the next line:
//! `specs/Comings.antt` says what that is.
//!
//! [`Uses`] follows a run and knows the most words, entries and calls so far, and the least limits of a job that
//! returned. `specs/Used.antt` has the definitions. It also goes on to the first state at which a [`Stop`] holds, which
//! `specs/Stops.antt` defines. `specs/Moves.antt` says what a step makes of a run.
//!
//! A [`Profile`] runs a job to its end, and counts on the way: `specs/Counts.antt` says what, over the states of the
//! job's run. It also has the words that were held, by columns: `specs/Columns.antt` says what a column is.
//! `specs/Strips.antt` and `specs/Sound.antt` say when what a profile keeps is that of its run.
#![tactic(auto)]

mod coming;
mod profile;
mod run;
mod stop;
mod strip;
mod times;
mod uses;

pub use coming::{Coming, Effect};
pub use profile::{Profile, Stepped};
pub use run::Run;
pub use stop::Stop;
pub use strip::{Column, MOST_COLUMNS};
pub use uses::Uses;
