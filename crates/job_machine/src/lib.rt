//! Jobs over one region of words, which take their turns in any order.
//!
//! A [`Machine`] admits jobs, begins and finishes their steps, and collects their outcomes. `specs/Machines.antt` says
//! what each call makes of the standings of the jobs: what the event of its name makes by the definitions of
//! `job_steps`. So every job goes where it goes alone, whatever the others do.
//!
//! [`Machine::replay`] does a list of events. A caller to which events come one by one, as those of a schedule, does
//! each by [`Machine::play`], with the [`Workbench`] that holds the jobs' desks and computed steps.
//!
//! Since a job ends as it ends alone, it may also run by itself, on a [`Lane`]. [`Machine::adopt`] takes over its end.
#![tactic(auto)]

mod lane;
mod machine;
mod replay;
mod run_out;
mod setting;
mod workbench;

pub use job_slots::{Begun, Finished, Status, Stepped};
pub use job_steps::{Desk, Event, Filled, Job, JobName, Ticket, compute};
pub use lane::{EndedJob, Lane};
pub use machine::{Admission, Machine};
pub use replay::ReplayFault;
pub use workbench::Workbench;
