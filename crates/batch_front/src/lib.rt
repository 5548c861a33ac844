//! A batch of jobs from a reader to a writer: its bytes in, its report out.
//!
//! [`run_alone`] reads a batch, runs its jobs on the calling thread and writes the report; [`run`] has worker threads
//! run the jobs. [`parse_schedule`] reads in which order the jobs are to take their turns on the calling thread; their
//! ends depend neither on it nor on the workers. `batch_reader`, below, defines the answer to a batch, which is one for
//! each text and region; `Reports` in `specs/` says what is printed of it, and the status. [`laws`] says what a job's
//! lines of the report depend on. `ReportedJobs` has the jobs of a batch by their numbers on a machine, `Schedules` the
//! items that a text has.
#![tactic(auto)]

mod batch_run;
mod device;
mod exit;
mod fault;
mod follow;
pub mod laws;
mod load;
mod machine_run;
mod options;
mod page;
mod report;
mod reported_jobs;
mod schedule;
mod status;
mod transfer;
mod whole_report;

pub use batch_reader::{Batch, BatchFault, Entry, Fate, Feed, JobEntries, JobEntry, JobFault};
pub use batch_run::{run, run_alone};
pub use device::{Device, MOST_INTERRUPTIONS};
pub use exit::exit_status;
pub use fault::{FrontFault, ScheduleFault};
pub use job_lanes::MOST_LANES;
pub use options::Options;
pub use schedule::{Item, parse_schedule};
pub use status::Status;
pub use step_scheduler::{Gate, NoGate};
