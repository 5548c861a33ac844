//! Jobs that run by themselves on several threads, each over a region in which no other job is.
//!
//! How a job ends, how many instructions it executes and how many words it uses depend on the job alone. So
//! [`run_lanes`] leaves the machine the same for any number of lanes, whichever of them runs which job.
#![tactic(auto)]

mod dealer;
mod lanes;

pub use lanes::{MOST_LANES, run_lanes};
