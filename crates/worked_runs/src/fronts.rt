//! Schedules as texts, the texts of faults, batches whose jobs worker threads or lanes run, and whole runs over a heap
//! that holds few bytes.
//!
//! That two workers compute at once no contract says: a gate sees it, which holds the first steps of two jobs until
//! both are between their begin and their finish.

mod batches;
mod calls;
mod faults;
mod heaps;
mod lanes;
mod meeting;
mod reports;
mod runs;
mod schedules;
