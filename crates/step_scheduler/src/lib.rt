//! Threads that run the jobs of one machine.
//!
//! [`run_workers`] puts a machine under a lock and lends it to worker threads. In each hold of the lock a worker does
//! one event of the machine; the steps are computed while nobody holds it. So each job goes where it goes alone,
//! however the threads take turns.
//!
//! Beside the machine the lock guards the book of a ledger, whose total is what the machine has executed since the
//! workers were started. Each worker has a share of that ledger and adds to it what its finishes add to the machine.
//! When the shares are back, they are the whole of the book, so that no instruction is counted twice or not at all.
//! `specs/Tallies.antt` says what is counted.
#![tactic(auto)]

mod counts;
mod estimate;
mod first;
mod gate;
mod guarded;
mod own;
mod pool;
mod shared;
mod shares;
mod tally;
mod worker;
mod workers;

pub use gate::{Gate, NoGate};
pub use tally::{RunFault, Tally};
pub use workers::run_workers;
