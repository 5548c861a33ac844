//! The slot of one job on a machine: the place of the job in its run, over blocks of a memory that other jobs share.
//!
//! A [`Slot`] keeps a job and its track, whose cells name blocks of a [`JobMemory`](job_memory::JobMemory). Its calls
//! do what an event does to that job, and change no other job's blocks. `specs/Slots.antt` says when a slot shows its
//! job's standing: the cells' blocks have the words of the stack that the job has when it runs alone, entries that are
//! copies share a block, and there are no other blocks of the job. Each call keeps that, and `specs/Answers.antt` says
//! what it answers.
#![tactic(auto)]

mod answer;
mod class;
mod collect;
mod commit;
mod course;
mod execution;
mod in_place;
pub mod laws;
mod next;
mod slot;
mod status;
mod ticket;
mod turn;

pub use answer::{Begun, Compare, Finished, Stepped};
pub use slot::Slot;
pub use status::Status;
pub use turn::Turn;
