//! The steps of one job, and of jobs that take turns.
//!
//! What a job is to do is defined in `specs/`, one job at a time and with no memory but its stack.
//! `States` has its state: the stack's entries, each a vector with a tag that its copies share, the
//! active calls with what remains of each, and what was used. `Motions` and `Steps` say what one
//! instruction makes of a state, and what ends the job in its place; `Runs` follows that from the first
//! state to the job's end. `Reached` says what holds of each state that a verified job reaches, and
//! [`laws`] proves it.
//!
//! Every instruction has its meaning in two calls: [`lengths`] and [`fill`]. A step is computed away from the machine
//! that it belongs to: a [`Desk`] takes copies of the operands and so becomes a [`Ticket`], which [`compute`] turns
//! into a [`Filled`], and both give the desk back. `Tickets` says what they hold.
//!
//! A [`Job`] is what is run. Its [`Track`] is its place in its run: cells that name the vectors of the stack's
//! entries, and frames over the lines of the code instead of calls with what remains of them. `Frames`
//! says at which call a frame is, and `Tracks` what an instruction that is executed makes of a track.
//!
//! Jobs that take turns are in a list, each with a standing (`Standings`): it waits, it may begin its next
//! step, a step of it has begun, it has ended, or its outcome is collected. An [`Event`] moves one of
//! them on; `Events` says which events are open and what the standings are after a list of them. A job that
//! waits is passed by when a later one that fits is admitted before it; `Standings` says how often that
//! may be. `EventLaws` says what holds whatever their order, as that each job goes where it goes alone.
#![tactic(auto)]

mod bounded_stack;
mod calls;
mod desk;
mod event;
mod fault;
mod filled;
mod flow;
mod follow;
mod frame;
mod job;
pub mod laws;
mod operands;
mod operations;
mod step;
mod ticket;
mod track;

pub use calls::Frames;
pub use desk::Desk;
pub use event::Event;
pub use filled::{Filled, compute};
pub use flow::Flow;
pub use frame::Frame;
pub use job::{Job, JobName};
pub use operands::MOST_OPERANDS;
pub use operations::{fill, lengths};
pub use ticket::Ticket;
pub use track::Track;
