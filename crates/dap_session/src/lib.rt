//! A session of a debugger with a job of a batch: it follows the requests of the Debug Adapter Protocol, and sends
//! answers and events.
//!
//! [`with_session`] makes a [`Session`], which has what its client has set, and the job once it is launched.
//! [`Follower::follow`] follows a message. While [`Follower::is_moving`], [`Follower::go_on`] goes on with the move,
//! for a while each time, so that a message that comes in the meantime can be followed.
//!
//! The session has the text of the job, breakpoints in it, and the history of its run. A move goes a way of the history
//! (`specs/Ways.antt`).
#![tactic(auto)]

mod answers;
mod breakpoints;
mod code;
mod debuggee;
mod launching;
mod motion;
mod moves;
mod placing;
mod refusal;
mod requests;
mod sending;
mod session;
mod stops;
mod texts;
mod way;

pub use session::{Flow, Follower, Session, with_session};
