//! The messages of the Debug Adapter Protocol: how they are framed, which requests there are, and what is sent.
//!
//! This crate knows nothing of jobs. An [`Input`] cuts what comes in into bodies, [`message_of`] reads a body as a
//! request, and a [`Sender`] numbers and frames responses and events. The source is the protocol's specification,
//! version 1.x of <https://microsoft.github.io/debug-adapter-protocol>, as far as `docs/DEBUGGING.md` says.
#![tactic(auto)]

mod arguments;
mod framing;
mod input;
mod json;
mod reading;
mod refusal;
mod request;
mod sender;

pub use framing::{Broken, MOST_BODY_BYTES, MOST_HEADER_BYTES};
pub use input::{Body, Input};
pub use json::{Text, push_json};
pub use reading::{Message, Parsed, message_of};
pub use refusal::{Refusal, Shape};
pub use request::{
    Client, Context, Filter, FunctionBreakpoint, Launch, LineSpan, Move, Pages, Request,
    SourceBreakpoint, SourceBreakpoints, Unsupported,
};
pub use sender::Sender;
