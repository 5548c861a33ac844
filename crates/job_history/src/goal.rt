//! What is sought in a run.

use job_profile::Stop;
use vcode_base::Elements;

/// What is sought: a state that goes on at which any of these stops holds, or at which no more calls than this are
/// active (0: never).
#[derive(Clone, Copy)]
pub struct Goal<'a> {
    /// What may hold.
    pub stops: &'a [Stop<Elements<'a, u8>>],
    /// The most calls.
    pub calls: usize,
}

/// How a search ended.
#[derive(Clone, Copy, PartialEq, Eq, Debug, Drop)]
pub enum Found {
    /// It is at the state that was sought.
    Here,
    /// It has come as far as it was to, and there was no such state.
    NotYet,
    /// There is no such state on this way: it is at the end, or at the first state.
    Nowhere,
}
