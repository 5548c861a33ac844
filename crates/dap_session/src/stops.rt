//! What is said of a stop.

use crate::breakpoints::{Breakpoints, Kind};
use crate::debuggee::Debuggee;
use crate::motion::Cause;
use dap_messages::{Text, push_json};
use dap_views::{JobEnd, Shown, push_last_line, push_state_line};
use job_looks::Ending;
use std::alloc::Global;

/// The name of a kind of breakpoints, as a reason for a stop.
fn kind_text(kind: Kind) -> &'static str {
    match kind {
        Kind::Line => "breakpoint",
        Kind::Function => "function breakpoint",
        Kind::Data => "data breakpoint",
    }
}

/// Whether a job returned that ended so.
pub(crate) fn has_returned(end: Option<JobEnd>) -> bool {
    match end {
        Some(end) => end.end.ending == Ending::Returned,
        None => false,
    }
}

/// The name of an end, as a reason for a stop.
fn end_text(end: Option<JobEnd>) -> &'static str {
    if has_returned(end) {
        "end"
    } else {
        "exception"
    }
}

/// The name of the state with this number, as a reason for a stop: that to which a move back has come.
fn back_text(at: u64) -> &'static str {
    if at == 0 { "entry" } else { "step" }
}

/// Why a run stops by a cause, as the protocol names it. At its state a breakpoint of this kind holds, if one does.
fn reason_of(debuggee: &Debuggee, kind: Option<Kind>, cause: Cause) -> &'static str {
    match cause {
        Cause::Entry => "entry",
        Cause::Goto => "goto",
        Cause::Pause => "pause",
        Cause::End => end_text(debuggee.end()),
        Cause::Step => kind.map_or("step", kind_text),
        Cause::Back => kind.map_or(back_text(debuggee.at()), kind_text),
    }
}

/// The text that says at which state a run stops, and what happens there if it is its end.
fn description(alloc: Global, shown: Shown<'_>, cause: Cause, end: Option<JobEnd>) -> Text {
    let mut text = Text::new(alloc);
    match (cause, end) {
        (Cause::End, Some(end)) => push_last_line(&mut text, alloc, shown, end.end.ending),
        _ => push_state_line(&mut text, shown),
    }
    text
}

/// Adds the body of the event that a run stops by a cause.
pub(crate) fn push_stopped(
    text: &mut Text,
    alloc: Global,
    debuggee: &Debuggee,
    breakpoints: &Breakpoints,
    shown: Shown<'_>,
    cause: Cause,
) {
    let kind = breakpoints.kind_at(shown.history);
    text.push_str("{\"reason\":\"");
    text.push_str(reason_of(debuggee, kind, cause));
    text.push_str("\",\"threadId\":1,\"allThreadsStopped\":true,\"hitBreakpointIds\":[");
    breakpoints.push_ids(text, shown.history);
    text.push_str("],\"description\":");
    let description = description(alloc, shown, cause, debuggee.end()).finish();
    if let Some(description) = text.get(description) {
        push_json(text, description.as_str());
    }
    text.push('}');
}
