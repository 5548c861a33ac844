//! What is answered of a state.

use crate::texts::{Texts, first_line};
use dap_messages::{Client, Context, Filter, Pages, Request, Text, push_json};
use dap_views::{
    Fault, JobEnd, Reference, Shown, push_exception, push_scopes, push_stack_trace, push_values_of,
    push_variables,
};
use job_history::History;
use refusal_notes::printable;
use std::alloc::Global;

/// What the adapter can do.
pub(crate) const CAPABILITIES: &str = concat!(
    "{\"supportsConfigurationDoneRequest\":true",
    ",\"supportsFunctionBreakpoints\":true",
    ",\"supportsStepBack\":true",
    ",\"supportsExceptionInfoRequest\":true",
    ",\"supportsTerminateRequest\":true",
    ",\"supportsDelayedStackTraceLoading\":true",
    ",\"supportsBreakpointLocationsRequest\":true",
    ",\"supportsEvaluateForHovers\":true}"
);

/// What a state of a run is shown with, to a client of the job of this text.
pub(crate) fn shown_of<'a>(
    texts: &'a Texts,
    history: &'a History<Global>,
    client: Client,
) -> Shown<'a> {
    Shown {
        history,
        lines: &texts.lines,
        sources: &texts.sources,
        spans: &texts.spans,
        path: texts.path.as_str(),
        first_line: first_line(client),
        first_column: u64::from(client.columns_start_at_1),
    }
}

/// A number of variables or calls as a size.
fn size_of(number: u64) -> usize {
    match usize::try_from(number) {
        Ok(size) => size,
        Err(_) => usize::MAX,
    }
}

/// How many items are asked for: 0 for all.
fn count_of(pages: Pages) -> usize {
    match pages.count {
        Some(count) => size_of(count),
        None => 0,
    }
}

/// The number of the state to which an expression leads that is entered in a console: that of `at N`.
pub(crate) fn target_of(expression: &str, context: Context) -> Option<u64> {
    let number = expression.trim_ascii().strip_prefix("at ")?;
    match number.trim_ascii().parse::<u64>() {
        Ok(number) if context == Context::Repl => Some(number),
        _ => None,
    }
}

/// Whether the variables of a reference are left out by a filter. Those of the run have names, and others numbers.
fn is_left_out(reference: u64, filter: Filter) -> bool {
    let has_names = Reference::of(reference) == Some(Reference::Run);
    match filter {
        Filter::All => false,
        Filter::Indexed => has_names,
        Filter::Named => !has_names,
    }
}

/// Adds the body for the variables of a reference.
fn push_filtered(
    text: &mut Text,
    alloc: Global,
    shown: Shown<'_>,
    reference: u64,
    filter: Filter,
    pages: Pages,
) -> Result<(), Fault> {
    if is_left_out(reference, filter) {
        text.push_str("{\"variables\":[]}");
        return Ok(());
    }
    let (first, count) = (size_of(pages.start), count_of(pages));
    push_variables(text, alloc, shown, reference, first, count)
}

/// Adds the body that names the only thread: the job.
fn push_threads(text: &mut Text, alloc: Global, shown: Shown<'_>) {
    text.push_str("{\"threads\":[{\"id\":1,\"name\":");
    if let Some(name) = text.get(printable(alloc, shown.history.job().name())) {
        push_json(text, name.as_str());
    }
    text.push_str("}]}");
}

/// Adds the body of the answer to why a job ends, if its end is known.
fn push_end(
    text: &mut Text,
    alloc: Global,
    shown: Shown<'_>,
    end: Option<JobEnd>,
) -> Result<(), Fault> {
    match end {
        Some(end) => push_exception(text, alloc, shown, end.end),
        None => Err(Fault::NoException),
    }
}

/// Adds the body of the answer to a request that asks for something of a state. `end` is the end of the job, if it is
/// known.
///
/// # Errors
///
/// [`Fault`] if the state has nothing like it. The text has no whole body then.
pub(crate) fn push_view(
    text: &mut Text,
    alloc: Global,
    shown: Shown<'_>,
    end: Option<JobEnd>,
    request: &Request,
) -> Result<(), Fault> {
    match request {
        Request::Threads => {
            push_threads(text, alloc, shown);
            Ok(())
        }
        Request::StackTrace(pages) => {
            push_stack_trace(text, alloc, shown, size_of(pages.start), count_of(*pages));
            Ok(())
        }
        Request::Scopes(frame) => push_scopes(text, shown, *frame),
        Request::Variables {
            reference,
            filter,
            pages,
        } => push_filtered(text, alloc, shown, *reference, *filter, *pages),
        Request::Evaluate { expression, .. } => push_values_of(text, shown, expression.as_str()),
        Request::ExceptionInfo => push_end(text, alloc, shown, end),
        _ => Ok(()),
    }
}
