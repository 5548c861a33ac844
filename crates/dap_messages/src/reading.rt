//! Requests, as they are read.

use crate::arguments::{Arguments, Fault};
use crate::refusal::Refusal;
use crate::request::{
    Client, Context, Filter, FunctionBreakpoint, Launch, LineSpan, Move, Pages, Request,
    SourceBreakpoint, SourceBreakpoints, Unsupported,
};
use serde::Deserialize;
use serde_json::{Category, Value};
use std::alloc::{AllocError, Global};

/// The greatest memory for states that are kept, in MB.
const MOST_MEMORY: u64 = 4_096;

/// The memory for states that are kept if the client names none, in MB.
const USUAL_MEMORY: u64 = 256;

/// The most brackets and commas of a body that is read.
const MOST_MARKS: usize = 262_144;

/// A request, and the number that its response names.
#[derive(Drop)]
pub struct Message {
    /// The number.
    pub seq: u64,
    /// The request.
    pub request: Request,
}

/// The number and the name of a request.
#[derive(Drop, Deserialize)]
struct Head {
    seq: u64,
    command: String,
}

/// What a body is.
#[derive(Drop)]
pub enum Parsed {
    /// A request.
    Message(Message),
    /// A request that can't be followed, with what its response names, and why.
    Refused {
        /// Its number.
        seq: u64,
        /// Its name.
        command: String,
        /// Why.
        why: Refusal,
    },
    /// Something to which there is no response, and why.
    NoRequest(Refusal),
}

/// What a breakpoint asks for that isn't supported. An empty text asks for nothing.
fn unsupported_of(breakpoint: Arguments<'_>) -> Result<Option<Unsupported>, Refusal> {
    let is_empty = |text: &str| text.is_empty();
    let has_condition = !breakpoint.text("condition")?.is_none_or(is_empty);
    let has_count = !breakpoint.text("hitCondition")?.is_none_or(is_empty);
    let has_message = !breakpoint.text("logMessage")?.is_none_or(is_empty);
    Ok(if has_condition {
        Some(Unsupported::Condition)
    } else if has_count {
        Some(Unsupported::HitCount)
    } else if has_message {
        Some(Unsupported::LogMessage)
    } else {
        None
    })
}

/// The path of a source, or its name if it has no path.
fn path_of(alloc: Global, arguments: Arguments<'_>) -> Result<String, Fault> {
    let source = arguments.object("source")?;
    match source.text("path")? {
        Some(path) => Ok(String::from_str(alloc, path)?),
        None => source.needed_text(alloc, "name"),
    }
}

/// A breakpoint at a line.
fn source_breakpoint(value: &Value) -> Result<SourceBreakpoint, Refusal> {
    let breakpoint = Arguments::of(Some(value));
    Ok(SourceBreakpoint {
        line: breakpoint.needed_number("line", 0, u64::MAX)?,
        unsupported: unsupported_of(breakpoint)?,
    })
}

/// Adds the breakpoints at lines that these values are.
fn add_breakpoints(breakpoints: &mut Vec<SourceBreakpoint>, values: &[Value]) -> Result<(), Fault> {
    for value in values {
        breakpoints.push(source_breakpoint(value)?)?;
    }
    Ok(())
}

/// The breakpoints at lines that are asked for.
fn source_breakpoints(
    alloc: Global,
    arguments: Arguments<'_>,
) -> Result<Vec<SourceBreakpoint>, Fault> {
    let mut breakpoints = Vec::new(alloc);
    add_breakpoints(&mut breakpoints, arguments.list("breakpoints")?)?;
    Ok(breakpoints)
}

/// The request for breakpoints of a file.
fn set_breakpoints(alloc: Global, arguments: Arguments<'_>) -> Result<Request, Fault> {
    let path = path_of(alloc, arguments)?;
    match source_breakpoints(alloc, arguments) {
        Ok(breakpoints) => Ok(Request::SetBreakpoints(SourceBreakpoints { path, breakpoints })),
        Err(fault) => Err(fault),
    }
}

/// A breakpoint at a function.
fn function_breakpoint(alloc: Global, value: &Value) -> Result<FunctionBreakpoint, Fault> {
    let breakpoint = Arguments::of(Some(value));
    let unsupported = unsupported_of(breakpoint)?;
    let name = breakpoint.needed_text(alloc, "name")?;
    Ok(FunctionBreakpoint { name, unsupported })
}

/// Adds the breakpoints at functions that these values are.
fn add_functions(
    alloc: Global,
    breakpoints: &mut Vec<FunctionBreakpoint>,
    values: &[Value],
) -> Result<(), Fault> {
    for value in values {
        breakpoints.push(function_breakpoint(alloc, value)?)?;
    }
    Ok(())
}

/// The request for breakpoints at functions.
fn set_function_breakpoints(alloc: Global, arguments: Arguments<'_>) -> Result<Request, Fault> {
    let values = arguments.list("breakpoints")?;
    let mut breakpoints = Vec::new(alloc);
    add_functions(alloc, &mut breakpoints, values)?;
    Ok(Request::SetFunctionBreakpoints(breakpoints))
}

/// The request for what the adapter can do.
fn initialize(arguments: Arguments<'_>) -> Result<Request, Fault> {
    Ok(Request::Initialize(Client {
        lines_start_at_1: arguments.flag("linesStartAt1", true)?,
        columns_start_at_1: arguments.flag("columnsStartAt1", true)?,
    }))
}

/// The request for a job.
fn launch(alloc: Global, arguments: Arguments<'_>) -> Result<Request, Fault> {
    let job = arguments.number("job", 1, u64::MAX)?.unwrap_or(1);
    let stop_on_entry = arguments.flag("stopOnEntry", true)?;
    let memory = arguments
        .number("memory", 0, MOST_MEMORY)?
        .unwrap_or(USUAL_MEMORY);
    let batch = arguments.needed_text(alloc, "batch")?;
    Ok(Request::Launch(Launch {
        batch,
        job,
        stop_on_entry,
        memory,
    }))
}

/// The request for where breakpoints can be.
fn breakpoint_locations(alloc: Global, arguments: Arguments<'_>) -> Result<Request, Fault> {
    let line = arguments.needed_number("line", 0, u64::MAX)?;
    let end_line = arguments.number("endLine", 0, u64::MAX)?.unwrap_or(line);
    let path = path_of(alloc, arguments)?;
    Ok(Request::BreakpointLocations(LineSpan {
        path,
        line,
        end_line,
    }))
}

/// Which part of a list is asked for, by arguments of these names. A count of 0 is none.
fn pages(
    arguments: Arguments<'_>,
    start: &'static str,
    count: &'static str,
) -> Result<Pages, Refusal> {
    let start = arguments.number(start, 0, u64::MAX)?.unwrap_or(0);
    let count = arguments
        .number(count, 0, u64::MAX)?
        .filter(|count| *count > 0);
    Ok(Pages { start, count })
}

/// The request for the calls.
fn stack_trace(arguments: Arguments<'_>) -> Result<Request, Fault> {
    Ok(Request::StackTrace(pages(arguments, "startFrame", "levels")?))
}

/// The request for what is shown of a call.
fn scopes(arguments: Arguments<'_>) -> Result<Request, Fault> {
    Ok(Request::Scopes(arguments.needed_number("frameId", 0, u64::MAX)?))
}

/// The request for variables.
fn variables(arguments: Arguments<'_>) -> Result<Request, Fault> {
    let filter = match arguments.text("filter")? {
        Some("indexed") => Filter::Indexed,
        Some("named") => Filter::Named,
        _ => Filter::All,
    };
    Ok(Request::Variables {
        reference: arguments.needed_number("variablesReference", 0, u64::MAX)?,
        filter,
        pages: pages(arguments, "start", "count")?,
    })
}

/// The request for the value of an expression.
fn evaluate(alloc: Global, arguments: Arguments<'_>) -> Result<Request, Fault> {
    let context = match arguments.text("context")? {
        Some("repl") => Context::Repl,
        _ => Context::Other,
    };
    let expression = arguments.needed_text(alloc, "expression")?;
    Ok(Request::Evaluate {
        expression,
        context,
    })
}

/// The request of this name, if it is one to go to another state.
fn move_of(command: &str) -> Option<Move> {
    match command {
        "continue" => Some(Move::Continue),
        "next" => Some(Move::Next),
        "stepIn" => Some(Move::StepIn),
        "stepOut" => Some(Move::StepOut),
        "stepBack" => Some(Move::StepBack),
        "reverseContinue" => Some(Move::ReverseContinue),
        _ => None,
    }
}

/// The request of this name, if it is one whose arguments say nothing.
fn plain_request(command: &str) -> Option<Request> {
    match command {
        "setExceptionBreakpoints" => Some(Request::SetExceptionBreakpoints),
        "configurationDone" => Some(Request::ConfigurationDone),
        "threads" => Some(Request::Threads),
        "exceptionInfo" => Some(Request::ExceptionInfo),
        "pause" => Some(Request::Pause),
        "disconnect" => Some(Request::Disconnect),
        "terminate" => Some(Request::Terminate),
        _ => Some(Request::Move(move_of(command)?)),
    }
}

/// The request of this name with these arguments.
fn request_with(alloc: Global, command: &str, arguments: Arguments<'_>) -> Result<Request, Fault> {
    match command {
        "initialize" => initialize(arguments),
        "launch" => launch(alloc, arguments),
        "setBreakpoints" => set_breakpoints(alloc, arguments),
        "setFunctionBreakpoints" => set_function_breakpoints(alloc, arguments),
        "breakpointLocations" => breakpoint_locations(alloc, arguments),
        "stackTrace" => stack_trace(arguments),
        "scopes" => scopes(arguments),
        "variables" => variables(arguments),
        "evaluate" => evaluate(alloc, arguments),
        _ => Err(Fault::Refused(Refusal::Unknown(String::from_str(alloc, command)?))),
    }
}

/// The request of this name that a message asks for.
fn request_of(alloc: Global, command: &str, message: Arguments<'_>) -> Result<Request, Fault> {
    match message.get("type").and_then(Value::as_str) {
        Some("request") => match plain_request(command) {
            Some(request) => Ok(request),
            None => request_with(alloc, command, message.object("arguments")?),
        },
        _ => Err(Fault::Refused(Refusal::NotRequest)),
    }
}

/// The request of this number and name that can't be followed, and why. If memory is refused for that, the reason is
/// dropped, and memory is the reason.
fn refused(alloc: Global, seq: u64, command: &str, why: Refusal) -> Result<Parsed, AllocError> {
    match String::from_str(alloc, command) {
        Ok(command) => Ok(Parsed::Refused { seq, command, why }),
        Err(AllocError) => {
            drop(why);
            without_memory(alloc, seq, command)
        }
    }
}

/// The request of this number and name for which memory was refused.
fn without_memory(alloc: Global, seq: u64, command: &str) -> Result<Parsed, AllocError> {
    let command = String::from_str(alloc, command)?;
    Ok(Parsed::Refused {
        seq,
        command,
        why: Refusal::Memory,
    })
}

/// What a message of this number with this command is.
fn numbered(
    alloc: Global,
    seq: u64,
    command: &str,
    message: Arguments<'_>,
) -> Result<Parsed, AllocError> {
    match request_of(alloc, command, message) {
        Ok(request) => Ok(Parsed::Message(Message { seq, request })),
        Err(Fault::Memory) => without_memory(alloc, seq, command),
        Err(Fault::Refused(why)) => refused(alloc, seq, command, why),
    }
}

/// What a body is for whose values memory was refused: a request that can't be followed, if its number and its name can
/// be read by themselves.
fn without_values(alloc: Global, body: &[u8]) -> Result<Parsed, AllocError> {
    match serde_json::from_slice::<Head>(alloc, body) {
        Ok(Head { seq, command }) => Ok(Parsed::Refused {
            seq,
            command,
            why: Refusal::Memory,
        }),
        Err(_) => Err(AllocError),
    }
}

/// The number and the command of a message, if it has them.
fn head_of(message: Arguments<'_>) -> Option<(u64, &str)> {
    let seq = message.get("seq")?.as_u64()?;
    let command = message.get("command")?.as_str()?;
    Some((seq, command))
}

/// Whether a body isn't read, since it has more than `MOST_MARKS` brackets and commas: its values could take too much
/// memory.
fn is_too_large(body: &[u8]) -> bool {
    let marks = body
        .iter()
        .filter(|byte| matches!(**byte, b'[' | b'{' | b','));
    marks.count() > MOST_MARKS
}

/// What a body is.
///
/// If an object has a member twice, the last one counts. A body with more than 262,144 brackets and commas isn't read:
/// that bounds the memory for its values, a few hundred bytes for each.
///
/// If memory is refused for the values of a request, its number and its name are read by themselves, so that it can be
/// refused.
///
/// # Errors
///
/// [`AllocError`] if memory was refused for these too.
pub fn message_of(alloc: Global, body: &[u8]) -> Result<Parsed, AllocError> {
    if is_too_large(body) {
        return Ok(Parsed::NoRequest(Refusal::TooLarge));
    }
    let value = match Value::from_slice(alloc, body) {
        Ok(value) => value,
        Err(error) if error.classify() == Category::Memory => return without_values(alloc, body),
        Err(_) => return Ok(Parsed::NoRequest(Refusal::NotJson)),
    };
    let message = Arguments::of(Some(&value));
    match head_of(message) {
        Some((seq, command)) => numbered(alloc, seq, command, message),
        None => Ok(Parsed::NoRequest(Refusal::NotRequest)),
    }
}
