//! The requests that there are, with their arguments.

use std::fmt::{self, Display, Formatter};

/// How a client counts.
#[derive(Clone, Copy, Drop)]
pub struct Client {
    /// Whether its first line is 1, and not 0.
    pub lines_start_at_1: bool,
    /// Whether its first column is 1, and not 0.
    pub columns_start_at_1: bool,
}

/// What is to be debugged.
#[derive(Drop)]
pub struct Launch {
    /// The name of the batch's file.
    pub batch: String,
    /// The job's place in it, counted from 1.
    pub job: u64,
    /// Whether it stops before the first instruction.
    pub stop_on_entry: bool,
    /// The memory for states that are kept, in MB.
    pub memory: u64,
}

/// What a breakpoint asks for that isn't supported.
#[derive(Clone, Copy, PartialEq, Eq, Drop)]
pub enum Unsupported {
    /// A condition.
    Condition,
    /// A count of hits.
    HitCount,
    /// A message in place of a stop.
    LogMessage,
}

impl Display for Unsupported {
    fn fmt<W: fmt::Write>(&self, f: &mut Formatter<W>) -> fmt::Result {
        match self {
            Unsupported::Condition => f.write_str("a breakpoint has no condition here"),
            Unsupported::HitCount => f.write_str("a breakpoint has no count of hits here"),
            Unsupported::LogMessage => f.write_str("a breakpoint has no log message here"),
        }
    }
}

/// A breakpoint at a line.
#[derive(Clone, Copy, Drop)]
pub struct SourceBreakpoint {
    /// The line, as the client counts.
    pub line: u64,
    /// What it asks for besides.
    pub unsupported: Option<Unsupported>,
}

/// All breakpoints of a file.
#[derive(Drop)]
pub struct SourceBreakpoints {
    /// The file's path, or its name if the client gives no path.
    pub path: String,
    /// The breakpoints, in the client's order.
    pub breakpoints: Vec<SourceBreakpoint>,
}

/// A breakpoint at a function, or at what its name says otherwise.
#[derive(Drop)]
pub struct FunctionBreakpoint {
    /// The name.
    pub name: String,
    /// What it asks for besides.
    pub unsupported: Option<Unsupported>,
}

/// Lines of a file.
#[derive(Drop)]
pub struct LineSpan {
    /// The file's path, or its name if the client gives no path.
    pub path: String,
    /// The first line, as the client counts.
    pub line: u64,
    /// The last line.
    pub end_line: u64,
}

/// Which part of a list is asked for.
#[derive(Clone, Copy, Drop)]
pub struct Pages {
    /// The place of the first, counted from 0.
    pub start: u64,
    /// How many. All, if it is none.
    pub count: Option<u64>,
}

/// Which variables are asked for.
#[derive(Clone, Copy, PartialEq, Eq, Drop)]
pub enum Filter {
    /// All of them.
    All,
    /// Those with numbers.
    Indexed,
    /// Those with names.
    Named,
}

/// For what an expression is evaluated.
#[derive(Clone, Copy, PartialEq, Eq, Drop)]
pub enum Context {
    /// Somebody entered it in the console.
    Repl,
    /// Something else, as a watch.
    Other,
}

/// A way to go to another state.
#[derive(Clone, Copy, PartialEq, Eq, Drop)]
pub enum Move {
    /// On to a breakpoint.
    Continue,
    /// On to the next instruction of this call, or of its caller.
    Next,
    /// On by an instruction.
    StepIn,
    /// On to the caller.
    StepOut,
    /// Back by an instruction.
    StepBack,
    /// Back to a breakpoint.
    ReverseContinue,
}

impl Move {
    /// The request's name.
    pub fn command(self) -> &'static str {
        match self {
            Move::Continue => "continue",
            Move::Next => "next",
            Move::StepIn => "stepIn",
            Move::StepOut => "stepOut",
            Move::StepBack => "stepBack",
            Move::ReverseContinue => "reverseContinue",
        }
    }
}

/// What a client asks for.
#[derive(Drop)]
pub enum Request {
    /// What the adapter can do.
    Initialize(Client),
    /// A job.
    Launch(Launch),
    /// Breakpoints of a file, in place of those that it has.
    SetBreakpoints(SourceBreakpoints),
    /// Breakpoints at functions, in place of those that there are.
    SetFunctionBreakpoints(Vec<FunctionBreakpoint>),
    /// The ends that stop.
    SetExceptionBreakpoints,
    /// Where breakpoints can be.
    BreakpointLocations(LineSpan),
    /// The beginning, after all breakpoints are set.
    ConfigurationDone,
    /// The threads.
    Threads,
    /// The calls.
    StackTrace(Pages),
    /// What is shown of the call of this number.
    Scopes(u64),
    /// The variables of a scope or a variable.
    Variables {
        /// The number that stands for it.
        reference: u64,
        /// Which of them.
        filter: Filter,
        /// Which part of these.
        pages: Pages,
    },
    /// The value of an expression.
    Evaluate {
        /// The expression.
        expression: String,
        /// What for.
        context: Context,
    },
    /// Why the job ends.
    ExceptionInfo,
    /// Another state.
    Move(Move),
    /// A stop of what moves.
    Pause,
    /// The end of the session.
    Disconnect,
    /// The end of the job.
    Terminate,
}

impl Request {
    /// The request's name.
    pub fn command(&self) -> &'static str {
        match self {
            Request::Initialize(_) => "initialize",
            Request::Launch(_) => "launch",
            Request::SetBreakpoints(_) => "setBreakpoints",
            Request::SetFunctionBreakpoints(_) => "setFunctionBreakpoints",
            Request::SetExceptionBreakpoints => "setExceptionBreakpoints",
            Request::BreakpointLocations(_) => "breakpointLocations",
            Request::ConfigurationDone => "configurationDone",
            Request::Threads => "threads",
            Request::StackTrace(_) => "stackTrace",
            Request::Scopes(_) => "scopes",
            Request::Variables { .. } => "variables",
            Request::Evaluate { .. } => "evaluate",
            Request::ExceptionInfo => "exceptionInfo",
            Request::Move(way) => way.command(),
            Request::Pause => "pause",
            Request::Disconnect => "disconnect",
            Request::Terminate => "terminate",
        }
    }
}
