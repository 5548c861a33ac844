//! A session: what its client has set, and the job that is debugged.

use crate::answers::{CAPABILITIES, push_view, shown_of, target_of};
use crate::breakpoints::Breakpoints;
use crate::debuggee::Debuggee;
use crate::motion::Motion;
use crate::placing::{Ground, place_functions, place_lines, push_locations};
use crate::refusal::Refusal;
use crate::sending::{Asked, Category, OUT_OF_MEMORY, answer, output, refuse_unread, show_unread};
use dap_messages::{
    Client, FunctionBreakpoint, LineSpan, Message, Parsed, Request, Sender, SourceBreakpoints,
    Text, message_of,
};
use std::alloc::{AllocError, AllocGlobal, Global};
use std::io::{self, Write};
use std::rt::Files;

/// Whether a session goes on after a message.
#[derive(Clone, Copy, PartialEq, Eq, Drop)]
pub enum Flow {
    /// It goes on.
    GoesOn,
    /// It ends.
    Ends,
}

/// What the messages of a client are brought to.
pub trait Follower {
    /// Whether it moves: [`Follower::go_on`] goes on with that.
    fn is_moving(&self) -> bool;

    /// Goes on with a move for a while, if there is one, and sends where it has come when it is there.
    ///
    /// # Errors
    ///
    /// The error of a write.
    fn go_on<W: Write>(&mut self, sender: &mut Sender<W>) -> io::Result<()>;

    /// Follows the message that has this body, and sends what there is to say to it.
    ///
    /// # Errors
    ///
    /// The error of a write.
    fn follow<H: Files + AllocGlobal, W: Write>(
        &mut self,
        rt: &H,
        sender: &mut Sender<W>,
        body: &[u8],
    ) -> io::Result<Flow>;
}

/// How far a session has come.
#[derive(Clone, Copy, PartialEq, Eq, Drop)]
pub(crate) enum Stage {
    /// No job is launched.
    New,
    /// A job is launched, and hasn't begun.
    Launched,
    /// The job is at a state.
    Stopped,
    /// The job moves.
    Moving(Motion),
    /// The job is over.
    Over,
}

/// How a client counts that doesn't say it.
const USUAL_CLIENT: Client = Client {
    lines_start_at_1: true,
    columns_start_at_1: true,
};

/// A session with a client.
#[derive(Drop)]
pub struct Session {
    pub(crate) alloc: Global,
    client: Option<Client>,
    pub(crate) stops_on_entry: bool,
    pub(crate) stage: Stage,
    pub(crate) breakpoints: Breakpoints,
    pub(crate) debuggee: Option<Box<Debuggee>>,
}

impl Session {
    /// A session without a job.
    fn new(alloc: Global) -> Session {
        Session {
            alloc,
            client: None,
            stops_on_entry: true,
            stage: Stage::New,
            breakpoints: Breakpoints::new(alloc),
            debuggee: None,
        }
    }

    /// How the client counts.
    pub(crate) fn client(&self) -> Client {
        match self.client {
            Some(client) => client,
            None => USUAL_CLIENT,
        }
    }

    // ---- what is asked for

    /// Follows a message that was read.
    fn follow_parsed<H: Files + AllocGlobal, W: Write>(
        &mut self,
        rt: &H,
        sender: &mut Sender<W>,
        parsed: &Parsed,
    ) -> io::Result<Flow> {
        match parsed {
            Parsed::Message(message) => self.follow_message(rt, sender, message),
            Parsed::Refused { seq, command, why } => {
                let asked = Asked {
                    seq: *seq,
                    command: command.as_str(),
                };
                refuse_unread(sender, self.alloc, asked, why)?;
                Ok(Flow::GoesOn)
            }
            Parsed::NoRequest(why) => {
                show_unread(sender, self.alloc, why)?;
                Ok(Flow::GoesOn)
            }
        }
    }

    /// Follows a request.
    fn follow_message<H: Files + AllocGlobal, W: Write>(
        &mut self,
        rt: &H,
        sender: &mut Sender<W>,
        message: &Message,
    ) -> io::Result<Flow> {
        let asked = Asked {
            seq: message.seq,
            command: message.request.command(),
        };
        self.follow_request(rt, sender, asked, &message.request)?;
        Ok(match message.request {
            Request::Disconnect => Flow::Ends,
            _ => Flow::GoesOn,
        })
    }

    /// Follows a request.
    fn follow_request<H: Files + AllocGlobal, W: Write>(
        &mut self,
        rt: &H,
        sender: &mut Sender<W>,
        asked: Asked<'_>,
        request: &Request,
    ) -> io::Result<()> {
        match request {
            Request::Launch(launch) => self.launch(rt, sender, asked, launch),
            Request::ConfigurationDone => self.begin(sender, asked),
            Request::Move(way) => self.make(sender, asked, *way),
            Request::Evaluate {
                expression,
                context,
            } => match target_of(expression.as_str(), *context) {
                Some(number) => self.go_to(sender, asked, number),
                None => self.answer(sender, asked, request),
            },
            Request::Pause => self.pause(sender, asked),
            Request::Terminate => self.terminate(sender, asked),
            _ => self.answer(sender, asked, request),
        }
    }

    // ---- what is only answered

    /// Answers a request.
    pub(crate) fn answer<W: Write>(
        &mut self,
        sender: &mut Sender<W>,
        asked: Asked<'_>,
        request: &Request,
    ) -> io::Result<()> {
        let answered = self.body_of(request);
        answer(sender, asked, answered)
    }

    /// The body of the answer to a request.
    fn body_of(&mut self, request: &Request) -> Result<String, Refusal> {
        let mut text = Text::new(self.alloc);
        match self.push_body(&mut text, request) {
            Ok(()) => Ok(text.finish()?),
            Err(refusal) => Err(refusal),
        }
    }

    /// Adds the body of the answer to a request.
    fn push_body(&mut self, text: &mut Text, request: &Request) -> Result<(), Refusal> {
        match request {
            Request::Initialize(client) => self.initialize(text, *client),
            Request::SetBreakpoints(asked) => self.set_lines(text, asked),
            Request::SetFunctionBreakpoints(asked) => self.set_functions(text, asked),
            Request::BreakpointLocations(asked) => self.push_locations(text, asked),
            Request::SetExceptionBreakpoints | Request::Disconnect => Ok(()),
            _ => self.push_view(text, request),
        }
    }

    /// Takes how the client counts, and adds what the adapter can do.
    fn initialize(&mut self, text: &mut Text, client: Client) -> Result<(), Refusal> {
        if self.client.is_some() {
            return Err(Refusal::Again);
        }
        self.client = Some(client);
        text.push_str(CAPABILITIES);
        Ok(())
    }

    /// The job, if one is launched.
    pub(crate) fn job(&self) -> Result<&Debuggee, Refusal> {
        match &self.debuggee {
            Some(debuggee) => Ok(debuggee),
            None => Err(Refusal::NoJob),
        }
    }

    /// Sets breakpoints of a file.
    fn set_lines(&mut self, text: &mut Text, asked: &SourceBreakpoints) -> Result<(), Refusal> {
        let client = self.client();
        let Some(debuggee) = &self.debuggee else {
            return Err(Refusal::NoJob);
        };
        let ground = Ground {
            alloc: self.alloc,
            texts: &debuggee.texts,
            client,
        };
        place_lines(text, &mut self.breakpoints, ground, asked)?;
        Ok(())
    }

    /// Sets breakpoints at functions.
    fn set_functions(
        &mut self,
        text: &mut Text,
        asked: &[FunctionBreakpoint],
    ) -> Result<(), Refusal> {
        let Some(debuggee) = &self.debuggee else {
            return Err(Refusal::NoJob);
        };
        let history = debuggee.history().ok_or(Refusal::NoRun)?;
        let program = history.job().verified().program();
        place_functions(text, self.alloc, &mut self.breakpoints, program, asked)?;
        Ok(())
    }

    /// Adds where breakpoints can be.
    fn push_locations(&self, text: &mut Text, asked: &LineSpan) -> Result<(), Refusal> {
        let ground = Ground {
            alloc: self.alloc,
            texts: &self.job()?.texts,
            client: self.client(),
        };
        push_locations(text, ground, asked);
        Ok(())
    }

    /// Adds what is asked for of the state.
    fn push_view(&self, text: &mut Text, request: &Request) -> Result<(), Refusal> {
        let debuggee = self.job()?;
        let history = debuggee.history().ok_or(Refusal::NoRun)?;
        let shown = shown_of(&debuggee.texts, history, self.client());
        push_view(text, self.alloc, shown, debuggee.end(), request)?;
        Ok(())
    }
}

impl Follower for Session {
    fn is_moving(&self) -> bool {
        matches!(self.stage, Stage::Moving(_))
    }

    fn go_on<W: Write>(&mut self, sender: &mut Sender<W>) -> io::Result<()> {
        self.move_on(sender)
    }

    fn follow<H: Files + AllocGlobal, W: Write>(
        &mut self,
        rt: &H,
        sender: &mut Sender<W>,
        body: &[u8],
    ) -> io::Result<Flow> {
        match message_of(self.alloc, body) {
            Ok(parsed) => {
                let flow = self.follow_parsed(rt, sender, &parsed);
                drop(parsed);
                flow
            }
            Err(AllocError) => {
                output(sender, self.alloc, Category::Errors, OUT_OF_MEMORY)?;
                Ok(Flow::GoesOn)
            }
        }
    }
}

/// Makes a session, and serves a client by it.
pub fn with_session<T, F: FnOnce(&mut Session) -> T>(alloc: Global, serve: F) -> T
    requires { F.IsAlwaysCallable serve }
{
    let mut session = Session::new(alloc);
    let served = serve(&mut session);
    drop(session);
    served
}
