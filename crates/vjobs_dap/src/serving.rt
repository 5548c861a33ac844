//! The messages of a session, one after the other.

use dap_messages::{Body, Broken, Input, Sender};
use dap_session::{Flow, Follower};
use std::alloc::{AllocError, AllocGlobal};
use std::fmt::{self, Display, Formatter};
use std::io::{self, ErrorKind, Read, Write};
use std::rt::Files;
use std::sync::atomic::{AtomicBool, Ordering};
use std::thread::{self, Threads};

/// Why a session ends before its client ends it.
#[derive(Drop)]
pub enum Failure {
    /// Memory was refused.
    Memory,
    /// What came in has no further message.
    Broken(Broken),
    /// Standard input couldn't be read, and why.
    Input(io::Error),
    /// Standard output couldn't be written, and why.
    Output(io::Error),
}

impl Failure {
    /// The failure of a read of standard input.
    fn of_input(error: io::Error) -> Failure {
        if error.kind() == ErrorKind::OutOfMemory {
            return Failure::Memory;
        }
        Failure::Input(error)
    }

    /// The failure of a write to standard output.
    fn of_output(error: io::Error) -> Failure {
        if error.kind() == ErrorKind::OutOfMemory {
            return Failure::Memory;
        }
        Failure::Output(error)
    }
}

impl From<AllocError> for Failure {
    fn from(_: AllocError) -> Failure {
        Failure::Memory
    }
}

impl Display for Failure {
    fn fmt<W: fmt::Write>(&self, f: &mut Formatter<W>) -> fmt::Result {
        match self {
            Failure::Memory => f.write_str("out of memory"),
            Failure::Broken(broken) => write!(f, "standard input: {broken}"),
            Failure::Input(error) => write!(f, "standard input: {error}"),
            Failure::Output(error) => write!(f, "standard output: {error}"),
        }
    }
}

/// Reads the next message, and then sets a flag.
fn read<R: Read>(input: &mut Input<R>, is_read: &AtomicBool) -> io::Result<Body> {
    let body = input.next_body();
    is_read.store(true, Ordering::SeqCst);
    body
}

/// Goes on with a move until it is where it leads to, or until a flag is set.
fn go_on<F: Follower, W: Write>(
    session: &mut F,
    sender: &mut Sender<W>,
    is_read: &AtomicBool,
) -> io::Result<()> {
    for _ in 0..u64::MAX {
        if !session.is_moving() || is_read.load(Ordering::SeqCst) {
            break;
        }
        session.go_on(sender)?;
    }
    Ok(())
}

/// Waits for the next message. If the job moves, it goes on in the meantime.
fn next_body<H, R, W, F>(
    rt: &H,
    input: &mut Input<R>,
    sender: &mut Sender<W>,
    session: &mut F,
) -> Result<Body, Failure>
where
    H: Threads,
    R: Read + Send,
    W: Write,
    F: Follower,
{
    if !session.is_moving() {
        return input.next_body().map_err(Failure::of_input);
    }
    let is_read = AtomicBool::new(false);
    let (body, gone) = thread::join(
        rt,
        || read(input, &is_read),
        || go_on(session, sender, &is_read),
    );
    match gone {
        Ok(()) => body.map_err(Failure::of_input),
        Err(error) => Err(Failure::of_output(error)),
    }
}

/// Follows the next message.
fn follow_next<H, R, W, F>(
    rt: &H,
    input: &mut Input<R>,
    sender: &mut Sender<W>,
    session: &mut F,
) -> Result<Flow, Failure>
where
    H: Files + AllocGlobal + Threads,
    R: Read + Send,
    W: Write,
    F: Follower,
{
    match next_body(rt, input, sender, session)? {
        Body::Json(body) => session
            .follow(rt, sender, &body)
            .map_err(Failure::of_output),
        Body::End => Ok(Flow::Ends),
        Body::Broken(broken) => Err(Failure::Broken(broken)),
    }
}

/// Follows messages until the session ends.
///
/// # Errors
///
/// [`Failure`] if it ends otherwise than by its client.
pub fn serve<H, R, W, F>(
    rt: &H,
    input: &mut Input<R>,
    sender: &mut Sender<W>,
    session: &mut F,
) -> Result<(), Failure>
where
    H: Files + AllocGlobal + Threads,
    R: Read + Send,
    W: Write,
    F: Follower,
{
    for _ in 0..u64::MAX {
        if follow_next(rt, input, sender, session)? == Flow::Ends {
            break;
        }
    }
    Ok(())
}
