//! Answers and events, as they are sent.

use crate::refusal::Refusal;
use dap_messages::{Sender, Text, push_json};
use std::alloc::{AllocError, Global};
use std::io::{self, ErrorKind, Write};

/// The text that memory was refused for a message.
pub(crate) const OUT_OF_MEMORY: &str = "out of memory\n";

/// A request that is to be answered: its number and its name.
#[derive(Clone, Copy)]
pub(crate) struct Asked<'a> {
    pub(crate) seq: u64,
    pub(crate) command: &'a str,
}

/// To which stream of a job a text belongs that is shown.
#[derive(Clone, Copy)]
pub(crate) enum Category {
    /// What is said of the job.
    Console,
    /// What is wrong.
    Errors,
}

/// Answers that the request of this number and name couldn't be read, and why.
pub(crate) fn refuse_unread<W: Write>(
    sender: &mut Sender<W>,
    alloc: Global,
    asked: Asked<'_>,
    fault: &dap_messages::Refusal,
) -> io::Result<()> {
    match format!(in alloc; "{fault}") {
        Ok(why) => sender.refuse(asked.seq, asked.command, why.as_str()),
        Err(AllocError) => refuse(sender, asked, Refusal::Memory),
    }
}

/// Has a client show what is wrong with a message that is no request.
pub(crate) fn show_unread<W: Write>(
    sender: &mut Sender<W>,
    alloc: Global,
    fault: &dap_messages::Refusal,
) -> io::Result<()> {
    match format!(in alloc; "{fault}\n") {
        Ok(why) => output(sender, alloc, Category::Errors, why.as_str()),
        Err(AllocError) => output(sender, alloc, Category::Errors, OUT_OF_MEMORY),
    }
}

/// Answers that a request isn't followed, and why.
pub(crate) fn refuse<W: Write>(
    sender: &mut Sender<W>,
    asked: Asked<'_>,
    refusal: Refusal,
) -> io::Result<()> {
    sender.refuse(asked.seq, asked.command, refusal.why())
}

/// Answers a request with a body, which may be empty. If memory is refused for the answer, the request is refused.
pub(crate) fn respond<W: Write>(
    sender: &mut Sender<W>,
    asked: Asked<'_>,
    body: &str,
) -> io::Result<()> {
    match sender.respond(asked.seq, asked.command, body) {
        Err(error) if error.kind() == ErrorKind::OutOfMemory => {
            refuse(sender, asked, Refusal::Memory)
        }
        sent => sent,
    }
}

/// Answers a request with a body, or that it isn't followed.
pub(crate) fn answer<W: Write>(
    sender: &mut Sender<W>,
    asked: Asked<'_>,
    answered: Result<String, Refusal>,
) -> io::Result<()> {
    match answered {
        Ok(body) => respond(sender, asked, body.as_str()),
        Err(refusal) => refuse(sender, asked, refusal),
    }
}

/// Sends an event with a body.
pub(crate) fn event<W: Write>(sender: &mut Sender<W>, name: &str, body: Text) -> io::Result<()> {
    let body = body.finish()?;
    sender.event(name, body.as_str())
}

/// Sends an event that has a client show a text.
pub(crate) fn output<W: Write>(
    sender: &mut Sender<W>,
    alloc: Global,
    category: Category,
    shown: &str,
) -> io::Result<()> {
    let mut body = Text::new(alloc);
    body.push_str(match category {
        Category::Console => "{\"category\":\"console\",\"output\":",
        Category::Errors => "{\"category\":\"stderr\",\"output\":",
    });
    push_json(&mut body, shown);
    body.push('}');
    event(sender, "output", body)
}
