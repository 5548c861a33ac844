//! What is sent: responses and events.

use crate::json::{Text, push_json};
use std::alloc::Global;
use std::io::{self, Write};

/// Numbers the messages that are sent, from 1 on, and frames them.
#[derive(Drop)]
pub struct Sender<W: Write> {
    alloc: Global,
    writer: W,
    sent: u64,
}

/// The beginning of a message of this number and type.
fn begin(alloc: Global, seq: u64, kind: &str) -> Text {
    let mut text = Text::new(alloc);
    text.push_str("{\"seq\":");
    text.push_number(seq);
    text.push_str(",\"type\":\"");
    text.push_str(kind);
    text.push('"');
    text
}

/// Adds what a response to the request of this number and name says besides its body.
fn push_answer(text: &mut Text, request: u64, command: &str, success: bool) {
    text.push_str(",\"request_seq\":");
    text.push_number(request);
    text.push_str(",\"success\":");
    text.push_str(if success { "true" } else { "false" });
    text.push_str(",\"command\":");
    push_json(text, command);
}

/// Adds a body, if there is one.
fn push_body(text: &mut Text, body: &str) {
    if !body.is_empty() {
        text.push_str(",\"body\":");
        text.push_str(body);
    }
}

/// A message with its header.
fn framed(alloc: Global, content: &str) -> Text {
    let mut text = Text::new(alloc);
    text.push_str("Content-Length: ");
    text.push_number(content.len() as u64);
    text.push_str("\r\n\r\n");
    text.push_str(content);
    text
}

impl<W: Write> Sender<W> {
    /// A sender that has sent nothing.
    pub fn new(alloc: Global, writer: W) -> Sender<W> {
        Sender {
            alloc,
            writer,
            sent: 0,
        }
    }

    /// The number of the next message.
    fn next_seq(&self) -> u64 {
        self.sent.saturating_add(1)
    }

    /// Writes a text that is a message with its header.
    fn write(&mut self, message: Text) -> io::Result<()> {
        let message = message.finish()?;
        self.sent = self.next_seq();
        self.writer.write_all(message.as_bytes())?;
        self.writer.flush()
    }

    /// Ends and sends a message.
    fn send(&mut self, mut text: Text) -> io::Result<()> {
        text.push('}');
        let content = text.finish()?;
        let message = framed(self.alloc, content.as_str());
        drop(content);
        self.write(message)
    }

    /// Answers the request of this number and name. The body is a text of JSON, or empty if there is none.
    ///
    /// # Errors
    ///
    /// The error of a write, or one of the kind [`std::io::ErrorKind::OutOfMemory`] if memory was refused; then nothing
    /// was sent.
    pub fn respond(&mut self, seq: u64, command: &str, body: &str) -> io::Result<()> {
        let mut text = begin(self.alloc, self.next_seq(), "response");
        push_answer(&mut text, seq, command, true);
        push_body(&mut text, body);
        self.send(text)
    }

    /// Answers the request of this number and name that it isn't followed, and why.
    ///
    /// # Errors
    ///
    /// As [`Sender::respond`].
    pub fn refuse(&mut self, seq: u64, command: &str, why: &str) -> io::Result<()> {
        let mut text = begin(self.alloc, self.next_seq(), "response");
        push_answer(&mut text, seq, command, false);
        text.push_str(",\"message\":");
        push_json(&mut text, why);
        self.send(text)
    }

    /// Sends the event of this name. The body is a text of JSON, or empty if there is none.
    ///
    /// # Errors
    ///
    /// As [`Sender::respond`].
    pub fn event(&mut self, name: &str, body: &str) -> io::Result<()> {
        let mut text = begin(self.alloc, self.next_seq(), "event");
        text.push_str(",\"event\":");
        push_json(&mut text, name);
        push_body(&mut text, body);
        self.send(text)
    }
}
