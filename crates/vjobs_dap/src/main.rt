//! A debug adapter: it lets an editor go forward and back over the run of a job.
#![tactic(auto)]

mod command;
mod serving;

use command::{NAME, VjobsDap};
use dap_messages::{Input, Sender};
use dap_session::with_session;
use program_words::{Line, line_of, print_fault, print_help};
use serving::{Failure, serve};
use std::alloc::AllocGlobal;
use std::io::{Read, Write};
use std::process::ExitCode;
use std::rt::Files;
use std::thread::Threads;

/// Serves a client that writes what a reader gives, and reads what a writer takes.
fn serve_client<H, R, W>(rt: &H, reader: R, writer: W) -> Result<(), Failure>
where
    H: Files + AllocGlobal + Threads,
    R: Read + Drop + Send,
    W: Write + Drop,
{
    let mut input = Input::new(rt.alloc(), reader)?;
    let mut sender = Sender::new(rt.alloc(), writer);
    with_session(
        rt.alloc(),
        |session| serve(rt, &mut input, &mut sender, session),
    )
}

/// The exit status of a session that was served so. Prints why, if it ended otherwise than by its client.
fn status_of(rt: &HostRuntime, served: &Result<(), Failure>) -> u8 {
    match served {
        Ok(()) => 0,
        Err(failure) => {
            let _ = eprintln!(rt; "{NAME}: {failure}");
            1
        }
    }
}

fn main(rt: HostRuntime) -> ExitCode {
    let status = match line_of::<VjobsDap, HostRuntime>(&rt) {
        Ok(Line::Run(())) => status_of(&rt, &serve_client(&rt, rt.stdin(), rt.stdout())),
        Ok(Line::Help(text)) => print_help(&rt, NAME, text.as_str()),
        Err(fault) => print_fault(&rt, NAME, &fault),
    };
    ExitCode::from(status)
}
