//! Runs a batch of VCODE jobs and prints the report on it.
#![tactic(auto)]

use batch_front::{Device, FrontFault, NoGate, Options, Status, exit_status, run};
use command_line::{Line, LineFault, Vjobs, read_line};
use program_words::words_of;
use std::alloc::Global;
use std::fs::File;
use std::io::{Read, Write};
use std::process::ExitCode;
use std::rt::Files;
use std::sync::Wait;
use std::thread::Threads;

/// Reads the command line.
fn line_of(rt: &HostRuntime) -> Result<Line, LineFault> {
    let words = words_of::<Vjobs, HostRuntime>(rt)?;
    read_line(rt.alloc(), &words)
}

/// Runs the batch that a reader gives, with the report on a writer.
fn run_over<H, I, O>(
    rt: &H,
    alloc: Global,
    reader: I,
    writer: O,
    options: &Options,
) -> Result<Status, FrontFault>
where
    H: Threads + Wait + Sync,
    I: Read + Drop,
    O: Write + Drop,
{
    let mut reader = Device::new(reader);
    let mut writer = Device::new(writer);
    run(rt, alloc, &mut reader, &mut writer, options, &NoGate)
}

/// Runs the batch in the file of this name, or, if it is `-`, the batch that a reader gives.
fn run_file<H, I, O>(
    rt: &H,
    alloc: Global,
    reader: I,
    writer: O,
    options: &Options,
    file: &str,
) -> Result<Status, FrontFault>
where
    H: Files + Threads + Wait + Sync,
    I: Read + Drop,
    O: Write + Drop,
{
    if file == "-" {
        return run_over(rt, alloc, reader, writer, options);
    }
    let file = File::open(rt, file).map_err(|_| FrontFault::Read)?;
    run_over(rt, alloc, file, writer, options)
}

fn main(rt: HostRuntime) -> ExitCode {
    let status = match line_of(&rt) {
        Ok(Line::Run(options, file)) => {
            let (reader, writer) = (rt.stdin(), rt.stdout());
            let outcome = run_file(&rt, rt.alloc(), reader, writer, &options, file.as_str());
            if let Err(fault) = &outcome {
                let _ = eprintln!(rt; "{fault}");
            }
            exit_status(&outcome)
        }
        Ok(Line::Help(text)) => match print!(rt; "{text}") {
            Ok(()) => 0,
            Err(_) => {
                let fault = FrontFault::Write;
                let _ = eprintln!(rt; "{fault}");
                exit_status(&Err(fault))
            }
        },
        Err(LineFault::Usage(text)) => {
            let _ = eprint!(rt; "{text}");
            2
        }
        Err(fault) => {
            let _ = eprintln!(rt; "{fault}");
            fault.exit_status()
        }
    };
    ExitCode::from(status)
}
