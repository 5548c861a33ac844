//! Packs job files into batches, each with a manifest that says whose job is where.
#![tactic(auto)]

mod command;
mod entries;
mod fault;
mod folder;
mod packing;
mod second;

use command::{Asked, VjobsPack};
use fault::{Stop, stop_at, stop_by};
use folder::batch_in;
use packing::Packing;
use program_words::{Line, line_of, print_fault, print_help};
use std::process::ExitCode;
use std::str;
use whole_files::{read_regular, read_up_to};

/// The most bytes of a list of names.
const MOST_LIST_BYTES: usize = 16_777_216;

/// The bytes of a list of names; `-` is standard input.
fn read_list(rt: &HostRuntime, list: &str) -> Result<Vec<u8>, Stop> {
    let read = if list == "-" {
        read_up_to(rt, &mut rt.stdin(), MOST_LIST_BYTES).map(Some)
    } else {
        read_regular(rt, list, MOST_LIST_BYTES)
    };
    match read {
        Ok(Some(bytes)) if bytes.len() <= MOST_LIST_BYTES => Ok(bytes),
        Ok(Some(_)) => Err(stop_by(rt.alloc(), list, "a list of more than 16777216 bytes")),
        Ok(None) => Err(stop_by(rt.alloc(), list, "not a regular file")),
        Err(error) => Err(stop_at(rt.alloc(), list, &error)),
    }
}

/// Packs the file of the name with this number in a list.
fn pack_named(
    rt: &HostRuntime,
    packing: &mut Packing,
    number: usize,
    name: &[u8],
) -> Result<(), Stop> {
    match str::from_utf8(name) {
        Ok(name) => packing.pack(rt, name),
        Err(_) => {
            let text = format!(in rt.alloc(); "name {number} of the list is not UTF-8")?;
            packing.refuse(rt, name, 1, text.as_str())
        }
    }
}

/// Packs the files of a list, whose names have a NUL after each or between them.
fn pack_list(rt: &HostRuntime, packing: &mut Packing, list: &str) -> Result<(), Stop> {
    let bytes = read_list(rt, list)?;
    let names = bytes.split(|byte| *byte == 0);
    for (before, name) in names.filter(|name| !name.is_empty()).enumerate() {
        pack_named(rt, packing, before.saturating_add(1), name)?;
    }
    Ok(())
}

/// Refuses a folder that has a batch already.
fn check_folder(rt: &HostRuntime, out: &str) -> Result<(), Stop> {
    match batch_in(rt, out) {
        Ok(None) => Ok(()),
        Ok(Some(name)) => {
            let path = format!(in rt.alloc(); "{out}/{name}")?;
            Err(stop_by(rt.alloc(), path.as_str(), "the folder has a batch already"))
        }
        Err(error) => Err(stop_at(rt.alloc(), out, &error)),
    }
}

/// Packs all files that were asked for. Answers whether every one was packed.
fn pack_all(rt: &HostRuntime, asked: &Asked) -> Result<bool, Stop> {
    check_folder(rt, asked.out.as_str())?;
    let mut packing = Packing::new(asked.out.as_str(), asked.region, asked.bounds);
    for name in &asked.files {
        packing.pack(rt, name.as_str())?;
    }
    if let Some(list) = &asked.list {
        pack_list(rt, &mut packing, list.as_str())?;
    }
    packing.finish(rt)
}

/// Says why the packing stopped. Answers the exit status.
fn stopped(rt: &HostRuntime, stop: &Stop) -> u8 {
    match stop {
        Stop::Memory => {
            let _ = eprintln!(rt; "vjobs-pack: out of memory");
        }
        Stop::Named(text) => {
            let _ = eprintln!(rt; "vjobs-pack: {text}");
        }
        Stop::NoErrors => {}
    }
    3
}

fn main(rt: HostRuntime) -> ExitCode {
    let status = match line_of::<VjobsPack, HostRuntime>(&rt) {
        Ok(Line::Run(asked)) => match pack_all(&rt, &asked) {
            Ok(true) => 0,
            Ok(false) => 1,
            Err(stop) => stopped(&rt, &stop),
        },
        Ok(Line::Help(text)) => print_help(&rt, "vjobs-pack", text.as_str()),
        Err(fault) => print_fault(&rt, "vjobs-pack", &fault),
    };
    ExitCode::from(status)
}
