//! Gives each owner of a batch the report of the owner's job, as `vjobs` prints it for the owner's file alone.
#![tactic(auto)]

mod batch;
mod command;
mod delivery;
mod fault;
mod packed;
mod report;

use batch::{batch_name, check_batch};
use command::{Asked, Target, VjobsSplit};
use delivery::{check_folder, deliver};
use fault::{Stop, stop_at};
use program_words::{Line, line_of, print_fault, print_help};
use report::check_report;
use report_splitter::{Manifest, ManifestFault, read_manifest};
use shown_text::named;
use std::alloc::Global;
use std::process::ExitCode;
use whole_files::{read_regular, read_up_to};

/// The most bytes of a manifest.
const MOST_MANIFEST_BYTES: usize = 16_777_216;

/// The bytes of the manifest at a path.
fn manifest_bytes(rt: &HostRuntime, path: &str) -> Result<Vec<u8>, Stop> {
    match read_regular(rt, path, MOST_MANIFEST_BYTES) {
        Ok(Some(bytes)) => Ok(bytes),
        Ok(None) => Err(Stop::Named(named(rt.alloc(), path, "not a regular file")?)),
        Err(error) => Err(stop_at(rt.alloc(), path, &error)),
    }
}

/// The stop for a file that is no manifest.
fn no_manifest(rt: &HostRuntime, path: &str) -> Stop {
    match named(rt.alloc(), path, "not a manifest") {
        Ok(text) => Stop::NoManifest(text),
        Err(_) => Stop::Memory,
    }
}

/// The bytes of standard input.
fn read_input(rt: &HostRuntime) -> Result<Vec<u8>, Stop> {
    match read_up_to(rt, &mut rt.stdin(), usize::MAX) {
        Ok(bytes) => Ok(bytes),
        Err(error) => Err(stop_at(rt.alloc(), "standard input", &error)),
    }
}

/// Splits the report on standard input by a manifest. Answers whether every owner has a report.
fn split(rt: &HostRuntime, asked: &Asked, manifest: &Manifest<'_, Global>) -> Result<bool, Stop> {
    let report = read_input(rt)?;
    let whole = check_report(rt.alloc(), manifest, &report)?;
    let all = deliver(rt, &asked.target, manifest, &report, whole)?;
    if whole < manifest.jobs.len() {
        let said = eprintln!(rt; "vjobs-split: the report breaks off after {whole} jobs");
        return said.map(|()| false).map_err(|_| Stop::NoErrors);
    }
    Ok(all)
}

/// Does what was asked for. Answers whether every owner has a report.
fn run(rt: &HostRuntime, asked: &Asked) -> Result<bool, Stop> {
    let path = asked.manifest.as_str();
    let bytes = manifest_bytes(rt, path)?;
    let manifest = match read_manifest(rt.alloc(), &bytes) {
        Ok(manifest) => manifest,
        Err(ManifestFault::NoManifest) => return Err(no_manifest(rt, path)),
        Err(ManifestFault::Memory) => return Err(Stop::Memory),
    };
    let Some(name) = batch_name(&manifest.batch) else {
        return Err(no_manifest(rt, path));
    };
    if let Target::Folder(folder) = &asked.target {
        check_folder(rt, folder.as_str())?;
    }
    if asked.with_batch {
        check_batch(rt, path, &manifest.batch, name)?;
    }
    split(rt, asked, &manifest)
}

/// Says why the splitting stopped. Answers the exit status.
fn stopped(rt: &HostRuntime, stop: &Stop) -> u8 {
    let (text, status) = match stop {
        Stop::Memory => ("out of memory", 3),
        Stop::NoManifest(text) => (text.as_str(), 2),
        Stop::Other(text) => (text.as_str(), 1),
        Stop::Named(text) => (text.as_str(), 3),
        Stop::NoErrors => return 3,
    };
    let _ = eprintln!(rt; "vjobs-split: {text}");
    status
}

fn main(rt: HostRuntime) -> ExitCode {
    let status = match line_of::<VjobsSplit, HostRuntime>(&rt) {
        Ok(Line::Run(asked)) => match run(&rt, &asked) {
            Ok(true) => 0,
            Ok(false) => 1,
            Err(stop) => stopped(&rt, &stop),
        },
        Ok(Line::Help(text)) => print_help(&rt, "vjobs-split", text.as_str()),
        Err(fault) => print_fault(&rt, "vjobs-split", &fault),
    };
    ExitCode::from(status)
}
