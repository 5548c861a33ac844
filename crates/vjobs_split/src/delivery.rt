//! Reports that go to the owners of their jobs.

use crate::batch::folder_of;
use crate::command::Target;
use crate::fault::{Stop, error_text, stop_at};
use crate::packed::PackedFiles;
use report_splitter::{CutFault, Manifest, PackedJob, cut_job};
use shown_text::{named, shown};
use std::alloc::{AllocError, Global};
use std::fmt::Write;
use std::io::ErrorKind;
use std::{fs, str};
use whole_files::{sync_folder, write_whole};

/// What became of a report: it is written, or why it isn't, as it may be printed.
#[derive(Drop)]
enum Fate {
    Written,
    NotWritten(String),
}

/// The delivery of the reports of a batch.
#[derive(Drop)]
pub struct Delivery<'a> {
    target: &'a Target,
    packed: PackedFiles,
    table: String,
    all: bool,
}

/// Refuses a folder that is there already.
pub fn check_folder(rt: &HostRuntime, folder: &str) -> Result<(), Stop> {
    match fs::symlink_metadata(rt, folder) {
        Ok(_) => {
            let text = named(
                rt.alloc(),
                folder,
                "there is one already, and reports take a new folder",
            )?;
            Err(Stop::Named(text))
        }
        Err(error) if error.kind() == ErrorKind::NotFound => Ok(()),
        Err(error) => Err(stop_at(rt.alloc(), folder, &error)),
    }
}

/// Writes a report.
fn write_report(
    rt: &HostRuntime,
    folder: &str,
    path: &str,
    report: &[u8],
) -> Result<Fate, AllocError> {
    match write_whole(rt, folder, path, report) {
        Ok(()) => Ok(Fate::Written),
        Err(error) => Ok(Fate::NotWritten(error_text(rt.alloc(), path, &error)?)),
    }
}

impl<'a> Delivery<'a> {
    /// No report yet, for the jobs of a manifest.
    fn new(
        rt: &HostRuntime,
        target: &'a Target,
        jobs: &[PackedJob<'_>],
    ) -> Result<Delivery<'a>, AllocError> {
        Ok(Delivery {
            target,
            packed: PackedFiles::of(rt, jobs)?,
            table: String::from_str(rt.alloc(), "file\treport\n")?,
            all: true,
        })
    }

    /// Writes the report of a job beside its file.
    fn write_beside(
        &self,
        rt: &HostRuntime,
        job: &PackedJob<'_>,
        report: &[u8],
    ) -> Result<Fate, AllocError> {
        let Ok(file) = str::from_utf8(job.file()) else {
            let name = shown(rt.alloc(), job.file())?;
            return Ok(Fate::NotWritten(format!(in rt.alloc(); "{name}: not UTF-8")?));
        };
        let path = format!(in rt.alloc(); "{file}.report")?;
        match self.packed.obstacle(rt, path.as_str()) {
            Some(what) => Ok(Fate::NotWritten(named(rt.alloc(), path.as_str(), what)?)),
            None => write_report(rt, folder_of(file), path.as_str(), report),
        }
    }

    /// Writes the report of the job at this place.
    fn write(
        &self,
        rt: &HostRuntime,
        place: u64,
        job: &PackedJob<'_>,
        report: &[u8],
    ) -> Result<Fate, AllocError> {
        match self.target {
            Target::Beside => self.write_beside(rt, job, report),
            Target::Folder(folder) => {
                let folder = folder.as_str();
                let path = format!(in rt.alloc(); "{folder}/{place}.report")?;
                write_report(rt, folder, path.as_str(), report)
            }
        }
    }

    /// Puts a row of the table: a job's file, and its report if it has one.
    fn put_row(
        &mut self,
        alloc: Global,
        place: u64,
        job: &PackedJob<'_>,
        is_written: bool,
    ) -> Result<(), AllocError> {
        let file = shown(alloc, job.file())?;
        if is_written {
            write!(self.table, "{file}\t{place}.report\n")
        } else {
            write!(self.table, "{file}\t\n")
        }
    }

    /// Gives the owner of the job at this place its report. If that fails, says why.
    fn give(
        &mut self,
        rt: &HostRuntime,
        place: u64,
        job: &PackedJob<'_>,
        report: &[u8],
    ) -> Result<(), Stop> {
        match self.write(rt, place, job, report)? {
            Fate::Written => Ok(self.put_row(rt.alloc(), place, job, true)?),
            Fate::NotWritten(text) => {
                self.all = false;
                self.put_row(rt.alloc(), place, job, false)?;
                eprintln!(rt; "vjobs-split: {text}").map_err(|_| Stop::NoErrors)
            }
        }
    }

    /// Gives the first `whole` jobs of a manifest their reports.
    fn give_whole(
        &mut self,
        rt: &HostRuntime,
        manifest: &Manifest<'_, Global>,
        report: &[u8],
        whole: usize,
    ) -> Result<(), Stop> {
        let jobs = manifest.jobs.len() as u64;
        let mut rest = report;
        for (index, job) in manifest.jobs.iter().enumerate() {
            let place = (index as u64).saturating_add(1);
            if index >= whole {
                self.put_row(rt.alloc(), place, job, false)?;
                continue;
            }
            match cut_job(rt.alloc(), rest, place, jobs, job.first_line()) {
                Ok(cut) => {
                    self.give(rt, place, job, &cut.report)?;
                    rest = cut.rest;
                }
                Err(CutFault::Memory) => return Err(Stop::Memory),
                // It was cut before, when the report was checked.
                Err(_) => return Ok(()),
            }
        }
        Ok(())
    }

    /// Writes the list of the reports, if they are in a folder.
    fn write_table(&self, rt: &HostRuntime) -> Result<(), Stop> {
        let Target::Folder(folder) = self.target else {
            return Ok(());
        };
        let folder = folder.as_str();
        let path = format!(in rt.alloc(); "{folder}/table.tsv")?;
        match write_whole(rt, folder, path.as_str(), self.table.as_bytes()) {
            Ok(()) => {
                sync_folder(rt, folder);
                Ok(())
            }
            Err(error) => Err(stop_at(rt.alloc(), path.as_str(), &error)),
        }
    }
}

/// Makes the folder of the reports, which mustn't be there.
fn make_folder(rt: &HostRuntime, target: &Target) -> Result<(), Stop> {
    let Target::Folder(folder) = target else {
        return Ok(());
    };
    match fs::create_dir(rt, folder.as_str()) {
        Ok(()) => Ok(()),
        Err(error) => Err(stop_at(rt.alloc(), folder.as_str(), &error)),
    }
}

/// Gives the owners of the first `whole` jobs of a manifest their reports, out of a report that was checked. Answers
/// whether each of them has it; standard error has the reasons of the others.
pub fn deliver(
    rt: &HostRuntime,
    target: &Target,
    manifest: &Manifest<'_, Global>,
    report: &[u8],
    whole: usize,
) -> Result<bool, Stop> {
    make_folder(rt, target)?;
    let mut delivery = Delivery::new(rt, target, &manifest.jobs)?;
    delivery.give_whole(rt, manifest, report, whole)?;
    delivery.write_table(rt)?;
    Ok(delivery.all)
}
