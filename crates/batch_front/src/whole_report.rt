//! From a batch whose jobs have run out to the report's bytes.

ghost use Rattle.std.specs.Prelude.{◌≡◌, ◌≤◌, length, IfOk};
ghost use Rattle.batch_front.specs.declared.device.TheConstants.{MOST_INTERRUPTIONS};
ghost use Rattle.batch_front.specs.Devices.{inner_of, IsFresh};
ghost use Rattle.batch_front.specs.LoadedBatches.{IsRunOut, loaded_status, loaded_text};
ghost use Rattle.batch_front.specs.Pages.{IsWritten, Puts};
ghost use Rattle.batch_front.specs.ReportedJobs.{AreAmong, HasRunOut, report_text, reported_status};

use crate::device::{Device, MOST_INTERRUPTIONS};
use crate::fault::FrontFault;
use crate::load::{Loaded, LoadedBatch};
use crate::page::{Page, finish};
use crate::report::{put_end, put_fault};
use crate::reported_jobs::{ReportedJob, all_returned, put_reported_jobs};
use crate::status::Status;
use job_machine::Machine;
use std::alloc::Allocator;
use std::io::Write;

/// Puts the report on jobs that have run out.
fn put_report<A: Allocator, W: Write>(
    page: &mut Page,
    writer: &mut Device<W>,
    machine: &Machine<A>,
    reported: &[ReportedJob<A>],
)
    requires out { HasRunOut machine.now }
    requires there { AreAmong machine.now.tasks reported.now }
    requires fewer { length machine.now.tasks ≤ length reported.now }
    ensures { Puts W.contents page.old writer.old page.new writer.new (report_text machine.now.tasks reported.now) }
{
    put_reported_jobs(page, writer, machine, reported);
    let refused = reported.len() - machine.jobs();
    put_end(page, writer, reported.len() as u64, refused as u64);
}

/// Puts the report of a batch.
fn put_batch<A: Allocator, W: Write>(
    page: &mut Page,
    writer: &mut Device<W>,
    batch: &LoadedBatch<A>,
)
    requires { IsRunOut batch.now }
    ensures { Puts W.contents page.old writer.old page.new writer.new (loaded_text batch.now) }
{
    match batch {
        Loaded::Refused(line, fault) => put_fault(page, writer, b"BATCH ", *line, fault.text()),
        Loaded::Jobs(machine, reported) => put_report(page, writer, machine, reported.as_slice()),
    }
}

/// Writes the report of a batch and nothing else, flushes, and gives the status. `spent` interruptions are spent
/// already.
///
/// # Errors
///
/// [`FrontFault::Write`] if the writer is at fault. It has the first bytes of the report then, and all of them if the
/// fault was at the flush.
pub(crate) fn write_report<A: Allocator, W: Write>(
    writer: &mut Device<W>,
    batch: &LoadedBatch<A>,
    spent: u64,
) -> Result<Status, FrontFault>
    requires out { IsRunOut batch.now }
    requires fresh { IsFresh writer.old }
    requires spent { spent ≤ MOST_INTERRUPTIONS }
    ensures status { IfOk result (λ status. status ≡ loaded_status batch.now) }
    ensures written { IsWritten W.contents spent (W.contents (inner_of writer.old)) (loaded_text batch.now)
        writer.new result }
{
    let mut page = Page::new(spent);
    put_batch(&mut page, writer, batch);
    finish(&mut page, writer)?;
    Ok(status(batch))
}

/// The status of a batch.
fn status<A: Allocator>(batch: &LoadedBatch<A>) -> Status
    requires { IsRunOut batch.now }
    ensures { result ≡ loaded_status batch.now }
{
    match batch {
        Loaded::Refused(..) => Status::BatchRefused,
        Loaded::Jobs(machine, reported) => jobs_status(machine, reported.as_slice()),
    }
}

/// The status of jobs that have run out.
fn jobs_status<A: Allocator>(machine: &Machine<A>, reported: &[ReportedJob<A>]) -> Status
    requires out { HasRunOut machine.now }
    ensures { result ≡ reported_status machine.now.tasks reported.now }
{
    if all_returned(machine, reported) {
        Status::AllReturned
    } else {
        Status::SomeNot
    }
}
