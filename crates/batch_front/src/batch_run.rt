//! A whole run, from a batch's bytes to its report's.

ghost use Rattle.std.specs.Prelude.{◌≡◌, IsErrOf};
ghost use Rattle.batch_front.specs.Devices.{IsFresh};
ghost use Rattle.batch_front.specs.Runs.{Runs};

use crate::device::{Device, MOST_INTERRUPTIONS};
use crate::fault::FrontFault;
use crate::load::read_jobs;
use crate::machine_run::{run_on_caller, run_on_threads};
use crate::options::Options;
use crate::status::Status;
use crate::whole_report::write_report;
use std::alloc::Allocator;
use std::io::{Read, Write};
use std::sync::Wait;
use std::thread::Threads;
use step_scheduler::Gate;
use vcode_base::limits::MOST_BATCH_BYTES;

/// Reads a batch, runs its jobs over one region on the calling thread, and then writes the report and nothing else.
///
/// Of the reader no more is read than one byte more than a batch may have, [`MOST_BATCH_BYTES`]. Neither device was
/// used before. The jobs take the turns of the schedule first, if there is one, and are run out then; the report is the
/// same with any schedule or none. All outcomes are known before the first byte of the report is written, and the
/// report takes no memory as a whole. An interruption is no fault by itself: the call is made again, but for the
/// interruption that passes [`MOST_INTERRUPTIONS`] in this run.
///
/// # Errors
///
/// [`FrontFault::Read`] and [`FrontFault::Memory`] come before the first write, and how much was read until then is not
/// said. At [`FrontFault::Write`] the writer has the first bytes of the report, perhaps none and perhaps all of them.
/// It has all of them if the fault was at the flush, which [`Device::flushing`] reports.
pub fn run_alone<A: Allocator + Copy, R: Read, W: Write>(
    alloc: A,
    reader: &mut Device<R>,
    writer: &mut Device<W>,
    options: &Options,
) -> Result<Status, FrontFault>
    requires reader { IsFresh reader.old }
    requires writer { IsFresh writer.old }
    ensures runs { Runs R.remaining W.contents options.now.region reader.old reader.new writer.old writer.new result }
    ensures never_mixed { IsErrOf result FrontFault.Mixed → ⊥ }
{
    let loaded = read_jobs(alloc, reader, options)?;
    let ran = run_on_caller(alloc, loaded, options)?;
    write_report(writer, &ran, reader.interrupts())
}

/// The same as [`run_alone`] if a schedule is given. Else the jobs are run by at most as many worker threads as
/// `options` says. Each calls the gate between the begin and the finish of each of its steps, and holds no lock then.
/// What the workers leave is run out on the calling thread, which calls no gate. The report is the same for any number
/// of workers.
///
/// The devices are used as [`run_alone`] uses them.
///
/// # Errors
///
/// As of [`run_alone`]; [`FrontFault::Memory`] is also answered if memory was refused to the calling thread for what
/// the workers left. [`FrontFault::Mixed`], of a machine that comes back with other jobs than the batch has, never
/// comes.
pub fn run<A, H, I, O, G>(
    rt: &H,
    alloc: A,
    reader: &mut Device<I>,
    writer: &mut Device<O>,
    options: &Options,
    gate: &G,
) -> Result<Status, FrontFault>
where
    A: Allocator + Copy + Send + Sync,
    H: Threads + Wait + Sync,
    I: Read,
    O: Write,
    G: Gate + Sync,
    requires reader { IsFresh reader.old }
    requires writer { IsFresh writer.old }
    ensures runs { Runs I.remaining O.contents options.now.region reader.old reader.new writer.old writer.new result }
    ensures never_mixed { IsErrOf result FrontFault.Mixed → ⊥ }
{
    if options.schedule.is_some() {
        return run_alone(alloc, reader, writer, options);
    }
    let loaded = read_jobs(alloc, reader, options)?;
    let ran = run_on_threads(rt, alloc, loaded, options, gate)?;
    write_report(writer, &ran, reader.interrupts())
}
