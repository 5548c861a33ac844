//! From a reader to a machine on which the jobs of its batch wait.

ghost use Rattle.std.specs.Prelude.{◌≡◌, ◌≤◌, length, IfOk};
ghost use Rattle.vcode_base.specs.declared.limits.TheConstants.{MOST_JOBS};
ghost use Rattle.job_steps.specs.Standings.{first_standings};
ghost use Rattle.batch_reader.specs.Feeds.{HasFewJobs};
ghost use Rattle.batch_front.specs.Devices.{inner_of, IsFresh};
ghost use Rattle.batch_front.specs.LoadedBatches.{IsLoaded, IsWaiting, loaded_status, loaded_text};
ghost use Rattle.batch_front.specs.Reads.{Reads};
ghost use Rattle.batch_front.specs.Reports.{report_of, ruled_entries, status_of};
ghost use Rattle.batch_front.specs.ReportedJobs.{AreLoaded, BatchFits, EntriesFit};

use crate::device::Device;
use crate::fault::FrontFault;
use crate::options::Options;
use crate::reported_jobs::{ReportedJob, reported_jobs};
use crate::transfer::read_batch;
use batch_reader::{Batch, BatchFault, JobEntries};
use job_machine::Machine;
use std::alloc::{AllocError, Allocator};
use std::io::Read;
use vcode_base::{Rule, Sequence};

/// A batch that was read, over the types of its machine and of its reported jobs.
#[derive(Drop)]
pub(crate) enum Loaded<M, J> {
    /// It is refused as a whole: at which line, and why.
    Refused(u64, BatchFault),
    /// The jobs that may run are on this machine, and these are all its jobs.
    Jobs(M, J),
}

/// A batch that was read.
pub(crate) type LoadedBatch<A> = Loaded<Machine<A>, Sequence<ReportedJob<A>, A>>;

/// The jobs of a batch that may run on a machine of its rule, in which they all wait, and all its jobs.
fn load_jobs<A: Allocator + Copy>(
    alloc: A,
    rule: Rule,
    entries: JobEntries<A>,
    options: &Options,
) -> Result<(Machine<A>, Vec<ReportedJob<A>, A>), AllocError>
    requires few { length entries ≤ MOST_JOBS }
    requires fits { EntriesFit options.now.region entries }
    ensures loaded { IfOk result (λ loaded. AreLoaded loaded.0.tasks loaded.1.items (ruled_entries rule entries)) }
    ensures all_wait { IfOk result (λ loaded. loaded.0.standings ≡ first_standings loaded.0.tasks) }
{
    let mut jobs = Vec::new(alloc);
    let reported = reported_jobs(alloc, entries.into_vec(), &mut jobs)?;
    let machine = Machine::new(alloc, options.region as usize, jobs, rule)?;
    Ok((machine, reported))
}

/// A batch with its jobs that may run on a machine of its rule, in which they all wait.
#[tactic(auto, unfolding(crate::specs::Reports::report_of, crate::specs::Reports::status_of))]
fn load<A: Allocator + Copy>(
    alloc: A,
    batch: Batch<JobEntries<A>>,
    options: &Options,
) -> Result<LoadedBatch<A>, AllocError>
    requires few { HasFewJobs batch }
    requires fits { BatchFits options.now.region batch }
    ensures waiting { IfOk result IsWaiting }
    ensures report { IfOk result (λ loaded. loaded_text loaded ≡ report_of batch) }
    ensures status { IfOk result (λ loaded. loaded_status loaded ≡ status_of batch) }
{
    match batch {
        Batch::Refused(line, fault) => Ok(Loaded::Refused(line, fault)),
        Batch::Jobs(rule, entries) => {
            let (machine, reported) = load_jobs(alloc, rule, entries, options)?;
            Ok(Loaded::Jobs(machine, Sequence::from_vec(reported)))
        }
    }
}

/// Reads a batch from a reader that was not used, and loads its jobs, which all wait.
pub(crate) fn read_jobs<A: Allocator + Copy, R: Read>(
    alloc: A,
    reader: &mut Device<R>,
    options: &Options,
) -> Result<LoadedBatch<A>, FrontFault>
    requires { IsFresh reader.old }
    ensures loaded { IfOk result (IsLoaded options.now.region (R.remaining (inner_of reader.old))) }
    ensures waiting { IfOk result IsWaiting }
    ensures read { Reads R.remaining reader.old reader.new result }
{
    let batch = read_batch(alloc, reader, options.region)?;
    Ok(load(alloc, batch, options)?)
}
