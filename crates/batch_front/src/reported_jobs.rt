//! The jobs of a batch, those that may run by their numbers on a machine.

ghost use Rattle.std.specs.Prelude.{◌≡◌, ◌++◌, [], IfOk, OnOk};
ghost use Rattle.job_steps.specs.Standings.{of_job};
ghost use Rattle.batch_front.specs.Pages.{Puts};
ghost use Rattle.batch_front.specs.ReportedJobs.{AreAmong, AreReportedOf, HasRunOut, IsAmong, IsFateOn};
ghost use Rattle.batch_front.specs.ReportedJobs.{IsReportedOf, IsTask};
ghost use Rattle.batch_front.specs.ReportedJobs.{fate_tasks, fate_text_on, has_returned_on, have_returned_on};
ghost use Rattle.batch_front.specs.ReportedJobs.{reported_job_text, reported_jobs_text, tasks_of, told_text};
ghost use Rattle.batch_front.specs.Turns.{number_of};

use crate::device::Device;
use crate::page::Page;
use crate::report::{put_fault, put_job, put_outcome, put_used};
use batch_reader::{Entry, Fate, JobEntry};
use job_machine::{Job, JobName, Machine};
use std::alloc::{AllocError, Allocator};
use std::io::Write;
use vcode_base::Outcome;

/// A job's name, and its number on a machine if it may run.
pub(crate) type ReportedJob<A> = Entry<JobName<A>, Fate<usize>>;

/// Adds a job that may run after the others, and gives its number.
#[tactic(auto, using(crate::proofs::ReportedJobLemmas::numbers))]
fn numbered_fate<A: Allocator>(
    fate: Fate<Job<A>>,
    jobs: &mut Vec<Job<A>, A>,
) -> Result<Fate<usize>, AllocError>
    ensures number { IfOk result (λ numbered. IsFateOn jobs.new.items numbered fate) }
    ensures jobs { OnOk result (jobs.new.items ≡ jobs.old.items ++ fate_tasks fate) }
{
    match fate {
        Fate::Ready(job) => {
            jobs.push(job)?;
            Ok(Fate::Ready(jobs.len()))
        }
        Fate::Refused(line, fault) => Ok(Fate::Refused(line, fault)),
    }
}

/// Adds the job of an entry after the others, if it may run.
fn reported_job<A: Allocator>(
    entry: JobEntry<A>,
    jobs: &mut Vec<Job<A>, A>,
) -> Result<ReportedJob<A>, AllocError>
    ensures reported_job { IfOk result (λ reported_job. IsReportedOf jobs.new.items reported_job entry) }
    ensures jobs { OnOk result (jobs.new.items ≡ jobs.old.items ++ fate_tasks entry.fate) }
{
    let Entry { name, fate } = entry;
    let fate = numbered_fate(fate, jobs)?;
    Ok(Entry { name, fate })
}

/// Puts the jobs of entries that may run into a list that is empty, and gives their numbers there.
#[tactic(auto, using(crate::proofs::ReportedJobLemmas::numbers))]
pub(crate) fn reported_jobs<A: Allocator>(
    alloc: A,
    entries: Vec<JobEntry<A>, A>,
    jobs: &mut Vec<Job<A>, A>,
) -> Result<Vec<ReportedJob<A>, A>, AllocError>
    requires { jobs.old.items ≡ [] }
    ensures reported { IfOk result (λ reported. AreReportedOf jobs.new.items reported.items entries.items) }
    ensures jobs { OnOk result (jobs.new.items ≡ tasks_of entries.items) }
{
    let mut reported = Vec::new(alloc);
    for entry in entries {
        let reported_job = reported_job(entry, jobs)?;
        reported.push(reported_job)?;
    }
    Ok(reported)
}

/// The number on a machine of the job at this place in the batch, counted from 1, if there is one that may run.
pub(crate) fn number_of<A: Allocator>(reported: &[ReportedJob<A>], place: usize) -> Option<usize>
    ensures { result ≡ number_of reported.now place }
{
    let reported_job = reported.get(place.checked_sub(1)?)?;
    match &reported_job.fate {
        Fate::Ready(number) => Some(*number),
        Fate::Refused(..) => None,
    }
}

/// Puts how a job on a machine ended and what it used.
#[tactic(auto, using(crate::proofs::RunLemmas::told_of_a_job))]
fn put_told<A: Allocator, W: Write>(
    page: &mut Page,
    writer: &mut Device<W>,
    machine: &Machine<A>,
    job: usize,
)
    requires out { HasRunOut machine.now }
    requires there { IsTask (of_job job machine.now.tasks) }
    ensures { Puts W.contents page.old writer.old page.new writer.new (told_text (of_job job machine.now.tasks)) }
{
    let outcome = machine.outcome(job).unwrap();
    put_outcome(page, writer, outcome);
    let instructions = machine.executed(job).unwrap();
    let words = machine.peak(job).unwrap();
    put_used(page, writer, instructions, words);
}

/// Puts what became of a job, after what begins its lines.
fn put_fate<A: Allocator, W: Write>(
    page: &mut Page,
    writer: &mut Device<W>,
    machine: &Machine<A>,
    fate: &Fate<usize>,
)
    requires out { HasRunOut machine.now }
    requires there { IsAmong machine.now.tasks fate.now }
    ensures { Puts W.contents page.old writer.old page.new writer.new (fate_text_on machine.now.tasks fate.now) }
{
    match fate {
        Fate::Ready(job) => put_told(page, writer, machine, *job),
        Fate::Refused(line, fault) => put_fault(page, writer, b"REFUSED ", *line, fault.text()),
    }
}

/// Puts the lines of the job of this number.
fn put_reported_job<A: Allocator, W: Write>(
    page: &mut Page,
    writer: &mut Device<W>,
    machine: &Machine<A>,
    number: u64,
    reported_job: &ReportedJob<A>,
)
    requires out { HasRunOut machine.now }
    requires there { IsAmong machine.now.tasks reported_job.now.fate }
    ensures { Puts W.contents page.old writer.old page.new writer.new
        (reported_job_text machine.now.tasks number reported_job.now) }
{
    put_job(page, writer, number, reported_job.name.as_slice());
    put_fate(page, writer, machine, &reported_job.fate);
}

/// Puts the lines of the jobs of a batch, in order.
pub(crate) fn put_reported_jobs<A: Allocator, W: Write>(
    page: &mut Page,
    writer: &mut Device<W>,
    machine: &Machine<A>,
    reported: &[ReportedJob<A>],
)
    requires out { HasRunOut machine.now }
    requires there { AreAmong machine.now.tasks reported.now }
    ensures { Puts W.contents page.old writer.old page.new writer.new
        (reported_jobs_text machine.now.tasks 1 reported.now) }
{
    for (place, reported_job) in reported.iter().enumerate() {
        put_reported_job(page, writer, machine, place as u64 + 1, reported_job);
    }
}

/// Whether a job returned.
#[tactic(auto, using(crate::proofs::RunLemmas::outcome_told))]
fn has_returned<A: Allocator>(machine: &Machine<A>, fate: &Fate<usize>) -> bool
    requires out { HasRunOut machine.now }
    ensures { result ≡ has_returned_on machine.now.tasks fate.now }
{
    match fate {
        Fate::Ready(job) => matches!(machine.outcome(*job), Some(Outcome::Returned(_))),
        Fate::Refused(..) => false,
    }
}

/// Whether every job of a batch returned.
pub(crate) fn all_returned<A: Allocator>(machine: &Machine<A>, reported: &[ReportedJob<A>]) -> bool
    requires out { HasRunOut machine.now }
    ensures { result ≡ have_returned_on machine.now.tasks reported.now }
{
    reported
        .iter()
        .all(|reported_job| has_returned(machine, &reported_job.fate))
}
