//! Machines of the jobs of a batch.

ghost use Rattle.std.specs.Prelude.{◌≤◌, length, All, IfOk, OnOk};
ghost use Rattle.vcode_base.specs.declared.limits.TheConstants.{MOST_JOBS, MOST_WORDS};

use batch_reader::{Batch, Entry, Fate, Feed, JobEntry};
use job_machine::{Job, Machine};
use std::alloc::{AllocError, Allocator};
use std::test::Fail;
use vcode_base::Rule;
use vcode_base::limits::MOST_JOBS;

/// The words of a region.
pub const REGION: usize = 64;

/// Puts a job after the others.
fn put<A: Allocator>(job: Job<A>, jobs: &mut Vec<Job<A>, A>, most: usize) -> Result<(), Fail>
    requires few { length jobs.old.items ≤ MOST_JOBS }
    requires words { All (λ job. job.limits.words ≤ most) jobs.old.items }
    ensures few { OnOk result (length jobs.new.items ≤ MOST_JOBS) }
    ensures words { OnOk result (All (λ job. job.limits.words ≤ most) jobs.new.items) }
{
    if jobs.len() == MOST_JOBS || job.limits().words > most {
        drop(job);
        return Err(Fail::from("a job has no room"));
    }
    jobs.push(job).map_err(AllocError::from)?;
    Ok(())
}

/// Puts the job of an entry after the others.
fn put_job<A: Allocator>(
    entry: JobEntry<A>,
    jobs: &mut Vec<Job<A>, A>,
    most: usize,
) -> Result<(), Fail>
    requires few { length jobs.old.items ≤ MOST_JOBS }
    requires words { All (λ job. job.limits.words ≤ most) jobs.old.items }
    ensures few { OnOk result (length jobs.new.items ≤ MOST_JOBS) }
    ensures words { OnOk result (All (λ job. job.limits.words ≤ most) jobs.new.items) }
{
    let Entry { name, fate } = entry;
    drop(name);
    match fate {
        Fate::Ready(job) => put(job, jobs, most),
        refused => {
            drop(refused);
            Err(Fail::from("a job is refused"))
        }
    }
}

/// The jobs of a batch and its rule, as they were read.
type Entries<A> = (Rule, Vec<JobEntry<A>, A>);

/// The rule and the entries of a batch. What `feed` refuses `end` answers again.
fn entries<A: Allocator + Copy>(alloc: A, batch: &[u8], most: usize) -> Result<Entries<A>, Fail>
    requires { most ≤ MOST_WORDS }
{
    let mut feed = Feed::new(alloc, most)?;
    let _ = feed.feed(batch);
    match feed.end()? {
        Batch::Jobs(rule, entries) => Ok((rule, entries.into_vec())),
        _ => Err(Fail::from("the batch is refused")),
    }
}

/// The rule of a batch and its jobs, each of at most `most` words.
pub(crate) fn jobs<A: Allocator + Copy>(
    alloc: A,
    batch: &[u8],
    most: usize,
) -> Result<(Rule, Vec<Job<A>, A>), Fail>
    requires { most ≤ MOST_WORDS }
    ensures few { IfOk result (λ r. length r.1.items ≤ MOST_JOBS) }
    ensures words { IfOk result (λ r. All (λ job. job.limits.words ≤ most) r.1.items) }
{
    let (rule, entries) = entries(alloc, batch, most)?;
    let mut jobs = Vec::new(alloc);
    for entry in entries {
        put_job(entry, &mut jobs, most)?;
    }
    Ok((rule, jobs))
}

/// A machine over `words` words with the jobs of a batch, by its rule.
pub(crate) fn machine<A: Allocator + Copy>(
    alloc: A,
    batch: &[u8],
    words: usize,
) -> Result<Machine<A>, Fail>
    requires { (1 ≤ words) × (words ≤ MOST_WORDS) }
{
    let (rule, jobs) = jobs(alloc, batch, words)?;
    Ok(Machine::new(alloc, words, jobs, rule)?)
}
