//! The end of a job, and what it used.

use job_profile::{Run, Uses};
use job_steps::Job;
use std::alloc::{AllocError, Global};
use vcode_base::limits::MOST_BUDGET;
use vcode_base::{DataFault, Limits, MemoryFault, Outcome, Rule, Values};

/// How a job ended, without its results.
#[derive(Clone, Copy, PartialEq, Eq, Drop)]
pub enum Ending {
    /// It returned.
    Returned,
    /// An instruction of a line, counted from 1 in the batch, had a fault.
    Fault(DataFault, u64),
    /// A limit refused an instruction of a line.
    Memory(MemoryFault, u64),
    /// Its budget was spent.
    Budget,
}

/// How a job ended, and what it used.
#[derive(Clone, Copy, Drop)]
pub struct End {
    /// How it ended.
    pub ending: Ending,
    /// How many instructions lead to the last state before its end.
    pub steps: u64,
    /// How many instructions it executed.
    pub executed: u64,
    /// The most words that it held and needed.
    pub words: usize,
    /// The most entries that its stack had.
    pub cells: usize,
    /// The most calls that were active.
    pub calls: usize,
    /// The least limits within which it returns, if it returned.
    pub least: Option<Limits>,
}

impl Ending {
    /// How a job ended with an outcome. With none it ends by its budget.
    pub fn of(outcome: Option<&Outcome<Values<Global>>>) -> Ending {
        match outcome {
            Some(Outcome::Returned(_)) => Ending::Returned,
            Some(Outcome::Fault(fault, line)) => Ending::Fault(*fault, *line),
            Some(Outcome::Memory(fault, line)) => Ending::Memory(*fault, *line),
            Some(Outcome::Budget) | None => Ending::Budget,
        }
    }
}

/// How the job of a run ended whose results are collected. It is `Budget` before they are.
pub fn ending_of(run: &Run<Global>) -> Ending {
    Ending::of(run.ending())
}

/// The end of a run whose results are collected. `steps` is how many instructions lead to the last state before it.
pub fn end_of(uses: &Uses<Global>, steps: u64) -> End {
    End {
        ending: ending_of(uses.run()),
        steps,
        executed: uses.executed(),
        words: uses.words(),
        cells: uses.cells(),
        calls: uses.calls(),
        least: uses.least_limits(),
    }
}

/// Runs a job to its end.
fn run_out(uses: &mut Uses<Global>) -> Result<End, AllocError> {
    let mut steps: u64 = 0;
    for _ in 0..MOST_BUDGET {
        if !uses.step() {
            break;
        }
        steps = steps.saturating_add(1);
    }
    uses.collect()?;
    Ok(end_of(uses, steps))
}

/// What was found of a job, and the job.
///
/// # Errors
///
/// That of `found`. The job is gone then.
pub fn with_job<T>(
    found: Result<T, AllocError>,
    job: Job<Global>,
) -> Result<(T, Job<Global>), AllocError> {
    match found {
        Ok(found) => Ok((found, job)),
        Err(error) => {
            drop(job);
            Err(error)
        }
    }
}

/// How a job ends by a rule, and the job. It runs to its end, so up to as many instructions as its budget has.
///
/// # Errors
///
/// [`AllocError`] if memory was refused. The job is gone then.
pub fn run_through(
    alloc: Global,
    rule: Rule,
    job: Job<Global>,
) -> Result<(End, Job<Global>), AllocError> {
    let mut uses = Uses::new(alloc, rule, job)?;
    let end = run_out(&mut uses);
    with_job(end, uses.into_job())
}
