//! How a job that a limit ended goes on within the widest limits, as far as a look may run it.

use crate::elements::elements_of;
use crate::end::{End, Ending, ending_of, with_job};
use crate::last::wanted_at;
use job_history::op_of;
use job_profile::Uses;
use job_steps::Job;
use std::alloc::{AllocError, Global};
use vcode_base::limits::{MOST_BUDGET, MOST_CALLS, MOST_CELLS, MOST_WORDS};
use vcode_base::{Limits, MemoryFault, Op, Rule};

/// Within the widest limits a job that another limit than its budget ended may do this many times the work that it did.
const TIMES: u64 = 4;

/// Any job may do this much more than it did, which takes a tenth of a second at most. A job that its budget ended may
/// do no more than that, and isn't run again if it executed more instructions.
const MORE: Work = Work {
    instructions: MOST_BEFORE,
    elements: 4_000_000,
};

/// The most instructions that a job executed which is run again although its budget ended it.
pub(crate) const MOST_BEFORE: u64 = 1_000_000;

/// The widest limits.
const WIDEST: Limits = Limits {
    words: MOST_WORDS,
    cells: MOST_CELLS,
    calls: MOST_CALLS,
    budget: MOST_BUDGET,
};

/// Work that was done.
#[derive(Clone, Copy, Drop)]
pub struct Work {
    /// How many instructions were executed.
    pub instructions: u64,
    /// How many elements their operands and results had. The entries that a motion of the stack moves count as
    /// elements.
    pub elements: u64,
}

/// How a job ends within the widest limits.
#[derive(Clone, Copy, Drop)]
pub struct WideEnd {
    /// How it ends.
    pub ending: Ending,
    /// How many instructions it executes.
    pub executed: u64,
    /// The least limits within which it returns, if it does.
    pub least: Option<Limits>,
    /// The words that are held and needed at the instruction that even the widest limit on words refuses, if that ends
    /// it.
    pub wanted: Option<usize>,
}

/// How a job goes on within the widest limits.
#[derive(Clone, Copy, Drop)]
pub enum Course {
    /// It ends so.
    Ends(WideEnd),
    /// It is not over after this work, which is as much as it may do.
    GoesOn(Work),
    /// It isn't run, since its budget ended it after more than [`MOST_BEFORE`] instructions.
    NotRun,
}

/// How many entries an instruction moves.
fn moved_count(op: Op) -> u64 {
    match op {
        Op::Move(_, lower, upper) => u64::from(lower).saturating_add(u64::from(upper)),
        Op::Const(_) | Op::Elementwise(_) | Op::Segmented(_) | Op::If | Op::Call | Op::Return => 0,
    }
}

impl Work {
    /// No work.
    const NONE: Work = Work {
        instructions: 0,
        elements: 0,
    };

    /// The most work that a job may do within the widest limits that did this much before it ended so.
    fn most(self, ending: Ending) -> Work {
        let times = if ending == Ending::Budget { 1 } else { TIMES };
        let instructions = self.instructions.saturating_mul(times);
        let elements = self.elements.saturating_mul(times);
        Work {
            instructions: instructions.saturating_add(MORE.instructions),
            elements: elements.saturating_add(MORE.elements),
        }
    }

    /// Executes the next instruction and counts it; true if the job goes on.
    fn step(&mut self, uses: &mut Uses<Global>) -> bool {
        let Some(next) = uses.run().next_line() else {
            return false;
        };
        let op = op_of(&next);
        let (executed, read) = (
            uses.executed(),
            elements_of(uses.run(), op.operand_kinds().len()),
        );
        let goes_on = uses.step();
        if uses.executed() > executed {
            let made = elements_of(uses.run(), op.result_kinds().len());
            let all = read.saturating_add(made).saturating_add(moved_count(op));
            self.instructions = self.instructions.saturating_add(1);
            self.elements = self.elements.saturating_add(all);
        }
        goes_on
    }

    /// Executes instructions and counts them, up to the end of the job or to the most work; true if the job goes on.
    fn go_on(&mut self, uses: &mut Uses<Global>, most: Work) -> bool {
        for _ in self.instructions..most.instructions {
            if self.elements >= most.elements || !self.step(uses) {
                break;
            }
        }
        uses.run().goes_on()
    }
}

/// How a run goes on that is within the widest limits, if the job's limits ended it so.
fn course_of(uses: &mut Uses<Global>, end: End) -> Result<Course, AllocError> {
    let mut work = Work::NONE;
    let before = Work {
        instructions: end.steps,
        elements: u64::MAX,
    };
    work.go_on(uses, before);
    let most = work.most(end.ending);
    if work.go_on(uses, most) {
        return Ok(Course::GoesOn(work));
    }
    uses.collect()?;
    Ok(Course::Ends(WideEnd {
        ending: ending_of(uses.run()),
        executed: uses.executed(),
        least: uses.least_limits(),
        wanted: None,
    }))
}

/// The end of a job within the widest limits with the words that it wanted if the one on words refused them, which
/// another run finds, and the job.
fn with_wanted(
    alloc: Global,
    rule: Rule,
    job: Job<Global>,
    course: Course,
) -> Result<(Course, Job<Global>), AllocError> {
    let Course::Ends(end) = course else {
        return Ok((course, job));
    };
    if !matches!(end.ending, Ending::Memory(MemoryFault::Words, _)) {
        return Ok((course, job));
    }
    let mut uses = Uses::new(alloc, rule, job)?;
    uses.go_on(end.executed);
    let wanted = wanted_at(uses.run(), end.ending);
    Ok((Course::Ends(WideEnd { wanted, ..end }), uses.into_job()))
}

/// How a job that is within the widest limits goes on, if its own limits ended it so, and the job.
fn run_within(
    alloc: Global,
    rule: Rule,
    job: Job<Global>,
    end: End,
) -> Result<(Course, Job<Global>), AllocError> {
    let mut uses = Uses::new(alloc, rule, job)?;
    let course = course_of(&mut uses, end);
    let (course, job) = with_job(course, uses.into_job())?;
    with_wanted(alloc, rule, job, course)
}

/// How a job that its limits ended so goes on within the widest limits, and the job, which has its own limits again. It
/// does at most some times the work that it did before it ended.
///
/// # Errors
///
/// [`AllocError`] if memory was refused. The job is gone then.
pub fn run_wide(
    alloc: Global,
    rule: Rule,
    job: Job<Global>,
    end: End,
) -> Result<(Course, Job<Global>), AllocError> {
    if end.ending == Ending::Budget && end.executed > MOST_BEFORE {
        return Ok((Course::NotRun, job));
    }
    let limits = job.limits();
    let (course, job) = run_within(alloc, rule, job.with_limits(WIDEST), end)?;
    Ok((course, job.with_limits(limits)))
}
