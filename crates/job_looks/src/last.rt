//! The last state of a job before its end, and what is said of it.

use crate::end::{End, Ending, end_of, with_job};
use crate::memory_notes::push_memory_note;
use crate::picture::Picture;
use crate::reasons::push_reason;
use crate::state::{JobState, Traced};
use crate::step::{Recent, Step};
use crate::text::Text;
use crate::watch::Watch;
use job_history::Trail;
use job_profile::Run;
use job_steps::Job;
use std::alloc::{AllocError, Global};
use vcode_base::{MemoryFault, Rule};

/// What is known of the last state of a job before its end.
#[derive(Drop)]
pub enum BeforeEnd {
    /// The state, which was foreseen to be the last.
    State(Picture),
    /// The state with its note.
    Noted(Last),
    /// The trail that its run has there, if the run went on to the end at once.
    Trail(Trail<Global>),
}

/// How a job ended, with the instructions that were executed last before it.
#[derive(Drop)]
pub struct Seen {
    /// How it ended, and what it used.
    pub end: End,
    /// The instructions, the last one at the end.
    pub steps: Vec<Step>,
    /// What is known of the state after them.
    pub before: BeforeEnd,
}

/// The last state of a job before its end.
#[derive(Drop)]
pub struct Last {
    /// The state.
    pub picture: Picture,
    /// The note at its last line, without an LF.
    pub note: String,
    /// The words that were held and needed there, if the limit on words ended it.
    pub wanted: Option<usize>,
}

/// Executes instructions up to the last RET, or until the budget is spent, unless the job ends otherwise.
fn go_to_last(watch: &mut Watch, recent: &mut Recent) -> Result<(), AllocError> {
    let budget = watch.run().job().limits().budget;
    for _ in 0..budget {
        if !recent.step(watch)? {
            return Ok(());
        }
    }
    Ok(())
}

/// The state of a run, with at most this many entries. `None` if the run is over.
///
/// # Errors
///
/// [`AllocError`] if memory was refused.
pub fn picture_of(
    alloc: Global,
    watch: &Watch,
    most: usize,
) -> Result<Option<Picture>, AllocError> {
    if !watch.run().goes_on() {
        return Ok(None);
    }
    Ok(Some(Picture::of(alloc, &watch.state(), most)?))
}

/// Runs a job that has executed nothing to its end. Answers how it ended, the last instructions, and the last state if
/// the end was foreseen there.
fn run_to_end(
    alloc: Global,
    watch: &mut Watch,
    most: usize,
) -> Result<(End, Vec<Step>, Option<Picture>), AllocError> {
    let mut recent = Recent::new(alloc)?;
    go_to_last(watch, &mut recent)?;
    let count = watch.run().executed();
    let steps = recent.last(alloc, watch.run())?;
    let picture = picture_of(alloc, watch, most)?;
    watch.uses.step();
    watch.uses.collect()?;
    Ok((end_of(&watch.uses, count), steps, picture))
}

/// How a job ends by a rule, and the job. Of its last state at most this many entries are kept.
///
/// # Errors
///
/// [`AllocError`] if memory was refused. The job is gone then.
pub fn see(
    alloc: Global,
    rule: Rule,
    job: Job<Global>,
    most: usize,
) -> Result<(Seen, Job<Global>), AllocError> {
    let mut watch = Watch::new(alloc, rule, job)?;
    let found = run_to_end(alloc, &mut watch, most);
    let (trail, job) = watch.into_parts();
    match found {
        Ok((end, steps, picture)) => {
            let before = before_of(picture, trail);
            Ok((Seen { end, steps, before }, job))
        }
        Err(error) => {
            drop(trail);
            drop(job);
            Err(error)
        }
    }
}

/// What is known of the last state of a job: the state if it was seen, or else the trail of its run there.
pub fn before_of(picture: Option<Picture>, trail: Trail<Global>) -> BeforeEnd {
    match picture {
        Some(picture) => {
            drop(trail);
            BeforeEnd::State(picture)
        }
        None => BeforeEnd::Trail(trail),
    }
}

/// The note at the last line of a job that ended by no fault and no refused instruction.
fn plain_note(ending: Ending) -> &'static str {
    match ending {
        Ending::Returned => "returns",
        Ending::Budget => "would be next",
        Ending::Fault(..) | Ending::Memory(..) => "",
    }
}

/// Adds the note at the last line of a job that ended so, at its last state.
fn push_note<S: JobState>(text: &mut Text, alloc: Global, state: &S, ending: Ending) {
    match (ending, state.next()) {
        (Ending::Memory(fault, _), Some(next)) => push_memory_note(text, state, next.op, fault),
        (Ending::Fault(fault, _), Some(next)) => push_reason(text, alloc, state, next.op, fault),
        _ => text.push_str(plain_note(ending)),
    }
}

/// The note at the last line of a job that ended so: why its next instruction was refused or had a fault, at the last
/// state before the end. It is a text without an LF.
///
/// # Errors
///
/// [`AllocError`] if memory was refused.
pub fn note_of<S: JobState>(
    alloc: Global,
    state: &S,
    ending: Ending,
) -> Result<String, AllocError> {
    let mut note = Text::new(alloc);
    push_note(&mut note, alloc, state, ending);
    note.finish()
}

/// The words that are held and needed at the next instruction of a run. `None` if it isn't the limit on words that ends
/// the job so.
pub(crate) fn wanted_at(run: &Run<Global>, ending: Ending) -> Option<usize> {
    match ending {
        Ending::Memory(MemoryFault::Words, _) => Some(run.demand()),
        Ending::Returned | Ending::Fault(..) | Ending::Memory(..) | Ending::Budget => None,
    }
}

/// The last state of a job that ended so, which is this one, with at most this many entries.
///
/// # Errors
///
/// [`AllocError`] if memory was refused.
pub fn last_at(
    alloc: Global,
    state: &Traced<'_>,
    ending: Ending,
    most: usize,
) -> Result<Last, AllocError> {
    let note = note_of(alloc, state, ending)?;
    let picture = Picture::of(alloc, state, most)?;
    let wanted = wanted_at(state.run, ending);
    Ok(Last {
        picture,
        note,
        wanted,
    })
}

/// The last state of a job, which another run finds, and the job.
fn found_again(
    alloc: Global,
    rule: Rule,
    (trail, job): (Trail<Global>, Job<Global>),
    end: End,
    most: usize,
) -> Result<(Last, Job<Global>), AllocError> {
    match Run::new(alloc, rule, job) {
        Ok(mut run) => {
            run.go_on(end.steps);
            let last = last_of_run(alloc, &run, &trail, end.ending, most);
            drop(trail);
            with_job(last, run.into_job())
        }
        Err(error) => {
            drop(trail);
            Err(error)
        }
    }
}

/// The last state of a job that ended so, at which a run of this trail is.
fn last_of_run(
    alloc: Global,
    run: &Run<Global>,
    trail: &Trail<Global>,
    ending: Ending,
    most: usize,
) -> Result<Last, AllocError> {
    last_at(alloc, &Traced { run, trail }, ending, most)
}

/// The last state of a job that returned or spent its budget, which was seen.
fn foreseen(alloc: Global, picture: Picture, ending: Ending) -> Result<Last, AllocError> {
    match String::from_str(alloc, plain_note(ending)) {
        Ok(note) => Ok(Last {
            picture,
            note,
            wanted: None,
        }),
        Err(error) => {
            drop(picture);
            Err(error)
        }
    }
}

/// The last state of a job that ended so by a rule, and the job. Of the state at most this many entries are kept. If
/// only its trail is known, the job runs once more.
///
/// # Errors
///
/// [`AllocError`] if memory was refused. The job is gone then.
pub fn last_of(
    alloc: Global,
    rule: Rule,
    (before, job): (BeforeEnd, Job<Global>),
    end: End,
    most: usize,
) -> Result<(Last, Job<Global>), AllocError> {
    match before {
        BeforeEnd::State(picture) => with_job(foreseen(alloc, picture, end.ending), job),
        BeforeEnd::Noted(last) => Ok((last, job)),
        BeforeEnd::Trail(trail) => found_again(alloc, rule, (trail, job), end, most),
    }
}
