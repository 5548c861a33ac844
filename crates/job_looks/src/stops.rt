//! States of a run, and those that are looked for.

use crate::end::with_job;
use crate::pieces::{push_number, push_size};
use crate::text::Text;
use job_profile::{Stop, Uses};
use job_steps::Job;
use std::alloc::{AllocError, Global};
use vcode_base::{Elements, Rule, is_visible};

/// The name of the function with which a job begins.
const MAIN: &str = "MAIN";

/// A state of a job.
#[derive(Drop)]
pub enum State {
    /// The last one before its end.
    Last,
    /// The one after this many instructions.
    After(u64),
    /// One that is looked for.
    At(Sought),
}

/// A state of a run that is looked for. Of a call of a function it is the state in which the function begins.
#[derive(Drop)]
pub struct Sought {
    /// What holds at it.
    pub stop: Stop<String>,
    /// Which of the states at which that holds it is, counted from 1.
    pub time: u64,
}

/// The text before the last colon and the number after it, or the text and 1. `None` if the number is 0.
fn with_time(text: &str) -> Option<(&str, u64)> {
    let Some((place, time)) = text.rsplit_once(':') else {
        return Some((text, 1));
    };
    match time.parse::<u64>() {
        Ok(0) => None,
        Ok(time) => Some((place, time)),
        Err(_) => Some((text, 1)),
    }
}

/// Whether this may be the name of a function, as far as its bytes go. So a name that is printed shows nothing odd.
fn is_name(text: &str) -> bool {
    for byte in text.as_bytes() {
        if !is_visible(*byte) {
            return false;
        }
    }
    !text.is_empty()
}

/// The state that is named by the number of a line or the name of a function, and by the time after a colon, if there
/// is one. `None` if the text names none.
///
/// # Errors
///
/// [`AllocError`] if memory was refused.
pub fn place_sought(alloc: Global, text: &str) -> Result<Option<Sought>, AllocError> {
    let Some((place, time)) = with_time(text) else {
        return Ok(None);
    };
    let stop = match place.parse::<u64>() {
        Ok(line) => Stop::Line(line),
        Err(_) if is_name(place) => Stop::Call(String::from_str(alloc, place)?),
        Err(_) => return Ok(None),
    };
    Ok(Some(Sought { stop, time }))
}

/// The first state at which more is there than a number: of `words>N`, `entries>N` or `makes>N`. `None` if the text is
/// none of these.
pub fn state_sought(text: &str) -> Option<Sought> {
    let (what, most) = text.split_once('>')?;
    let Ok(most) = most.parse::<usize>() else {
        return None;
    };
    let stop = match what {
        "words" => Stop::Words(most),
        "entries" => Stop::Entries(most),
        "makes" => Stop::Makes(most),
        _ => return None,
    };
    Some(Sought { stop, time: 1 })
}

/// A stop over the bytes of the name of its function, as [`Uses::run_to`] takes it.
pub fn by_bytes(stop: &Stop<String>) -> Stop<Elements<'_, u8>> {
    match stop {
        Stop::Line(line) => Stop::Line(*line),
        Stop::Call(name) => Stop::Call(Elements::new(name.as_bytes())),
        Stop::Words(most) => Stop::Words(*most),
        Stop::Entries(most) => Stop::Entries(*most),
        Stop::Makes(most) => Stop::Makes(*most),
    }
}

/// Runs a job to the start of the call that is made by the K-th `CALL` of this function. Answers after how many
/// instructions that is, if there is such a call.
fn run_into(uses: &mut Uses<Global>, name: &str, time: u64) -> Option<u64> {
    let call = Stop::Call(Elements::new(name.as_bytes()));
    let before = time.checked_sub(1)?;
    if uses.run_to(&call, before) && uses.step() {
        return Some(uses.executed());
    }
    None
}

/// Runs a job that has executed nothing to a state that is looked for. Answers after how many instructions that is, if
/// there is such a state.
fn run_to(uses: &mut Uses<Global>, sought: &Sought) -> Option<u64> {
    match &sought.stop {
        Stop::Call(name) if name.as_str() == MAIN => match sought.time {
            1 => Some(0),
            time => run_into(uses, MAIN, time.saturating_sub(1)),
        },
        Stop::Call(name) => run_into(uses, name.as_str(), sought.time),
        stop => {
            if uses.run_to(&by_bytes(stop), sought.time.saturating_sub(1)) {
                Some(uses.executed())
            } else {
                None
            }
        }
    }
}

/// After how many instructions of a job there is a state that is looked for, and the job. `None` if there is no such
/// state.
///
/// # Errors
///
/// [`AllocError`] if memory was refused. The job is gone then.
pub fn count_to(
    alloc: Global,
    rule: Rule,
    job: Job<Global>,
    sought: &Sought,
) -> Result<(Option<u64>, Job<Global>), AllocError> {
    let mut uses = Uses::new(alloc, rule, job)?;
    let count = run_to(&mut uses, sought);
    with_job(Ok(count), uses.into_job())
}

/// Adds that there is no state that was looked for, and an LF.
pub fn push_none(text: &mut Text, sought: &Sought) {
    match &sought.stop {
        Stop::Line(line) => {
            push_number(text, "line ", *line);
            push_number(text, " is not next ", sought.time);
        }
        Stop::Call(name) => {
            text.push_str(name.as_str());
            push_number(text, " is not called ", sought.time);
        }
        Stop::Words(most) => push_size(text, "never holds more than ", *most),
        Stop::Entries(most) => push_size(text, "never has more than ", *most),
        Stop::Makes(most) => push_size(text, "has no instruction that makes more than ", *most),
    }
    text.push_str(match &sought.stop {
        Stop::Line(_) | Stop::Call(_) => " times\n",
        Stop::Words(_) | Stop::Makes(_) => " words\n",
        Stop::Entries(_) => " entries\n",
    });
}
