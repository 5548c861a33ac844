//! Events, as a line names them.

use crate::machines::fault::CaseFault;
use crate::machines::jobs::{MOST_NUMBER, number};
use job_machine::Event;
use std::alloc::{AllocError, Global};

/// The event that a word names.
fn event(word: &str) -> Result<Event, CaseFault> {
    if word == "a" {
        return Ok(Event::Admit);
    }
    let Some((letter, job)) = word.split_at_checked(1) else {
        return Err(CaseFault::NoCall);
    };
    let job = number(job, MOST_NUMBER)?;
    match letter {
        "b" => Ok(Event::Begin(job)),
        "f" => Ok(Event::Finish(job)),
        "r" => Ok(Event::Recall(job)),
        "c" => Ok(Event::Collect(job)),
        _ => Err(CaseFault::NoCall),
    }
}

/// The events that words name.
pub fn events(alloc: Global, text: &str) -> Result<Vec<Event>, CaseFault> {
    let mut events = Vec::new(alloc);
    for word in text.split(' ') {
        events.push(event(word)?).map_err(AllocError::from)?;
    }
    Ok(events)
}
