//! What is shown of a job.

use crate::folded::print_folded;
use crate::output::print_text;
use crate::profile::print_profile;
use crate::sought::show_sought;
use crate::steps::show_steps;
use crate::values::print_values;
use job_looks::{
    Batch, End, Ended, Ending, Last, MOST_ENTRIES, Part, Picture, State, Step, Text, ValueRange,
    Watch, ended_of, ending_of, picture_of, push_answer, push_ending, push_number, run_through,
    see,
};
use job_steps::Job;
use refusal_notes::{Lines, printable};
use std::alloc::Global;
use std::io;
use vcode_reader::Program;
use why_command::Look;
use why_texts::{Places, Shown, limits_text, picture_text, state_text, steps_text};

/// Prints how a job ended after this many instructions, on the line of its name.
fn print_ending(rt: &HostRuntime, ending: Ending, count: u64) -> io::Result<()> {
    let mut text = Text::new(rt.alloc());
    push_ending(&mut text, ending, count);
    print_text(rt, text)
}

/// Prints what there was before the end of a job, and its last instructions.
fn print_last(
    rt: &HostRuntime,
    lines: &Lines,
    program: &Program<Global>,
    last: &Last,
    steps: &[Step],
) -> io::Result<()> {
    let places = Places::of(rt.alloc(), lines, program)?;
    let printed = print_before(rt, lines, program, &places, last, steps);
    drop(places);
    printed
}

/// The same of a program whose instructions are at these places.
fn print_before(
    rt: &HostRuntime,
    lines: &Lines,
    program: &Program<Global>,
    places: &Places,
    last: &Last,
    steps: &[Step],
) -> io::Result<()> {
    let (picture, note) = (&last.picture, last.note.as_str());
    print_text(
        rt,
        picture_text(rt.alloc(), lines, program, places, picture, note),
    )?;
    print_text(rt, steps_text(rt.alloc(), lines, &places.spans, steps))
}

/// Prints how a job ended, what there was before, and what it used. Of the stack at most this many entries are shown.
fn print_end(rt: &HostRuntime, batch: Batch<'_>, job: Job<Global>, most: usize) -> io::Result<()> {
    let (seen, job) = see(rt.alloc(), batch.rule, job, most)?;
    let (ended, job) = ended_of(rt.alloc(), batch, seen, job, most)?;
    print_ended(rt, batch, ended, job)
}

/// Prints how a job ended, what there was before, and what it used.
fn print_ended(
    rt: &HostRuntime,
    batch: Batch<'_>,
    ended: Ended,
    job: Job<Global>,
) -> io::Result<()> {
    let printed = print_all(rt, batch, &ended, &job);
    drop(ended);
    drop(job);
    printed
}

/// Prints how a job ended, what there was before, and what it used.
fn print_all(
    rt: &HostRuntime,
    batch: Batch<'_>,
    ended: &Ended,
    job: &Job<Global>,
) -> io::Result<()> {
    print_ending(rt, ended.end.ending, ended.end.executed)?;
    print_last(
        rt,
        batch.lines,
        job.verified().program(),
        &ended.last,
        &ended.steps,
    )?;
    print_text(rt, limits_text(rt.alloc(), batch.rule, ended, job))
}

/// Prints how a job ended, and values of an entry of its last state.
fn print_last_values(
    rt: &HostRuntime,
    batch: Batch<'_>,
    job: Job<Global>,
    range: ValueRange,
) -> io::Result<()> {
    let (end, job) = run_through(rt.alloc(), batch.rule, job)?;
    let mut watch = Watch::new(rt.alloc(), batch.rule, job)?;
    let printed = print_values_before(rt, batch, &mut watch, end, range);
    drop(watch);
    printed
}

/// Prints how a job ended, and values of an entry of its last state. The run has executed nothing.
fn print_values_before(
    rt: &HostRuntime,
    batch: Batch<'_>,
    watch: &mut Watch,
    end: End,
    range: ValueRange,
) -> io::Result<()> {
    print_ending(rt, end.ending, end.executed)?;
    watch.go_to(end.steps)?;
    print_values(rt, batch.lines, watch, range)
}

/// Shows how a job ended, on the line of its name, with this of its last state.
fn show_end(rt: &HostRuntime, batch: Batch<'_>, job: Job<Global>, part: Part) -> io::Result<()> {
    match part {
        Part::Top => print_end(rt, batch, job, MOST_ENTRIES),
        Part::All => print_end(rt, batch, job, usize::MAX),
        Part::Values(range) => print_last_values(rt, batch, job, range),
    }
}

/// Prints the state of a run that goes on, with at most this many entries.
fn print_there(rt: &HostRuntime, batch: Batch<'_>, watch: &Watch, most: usize) -> io::Result<()> {
    match picture_of(rt.alloc(), watch, most)? {
        Some(picture) => {
            let printed = print_picture(rt, batch.lines, watch.run().job(), &picture);
            drop(picture);
            printed
        }
        None => Ok(()),
    }
}

/// Prints a state of a job that goes on.
fn print_picture(
    rt: &HostRuntime,
    lines: &Lines,
    job: &Job<Global>,
    picture: &Picture,
) -> io::Result<()> {
    let program = job.verified().program();
    let places = Places::of(rt.alloc(), lines, program)?;
    let text = picture_text(rt.alloc(), lines, program, &places, picture, "is next");
    drop(places);
    print_text(rt, text)
}

/// Prints this of the state of a run.
fn print_state(rt: &HostRuntime, batch: Batch<'_>, watch: &Watch, part: Part) -> io::Result<()> {
    print_text(rt, state_text(rt.alloc(), watch))?;
    match part {
        Part::Top => print_there(rt, batch, watch, MOST_ENTRIES),
        Part::All => print_there(rt, batch, watch, usize::MAX),
        Part::Values(range) if watch.run().goes_on() => print_values(rt, batch.lines, watch, range),
        Part::Values(_) => Ok(()),
    }
}

/// Prints this of what there is after this many instructions of a run that has executed nothing.
fn print_after(
    rt: &HostRuntime,
    batch: Batch<'_>,
    watch: &mut Watch,
    count: u64,
    part: Part,
) -> io::Result<()> {
    watch.go_to(count)?;
    print_state(rt, batch, watch, part)
}

/// Prints how a job ended and its profile.
fn print_shown(rt: &HostRuntime, lines: &Lines, shown: &Shown, all: bool) -> io::Result<()> {
    let run = shown.run();
    print_ending(rt, ending_of(run), run.executed())?;
    print_profile(rt, lines, shown, all)
}

/// Shows how a job ended and its profile, on the line of its name.
fn show_profile(rt: &HostRuntime, batch: Batch<'_>, job: Job<Global>, all: bool) -> io::Result<()> {
    let shown = Shown::of(rt.alloc(), batch.rule, job)?;
    let printed = print_shown(rt, batch.lines, &shown, all);
    drop(shown);
    printed
}

/// Prints the place and the name of a job, without an LF.
fn print_name(rt: &HostRuntime, place: u64, name: &[u8]) -> io::Result<()> {
    let mut text = Text::new(rt.alloc());
    push_number(&mut text, "JOB ", place);
    text.push(' ');
    push_answer(&mut text, printable(rt.alloc(), name));
    text.push(' ');
    print_text(rt, text)
}

/// Shows this of what there is after this many instructions of a job, on the line of its name.
pub fn show_after(
    rt: &HostRuntime,
    batch: Batch<'_>,
    job: Job<Global>,
    count: u64,
    part: Part,
) -> io::Result<()> {
    let mut watch = Watch::new(rt.alloc(), batch.rule, job)?;
    let shown = print_after(rt, batch, &mut watch, count, part);
    drop(watch);
    shown
}

/// Shows this of a state of a job, on the line of its name.
fn show_state(
    rt: &HostRuntime,
    batch: Batch<'_>,
    job: Job<Global>,
    state: &State,
    part: Part,
) -> io::Result<()> {
    match state {
        State::Last => show_end(rt, batch, job, part),
        State::After(count) => show_after(rt, batch, job, *count, part),
        State::At(sought) => show_sought(rt, batch, job, sought, part),
    }
}

/// Shows what was asked for of a job, on the line of its name.
fn show_named(rt: &HostRuntime, batch: Batch<'_>, job: Job<Global>, look: &Look) -> io::Result<()> {
    match look {
        Look::State(state, part) => show_state(rt, batch, job, state, *part),
        Look::Profile { all } => show_profile(rt, batch, job, *all),
        Look::Steps(selection) => show_steps(rt, batch, job, *selection),
        Look::Folded(unit) => print_folded(rt, batch, job, *unit),
    }
}

/// Shows what was asked for of a job of this place.
pub fn show(
    rt: &HostRuntime,
    batch: Batch<'_>,
    place: u64,
    job: Job<Global>,
    look: &Look,
) -> io::Result<()> {
    if let Look::Folded(_) = look {
        return show_named(rt, batch, job, look);
    }
    match print_name(rt, place, job.name()) {
        Ok(()) => show_named(rt, batch, job, look),
        Err(error) => {
            drop(job);
            Err(error)
        }
    }
}
