//! What there is at a state of a job, as far as it is shown: the calls and the stack.

use crate::reasons::total;
use crate::state::{JobState, place_of};
use job_history::{Next, Origin};
use std::alloc::{AllocError, Global};
use vcode_base::Kind;

/// The most calls that a picture has.
pub const MOST_SHOWN_CALLS: usize = 16;

/// The most values of an entry that a picture has.
pub const MOST_KEPT_VALUES: usize = 32;

/// An entry of the stack.
#[derive(Drop)]
pub struct ShownEntry {
    /// Its kind.
    pub kind: Kind,
    /// The line that made it.
    pub line: u64,
    /// How many words it has.
    pub length: usize,
    /// The sum of its words, if it is a descriptor.
    pub total: Option<i64>,
    /// The depth of the first entry above it of which it is a copy, if it is one.
    pub copy: Option<usize>,
    /// Its first words, at most [`MOST_KEPT_VALUES`].
    pub values: Vec<i64>,
}

/// An active call.
#[derive(Clone, Copy, Drop)]
pub struct ShownCall {
    /// The place of its function in the code, counted from 0.
    pub function: usize,
    /// The line of its next instruction if it is the innermost, and else of its `CALL`.
    pub line: u64,
    /// The depth of the first of the entries that belong to it.
    pub first: usize,
    /// How many entries belong to it.
    pub entries: usize,
}

/// What is kept of a state of a job.
#[derive(Drop)]
pub struct Picture {
    /// The next instruction, if the job goes on.
    pub next: Option<Next>,
    /// The function of that instruction, and its place there, as [`place_of`] answers them.
    pub place: (usize, usize),
    /// How many entries there are.
    pub depth: usize,
    /// The words that are held.
    pub held: usize,
    /// How many calls are active.
    pub calls: usize,
    /// The entries, the top first, or the first of them.
    pub entries: Vec<ShownEntry>,
    /// The calls, the innermost first, at most [`MOST_SHOWN_CALLS`].
    pub list: Vec<ShownCall>,
}

/// The depth of the first entry that the entry at this depth is a copy of, above it.
fn copy_above<S: JobState>(state: &S, depth: usize) -> Option<usize> {
    for above in 0..depth {
        if state.are_copies(above, depth) {
            return Some(above);
        }
    }
    None
}

/// The entry at a depth, which has these words.
fn entry_of<S: JobState>(
    alloc: Global,
    state: &S,
    depth: usize,
    origin: Origin,
    words: &[i64],
) -> Result<ShownEntry, AllocError> {
    let front = words.get(..MOST_KEPT_VALUES).unwrap_or(words);
    Ok(ShownEntry {
        kind: origin.kind,
        line: origin.line,
        length: words.len(),
        total: match origin.kind {
            Kind::Segdes => Some(total(words)),
            Kind::Int | Kind::Bool => None,
        },
        copy: copy_above(state, depth),
        values: front.to_vec(alloc)?,
    })
}

/// The entry at a depth, 0 at the top. `None` if there is none.
///
/// # Errors
///
/// [`AllocError`] if memory was refused.
pub fn entry_at<S: JobState>(
    alloc: Global,
    state: &S,
    depth: usize,
) -> Result<Option<ShownEntry>, AllocError> {
    match (state.words(depth), state.origin(depth)) {
        (Some(words), Some(origin)) => Ok(Some(entry_of(alloc, state, depth, origin, words)?)),
        _ => Ok(None),
    }
}

/// The entries at a state, the top first, and at most this many.
fn entries_of<S: JobState>(
    alloc: Global,
    state: &S,
    most: usize,
) -> Result<Vec<ShownEntry>, AllocError> {
    let mut entries = Vec::new(alloc);
    for depth in 0..state.depth().min(most) {
        if let Some(entry) = entry_at(alloc, state, depth)? {
            entries.push(entry)?;
        }
    }
    Ok(entries)
}

/// How many operands the function of the call at a place takes, that of `MAIN` at 0.
fn operand_count<S: JobState>(state: &S, place: usize) -> usize {
    let Some(frame) = state.frames().get(place) else {
        return 0;
    };
    match state.job().verified().signature(frame.function) {
        Some((operands, _)) => operands.len(),
        None => 0,
    }
}

/// How many entries there are below those that belong to the call at a place, that of `MAIN` at 0.
fn entries_below<S: JobState>(state: &S, place: usize) -> usize {
    let Some(before) = place.checked_sub(1) else {
        return 0;
    };
    match state.caller(before) {
        Some(caller) => caller.depth.saturating_sub(operand_count(state, place)),
        None => state.depth(),
    }
}

/// The call at a place, that of `MAIN` at 0. `None` if there is none.
pub fn call_at<S: JobState>(state: &S, place: usize) -> Option<ShownCall> {
    let frame = state.frames().get(place)?;
    let line = match state.caller(place) {
        Some(caller) => caller.line,
        None => state.next()?.line,
    };
    let below = entries_below(state, place);
    let end = entries_below(state, place.saturating_add(1));
    Some(ShownCall {
        function: frame.function,
        line,
        first: state.depth().saturating_sub(end),
        entries: end.saturating_sub(below),
    })
}

/// The calls at a state, the innermost first.
fn calls_of<S: JobState>(alloc: Global, state: &S) -> Result<Vec<ShownCall>, AllocError> {
    let mut list = Vec::new(alloc);
    let calls = state.calls();
    for before in 0..calls.min(MOST_SHOWN_CALLS) {
        let place = calls.saturating_sub(before).saturating_sub(1);
        if let Some(call) = call_at(state, place) {
            list.push(call)?;
        }
    }
    Ok(list)
}

impl Picture {
    /// What there is at a state, with at most this many entries.
    ///
    /// # Errors
    ///
    /// [`AllocError`] if memory was refused.
    pub fn of<S: JobState>(alloc: Global, state: &S, most: usize) -> Result<Picture, AllocError> {
        let entries = entries_of(alloc, state, most)?;
        Ok(Picture {
            next: state.next(),
            place: place_of(&state.frames()),
            depth: state.depth(),
            held: state.held(),
            calls: state.calls(),
            entries,
            list: calls_of(alloc, state)?,
        })
    }
}
