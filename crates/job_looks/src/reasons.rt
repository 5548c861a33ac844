//! Why an instruction has no results: its operands' lengths, or the first place whose value has none.

use crate::pieces::{push_number, push_signed, push_size};
use crate::state::JobState;
use crate::text::Text;
use refusal_notes::operand_names;
use std::alloc::{AllocError, Global};
use vcode_base::limits::MOST_TOTAL;
use vcode_base::{DataFault, Kind, Op, Segmented};

/// An index at a place, outside its segment, which has `places` places.
#[derive(Clone, Copy, Drop)]
struct Outside {
    place: usize,
    index: i64,
    segment: usize,
    places: i64,
}

/// Two places with the same index in a segment.
#[derive(Clone, Copy, Drop)]
struct Twice {
    first: usize,
    second: usize,
    index: i64,
    segment: usize,
}

/// The operand at a place among `count` operands, the bottom one at 0.
fn operand<S: JobState>(state: &S, place: usize, count: usize) -> &[i64] {
    if place >= count {
        return &[];
    }
    match state.words(count - 1 - place) {
        Some(words) => words,
        None => &[],
    }
}

/// The operand of this name.
fn named<'a, S: JobState>(state: &'a S, op: Op, name: &str) -> &'a [i64] {
    let names = operand_names(op);
    match names.iter().position(|other| *other == name) {
        Some(place) => operand(state, place, names.len()),
        None => &[],
    }
}

/// The sum of the lengths of a descriptor. A sum that an `i64` can't have is answered as the greatest or least that it
/// can.
pub fn total(lengths: &[i64]) -> i64 {
    let mut total: i64 = 0;
    for length in lengths {
        total = total.saturating_add(*length);
    }
    total
}

/// Adds the length of an operand of this name, and of a descriptor its segments and its total.
fn push_length(text: &mut Text, name: &str, kind: Option<&Kind>, words: &[i64]) {
    let is_descriptor = matches!(kind, Some(Kind::Segdes));
    text.push_str(if is_descriptor {
        "segments of "
    } else {
        "elements of "
    });
    text.push_str(name);
    push_size(text, ": ", words.len());
    if is_descriptor {
        push_signed(text, ", elements: ", total(words));
    }
}

/// Adds the length of each operand, and of a descriptor its segments and its total.
fn push_lengths<S: JobState>(text: &mut Text, state: &S, op: Op) {
    let names = operand_names(op);
    let kinds = op.operand_kinds();
    for (place, name) in names.iter().enumerate() {
        if place > 0 {
            text.push_str("; ");
        }
        let words = operand(state, place, names.len());
        push_length(text, name, kinds.get(place), words);
    }
}

/// Adds a place among `count` places.
fn push_place(text: &mut Text, place: usize, count: usize) {
    push_size(text, "at place ", place);
    push_size(text, " of ", count);
}

/// Adds the first divisor that is 0.
fn push_zero_divisor<S: JobState>(text: &mut Text, state: &S, op: Op) {
    let (left, right) = (named(state, op, "a"), named(state, op, "b"));
    for (place, (dividend, divisor)) in left.iter().zip(right.iter()).enumerate() {
        if *divisor == 0 {
            push_place(text, place, right.len());
            push_signed(text, ", ", *dividend);
            text.push_str(" is divided by 0");
            break;
        }
    }
}

/// Adds the first shift that isn't by 0 to 63.
fn push_bad_shift<S: JobState>(text: &mut Text, state: &S, op: Op) {
    let shifts = named(state, op, "b");
    for (place, shift) in shifts.iter().enumerate() {
        if *shift < 0 || *shift > 63 {
            push_place(text, place, shifts.len());
            push_signed(text, ", the shift is by ", *shift);
            break;
        }
    }
}

/// Whether an index is outside a segment of `places` places.
fn is_outside(index: i64, places: i64) -> bool {
    index < 0 || index >= places
}

/// The first index outside its segment, if each segment has one index.
fn outside_by_segment(indices: &[i64], places: &[i64]) -> Option<Outside> {
    for segment in 0..indices.len().min(places.len()) {
        if is_outside(indices[segment], places[segment]) {
            return Some(Outside {
                place: segment,
                index: indices[segment],
                segment,
                places: places[segment],
            });
        }
    }
    None
}

/// A length as a number of places.
fn count_of(length: i64) -> usize {
    usize::try_from(length).unwrap_or(0)
}

/// The first index outside its segment, if the indices lie in segments of these lengths.
fn outside_by_element(indices: &[i64], lengths: &[i64], places: &[i64]) -> Option<Outside> {
    let mut begin: usize = 0;
    for segment in 0..lengths.len().min(places.len()) {
        let end = begin.saturating_add(count_of(lengths[segment]));
        let part = indices.get(begin..end)?;
        let within = places[segment];
        if let Some(place) = part.iter().position(|index| is_outside(*index, within)) {
            return Some(Outside {
                place: begin.saturating_add(place),
                index: *part.get(place)?,
                segment,
                places: within,
            });
        }
        begin = end;
    }
    None
}

/// The first index that is outside its segment.
fn find_outside<S: JobState>(state: &S, op: Op) -> Option<Outside> {
    let indices = named(state, op, "I");
    let (lengths, others) = (named(state, op, "S"), named(state, op, "R"));
    match op {
        Op::Segmented(Segmented::BackPermute(_)) => outside_by_element(indices, others, lengths),
        Op::Segmented(Segmented::DefaultPermute(_)) => outside_by_element(indices, lengths, others),
        Op::Segmented(Segmented::Permute(_)) => outside_by_element(indices, lengths, lengths),
        _ => outside_by_segment(indices, lengths),
    }
}

/// Adds the first index that is outside its segment.
fn push_bad_index<S: JobState>(text: &mut Text, state: &S, op: Op) {
    if let Some(found) = find_outside(state, op) {
        push_place(text, found.place, named(state, op, "I").len());
        push_signed(text, ", I is ", found.index);
        push_size(text, ", and segment ", found.segment);
        push_signed(text, " has ", found.places);
        text.push_str(" places");
    }
}

/// The first place whose index an earlier place has too, if there is one. Each index is below a number of places.
fn second_place(
    alloc: Global,
    indices: &[i64],
    places: usize,
) -> Result<Option<usize>, AllocError> {
    let mut marks = vec![in alloc; false; places]?;
    for place in 0..indices.len() {
        let Ok(index) = usize::try_from(indices[place]) else {
            return Ok(None);
        };
        let Some(mark) = marks.get_mut(index) else {
            return Ok(None);
        };
        if *mark {
            return Ok(Some(place));
        }
        *mark = true;
    }
    Ok(None)
}

/// The first two places of a segment that have the same index, and the segment, which begins at `begin`. The second
/// place is known.
fn twice_at(indices: &[i64], second: usize, begin: usize, segment: usize) -> Option<Twice> {
    let index = *indices.get(second)?;
    let first = indices.iter().position(|other| *other == index)?;
    Some(Twice {
        first: begin.saturating_add(first),
        second: begin.saturating_add(second),
        index,
        segment,
    })
}

/// The first place whose index an earlier place of its segment has too. The indices lie in segments of these lengths,
/// and are below these numbers of places.
fn find_twice(
    alloc: Global,
    indices: &[i64],
    lengths: &[i64],
    places: &[i64],
) -> Result<Option<Twice>, AllocError> {
    let mut begin: usize = 0;
    for segment in 0..lengths.len().min(places.len()) {
        let end = begin.saturating_add(count_of(lengths[segment]));
        let part = indices.get(begin..end).unwrap_or(&[]);
        if let Some(second) = second_place(alloc, part, count_of(places[segment]))? {
            return Ok(twice_at(part, second, begin, segment));
        }
        begin = end;
    }
    Ok(None)
}

/// Adds the first place whose index an earlier place of its segment has too.
fn push_index_twice<S: JobState>(text: &mut Text, alloc: Global, state: &S, op: Op) {
    let (indices, lengths) = (named(state, op, "I"), named(state, op, "S"));
    let places = match op {
        Op::Segmented(Segmented::DefaultPermute(_)) => named(state, op, "R"),
        _ => lengths,
    };
    if let Some(Some(twice)) = text.get(find_twice(alloc, indices, lengths, places)) {
        push_size(text, "at places ", twice.first);
        push_size(text, " and ", twice.second);
        push_signed(text, ", I is ", twice.index);
        push_size(text, ", both in segment ", twice.segment);
    }
}

/// Adds the first length that is negative, or at which the total is too great.
fn push_bad_length<S: JobState>(text: &mut Text, state: &S, op: Op) {
    let lengths = named(state, op, "I");
    let mut total: u64 = 0;
    for (place, length) in lengths.iter().enumerate() {
        let Ok(size) = u64::try_from(*length) else {
            push_place(text, place, lengths.len());
            push_signed(text, ", the length is ", *length);
            break;
        };
        total = total.saturating_add(size);
        if total > MOST_TOTAL {
            push_place(text, place, lengths.len());
            push_number(text, ", the total is ", total);
            push_number(text, ", and at most ", MOST_TOTAL);
            text.push_str(" are allowed");
            break;
        }
    }
}

/// Adds why the next instruction at a state has this fault.
pub(crate) fn push_reason<S: JobState>(
    text: &mut Text,
    alloc: Global,
    state: &S,
    op: Op,
    fault: DataFault,
) {
    match fault {
        DataFault::LengthsDiffer
        | DataFault::SegmentTotal
        | DataFault::SegmentCount
        | DataFault::NotSingle => push_lengths(text, state, op),
        DataFault::ZeroDivisor => push_zero_divisor(text, state, op),
        DataFault::BadShift => push_bad_shift(text, state, op),
        DataFault::BadIndex => push_bad_index(text, state, op),
        DataFault::IndexTwice => push_index_twice(text, alloc, state, op),
        DataFault::BadLength => push_bad_length(text, state, op),
    }
}
