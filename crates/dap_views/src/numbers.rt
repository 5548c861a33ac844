//! The numbers of a run at its state.

use crate::json::push_comma;
use crate::page::Page;
use crate::shown::Shown;
use job_looks::{Text, push_number};

/// A number of a run, and the limit on it, if there is one.
#[derive(Clone, Copy, Drop)]
struct Number {
    name: &'static str,
    value: u64,
    limit: Option<u64>,
}

/// How many numbers a run has.
const COUNT: usize = 8;

/// A number with a limit.
fn within(name: &'static str, value: u64, limit: u64) -> Number {
    Number {
        name,
        value,
        limit: Some(limit),
    }
}

/// A number without a limit.
fn free(name: &'static str, value: u64) -> Number {
    Number {
        name,
        value,
        limit: None,
    }
}

/// The numbers.
fn numbers_of(shown: &Shown<'_>) -> [Number; COUNT] {
    let (history, limits) = (shown.history, shown.history.job().limits());
    let words = limits.words as u64;
    [
        free("state", history.at()),
        within("instructions", history.executed(), limits.budget),
        within("peak", history.peak() as u64, words),
        within("words held", history.held() as u64, words),
        within(
            "words at the next instruction",
            history.demand() as u64,
            words,
        ),
        free("words that it makes", history.need() as u64),
        within("entries", history.depth() as u64, limits.cells as u64),
        within("calls", history.calls() as u64, limits.calls as u64),
    ]
}

/// Adds the object of a number.
fn push_variable(text: &mut Text, number: Number) {
    text.push_str("{\"name\":\"");
    text.push_str(number.name);
    push_number(text, "\",\"value\":\"", number.value);
    if let Some(limit) = number.limit {
        push_number(text, " of ", limit);
    }
    text.push_str("\",\"variablesReference\":0}");
}

/// Adds the objects of these of the numbers.
pub(crate) fn push_numbers(text: &mut Text, shown: &Shown<'_>, page: Page) {
    let places = page.places(COUNT);
    let first = places.start;
    let numbers = numbers_of(shown);
    for place in places {
        push_comma(text, place, first);
        if let Some(number) = numbers.get(place) {
            push_variable(text, *number);
        }
    }
}
