//! Schedules: in which order the jobs of a batch take their turns.

ghost use Rattle.std.specs.Prelude.{◌≡◌, None, Some, IfOk, IsErrOf};
ghost use Rattle.batch_front.specs.declared.fault.ScheduleFault.TheVariants.{Bad};
ghost use Rattle.batch_front.specs.Schedules.{digit_of, item_of, job_of, job_within, schedule_of};

use crate::fault::ScheduleFault;
use std::alloc::Allocator;
use vcode_base::limits::{MOST_JOBS, MOST_SCHEDULE_ITEMS};

/// A turn of a job, which is named by its place in the batch, counted from 1.
#[derive(Clone, Copy, PartialEq, Eq, Debug)]
pub enum Item {
    /// The begin of the job's next step, and then its finish.
    Step(usize),
    /// The begin of the job's next step.
    Begin(usize),
    /// The finish of the job's step that has begun.
    Finish(usize),
}

impl Item {
    ghost use Rattle.batch_front.specs.Schedules.{place_of};

    /// The place in the batch of the job whose turn it is.
    pub(crate) fn place(self) -> usize
        ensures { result ≡ place_of self }
    {
        match self {
            Item::Step(place) | Item::Begin(place) | Item::Finish(place) => place,
        }
    }
}

/// The digit that a byte is.
fn digit(byte: u8) -> Option<usize>
    ensures { result ≡ digit_of byte }
{
    if byte < b'0' {
        return None;
    }
    if byte > b'9' {
        return None;
    }
    Some(usize::from(byte - b'0'))
}

/// This number, if a job may have it.
fn job_within(number: usize) -> Option<usize>
    ensures { result ≡ job_within (Some number) }
{
    if number == 0 {
        return None;
    }
    if number > MOST_JOBS {
        return None;
    }
    Some(number)
}

/// The job's number that one digit is or two.
fn job(digits: &[u8]) -> Option<usize>
    ensures { result ≡ job_of digits.now }
{
    match digits {
        [ones] => job_within(digit(*ones)?),
        [tens, ones] => job_within(10 * digit(*tens)? + digit(*ones)?),
        _ => None,
    }
}

/// The item that a text is.
fn item_of(text: &[u8]) -> Option<Item>
    ensures { result ≡ item_of text.now }
{
    match text {
        [b'b', digits @ ..] => Some(Item::Begin(job(digits)?)),
        [b'f', digits @ ..] => Some(Item::Finish(job(digits)?)),
        _ => Some(Item::Step(job(text)?)),
    }
}

/// Reads a schedule: items with a comma between each two, at least one and at most [`MOST_SCHEDULE_ITEMS`].
///
/// An item is the number of a job, 1 to [`MOST_JOBS`] in one or two digits, which is a [`Item::Step`]. A `b` right
/// before it makes it a [`Item::Begin`], and an `f` a [`Item::Finish`]. No other bytes are allowed.
///
/// # Errors
///
/// [`ScheduleFault::Bad`] if the text is no schedule, and [`ScheduleFault::Memory`] if a growth was refused.
pub fn parse_schedule<A: Allocator>(alloc: A, text: &str) -> Result<Vec<Item, A>, ScheduleFault>
    ensures items { IfOk result (λ items. schedule_of text.now ≡ Some items.items) }
    ensures bad { IsErrOf result Bad → schedule_of text.now ≡ None }
{
    let mut items = Vec::new(alloc);
    for piece in text.split(',') {
        if items.len() == MOST_SCHEDULE_ITEMS {
            return Err(ScheduleFault::Bad);
        }
        let Some(item) = item_of(piece.as_bytes()) else {
            return Err(ScheduleFault::Bad);
        };
        items.push(item)?;
    }
    Ok(items)
}
