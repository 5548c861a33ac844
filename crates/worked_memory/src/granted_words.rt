//! Words of a region that jobs are granted, hold and give back.
ghost use Rattle.std.specs.Prelude.{IsSome};
ghost use Rattle.reservations.specs.BookState.{IsJob, grant_of};

use crate::compare::same;
use crate::granted_words::Call::{Charge, Close, Exchange, Grant, Has, Refund};
use reservations::{self, Book, NotNow, Spent};
use std::alloc::Global;
use std::process::Abort;
use std::test::Fail;

/// A call of a book for a job, with the words and the wanted answer.
#[derive(Clone, Copy)]
enum Call {
    /// For a job that has no grant.
    Grant(usize, usize, Result<(), NotNow>),
    Charge(usize, usize, Result<(), Spent>),
    /// Of words that the job holds.
    Refund(usize, usize),
    /// Words that the job gives back, the words that it takes for them, and the answer.
    Exchange(usize, usize, usize, Result<(), Spent>),
    /// For a job that holds nothing.
    Close(usize),
    /// The job has this grant, and this number of words is granted in all.
    Has(usize, Option<reservations::Grant>, usize),
}

/// The job is one of the book's.
fn is_job(rt: &impl Abort, book: &Book<Global>, job: usize)
    ensures { IsJob book.now job }
{
    assert!(rt; 1 <= job);
    assert!(rt; job <= book.jobs());
}

/// The job is one of the book's, and has a grant.
fn has_grant(rt: &impl Abort, book: &Book<Global>, job: usize)
    ensures is_job { IsJob book.now job }
    ensures has_grant { IsSome (grant_of book.now job) }
{
    is_job(rt, book, job);
    assert!(rt; book.grant_of(job).is_some());
}

fn grants(
    rt: &impl Abort,
    book: &mut Book<Global>,
    job: usize,
    words: usize,
    answer: Result<(), NotNow>,
) {
    is_job(rt, book, job);
    assert!(rt; book.grant_of(job).is_none());
    same(rt, &book.fits(words), &answer.is_ok());
    same(rt, &book.grant(job, words), &answer);
}

fn charges(
    rt: &impl Abort,
    book: &mut Book<Global>,
    job: usize,
    words: usize,
    answer: Result<(), Spent>,
) {
    has_grant(rt, book, job);
    same(rt, &book.charge(job, words), &answer);
}

fn refunds(rt: &impl Abort, book: &mut Book<Global>, job: usize, words: usize) {
    has_grant(rt, book, job);
    assert!(rt; words <= book.held(job));
    book.refund(job, words);
}

fn exchanges(
    rt: &impl Abort,
    book: &mut Book<Global>,
    job: usize,
    back: usize,
    words: usize,
    answer: Result<(), Spent>,
) {
    has_grant(rt, book, job);
    assert!(rt; back <= book.held(job));
    same(rt, &book.exchange(job, back, words), &answer);
}

fn closes(rt: &impl Abort, book: &mut Book<Global>, job: usize) {
    has_grant(rt, book, job);
    assert!(rt; book.held(job) == 0);
    book.close(job);
}

fn has(
    rt: &impl Abort,
    book: &Book<Global>,
    job: usize,
    expected: Option<reservations::Grant>,
    granted: usize,
) {
    is_job(rt, book, job);
    let held = expected.map_or(0, |grant| grant.held);
    same(rt, &book.grant_of(job), &expected);
    same(rt, &book.held(job), &held);
    same(rt, &book.granted(), &granted);
}

/// Makes the calls, one after another.
fn follows(rt: &impl Abort, book: &mut Book<Global>, calls: &[Call]) {
    for call in calls {
        match *call {
            Grant(job, words, answer) => grants(rt, book, job, words, answer),
            Charge(job, words, answer) => charges(rt, book, job, words, answer),
            Refund(job, words) => refunds(rt, book, job, words),
            Exchange(job, back, words, answer) => exchanges(rt, book, job, back, words, answer),
            Close(job) => closes(rt, book, job),
            Has(job, grant, granted) => has(rt, book, job, grant, granted),
        }
    }
}

/// A grant of `words` words, of which `held` are held.
fn grant(words: usize, held: usize) -> Option<reservations::Grant> {
    Some(reservations::Grant { words, held })
}

#[test]
fn grants_up_to_the_region(rt: HostRuntime) -> Result<(), Fail> {
    let mut book = Book::new(rt.alloc(), 10, 3)?;
    same(&rt, &book.jobs(), &3);
    let calls = [
        Has(1, None, 0),
        Grant(1, 11, Err(NotNow)),
        Grant(1, 4, Ok(())),
        Grant(3, 7, Err(NotNow)),
        Has(3, None, 4),
        Grant(3, 6, Ok(())),
        Has(1, grant(4, 0), 10),
        Has(3, grant(6, 0), 10),
        Grant(2, 1, Err(NotNow)),
        Grant(2, 0, Ok(())),
        Has(2, grant(0, 0), 10),
    ];
    follows(&rt, &mut book, &calls);
    Ok(())
}

#[test]
fn charges_up_to_the_grant(rt: HostRuntime) -> Result<(), Fail> {
    let mut book = Book::new(rt.alloc(), 10, 2)?;
    let calls = [
        Grant(1, 5, Ok(())),
        Grant(2, 0, Ok(())),
        Charge(1, 6, Err(Spent)),
        Charge(1, 3, Ok(())),
        Charge(1, 3, Err(Spent)),
        Has(1, grant(5, 3), 5),
        Charge(1, 2, Ok(())),
        Has(1, grant(5, 5), 5),
        Charge(1, 1, Err(Spent)),
        Charge(1, 0, Ok(())),
        Charge(2, 1, Err(Spent)),
        Charge(2, 0, Ok(())),
        Refund(1, 4),
        Has(1, grant(5, 1), 5),
        Charge(1, 4, Ok(())),
    ];
    follows(&rt, &mut book, &calls);
    Ok(())
}

#[test]
fn exchanges_up_to_the_grant(rt: HostRuntime) -> Result<(), Fail> {
    let mut book = Book::new(rt.alloc(), 10, 1)?;
    let calls = [
        Grant(1, 5, Ok(())),
        Charge(1, 5, Ok(())),
        Exchange(1, 3, 4, Err(Spent)),
        Has(1, grant(5, 5), 5),
        Exchange(1, 3, 2, Ok(())),
        Has(1, grant(5, 4), 5),
        Exchange(1, 4, 5, Ok(())),
        Has(1, grant(5, 5), 5),
    ];
    follows(&rt, &mut book, &calls);
    Ok(())
}

#[test]
fn grants_anew_what_was_closed(rt: HostRuntime) -> Result<(), Fail> {
    let mut book = Book::new(rt.alloc(), 10, 2)?;
    let calls = [
        Grant(1, 10, Ok(())),
        Grant(2, 10, Err(NotNow)),
        Charge(1, 10, Ok(())),
        Refund(1, 10),
        Close(1),
        Has(1, None, 0),
        Grant(2, 10, Ok(())),
        Has(2, grant(10, 0), 10),
        Close(2),
        Grant(1, 1, Ok(())),
        Has(1, grant(1, 0), 1),
    ];
    follows(&rt, &mut book, &calls);
    Ok(())
}

#[test]
fn counts_to_the_largest_size(rt: HostRuntime) -> Result<(), Fail> {
    let size = usize::MAX;
    let mut book = Book::new(rt.alloc(), size, 2)?;
    let calls = [
        Grant(1, size, Ok(())),
        Grant(2, 1, Err(NotNow)),
        Charge(1, 2, Ok(())),
        Charge(1, size, Err(Spent)),
        Charge(1, size - 2, Ok(())),
        Has(1, grant(size, size), size),
        Refund(1, size),
        Has(1, grant(size, 0), size),
    ];
    follows(&rt, &mut book, &calls);
    Ok(())
}

#[test]
fn serves_no_job(rt: HostRuntime) -> Result<(), Fail> {
    let book = Book::new(rt.alloc(), 0, 0)?;
    same(&rt, &book.jobs(), &0);
    same(&rt, &book.granted(), &0);
    Ok(())
}
