//! A book of reservations: which jobs were granted words of a region, and how many of them each holds.
//!
//! Memory is counted in words. A [`Book`] grants words of a region of a fixed size to jobs, never more than the region
//! has ([`grant`](Book::grant)), and keeps what each job holds within its grant ([`charge`](Book::charge),
//! [`refund`](Book::refund)). A job that holds nothing gives its grant back ([`close`](Book::close)). Contracts see the
//! region's words and, for each job, its grant or none.
#![tactic(auto)]

ghost use Rattle.std.specs.Prelude.{◌≡◌, ◌+◌, ◌-◌, ◌<◌, ◌≤◌, ◌↔◌, length, replicate, Some, None, IsSome};
ghost use Rattle.std.specs.Prelude.{IsTrue, IsErr, IfOk, IfSome, OnOk, OnErr};
ghost use Rattle.reservations.specs.BookState.{IsJob, grant_of, words_granted_to, words_held_by};
ghost use Rattle.reservations.specs.BookState.{granted_words, IsCovered, with_grant, new_grant, with_held};

pub mod laws;

use std::alloc::{AllocError, Allocator};
use std::marker::Model;

/// The most jobs of a book.
pub const MOST_BOOKED: usize = 1 << 30;

/// The words that a job was granted, and how many of them it holds.
#[derive(Clone, Copy, Debug, PartialEq, Eq)]
pub struct Grant {
    /// How many words the job may hold.
    pub words: usize,
    /// How many of them it holds.
    pub held: usize,
}

/// The words can't be granted now: together with those that are granted they are more than the region has.
#[derive(Clone, Copy, Debug, PartialEq, Eq)]
pub struct NotNow;

/// The job's grant is spent: it would hold more words than were granted to it.
#[derive(Clone, Copy, Debug, PartialEq, Eq)]
pub struct Spent;

/// Which jobs have a grant, and what they hold of it.
///
/// The jobs are numbered `1..=jobs()`, and each call that names a job has the condition that it is one of them. All
/// memory is taken when the book is made; no later call goes over all jobs.
#[derive(Debug, Drop)]
pub struct Book<A: Allocator> {
    region: usize,
    /// The words of all grants together.
    granted: usize,
    /// Job 1 first.
    grants: Vec<Option<Grant>, A>,
}

impl<A: Allocator> Model for Book<A> {
    ghost use Rattle.reservations.specs.BookState.{BookState};

    ghost Value = { BookState };

    ghost use Rattle.reservations.specs.Inside.{IsKept};

    ghost view = { λ a. record { region = a.region; grants = a.grants.items } };

    ghost invariant = { λ a. IsKept a.region a.granted a.grants.items };
}

impl<A: Allocator> Book<A> {
    /// A book over a region of `region` words, for jobs `1..=jobs`, none of which has a grant. There are at most
    /// [`MOST_BOOKED`] jobs.
    ///
    /// An error means that the allocator refused the memory.
    pub fn new(alloc: A, region: usize, jobs: usize) -> Result<Self, AllocError>
        requires { jobs ≤ MOST_BOOKED }
        ensures { IfOk result (λ book. book ≡ record { region = region; grants = replicate jobs None }) }
    {
        let grants = vec![in alloc; None; jobs]?;
        Ok(Self {
            region,
            granted: 0,
            grants,
        })
    }

    /// Grants words to a job that has no grant. It holds none of them yet. A grant may be of 0 words.
    ///
    /// `NotNow` exactly if all granted words and these together are more than the region has; then nothing changes.
    pub fn grant(&mut self, job: usize, words: usize) -> Result<(), NotNow>
        requires is_job { IsJob self.old job }
        requires no_grant { grant_of self.old job ≡ None }
        ensures not_now { IsErr result ↔ (self.old.region < granted_words self.old + words) }
        ensures granted { OnOk result (self.new ≡ with_grant self.old job (Some (new_grant words))) }
        ensures unchanged { OnErr result (self.new ≡ self.old) }
    {
        if !self.fits(words) {
            return Err(NotNow);
        }
        self.granted += words;
        self.grants[job - 1] = Some(Grant { words, held: 0 });
        Ok(())
    }

    /// Whether `grant` of this number of words to a job that has no grant would be `Ok` now.
    pub fn fits(&self, words: usize) -> bool
        ensures { IsTrue result ↔ (granted_words self.now + words ≤ self.now.region) }
    {
        words <= self.region - self.granted
    }

    /// A job that has a grant holds `n` words more.
    ///
    /// `Spent` exactly if that is more than its grant; then nothing changes.
    pub fn charge(&mut self, job: usize, n: usize) -> Result<(), Spent>
        requires is_job { IsJob self.old job }
        requires has_grant { IsSome (grant_of self.old job) }
        ensures spent { IsErr result ↔ (words_granted_to self.old job < words_held_by self.old job + n) }
        ensures charged { OnOk result (self.new ≡ with_held self.old job (words_held_by self.old job + n)) }
        ensures unchanged { OnErr result (self.new ≡ self.old) }
    {
        self.exchange(job, 0, n)
    }

    /// A job, which has a grant, holds `n` words less: at most all that it holds.
    #[tactic(auto, using(crate::proofs::Sums::none_refunded))]
    pub fn refund(&mut self, job: usize, n: usize)
        requires is_job { IsJob self.old job }
        requires has_grant { IsSome (grant_of self.old job) }
        requires holds { n ≤ words_held_by self.old job }
        ensures { self.new ≡ with_held self.old job (words_held_by self.old job - n) }
    {
        // Most releases free nothing.
        if n > 0 {
            self.grants[job - 1].as_mut().unwrap().held -= n;
        }
    }

    /// A job that has a grant gives back `back` of the words that it holds, and then holds `n` words more.
    ///
    /// `Spent` exactly if the words that it keeps and these are more than its grant; then nothing changes.
    pub fn exchange(&mut self, job: usize, back: usize, n: usize) -> Result<(), Spent>
        requires is_job { IsJob self.old job }
        requires has_grant { IsSome (grant_of self.old job) }
        requires holds { back ≤ words_held_by self.old job }
        ensures spent { IsErr result ↔ (words_granted_to self.old job < words_held_by self.old job - back + n) }
        ensures exchanged { OnOk result (self.new ≡ with_held self.old job (words_held_by self.old job - back + n)) }
        ensures unchanged { OnErr result (self.new ≡ self.old) }
    {
        let grant = self.grants[job - 1].as_mut().unwrap();
        let kept = grant.held - back;
        if n > grant.words - kept {
            return Err(Spent);
        }
        grant.held = kept + n;
        Ok(())
    }

    /// Ends the grant of a job, which has one and holds none of its words. They can be granted anew.
    pub fn close(&mut self, job: usize)
        requires is_job { IsJob self.old job }
        requires has_grant { IsSome (grant_of self.old job) }
        requires holds_none { words_held_by self.old job ≡ 0 }
        ensures { self.new ≡ with_grant self.old job None }
    {
        let grant = self.grants[job - 1].take().unwrap();
        self.granted -= grant.words;
    }

    /// The words that a job holds: at most its grant's, and 0 without a grant.
    pub fn held(&self, job: usize) -> usize
        requires { IsJob self.now job }
        ensures value { result ≡ words_held_by self.now job }
        ensures within { result ≤ words_granted_to self.now job }
    {
        self.grant_of(job).map_or(0, |grant| grant.held)
    }

    /// A job's grant, if it has one.
    pub fn grant_of(&self, job: usize) -> Option<Grant>
        requires { IsJob self.now job }
        ensures value { result ≡ grant_of self.now job }
        ensures within { IfSome result (λ grant. grant.held ≤ grant.words) }
    {
        self.grants[job - 1]
    }

    /// The words of all grants together, at most the region's.
    pub fn granted(&self) -> usize
        ensures value { result ≡ granted_words self.now }
        ensures covered { IsCovered self.now }
    {
        self.granted
    }

    /// The number of jobs.
    pub fn jobs(&self) -> usize
        ensures { result ≡ length self.now.grants }
    {
        self.grants.len()
    }
}
