//! Steps of the machine under the lock.
//!
//! A worker's ticket is known by its type to be one of that machine: it asks what the run of its job asks at its
//! number. So the machine commits its step without comparing operands.

ghost use Rattle.std.specs.Coded.{Coded-set, coded_option, codes};
ghost use Rattle.std.specs.Prelude.{◌≡◌, Some};
ghost use Rattle.job_machine.specs.Machines.{asked_in};
ghost use Rattle.step_scheduler.specs.Owned.{IsOwn, question_code};

use crate::guarded::Opening;
use job_machine::{Filled, Ticket, compute};
use std::alloc::Allocator;
use std::marker::PhantomData;

/// A step that has begun on the machine of a run.
#[derive(Drop)]
pub(crate) struct OwnTicket<L: Opening, A: Allocator> {
    pub(crate) ticket: Ticket<A>,
    of: PhantomData<L>,
    ghost own: { asked_in L.given_tasks ticket.job ticket.step ≡ Some ticket.question } by { Coded-set
        (coded_option (question_code (Prim.hlevel codes)))
        (asked_in L.given_tasks ticket.job ticket.step) (Some ticket.question) },
}

/// A step that has begun on the machine of a run, computed.
#[derive(Drop)]
pub(crate) struct OwnFilled<L: Opening, A: Allocator> {
    pub(crate) filled: Filled<A>,
    of: PhantomData<L>,
    ghost own: { asked_in L.given_tasks filled.job filled.step ≡ Some filled.question } by { Coded-set
        (coded_option (question_code (Prim.hlevel codes)))
        (asked_in L.given_tasks filled.job filled.step) (Some filled.question) },
}

impl<L: Opening, A: Allocator> OwnTicket<L, A> {
    pub(crate) fn new(ticket: Ticket<A>) -> OwnTicket<L, A>
        requires { IsOwn L.given_tasks ticket }
        ensures { result.ticket ≡ ticket }
    {
        OwnTicket {
            ticket,
            of: PhantomData,
        }
    }

    /// Computes the step.
    pub(crate) fn compute(self) -> OwnFilled<L, A>
        ensures { result.filled ≡ self.ticket }
    {
        let OwnTicket { ticket, of } = self;
        let filled = compute(ticket);
        OwnFilled { filled, of }
    }
}

impl<L: Opening, A: Allocator> OwnFilled<L, A> {
    /// The computed step alone.
    pub(crate) fn into_filled(self) -> Filled<A>
        ensures same { result ≡ self.filled }
        ensures own { IsOwn L.given_tasks result }
    {
        let OwnFilled { filled, .. } = self;
        filled
    }
}
