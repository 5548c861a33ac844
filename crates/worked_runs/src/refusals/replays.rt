//! Replays, of which each growth is refused in turn.

use crate::machines::{REGION, machine};
use crate::refusals::heaps::{Heap, HeapMachine, MOST_GROWTHS};
use crate::refusals::snapshots::{Snapshot, both_have_returned, snapshot_of};
use job_machine::{Begun, Desk, Event, ReplayFault, Status};
use std::process::Abort;
use std::test::Fail;
use test_support::{RefusingHeap, TWO_JOBS};

/// The events by which both jobs run in turns and are collected. The first is collected while the second is in flight.
const EVENTS: [Event; 16] = [
    Event::Admit,
    Event::Admit,
    Event::Begin(1),
    Event::Begin(2),
    Event::Finish(2),
    Event::Finish(1),
    Event::Begin(1),
    Event::Begin(2),
    Event::Finish(1),
    Event::Collect(1),
    Event::Finish(2),
    Event::Begin(2),
    Event::Finish(2),
    Event::Begin(2),
    Event::Finish(2),
    Event::Collect(2),
];

/// The places of the events that collect.
const COLLECTIONS: [usize; 2] = [9, 15];

/// The first job of a machine begins a step.
fn begins<'h>(rt: &impl Abort, heap: &'h Heap, machine: &mut HeapMachine<'h>) -> Result<(), Fail> {
    let desk = Desk::new(heap, REGION)?;
    machine.admit();
    let begun = machine.begin(1, desk);
    assert!(rt; matches!(&begun, Begun::Began(_)));
    drop(begun);
    assert_eq!(rt; machine.status(1), Some(Status::InFlight));
    Ok(())
}

/// What a machine shows on which these events were done, and nothing is in flight.
fn snapshot_after(rt: &impl Abort, heap: &Heap, events: &[Event]) -> Result<Snapshot, Fail> {
    let mut machine = machine(heap, TWO_JOBS, REGION)?;
    let replayed = machine.replay(heap, events);
    let shown = snapshot_of(&machine);
    drop(machine);
    assert_eq!(rt; replayed, Ok(()));
    Ok(shown)
}

/// What a machine shows after a replay that was refused memory. None if the replay wasn't.
fn wanted(
    rt: &impl Abort,
    heap: &Heap,
    before: Snapshot,
    refused: Option<ReplayFault>,
) -> Result<Option<Snapshot>, Fail> {
    match refused {
        None => Ok(None),
        Some(ReplayFault::Desks) => Ok(Some(before)),
        Some(ReplayFault::Collect(place)) => {
            assert!(rt; COLLECTIONS.contains(&place));
            let Some(events) = EVENTS.get(..place) else {
                return Err(Fail::from("there are fewer events"));
            };
            Ok(Some(snapshot_after(rt, heap, events)?))
        }
    }
}

/// The memory that a replay is refused, if it is. All is then as it has to be. The first job has begun a step before.
fn refused_replay<'h>(
    rt: &impl Abort,
    heap: &'h Heap,
    machine: &mut HeapMachine<'h>,
    growth: u64,
) -> Result<Option<ReplayFault>, Fail> {
    begins(rt, heap, machine)?;
    let before = snapshot_of(machine);
    heap.refuse(growth);
    let refused = machine.replay(heap, &EVENTS).err();
    assert_eq!(rt; refused.is_some(), heap.has_refused());
    heap.refuse(0);
    match wanted(rt, heap, before, refused)? {
        None => assert!(rt; both_have_returned(machine)),
        Some(wanted) => assert!(rt; snapshot_of(machine) == wanted),
    }
    Ok(refused)
}

/// The same of a machine that is made for it.
fn refused_replay_of_new(
    rt: &impl Abort,
    heap: &Heap,
    growth: u64,
) -> Result<Option<ReplayFault>, Fail> {
    let mut machine = machine(heap, TWO_JOBS, REGION)?;
    let refused = refused_replay(rt, heap, &mut machine, growth);
    drop(machine);
    refused
}

/// Machines over a heap replay, counting upwards until none is refused memory.
fn machines_replay(rt: &impl Abort, heap: &Heap) -> Result<(), Fail> {
    let mut last = None;
    for growth in 1..MOST_GROWTHS {
        let refused = refused_replay_of_new(rt, heap, growth)?;
        if refused.is_none() {
            assert_eq!(rt; last, Some(ReplayFault::Collect(COLLECTIONS[1])));
            return Ok(());
        }
        last = refused;
    }
    Err(Fail::from("a replay asks for more growths"))
}

#[test]
fn each_growth_of_a_replay_is_refused(rt: HostRuntime) -> Result<(), Fail> {
    let heap = RefusingHeap::new(rt.alloc());
    machines_replay(&rt, &heap)
}
