//! Calls that make memories and machines, and calls on machines, of which each growth is refused in turn.

use crate::machines::{REGION, jobs, machine};
use crate::refusals::heaps::{Heap, HeapMachine, MOST_GROWTHS};
use crate::refusals::memories::{is_made, is_region_made, is_sliding_region_made};
use crate::refusals::snapshots::{Snapshot, both_have_returned, first_has_returned, snapshot_of};
use job_machine::{Begun, Desk, Event, Machine, Status};
use std::process::Abort;
use std::test::Fail;
use test_support::{RefusingHeap, TWO_JOBS};

/// Whether a machine was made of the two jobs.
fn is_machine_made(rt: &impl Abort, heap: &Heap, growth: u64) -> Result<bool, Fail> {
    let (rule, jobs) = jobs(heap, TWO_JOBS, REGION)?;
    heap.refuse(growth);
    Ok(is_made(rt, heap, Machine::new(heap, REGION, jobs, rule)))
}

/// The events by which the first job of two ends, while a step of the second is in flight.
const ENDED_AND_IN_FLIGHT: [Event; 6] = [
    Event::Admit,
    Event::Begin(1),
    Event::Finish(1),
    Event::Begin(1),
    Event::Finish(1),
    Event::Admit,
];

/// The first job of a machine returns, and the second begins a step.
fn ends_and_begins<'h>(
    rt: &impl Abort,
    heap: &'h Heap,
    machine: &mut HeapMachine<'h>,
) -> Result<(), Fail> {
    let desk = Desk::new(heap, REGION)?;
    assert_eq!(rt; machine.replay(heap, &ENDED_AND_IN_FLIGHT), Ok(()));
    let begun = machine.begin(2, desk);
    assert!(rt; matches!(&begun, Begun::Began(_)));
    drop(begun);
    assert_eq!(rt; machine.status(1), Some(Status::Ended));
    assert_eq!(rt; machine.status(2), Some(Status::InFlight));
    Ok(())
}

/// Whether the first job is collected at once. If not, all is as it was, and the job is collected by a second call.
fn is_collected(rt: &impl Abort, heap: &Heap, machine: &mut HeapMachine<'_>, growth: u64) -> bool {
    let before = snapshot_of(machine);
    heap.refuse(growth);
    let collected = machine.collect(1);
    let is_collected = collected == Ok(true);
    assert_eq!(rt; is_collected, !heap.has_refused());
    heap.refuse(0);
    if !is_collected {
        assert!(rt; snapshot_of(machine) == before);
        assert_eq!(rt; machine.collect(1), Ok(true));
    }
    assert_eq!(rt; machine.status(1), Some(Status::Collected));
    assert!(rt; first_has_returned(machine));
    is_collected
}

/// The jobs of a machine are listed. A list takes no memory, so that it is never refused.
fn is_listed(rt: &impl Abort, heap: &Heap, machine: &HeapMachine<'_>) -> Result<(), Fail> {
    let before = snapshot_of(machine);
    heap.refuse(1);
    let list = machine.list()?;
    let is_held = machine.holds(list.as_slice());
    drop(list);
    assert!(rt; is_held && heap.growths() == 0);
    assert!(rt; snapshot_of(machine) == before);
    heap.refuse(0);
    Ok(())
}

/// Whether the jobs of a machine are run out, while the growth of this number is refused.
fn runs_out<'h>(heap: &'h Heap, machine: &mut HeapMachine<'h>, growth: u64) -> Result<bool, Fail> {
    let desk = Desk::new(heap, machine.most_words())?;
    heap.refuse(growth);
    let (ran, desk) = machine.run_out(desk);
    drop(desk);
    Ok(ran.is_ok())
}

/// Whether a job of a machine that was refused memory has ended, no step is in flight, and what was done before is
/// kept: either the first job has ended and the second is as before its step, or the first is collected and the second
/// has ended.
fn has_stopped(machine: &HeapMachine<'_>) -> bool {
    let Snapshot { first, second, .. } = snapshot_of(machine);
    if first.is(Status::Ended, 2) {
        return second.is(Status::Live, 0);
    }
    first.is(Status::Collected, 2) && second.is(Status::Ended, 4)
}

/// Whether the jobs are run out at once. If not, no step is in flight, a job has ended, and a second call runs them
/// out.
fn are_run_out<'h>(
    rt: &impl Abort,
    heap: &'h Heap,
    machine: &mut HeapMachine<'h>,
    growth: u64,
) -> Result<bool, Fail> {
    let are_run_out = runs_out(heap, machine, growth)?;
    assert_eq!(rt; are_run_out, !heap.has_refused());
    if !are_run_out {
        assert!(rt; has_stopped(machine));
        let are_run_out = runs_out(heap, machine, 0)?;
        assert!(rt; are_run_out);
    }
    assert!(rt; both_have_returned(machine));
    heap.refuse(0);
    Ok(are_run_out)
}

/// A call whose growths are refused.
#[derive(Clone, Copy)]
enum Call {
    MakeRegion,
    MakeSlidingRegion,
    MakeMachine,
    Collect,
    RunOut,
}

const CALLS: [Call; 5] = [
    Call::MakeRegion,
    Call::MakeSlidingRegion,
    Call::MakeMachine,
    Call::Collect,
    Call::RunOut,
];

/// Whether a call on a machine, whose first job ends while the second has begun a step, is done at once.
fn is_done_on<'h>(
    rt: &impl Abort,
    heap: &'h Heap,
    machine: &mut HeapMachine<'h>,
    call: Call,
    growth: u64,
) -> Result<bool, Fail> {
    ends_and_begins(rt, heap, machine)?;
    is_listed(rt, heap, machine)?;
    match call {
        Call::Collect => Ok(is_collected(rt, heap, machine, growth)),
        _ => are_run_out(rt, heap, machine, growth),
    }
}

/// The same of a machine that is made for it.
fn is_done_on_new(rt: &impl Abort, heap: &Heap, call: Call, growth: u64) -> Result<bool, Fail> {
    let mut machine = machine(heap, TWO_JOBS, REGION)?;
    let is_done = is_done_on(rt, heap, &mut machine, call, growth);
    drop(machine);
    is_done
}

/// Whether a call is done at once. If not, memory was refused.
fn is_done(rt: &impl Abort, heap: &Heap, call: Call, growth: u64) -> Result<bool, Fail> {
    match call {
        Call::MakeRegion => Ok(is_region_made(rt, heap, growth)),
        Call::MakeSlidingRegion => Ok(is_sliding_region_made(rt, heap, growth)),
        Call::MakeMachine => is_machine_made(rt, heap, growth),
        Call::Collect | Call::RunOut => is_done_on_new(rt, heap, call, growth),
    }
}

/// A call is made, counting upwards until it isn't refused memory.
fn is_refused_and_done(rt: &impl Abort, heap: &Heap, call: Call) -> Result<(), Fail> {
    for growth in 1..MOST_GROWTHS {
        if is_done(rt, heap, call, growth)? {
            // Others were refused before.
            assert!(rt; growth > 1);
            return Ok(());
        }
    }
    Err(Fail::from("a call asks for more growths"))
}

/// The same of each call.
fn all_are_refused_and_done(rt: &impl Abort, heap: &Heap) -> Result<(), Fail> {
    for call in CALLS {
        is_refused_and_done(rt, heap, call)?;
    }
    Ok(())
}

#[test]
fn each_growth_of_a_call_is_refused(rt: HostRuntime) -> Result<(), Fail> {
    let heap = RefusingHeap::new(rt.alloc());
    all_are_refused_and_done(&rt, &heap)
}
