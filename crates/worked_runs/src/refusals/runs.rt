//! Whole runs, of which each growth is refused in turn.

use crate::refusals::gates::Closed;
use crate::refusals::heaps::{Heap, MOST_GROWTHS};
use crate::refusals::ways::{Way, ending};
use batch_front::{FrontFault, Status};
use std::alloc::Global;
use std::process::Abort;
use std::sync::Wait;
use std::test::Fail;
use std::thread::Threads;
use test_support::{REPORT_ON_TWELVE, RefusingHeap, TWELVE_JOBS};

/// A run has written the whole report, or it answers that memory was refused, which it was, and has written nothing.
/// Whether it is whole.
fn is_whole(
    rt: &impl Abort,
    heap: &Heap,
    outcome: Result<Status, FrontFault>,
    written: &[u8],
) -> bool {
    match outcome {
        Ok(status) => {
            assert_eq!(rt; (status, written), (Status::SomeNot, REPORT_ON_TWELVE));
            true
        }
        Err(fault) => {
            assert_eq!(rt; (fault, written.len()), (FrontFault::Memory, 0));
            assert!(rt; heap.has_refused());
            false
        }
    }
}

/// The same of a run that way, which keeps no memory.
fn is_whole_or_nothing<R>(rt: &R, heap: &Heap, alloc: Global, way: Way) -> bool
where
    R: Abort + Threads + Wait + Sync,
{
    let (batch, writer) = (TWELVE_JOBS.as_bytes(), Vec::new(alloc));
    let (outcome, written) = ending(rt, heap, way, 64, batch, writer, &Closed);
    let is_whole = is_whole(rt, heap, outcome, written.as_slice());
    drop(written);
    assert_eq!(rt; heap.live_bytes(), 0);
    is_whole
}

/// Runs that way, counting upwards until none is refused memory. How many of them wrote nothing.
fn refused_runs<R>(rt: &R, heap: &Heap, alloc: Global, way: Way) -> Result<u64, Fail>
where
    R: Abort + Threads + Wait + Sync,
{
    let mut refused = 0u64;
    for growth in 1..MOST_GROWTHS {
        heap.refuse(growth);
        if !is_whole_or_nothing(rt, heap, alloc, way) {
            refused = refused.wrapping_add(1);
        }
        if !heap.has_refused() {
            // Others were refused before.
            assert!(rt; growth > 1);
            return Ok(refused);
        }
    }
    Err(Fail::from("a run asks for more growths"))
}

/// What is refused to two lanes is tried once more on the calling thread. So no more runs write nothing than alone.
fn some_are_refused_each_way<R>(rt: &R, heap: &Heap, alloc: Global) -> Result<(), Fail>
where
    R: Abort + Threads + Wait + Sync,
{
    let alone = refused_runs(rt, heap, alloc, Way::Alone)?;
    let by_workers = refused_runs(rt, heap, alloc, Way::ByWorkers)?;
    let on_lanes = refused_runs(rt, heap, alloc, Way::OnTwoLanes)?;
    assert!(rt; alone > 0 && by_workers > 0);
    assert!(rt; on_lanes > 0 && on_lanes <= alone);
    Ok(())
}

#[test]
fn each_growth_of_a_run_is_refused(rt: HostRuntime) -> Result<(), Fail> {
    let heap = RefusingHeap::new(rt.alloc());
    some_are_refused_each_way(&rt, &heap, rt.alloc())
}

#[test]
fn some_growths_of_a_run_on_most_lanes_are_refused(rt: HostRuntime) {
    let heap = RefusingHeap::new(rt.alloc());
    for growth in [1, 30, 60, 90, 120, 150, 180, 210, 240, 270] {
        heap.refuse(growth);
        let _ = is_whole_or_nothing(&rt, &heap, rt.alloc(), Way::OnMostLanes);
    }
}
