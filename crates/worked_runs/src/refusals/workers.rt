//! Runs of a machine by two workers, of which each growth is refused in turn.

use crate::machines::{REGION, machine};
use crate::refusals::gates::Closed;
use crate::refusals::heaps::{Heap, HeapMachine, MOST_GROWTHS};
use crate::refusals::snapshots::both_have_returned;
use std::process::Abort;
use std::sync::Wait;
use std::test::Fail;
use std::thread::Threads;
use step_scheduler::{RunFault, Tally, run_workers};
use test_support::{RefusingHeap, TWO_JOBS};

/// The instructions that the two jobs execute.
const EXECUTED: u64 = 6;

/// What the workers have executed.
fn by_workers(tally: &Tally<&Heap>) -> u64 {
    let mut sum = 0u64;
    for count in &tally.workers {
        sum = sum.wrapping_add(*count);
    }
    sum
}

/// Both jobs have returned, and what was executed is counted once. What the calling thread executed.
fn caller_of(rt: &impl Abort, machine: HeapMachine<'_>, tally: Tally<&Heap>) -> u64 {
    assert!(rt; both_have_returned(&machine));
    drop(machine);
    let caller = tally.caller;
    assert_eq!(rt; by_workers(&tally).wrapping_add(caller), EXECUTED);
    drop(tally);
    caller
}

/// How many instructions the calling thread executes beside two workers that run the two jobs, or None if the run
/// answers that memory was refused.
fn by_caller<R>(rt: &R, heap: &Heap, growth: u64) -> Result<Option<u64>, Fail>
where
    R: Abort + Threads + Wait + Sync,
{
    let machine = machine(heap, TWO_JOBS, REGION)?;
    heap.refuse(growth);
    match run_workers(rt, heap, machine, 2, &Closed) {
        Ok((machine, tally)) => Ok(Some(caller_of(rt, machine, tally))),
        Err(fault) => {
            assert_eq!(rt; (fault, heap.has_refused()), (RunFault::Memory, true));
            Ok(None)
        }
    }
}

/// Two workers run the jobs of machines over a heap. In each run a later growth is refused, until none is. If the last
/// collection is refused memory, the calling thread tries it once more.
///
/// The calling thread executes nothing either if memory for the desk of one of the workers is refused. So two of the
/// refusals show nothing.
fn workers_run<R>(rt: &R, heap: &Heap) -> Result<(), Fail>
where
    R: Abort + Threads + Wait + Sync,
{
    let mut tried_again = 0u32;
    for growth in 1..MOST_GROWTHS {
        let caller = by_caller(rt, heap, growth)?;
        assert_eq!(rt; heap.live_bytes(), 0);
        if !heap.has_refused() {
            assert!(rt; tried_again > 2);
            return Ok(());
        }
        if caller == Some(0) {
            tried_again = tried_again.wrapping_add(1);
        }
    }
    Err(Fail::from("a run asks for more growths"))
}

#[test]
fn a_refused_collection_is_tried_once_more(rt: HostRuntime) -> Result<(), Fail> {
    let heap = RefusingHeap::new(rt.alloc());
    workers_run(&rt, &heap)
}
