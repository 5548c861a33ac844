//! A whole run, from the bytes of a batch to those of its report, whose jobs two workers run at once.

use crate::fronts::meeting::Meeting;
use crate::machines::REGION;
use batch_front::{Device, FrontFault, Gate, Options, Status, run};
use std::alloc::Global;
use std::sync::Wait;
use std::thread::Threads;
use test_support::TWO_JOBS;

const REPORT_ON_TWO: &[u8] = b"JOB 1 one RETURNED\nINT (7)\nUSED 2 instructions 1 words\n\
    JOB 2 two RETURNED\nINT (3)\nUSED 4 instructions 3 words\nEND 2 jobs 0 refused\n";

/// The answer of a run of the two jobs by two workers, and what was written.
fn ending<H, G>(rt: &H, alloc: Global, gate: &G) -> (Result<Status, FrontFault>, Vec<u8>)
where
    H: Threads + Wait + Sync,
    G: Gate + Sync,
{
    let options = Options {
        region: REGION as u32,
        workers: 2,
        lanes: 1,
        schedule: None,
    };
    let mut reader = Device::new(TWO_JOBS);
    let mut writer = Device::new(Vec::new(alloc));
    let outcome = run(rt, alloc, &mut reader, &mut writer, &options, gate);
    drop(options);
    (outcome, writer.into_inner())
}

#[test]
fn two_workers_compute_at_once(rt: HostRuntime) {
    let gate = Meeting::new(&rt);
    let (outcome, report) = ending(&rt, rt.alloc(), &gate);
    assert_eq!(rt;
        (outcome, report.as_slice()),
        (Ok(Status::AllReturned), REPORT_ON_TWO)
    );
    drop(report);
    gate.has_let_pass(&rt, 6);
}
