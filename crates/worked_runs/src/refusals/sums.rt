//! The most memory of runs, beside the sum of its parts that docs/OPERATING.md gives. The results of the jobs are one
//! block many times.

use crate::refusals::heaps::Heap;
use crate::refusals::ways::{WORKERS, Way, ending};
use batch_front::{NoGate, Status};
use std::alloc::{AllocError, Global};
use std::io::{Result as IoResult, Write};
use std::process::Abort;
use std::sync::Wait;
use std::test::Fail;
use std::thread::Threads;
use test_support::RefusingHeap;

/// The words of the region. One job at a time has room in it.
const REGION: usize = 1_024;

/// How many jobs there are.
const JOBS: usize = 3;

/// The cells of a job, which are its results. Each job has one call.
const CELLS: usize = 256;

/// The words of a result.
const WORDS: usize = 1_000;

/// The bytes of the report.
const REPORT_BYTES: usize = 2_992_308;

/// The sum for a batch of `batch` bytes and this number of desks: the region, its holes, cells and calls, the code
/// and the check of its kinds, desks, results, and the buffer of the report.
fn sum(batch: usize, desks: usize) -> usize {
    let region = 16 * REGION + REGION / 4;
    let jobs = JOBS * (73 * CELLS + 16);
    let code = 21usize.saturating_mul(batch).saturating_add(CELLS);
    let on_desks = (48 * REGION).saturating_mul(desks);
    let results = 8 * WORDS * JOBS;
    (region + jobs + results + 65_536)
        .saturating_add(code)
        .saturating_add(on_desks)
}

/// The sum for a lane: the region and its holes, the numbers of its blocks, a desk, and the cells and the call of its
/// job.
fn on_lane() -> usize {
    16 * REGION + REGION / 4 + 73 * 4_098 + 48 * REGION + 8 * CELLS + 16 + 2_048
}

/// Counts what it is given.
#[derive(Drop)]
struct Counter {
    bytes: usize,
}

impl Write for Counter {
    fn write(&mut self, buf: &[u8]) -> IoResult<usize> {
        self.bytes = self.bytes.saturating_add(buf.len());
        Ok(buf.len())
    }

    fn flush(&mut self) -> IoResult<()> {
        Ok(())
    }
}

/// A job that makes one vector of 1,000 words, copies it 255 times and returns them all: pieces of its text, each as
/// often as its number.
const JOB: [(&[u8], usize); 5] = [
    (b"JOB many 1024 256 1 300\nSIGNATURES\nMAIN () -> (INT", 1),
    (b" INT", CELLS - 1),
    (
        b")\nCODE\nFUNC MAIN\nCONST INT 0\nCONST INT 1\nCONST INT 1000\nMAKE_SEGDES\nINDEX\n",
        1,
    ),
    (b"COPY 1 0\n", CELLS - 1),
    (b"RET\nEND\n", 1),
];

/// Puts a text many times.
fn put_times(batch: &mut Vec<u8>, text: &[u8], times: usize) -> Result<(), AllocError> {
    for _ in 0..times {
        batch.extend_from_slice(text)?;
    }
    Ok(())
}

/// Puts the jobs.
fn put_jobs(batch: &mut Vec<u8>) -> Result<(), AllocError> {
    for _ in 0..JOBS {
        for (text, times) in JOB {
            put_times(batch, text, times)?;
        }
    }
    Ok(())
}

/// A run of this batch that way has written the whole report, took at most this memory, and keeps none.
fn keeps_within<R>(rt: &R, alloc: Global, way: Way, batch: &[u8], most: usize)
where
    R: Abort + Threads + Wait + Sync,
{
    let heap = RefusingHeap::new(alloc);
    let counter = Counter { bytes: 0 };
    let (outcome, counter) = ending(rt, &heap, way, REGION as u32, batch, counter, &NoGate);
    assert_eq!(rt;
        (outcome, counter.bytes),
        (Ok(Status::AllReturned), REPORT_BYTES)
    );
    assert!(rt; heap.peak_bytes() <= most, "{} {most}", heap.peak_bytes());
    assert_eq!(rt; heap.live_bytes(), 0);
}

/// Runs of this batch each way keep within the sum of their parts.
fn all_keep_within<R>(rt: &R, alloc: Global, batch: &[u8])
where
    R: Abort + Threads + Wait + Sync,
{
    let alone = sum(batch.len(), 1);
    keeps_within(rt, alloc, Way::Alone, batch, alone);
    keeps_within(
        rt,
        alloc,
        Way::ByWorkers,
        batch,
        sum(batch.len(), WORKERS + 1),
    );
    let on_lanes = alone.saturating_add(on_lane().saturating_mul(2));
    keeps_within(rt, alloc, Way::OnTwoLanes, batch, on_lanes);
}

/// The same of the jobs, which are put into this batch.
fn jobs_keep_within<R>(rt: &R, alloc: Global, batch: &mut Vec<u8>) -> Result<(), Fail>
where
    R: Abort + Threads + Wait + Sync,
{
    put_jobs(batch)?;
    all_keep_within(rt, alloc, batch.as_slice());
    Ok(())
}

#[test]
fn runs_stay_below_their_sums(rt: HostRuntime) -> Result<(), Fail> {
    let mut batch = Vec::new(rt.alloc());
    jobs_keep_within(&rt, rt.alloc(), &mut batch)
}
