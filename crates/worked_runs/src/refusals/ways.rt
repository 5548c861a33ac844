//! Ways to run a batch.

ghost use Rattle.std.specs.Prelude.{◌≤◌};
ghost use Rattle.vcode_base.specs.declared.limits.TheConstants.{MOST_WORDS};

use batch_front::{Device, FrontFault, Gate, Options, Status, run, run_alone};
use std::alloc::Allocator;
use std::io::{Read, Write};
use std::sync::Wait;
use std::thread::Threads;

/// Which threads run the jobs.
#[derive(Clone, Copy)]
pub enum Way {
    /// The calling thread.
    Alone,
    /// [`WORKERS`] workers.
    ByWorkers,
    /// Two lanes.
    OnTwoLanes,
    /// As many lanes as there may be.
    OnMostLanes,
}

/// The ways that differ in more than a number.
pub const WAYS: [Way; 3] = [Way::Alone, Way::ByWorkers, Way::OnTwoLanes];

/// How many workers there are, beside the calling thread.
pub const WORKERS: usize = 2;

/// The answer of a run over a region of `region` words, and the writer after it.
pub(crate) fn ending<R, A, I, O, G>(
    rt: &R,
    alloc: A,
    way: Way,
    region: u32,
    reader: I,
    writer: O,
    gate: &G,
) -> (Result<Status, FrontFault>, O)
where
    R: Threads + Wait + Sync,
    A: Allocator + Copy + Send + Sync,
    I: Read + Drop,
    O: Write + Drop,
    G: Gate + Sync,
    requires { (1 ≤ region) × (region ≤ MOST_WORDS) }
{
    let lanes = match way {
        Way::Alone | Way::ByWorkers => 1,
        Way::OnTwoLanes => 2,
        Way::OnMostLanes => 16,
    };
    let options = Options {
        region,
        workers: WORKERS as u32,
        lanes,
        schedule: None,
    };
    let mut reader = Device::new(reader);
    let mut writer = Device::new(writer);
    let outcome = match way {
        Way::Alone => run_alone(alloc, &mut reader, &mut writer, &options),
        _ => run(rt, alloc, &mut reader, &mut writer, &options, gate),
    };
    drop(options);
    drop(reader);
    (outcome, writer.into_inner())
}
