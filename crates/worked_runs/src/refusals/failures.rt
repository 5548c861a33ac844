//! Whole runs from readers and to writers that fail, on the calling thread, by workers and on lanes.
use crate::refusals::batches::{ONE_JOB, REPORT_ON_ONE};
use crate::refusals::devices::{Failure, Reader, Writer};
use crate::refusals::ways::{WAYS, Way, ending};
use batch_front::{FrontFault, NoGate, Status};
use std::alloc::Global;
use std::process::Abort;
use std::sync::Wait;
use std::thread::Threads;

/// What goes wrong with the devices of a run.
#[derive(Clone, Copy)]
struct Trouble {
    /// How often reads, writes and the flush are interrupted at first.
    reads: u32,
    writes: u32,
    flushes: u32,
    /// The read that fails, or 0.
    read_fails: usize,
    /// How the writer fails.
    failure: Failure,
}

impl Trouble {
    /// Nothing goes wrong.
    const NONE: Trouble = Trouble {
        reads: 0,
        writes: 0,
        flushes: 0,
        read_fails: 0,
        failure: Failure::Never,
    };

    /// Only this goes wrong with the writer.
    fn of_writer(failure: Failure) -> Trouble {
        Trouble {
            failure,
            ..Trouble::NONE
        }
    }

    fn reader(self) -> Reader {
        Reader {
            reads: 0,
            given: 0,
            interrupts: self.reads,
            fails_at: self.read_fails,
        }
    }

    fn writer(self, alloc: Global) -> Writer {
        Writer {
            taken: Vec::new(alloc),
            interrupts: self.writes,
            flush_interrupts: self.flushes,
            failure: self.failure,
        }
    }
}

/// The answer of a run with this trouble, and what was written.
fn ending_with<R>(
    rt: &R,
    alloc: Global,
    way: Way,
    trouble: Trouble,
) -> (Result<Status, FrontFault>, Vec<u8>)
where
    R: Threads + Wait + Sync,
{
    let (reader, writer) = (trouble.reader(), trouble.writer(alloc));
    let (outcome, writer) = ending(rt, alloc, way, 64, reader, writer, &NoGate);
    let Writer { taken, .. } = writer;
    (outcome, taken)
}

/// Each way a run with this trouble ends so, and has written this.
fn ends<R>(
    rt: &R,
    alloc: Global,
    trouble: Trouble,
    outcome: Result<Status, FrontFault>,
    report: &[u8],
)
where
    R: Abort + Threads + Wait + Sync,
{
    for way in WAYS {
        let (ended, written) = ending_with(rt, alloc, way, trouble);
        assert_eq!(rt; (ended, written.as_slice()), (outcome, report));
        drop(written);
    }
}

#[test]
fn each_read_fails(rt: HostRuntime) {
    // The read after the last byte would give the end.
    for read_fails in 1..ONE_JOB.len() + 2 {
        let trouble = Trouble {
            read_fails,
            ..Trouble::NONE
        };
        ends(&rt, rt.alloc(), trouble, Err(FrontFault::Read), b"");
    }
}

#[test]
fn each_write_fails_or_takes_nothing(rt: HostRuntime) {
    for taken in 0..REPORT_ON_ONE.len() {
        let front = &REPORT_ON_ONE[..taken];
        for failure in [Failure::Fails(taken), Failure::TakesNone(taken)] {
            let trouble = Trouble::of_writer(failure);
            ends(&rt, rt.alloc(), trouble, Err(FrontFault::Write), front);
        }
    }
}

#[test]
fn a_flush_fails(rt: HostRuntime) {
    let trouble = Trouble::of_writer(Failure::AtFlush);
    ends(
        &rt,
        rt.alloc(),
        trouble,
        Err(FrontFault::Write),
        REPORT_ON_ONE,
    );
}

/// How often reads, writes and the flush are interrupted, and the answer of a run then and what it has written.
type Interruptions = (u32, u32, u32, Result<Status, FrontFault>, &'static [u8]);

const WHOLE: Result<Status, FrontFault> = Ok(Status::AllReturned);

/// 64 interruptions change nothing. The next one is the fault of its side.
const INTERRUPTIONS: [Interruptions; 9] = [
    (64, 0, 0, WHOLE, REPORT_ON_ONE),
    (0, 64, 0, WHOLE, REPORT_ON_ONE),
    (0, 0, 64, WHOLE, REPORT_ON_ONE),
    (20, 21, 23, WHOLE, REPORT_ON_ONE),
    (65, 0, 0, Err(FrontFault::Read), b""),
    (0, 65, 0, Err(FrontFault::Write), b""),
    (30, 35, 0, Err(FrontFault::Write), b""),
    (0, 0, 65, Err(FrontFault::Write), REPORT_ON_ONE),
    (20, 21, 24, Err(FrontFault::Write), REPORT_ON_ONE),
];

#[test]
fn interruptions_add_up(rt: HostRuntime) {
    for (reads, writes, flushes, outcome, report) in INTERRUPTIONS {
        let trouble = Trouble {
            reads,
            writes,
            flushes,
            ..Trouble::NONE
        };
        ends(&rt, rt.alloc(), trouble, outcome, report);
    }
}
