//! Batches of VCODE jobs, run inside a program of another language: the bytes of a batch in, those of its report out.
//!
//! The library has no state and starts no thread. `embed/vjobs.h` declares its only call for C.
#![tactic(auto)]

ghost use Rattle.std.specs.Prelude.{◌≡◌, ◌≢◌, ◌≤◌, ◌++◌, [], length, drop, List, Some, IfOk};
ghost use Rattle.batch_reader.specs.declared.entry.Batch.{Batch};
ghost use Rattle.batch_reader.specs.Fates.{JobEntry, IsBatch};
ghost use Rattle.batch_front.specs.Inputs.{first_bytes};
ghost use Rattle.batch_front.specs.Reports.{report_of, status_of};
ghost use Rattle.batch_front.specs.Runs.{WritesReport};
ghost use Rattle.vjobs_embed.specs.declared.TheConstants.{BAD_REGION, NO_MEMORY};
ghost use Rattle.vjobs_embed.specs.Calls.{IsRegion, delivered, untouched};

use batch_front::{Device, FrontFault, Options, Status, exit_status, run_alone};
use std::alloc::Global;
use vcode_base::limits::MOST_WORDS;

/// The answer if memory was refused.
const NO_MEMORY: u32 = 3;

/// The answer if the report is longer than the buffer.
const TOO_SMALL: u32 = 4;

/// The answer if a region can't have this number of words.
const BAD_REGION: u32 = 5;

/// Runs a batch over a region of `region` words, on the calling thread, and writes its report to the front of a buffer.
///
/// `needed` becomes the length of the report, and 0 if there is none. The answer is
///
/// - 0 if every job returned, 1 if some didn't, 2 if the batch was refused: the report was written, and what the buffer
///   has after it is as before;
/// - 3 if memory was refused, and 5 if the region has no word, or more than
///   [`MOST_WORDS`](vcode_base::limits::MOST_WORDS): there is no report, and the buffer is as before;
/// - 4 if the report is longer than the buffer, which is as before. Another call with a buffer of `needed` bytes has
///   room.
#[unsafe(no_mangle)]
pub extern "C" fn vjobs_run(
    alloc: Global,
    batch: &[u8],
    region: u32,
    out: &mut [u8],
    needed: &mut usize,
) -> u32
    ensures bad_region { (IsRegion region → ⊥) →
        record { status = result; needed = needed.new; out = out.new } ≡ untouched BAD_REGION out.old }
    ensures out_of_memory { result ≡ NO_MEMORY →
        record { status = result; needed = needed.new; out = out.new } ≡ untouched NO_MEMORY out.old }
    // The report and the status are those that the definitions give for the batch.
    ensures report { IsRegion region → result ≢ NO_MEMORY →
        (b : Batch (List JobEntry)) × IsBatch region (first_bytes batch.now) b ×
        (record { status = result; needed = needed.new; out = out.new }
        ≡ delivered (report_of b) (status_of b) out.old) }
{
    *needed = 0;
    if region == 0 {
        return BAD_REGION;
    }
    if region as usize > MOST_WORDS {
        return BAD_REGION;
    }
    match report_and_status(alloc, batch, region) {
        Ok((report, status)) => {
            *needed = report.len();
            deliver(&report, status, out)
        }
        Err(_) => NO_MEMORY,
    }
}

/// The report of a batch, and its status.
fn report_and_status(
    alloc: Global,
    batch: &[u8],
    region: u32,
) -> Result<(Vec<u8>, Status), FrontFault>
    requires { IsRegion region }
    ensures { IfOk result (λ r. WritesReport region (Some batch.now) (Some []) (Some r.0.items) r.1) }
{
    let options = Options {
        region,
        workers: 1,
        lanes: 1,
        schedule: None,
    };
    let mut reader = Device::new(batch);
    let mut writer = Device::new(Vec::new(alloc));
    let status = run_alone(alloc, &mut reader, &mut writer, &options)?;
    Ok((writer.into_inner(), status))
}

/// Writes a report to the front of a buffer, if it has room. Answers what the call answers.
#[tactic(auto, using(crate::proofs::EmbedLemmas::of_delivered))]
fn deliver(report: &[u8], status: Status, out: &mut [u8]) -> u32
    ensures left { record { status = result; needed = length report.now; out = out.new }
        ≡ delivered report.now status out.old }
    ensures memory { result ≢ NO_MEMORY }
{
    if report.len() > out.len() {
        return TOO_SMALL;
    }
    put(report, out);
    u32::from(exit_status(&Ok(status)))
}

/// Writes bytes to the front of a buffer.
fn put(bytes: &[u8], out: &mut [u8])
    requires { length bytes.now ≤ length out.old }
    ensures { out.new ≡ bytes.now ++ drop (length bytes.now) out.old }
{
    out[..bytes.len()].copy_from_slice(bytes);
}
