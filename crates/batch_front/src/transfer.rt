//! The bytes of a batch in, and those of its report out.

ghost use Rattle.std.specs.Prelude.{◌≡◌, ℕ, ◌+◌, ◌≤◌, true, false, List, [], take, IfOk, OnOk, OnErr, IsErrOf};
ghost use Rattle.std.specs.Io.KnownBytes.{Appends, Keeps};
ghost use Rattle.batch_front.specs.declared.device.TheConstants.{MOST_INTERRUPTIONS};
ghost use Rattle.batch_front.specs.Devices.{inner_of, has_failed, interrupts_of, is_flushed, is_flushing, IsFresh};
ghost use Rattle.batch_front.specs.Devices.{HasWorked, IsAtFault};
ghost use Rattle.batch_reader.specs.Feeds.{HasCome, HasFewJobs};
ghost use Rattle.batch_front.specs.ReportedJobs.{BatchFits};
ghost use Rattle.batch_front.specs.Reads.{AreFirstBytes, IsBatchIn, Reads};

use crate::device::{Device, MOST_INTERRUPTIONS, Trouble};
use crate::fault::FrontFault;
use batch_reader::{Batch, Feed, JobEntries};
use std::alloc::Allocator;
use std::io::{Read, Write};
use vcode_base::limits::MOST_BATCH_BYTES;

/// The most bytes that are read of an input.
const MOST_READ: usize = MOST_BATCH_BYTES + 1;

/// The most bytes of one read.
const PIECE: usize = 65_536;

/// Feeds the first bytes of a reader that was not used: to its end, or one more than a batch may have.
fn feed_all<A: Allocator + Copy, R: Read>(
    reader: &mut Device<R>,
    feed: &mut Feed<A>,
) -> Result<(), FrontFault>
    requires fresh { IsFresh reader.old }
    requires nothing { HasCome feed.old [] }
    ensures bytes { OnOk result ((bytes : List ℕ) × HasCome feed.new bytes
        × AreFirstBytes (R.remaining (inner_of reader.old)) bytes) }
    ensures region { feed.new.lines.region ≡ feed.old.lines.region }
    ensures read { Reads R.remaining reader.old reader.new result }
{
    let mut piece = [0u8; PIECE];
    let mut left = MOST_READ;
    'reads: while left > 0 {
        let room = left.min(PIECE);
        match reader.read(&mut piece[..room]) {
            Ok(0) => return Ok(()),
            Ok(n) => {
                feed.feed(&piece[..n])?;
                left -= n;
            }
            Err(Trouble::Interrupted) => {
                if reader.interrupts() > MOST_INTERRUPTIONS {
                    return Err(FrontFault::Read);
                }
            }
            Err(Trouble::Failed) => return Err(FrontFault::Read),
        }
    }
    Ok(())
}

/// The answer to the first bytes of a reader that was not used: to its end, or one more than a batch may have.
pub(crate) fn read_batch<A: Allocator + Copy, R: Read>(
    alloc: A,
    reader: &mut Device<R>,
    region: u32,
) -> Result<Batch<JobEntries<A>>, FrontFault>
    requires { IsFresh reader.old }
    ensures batch { IfOk result (IsBatchIn region (R.remaining (inner_of reader.old))) }
    ensures few { IfOk result HasFewJobs }
    ensures fits { IfOk result (BatchFits region) }
    ensures read { Reads R.remaining reader.old reader.new result }
{
    let mut feed = Feed::new(alloc, region as usize)?;
    match feed_all(reader, &mut feed) {
        Ok(()) => Ok(feed.end()?),
        Err(fault) => Err(fault),
    }
}

/// Writes all the bytes. `spent` interruptions are spent already, beside those of the writer.
#[tactic(auto, using(crate::proofs::Bytes::appends_more))]
pub(crate) fn write_bytes<W: Write>(
    writer: &mut Device<W>,
    bytes: &[u8],
    spent: u64,
) -> Result<(), FrontFault>
    requires not_failed { has_failed writer.old ≡ false }
    requires spent { interrupts_of writer.old + spent ≤ MOST_INTERRUPTIONS }
    ensures all_written { OnOk result (Appends (W.contents (inner_of writer.old))
        (W.contents (inner_of writer.new)) bytes.now) }
    ensures front_written { (n : ℕ) × Appends (W.contents (inner_of writer.old)) (W.contents (inner_of writer.new))
        (take n bytes.now) }
    ensures writer_worked { OnOk result (HasWorked writer.new (interrupts_of writer.new + spent)) }
    ensures write_fault { OnErr result (IsAtFault writer.new (interrupts_of writer.new + spent)) }
    ensures at_write { OnErr result (is_flushing writer.new ≡ false) }
    ensures write_alone { OnErr result (IsErrOf result FrontFault.Write) }
{
    let mut done = 0;
    'writes: while done < bytes.len() {
        match writer.write(&bytes[done..]) {
            Ok(n) => done += n,
            Err(Trouble::Interrupted) => {
                if writer.interrupts() > MOST_INTERRUPTIONS - spent {
                    return Err(FrontFault::Write);
                }
            }
            Err(Trouble::Failed) => return Err(FrontFault::Write),
        }
    }
    Ok(())
}

/// Flushes. `spent` interruptions are spent already, beside those of the writer.
pub(crate) fn flush<W: Write>(writer: &mut Device<W>, spent: u64) -> Result<(), FrontFault>
    requires not_failed { has_failed writer.old ≡ false }
    requires spent { interrupts_of writer.old + spent ≤ MOST_INTERRUPTIONS }
    ensures nothing_written { Keeps (W.contents (inner_of writer.old)) (W.contents (inner_of writer.new)) }
    ensures flushing { is_flushing writer.new ≡ true }
    ensures flushed { OnOk result (is_flushed writer.new ≡ true) }
    ensures writer_worked { OnOk result (HasWorked writer.new (interrupts_of writer.new + spent)) }
    ensures write_fault { OnErr result (IsAtFault writer.new (interrupts_of writer.new + spent)) }
    ensures write_alone { OnErr result (IsErrOf result FrontFault.Write) }
{
    'flushes: loop {
        match writer.flush() {
            Ok(()) => return Ok(()),
            Err(Trouble::Interrupted) => {
                if writer.interrupts() > MOST_INTERRUPTIONS - spent {
                    return Err(FrontFault::Write);
                }
            }
            Err(Trouble::Failed) => return Err(FrontFault::Write),
        }
    }
}
