//! A report on its way to a writer.

ghost use Rattle.std.specs.Prelude.{◌≡◌, ◌+◌, ◌≤◌, ◌↔◌, [], ℕ, List, true, Option};
ghost use Rattle.batch_front.specs.declared.device.TheConstants.{MOST_INTERRUPTIONS};
ghost use Rattle.batch_front.specs.Devices.{interrupts_of, HasWorked};
ghost use Rattle.batch_front.specs.Pages.{Ends, IsSaid, Puts, Sends};

use crate::device::{Device, MOST_INTERRUPTIONS};
use crate::fault::FrontFault;
use crate::transfer::{flush, write_bytes};
use arrayvec::ArrayVec;
use std::io::Write;

/// The most bytes that are kept back.
const MOST_KEPT: usize = 65_536;

/// The bytes of a report that are kept back, to be written together, and how many interruptions were spent before its
/// first byte.
///
/// What is put on a page goes to the writer sooner or later. Nothing that is put is refused: if the writer is at fault,
/// it gets no more of the report, and [`finish`] answers so.
#[derive(Drop)]
pub(crate) struct Page {
    bytes: ArrayVec<u8, MOST_KEPT>,
    spent: u64,
}

impl Page {
    /// An empty page; `spent` interruptions came before it.
    pub(crate) fn new(spent: u64) -> Page
        ensures bytes { result.bytes.items ≡ [] }
        ensures spent { result.spent ≡ spent }
    {
        Page {
            bytes: ArrayVec::new(),
            spent,
        }
    }
}

/// Whether a writer is without a fault, of which `spent` interruptions were spent before.
fn works<W>(writer: &Device<W>, spent: u64) -> bool
    ensures { (result ≡ true) ↔ HasWorked writer.now (interrupts_of writer.now + spent) }
{
    !writer.failed() && writer.interrupts().saturating_add(spent) <= MOST_INTERRUPTIONS
}

/// Writes the bytes, if the writer is without a fault.
#[tactic(auto, using(crate::proofs::PageLemmas::page_ends))]
fn send<W: Write>(writer: &mut Device<W>, bytes: &[u8], spent: u64)
    ensures { Sends W.contents spent bytes.now writer.old writer.new }
{
    if !works(writer, spent) {
        return;
    }
    let _written = write_bytes(writer, bytes, spent);
}

/// Writes what is kept back.
#[tactic(auto, using(crate::proofs::PageLemmas::puts_by))]
fn empty<W: Write>(page: &mut Page, writer: &mut Device<W>)
    ensures bytes { page.new.bytes.items ≡ [] }
    ensures puts { Puts W.contents page.old writer.old page.new writer.new [] }
{
    send(writer, page.bytes.as_slice(), page.spent);
    page.bytes.clear();
}

/// Puts some bytes on an empty page, or writes them at once if they are more than it has room for.
fn put_first<W: Write>(page: &mut Page, writer: &mut Device<W>, text: &[u8])
    requires { page.old.bytes.items ≡ [] }
    ensures { Puts W.contents page.old writer.old page.new writer.new text.now }
{
    if page.bytes.try_extend_from_slice(text).is_err() {
        send(writer, text, page.spent);
    }
}

/// Puts some bytes, after what was put.
pub(crate) fn put<W: Write>(page: &mut Page, writer: &mut Device<W>, text: &[u8])
    ensures { Puts W.contents page.old writer.old page.new writer.new text.now }
{
    if page.bytes.try_extend_from_slice(text).is_err() {
        empty(page, writer);
        put_first(page, writer, text);
    }
}

/// Writes what is kept back, and flushes.
///
/// # Errors
///
/// [`FrontFault::Write`] if the writer is at fault.
pub(crate) fn finish<W: Write>(page: &mut Page, writer: &mut Device<W>) -> Result<(), FrontFault>
    ensures { Ends W.contents page.old writer.old writer.new result }
{
    empty(page, writer);
    if !works(writer, page.spent) {
        return Err(FrontFault::Write);
    }
    flush(writer, page.spent)
}
