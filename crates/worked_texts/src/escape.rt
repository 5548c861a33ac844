//! Texts with escapes.
//!
//! `\n`, `\t`, `\r`, `\0`, `\\` and `\xNN` are each a byte. `\[64 IF \]` is the text between the
//! blank after the number and `\]`, repeated that number of times; `\#` in it is the number of the time, from 0.

ghost use Rattle.std.specs.Prelude.{◌≤◌, IfOk, vec_len};

use crate::fault::CaseFault;
use bstr::ByteVec;
use std::alloc::{AllocError, Global};

/// The most bytes that a text of a case has.
pub const MOST_BYTES: usize = 1_000_000;

/// The bytes of a text with escapes. Those of a text that is too long are no case.
pub fn bytes_of(alloc: Global, text: &str) -> Result<Vec<u8>, CaseFault>
    ensures { IfOk result (λ bytes. vec_len bytes ≤ MOST_BYTES) }
{
    let written = written_out(alloc, text)?;
    let bytes = Vec::unescape_bytes(alloc, written.as_str())?;
    if bytes.len() > MOST_BYTES {
        return Err(CaseFault::NoCase);
    }
    Ok(bytes)
}

/// The text with its repetitions written out.
fn written_out(alloc: Global, text: &str) -> Result<String, CaseFault> {
    let mut parts = text.split("\\[");
    let mut written = String::from_str(alloc, parts.next().unwrap_or(""))?;
    for part in parts {
        let (count, repeated, behind) = repetition(part).ok_or(CaseFault::NoCase)?;
        for number in 0..count {
            put_once(&mut written, repeated, number)?;
        }
        written.push_str(behind)?;
    }
    Ok(written)
}

/// How often something is repeated, that text, and the text after it.
fn repetition(part: &str) -> Option<(u32, &str, &str)> {
    let (within, behind) = part.split_once("\\]")?;
    let (count, repeated) = within.split_once(' ')?;
    Some((count.parse().ok()?, repeated, behind))
}

/// Appends what is repeated, for the time of this number.
fn put_once(written: &mut String, repeated: &str, number: u32) -> Result<(), AllocError> {
    let mut parts = repeated.split("\\#");
    written.push_str(parts.next().unwrap_or(""))?;
    for part in parts {
        write!(written, "{number}")?;
        written.push_str(part)?;
    }
    Ok(())
}
