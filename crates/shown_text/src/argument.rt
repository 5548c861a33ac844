//! A program's arguments.
ghost use Rattle.std.specs.Prelude.{IfErr};
ghost use Rattle.shown_text.specs.Faults.{ShowsNoText};

use crate::shown;
use std::alloc::{AllocError, AllocFailed, AllocGlobal};
use std::env::FillError;
use std::rt::Env;
use thiserror::Error;

/// The bytes that an argument is given room for at first.
const FIRST_ROOM: usize = 256;

/// Why a program's arguments can't be had as texts.
#[derive(Debug, Drop, Error)]
pub enum ArgumentFault {
    /// The argument of this number is no UTF-8. It is given as it may be printed.
    #[error("argument {0} is no UTF-8: {1}")]
    NotText(usize, String),
    /// A growth of memory was refused.
    #[error("out of memory")]
    Memory,
}

impl From<AllocError> for ArgumentFault {
    ghost use Rattle.std.specs.Prelude.{◌≡◌};
    ghost use Rattle.shown_text.specs.declared.argument.ArgumentFault.TheVariants.{Memory};

    ghost from_gives = { λ _ fault. fault ≡ Memory };

    fn from(_: AllocError) -> ArgumentFault {
        ArgumentFault::Memory
    }
}

impl<T: Drop> From<AllocFailed<T>> for ArgumentFault {
    ghost use Rattle.std.specs.Prelude.{◌≡◌};
    ghost use Rattle.shown_text.specs.declared.argument.ArgumentFault.TheVariants.{Memory};

    ghost from_gives = { λ _ fault. fault ≡ Memory };

    fn from(_: AllocFailed<T>) -> ArgumentFault {
        ArgumentFault::Memory
    }
}

/// The bytes of the argument of this number, if there is one.
fn argument<R: Env + AllocGlobal>(rt: &R, number: usize) -> Result<Option<Vec<u8>>, AllocError> {
    let mut room = FIRST_ROOM;
    for _ in 0..usize::BITS {
        let mut bytes = Vec::new(rt.alloc());
        bytes.resize(room, 0u8)?;
        match rt.arg(number, bytes.as_mut_slice()) {
            Ok(len) => {
                bytes.truncate(len);
                return Ok(Some(bytes));
            }
            Err(FillError::NotPresent) => return Ok(None),
            Err(FillError::TooLong) => room = room.saturating_mul(2),
        }
    }
    Err(AllocError)
}

/// The bytes of the argument of this number as a text.
fn text_of<R: AllocGlobal>(rt: &R, number: usize, bytes: Vec<u8>) -> Result<String, ArgumentFault>
    ensures { IfErr result ShowsNoText }
{
    match String::from_utf8(bytes) {
        Ok(text) => Ok(text),
        Err(error) => {
            let text = shown(rt.alloc(), error.as_bytes())?;
            Err(ArgumentFault::NotText(number, text))
        }
    }
}

/// The arguments of the program as texts. The first, of number 0, is the name by which the program was called.
///
/// # Errors
///
/// [`ArgumentFault::NotText`] for the first argument that is no UTF-8, and [`ArgumentFault::Memory`] if a growth was
/// refused.
pub fn arguments<R: Env + AllocGlobal>(rt: &R) -> Result<Vec<String>, ArgumentFault>
    ensures { IfErr result ShowsNoText }
{
    let mut texts = Vec::new(rt.alloc());
    for number in 0..usize::MAX {
        let Some(bytes) = argument(rt, number)? else {
            break;
        };
        texts.push(text_of(rt, number, bytes)?)?;
    }
    Ok(texts)
}
