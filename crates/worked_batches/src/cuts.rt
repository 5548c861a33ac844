//! A batch, run several times: each time its bytes come in pieces of another size.

use batch_front::{Device, Options, exit_status, run_alone};
use std::alloc::Global;
use std::io::{Read, Result as IoResult};

/// The result of a batch.
#[derive(Drop, PartialEq, Eq)]
pub struct Ending {
    /// The number that `vjobs` exits with.
    pub exit: u8,
    pub report: Vec<u8>,
}

/// Gives a text, at most `most` bytes a read.
#[derive(Drop)]
struct Pieces<'a> {
    left: &'a [u8],
    most: usize,
}

impl Read for Pieces<'_> {
    fn read(&mut self, buf: &mut [u8]) -> IoResult<usize> {
        let most = buf.len().min(self.most);
        self.left.read(&mut buf[..most])
    }
}

/// The result of a batch if a read gives at most `most` bytes.
fn ending_in_pieces(alloc: Global, batch: &[u8], options: &Options, most: usize) -> Ending {
    let mut reader = Device::new(Pieces { left: batch, most });
    let mut writer = Device::new(Vec::new(alloc));
    let outcome = run_alone(alloc, &mut reader, &mut writer, options);
    Ending {
        exit: exit_status(&outcome),
        report: writer.into_inner(),
    }
}

/// The result of a batch, at once and if a read gives at most 1, 7 or 4,096 bytes. None if these runs don't all
/// give the same.
pub fn ending_however_cut(alloc: Global, batch: &[u8], options: &Options) -> Option<Ending> {
    let whole = ending_in_pieces(alloc, batch, options, batch.len());
    for most in [1, 7, 4_096] {
        if ending_in_pieces(alloc, batch, options, most) != whole {
            return None;
        }
    }
    Some(whole)
}
