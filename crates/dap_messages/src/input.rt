//! What comes in, as the bodies of messages.

use crate::framing::{Broken, MOST_HEADER_BYTES, body_length, is_whole};
use std::alloc::{AllocError, Global};
use std::io::{self, ErrorKind, Read};

/// The bytes that are read at a time.
const PIECE: usize = 65_536;

/// What comes next.
#[derive(Drop)]
pub enum Body {
    /// A message with this body.
    Json(Vec<u8>),
    /// The end of the input, where a message would begin.
    End,
    /// Something after which no further message can be found.
    Broken(Broken),
}

/// How the reading of a header ended.
#[derive(Clone, Copy, Drop)]
enum Header {
    Whole,
    End,
    Broken(Broken),
}

/// Bytes that come in, as messages.
#[derive(Drop)]
pub struct Input<R: Read> {
    alloc: Global,
    reader: R,
    piece: Vec<u8>,
    first: usize,
    end: usize,
}

/// One read, that is made again while a signal interrupts it.
fn read_some<R: Read>(reader: &mut R, piece: &mut [u8]) -> io::Result<usize> {
    for _ in 0..u64::MAX {
        match reader.read(piece) {
            Err(error) if error.kind() == ErrorKind::Interrupted => {}
            answer => return answer,
        }
    }
    Ok(0)
}

impl<R: Read> Input<R> {
    /// The messages that this reader gives.
    ///
    /// # Errors
    ///
    /// [`AllocError`] if memory was refused.
    pub fn new(alloc: Global, reader: R) -> Result<Input<R>, AllocError>
    where
        R: Drop,
    {
        let piece = vec![in alloc; 0u8; PIECE]?;
        Ok(Input {
            alloc,
            reader,
            piece,
            first: 0,
            end: 0,
        })
    }

    /// The bytes that were read and not taken.
    fn rest(&self) -> &[u8] {
        self.piece.get(self.first..self.end).unwrap_or(&[])
    }

    /// Reads more if nothing is left. Answers whether there are bytes, as there are up to the end of the input.
    fn fill(&mut self) -> io::Result<bool> {
        if self.first < self.end {
            return Ok(true);
        }
        self.first = 0;
        self.end = 0;
        self.end = read_some(&mut self.reader, &mut self.piece)?;
        Ok(self.end > 0)
    }

    /// Moves bytes that were read to the end of a list, at most this many.
    fn take(&mut self, bytes: &mut Vec<u8>, most: usize) -> Result<(), AllocError> {
        let rest = self.rest();
        let taken = rest.get(..most).unwrap_or(rest);
        bytes.extend_from_slice(taken)?;
        self.first = self.first.saturating_add(taken.len());
        Ok(())
    }

    /// How many bytes that were read belong to the line which they begin.
    fn line_length(&self) -> usize {
        let rest = self.rest();
        match rest.iter().position(|byte| *byte == b'\n') {
            Some(place) => place.saturating_add(1),
            None => rest.len(),
        }
    }

    /// Reads a header up to its empty line.
    fn read_header(&mut self, header: &mut Vec<u8>) -> io::Result<Header> {
        for _ in 0..u64::MAX {
            if is_whole(header) || header.len() > MOST_HEADER_BYTES || !self.fill()? {
                break;
            }
            let length = self.line_length();
            self.take(header, length)?;
        }
        Ok(if header.len() > MOST_HEADER_BYTES {
            Header::Broken(Broken::LongHeader)
        } else if is_whole(header) {
            Header::Whole
        } else if header.is_empty() {
            Header::End
        } else {
            Header::Broken(Broken::CutShort)
        })
    }

    /// Reads a body up to this length. Answers whether the input goes so far.
    fn read_bytes(&mut self, body: &mut Vec<u8>, length: usize) -> io::Result<bool> {
        for _ in 0..u64::MAX {
            let missing = length.saturating_sub(body.len());
            if missing == 0 || !self.fill()? {
                break;
            }
            self.take(body, missing)?;
        }
        Ok(body.len() >= length)
    }

    /// Reads a body of this length.
    fn read_body(&mut self, length: usize) -> io::Result<Body> {
        let mut body = Vec::new(self.alloc);
        if self.read_bytes(&mut body, length)? {
            return Ok(Body::Json(body));
        }
        Ok(Body::Broken(Broken::CutShort))
    }

    /// The next message, for which it waits.
    ///
    /// # Errors
    ///
    /// The error of a read, or one of the kind [`ErrorKind::OutOfMemory`] if memory was refused. No further message can
    /// be found after an error.
    pub fn next_body(&mut self) -> io::Result<Body> {
        let mut header = Vec::new(self.alloc);
        match self.read_header(&mut header)? {
            Header::End => Ok(Body::End),
            Header::Broken(broken) => Ok(Body::Broken(broken)),
            Header::Whole => match body_length(&header) {
                Ok(length) => self.read_body(length),
                Err(broken) => Ok(Body::Broken(broken)),
            },
        }
    }
}
