//! The header of a message.

use std::fmt::{self, Display, Formatter};

/// The most bytes of a header.
pub const MOST_HEADER_BYTES: usize = 4_096;

/// The most bytes of a body.
pub const MOST_BODY_BYTES: usize = 16_777_216;

/// Why no further message can be found in what comes in.
#[derive(Clone, Copy, PartialEq, Eq, Drop)]
pub enum Broken {
    /// A header has more than [`MOST_HEADER_BYTES`] bytes.
    LongHeader,
    /// A header has no `Content-Length`.
    NoLength,
    /// A header has several of them.
    ManyLengths,
    /// A `Content-Length` isn't a number in decimal digits.
    BadLength,
    /// A body has more than [`MOST_BODY_BYTES`] bytes.
    LongBody,
    /// The input ends inside a message.
    CutShort,
}

impl Display for Broken {
    fn fmt<W: fmt::Write>(&self, f: &mut Formatter<W>) -> fmt::Result {
        match self {
            Broken::LongHeader => f.write_str("the header of a message has more than 4096 bytes"),
            Broken::NoLength => f.write_str("the header of a message has no Content-Length"),
            Broken::ManyLengths => f.write_str("the header of a message has several lengths"),
            Broken::BadLength => f.write_str("the Content-Length of a message is no number"),
            Broken::LongBody => f.write_str("a message has more than 16777216 bytes"),
            Broken::CutShort => f.write_str("the input ends inside a message"),
        }
    }
}

/// Whether these bytes of a header end with its empty line.
pub(crate) fn is_whole(header: &[u8]) -> bool {
    match header.strip_suffix(b"\n") {
        Some(line) => {
            let before = line.strip_suffix(b"\r").unwrap_or(line);
            before.is_empty() || before.ends_with(b"\n")
        }
        None => false,
    }
}

/// The number that these digits write.
fn number_of(digits: &[u8]) -> usize {
    let mut number: usize = 0;
    for digit in digits {
        let value = usize::from(digit.saturating_sub(b'0'));
        number = number.saturating_mul(10).saturating_add(value);
    }
    number
}

/// The length that the value of a `Content-Length` says.
fn length_of(value: &[u8]) -> Result<usize, Broken> {
    let digits = value.trim_ascii();
    if digits.is_empty() || !digits.iter().all(|byte| byte.is_ascii_digit()) {
        return Err(Broken::BadLength);
    }
    let length = number_of(digits);
    if length > MOST_BODY_BYTES {
        return Err(Broken::LongBody);
    }
    Ok(length)
}

/// The value that a line of a header has, if it is a `Content-Length`.
fn length_value(line: &[u8]) -> Option<&[u8]> {
    let colon = line.iter().position(|byte| *byte == b':')?;
    let name = line.get(..colon)?;
    if name.trim_ascii().eq_ignore_ascii_case(b"content-length") {
        return line.get(colon.saturating_add(1)..);
    }
    None
}

/// The length of the body that a whole header says.
///
/// # Errors
///
/// The reason for which the header says none.
pub(crate) fn body_length(header: &[u8]) -> Result<usize, Broken> {
    let mut found = None;
    for line in header.split(|byte| *byte == b'\n') {
        if let Some(value) = length_value(line) {
            if found.is_some() {
                return Err(Broken::ManyLengths);
            }
            found = Some(length_of(value)?);
        }
    }
    found.ok_or(Broken::NoLength)
}
