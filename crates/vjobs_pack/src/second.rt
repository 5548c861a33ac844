//! Where the second job of a file begins.

use vcode_base::{LineWords, Parentheses};

/// What a line is to this search.
#[derive(Clone, Copy, PartialEq, Eq, Debug)]
enum Kind {
    Blank,
    End,
    Other,
}

/// What a line is.
fn kind_of(line: &[u8]) -> Kind {
    let mut words = LineWords::new(line, Parentheses::StandInWords);
    let Some(word) = words.next() else {
        return Kind::Blank;
    };
    if word == b"END".as_slice() && words.next().is_none() {
        Kind::End
    } else {
        Kind::Other
    }
}

/// The number of the first line with words after the first `END`, which begins the second job if there are two.
pub fn second_job_line(bytes: &[u8]) -> u64 {
    let mut number: u64 = 0;
    let mut ended = false;
    for line in bytes.split(|byte| *byte == b'\n') {
        number = number.saturating_add(1);
        match kind_of(line) {
            Kind::Blank => {}
            _ if ended => return number,
            Kind::End => ended = true,
            Kind::Other => {}
        }
    }
    number
}
