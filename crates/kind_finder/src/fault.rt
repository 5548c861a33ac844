//! Why no signatures are found.

use kind_search::Obstacle;
use std::alloc::{AllocError, Allocator};
use std::{fmt, str};
use vcode_reader::CodeFault;
use verifier::KindFault;

/// Why no signatures are found for a program, over the type of a function's name.
#[derive(Debug, Drop)]
pub enum FindFault<N> {
    /// Memory was refused.
    Memory,
    /// The text is no code: it has this fault at this line.
    Code(CodeFault, u64),
    /// The function of this name has no signature, as this line shows.
    Function(Obstacle, N, u64),
    /// No signatures would help: the program has this fault at this line.
    Program(KindFault, u64),
}

/// The number of a line, a colon, and what is wrong there.
impl<A: Allocator> fmt::Display for FindFault<Vec<u8, A>> {
    fn fmt<W: fmt::Write>(&self, f: &mut fmt::Formatter<W>) -> fmt::Result {
        match self {
            FindFault::Memory => f.write_str("out of memory"),
            FindFault::Code(fault, line) => write!(f, "{line}: {}", fault.text()),
            FindFault::Function(obstacle, name, line) => {
                let name = str::from_utf8(name).unwrap_or("a function");
                write!(f, "{line}: {name} {}", obstacle.text())
            }
            FindFault::Program(fault, line) => write!(f, "{line}: {}", fault.text()),
        }
    }
}

impl<N> From<AllocError> for FindFault<N> {
    fn from(_: AllocError) -> FindFault<N> {
        FindFault::Memory
    }
}
