use std::fmt;
use vcode_base::{DataFault, Kind};
use vcode_reader::CodeFault;

/// A result: its kind and its words.
#[derive(Drop)]
pub struct Vector {
    pub kind: Kind,
    pub words: Vec<i64>,
}

/// The answer of a case.
#[derive(Drop)]
pub enum Answer {
    One(Vector),
    /// Two results, the top of the stack last.
    Two(Vector, Vector),
    Fault(DataFault),
    /// The words that a desk would have for it, which are too many.
    Needs(u64),
    /// The line is no code.
    Refused(CodeFault),
    /// The line isn't CONSTs and one instruction of the vectors and segments.
    NoCase,
    /// The operands aren't of the instruction's kinds.
    NotOfItsKinds,
}

impl fmt::Display for Vector {
    fn fmt<W: fmt::Write>(&self, f: &mut fmt::Formatter<W>) -> fmt::Result {
        f.write_str("(")?;
        for (place, word) in self.words.iter().enumerate() {
            if place > 0 {
                f.write_str(" ")?;
            }
            match (self.kind, *word) {
                (Kind::Bool, 1) => f.write_str("T")?,
                (Kind::Bool, 0) => f.write_str("F")?,
                (_, word) => write!(f, "{word}")?,
            }
        }
        f.write_str(")")
    }
}

impl fmt::Display for Answer {
    fn fmt<W: fmt::Write>(&self, f: &mut fmt::Formatter<W>) -> fmt::Result {
        match self {
            Answer::One(result) => write!(f, "{result}"),
            Answer::Two(lower, upper) => write!(f, "{lower} {upper}"),
            Answer::Fault(fault) => f.write_str(fault.text()),
            Answer::Needs(words) => write!(f, "needs {words} words"),
            Answer::Refused(fault) => f.write_str(fault.text()),
            Answer::NoCase => f.write_str("not a case"),
            Answer::NotOfItsKinds => f.write_str("not of its kinds"),
        }
    }
}
