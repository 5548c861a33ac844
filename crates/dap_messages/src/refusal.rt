//! Why a message can't be followed.

use std::fmt::{self, Display, Formatter};

/// What an argument has to be.
#[derive(Clone, Copy, PartialEq, Eq, Drop)]
pub enum Shape {
    /// A whole number within these bounds, written in digits alone.
    Number {
        /// The least one.
        least: u64,
        /// The greatest one.
        most: u64,
    },
    /// `true` or `false`.
    Flag,
    /// A string.
    Text,
    /// An array.
    List,
    /// An object.
    Object,
}

impl Display for Shape {
    fn fmt<W: fmt::Write>(&self, f: &mut Formatter<W>) -> fmt::Result {
        match self {
            Shape::Number {
                least,
                most: u64::MAX,
            } => write!(f, "a whole number, {least} or more"),
            Shape::Number { least, most } => write!(f, "a whole number from {least} to {most}"),
            Shape::Flag => f.write_str("true or false"),
            Shape::Text => f.write_str("a string"),
            Shape::List => f.write_str("an array"),
            Shape::Object => f.write_str("an object"),
        }
    }
}

/// Why a message can't be followed.
#[derive(Drop)]
pub enum Refusal {
    /// Memory was refused for its values.
    Memory,
    /// It has more brackets and commas than are read.
    TooLarge,
    /// It isn't JSON, or nests deeper than that is read.
    NotJson,
    /// It isn't a request with a number and a command.
    NotRequest,
    /// There is no request of this name.
    Unknown(String),
    /// An argument of this name isn't there.
    Missing(&'static str),
    /// The argument of this name has to be this.
    Wrong(&'static str, Shape),
}

impl Display for Refusal {
    fn fmt<W: fmt::Write>(&self, f: &mut Formatter<W>) -> fmt::Result {
        match self {
            Refusal::Memory => f.write_str("out of memory"),
            Refusal::TooLarge => f.write_str("a message has more than 262144 brackets and commas"),
            Refusal::NotJson => f.write_str("a message is no JSON, or nests deeper than 127"),
            Refusal::NotRequest => f.write_str(
                "a message is no request: it has to have the type request, a seq and a command",
            ),
            Refusal::Unknown(name) => write!(f, "vjobs-dap has no request {name}"),
            Refusal::Missing(name) => write!(f, "the argument {name} is missing"),
            Refusal::Wrong(name, shape) => write!(f, "the argument {name} has to be {shape}"),
        }
    }
}
