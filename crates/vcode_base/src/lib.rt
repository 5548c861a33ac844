//! The words of the language: kinds, instructions, values, limits, faults and outcomes.
//!
//! What an instruction means is defined in `specs/`: the kinds of its operands and results in
//! `Kinds`, the shapes that it takes, the lengths, the faults and the results in `Meaning`.
#![tactic(auto)]

mod bytes;
pub mod element;
mod fault;
mod instr;
mod kind;
pub mod laws;
pub mod limits;
mod line_words;
mod op;
mod outcome;
mod packed_words;
mod rule;
mod sequence;
mod shared_words;
mod value;

pub use bytes::{decimal, is_visible, number_at_front};
pub use fault::{DataFault, MemoryFault, TextFault};
pub use instr::{FunctionName, Instr, Instruction};
pub use kind::{Kind, Scalar, have_kinds};
pub use limits::Limits;
pub use line_words::{LineWords, Parentheses};
pub use op::{Arith, Comparison, Elementwise, Fold, Logic, Op, Segmented, StackMove};
pub use outcome::Outcome;
pub use rule::Rule;
pub use sequence::{Elements, Sequence};
pub use shared_words::SharedWords;
pub use value::{Value, Values, Words};
