//! The reader of signatures: bytes in, the signatures of functions or the first fault with its line out.
//!
//! One line a function: `NAME (kinds) -> (kinds)`, the kinds that it takes and those that it gives, from
//! the bottom of the stack to its top. A line ends at its LF, which the last may lack. Blank, tab and CR
//! separate words; `(` and `)` are words by themselves. A name is any other word of the bytes 33 to 126
//! without braces, also `->` or `INT`. The kinds are `INT`, `BOOL` and `SEGDES`. Lines without words are
//! passed over.
//!
//! The first line with a fault is answered: [`SignatureFault::BadLine`] if it is no such line, also
//! for a byte that no word has; [`SignatureFault::TooLarge`] for a name of more bytes than
//! `LONGEST_NAME`, a list of more kinds than `MOST_KINDS`, or one signature more than `MOST_FUNCTIONS`
//! (of [`vcode_base::limits`]); [`SignatureFault::NameTwice`] for a name that an earlier line has; in
//! this order if there are two.
//!
//! `specs/Lines` has the lines of a text, `specs/Spelling` the words of a signature, `specs/First` what
//! a text says and its first fault, as relations. [`laws`] and [`read`] say that each text is read so.
//! [`SigReader`] reads a text that comes in pieces.
#![tactic(auto)]

mod fault;
mod function_type;
pub mod laws;
mod line;
mod reader;
mod table;

pub use fault::{SigFault, SignatureFault};
pub use function_type::FunctionType;
pub use reader::{SigReader, read};
pub use table::Signatures;
