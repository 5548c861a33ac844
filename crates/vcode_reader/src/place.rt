//! The place of the next word in the grammar.

use crate::keyword::{Keyword, WordSlot};

/// An IF that waits for its `ENDIF`.
#[derive(Clone, Copy)]
pub struct OpenIf {
    /// The line of the IF.
    pub line: u64,
    /// Its `ELSE` has come.
    pub has_else: bool,
}

/// What the next word may be.
#[derive(Clone, Copy)]
pub enum Place {
    /// `FUNC`.
    Outside,
    /// The name of a function.
    Name,
    /// An item of a function.
    Inside,
    /// An item of a function, or the word `INT`, which means nothing here.
    InsideOrInt,
    /// A word of the instruction that begins with this keyword at this line.
    Words(Keyword, WordSlot, u64),
    /// An element or the end of a list of this instruction: the line at which the instruction begins,
    /// and that of the list.
    Elements(Keyword, u64, u64),
}
