//! The reader of the code: bytes in, a program or its first fault with the line out.
//!
//! **Words.** Words are separated by blanks, tabs, CRs and LFs, and each LF ends a line. If no comment is
//! open, `{` opens one, and the first `}` after it closes it, be it lines later; whatever bytes it has, it
//! counts for a separator. Each parenthesis is a word of its own; any other word is made of printable
//! ASCII bytes other than the blank, braces and parentheses. A number is a row of decimal digits, or `-`
//! and such a row, and its value must fit an `i64`.
//!
//! **Grammar:**
//!
//! ```text
//! program  = function*
//! function = FUNC name item* RET
//! item     = IF item* [ ELSE item* ] ENDIF
//!          | CONST INT ints | CONST BOOL bools
//!          | COPY n n | POP n n | CPOP n n | CALL name
//!          | word | word INT | word [ INT ] | word k
//! k        = INT | BOOL
//! ints     = number | ( number* )
//! bools    = T | F | ( list of T and F )
//! ```
//!
//! The words of the last line are those of the other instructions, and each stands in one of its four
//! forms: `specs/Heads` has both. A name is any word of at most 64 bytes but a parenthesis, also `RET`.
//! Names of functions differ. `n` is a number within 0 to 4,096. There are at most 512 functions, at
//! most 64 IFs open at a time, and at most 65,536 values in a list. The line of an item is that of its
//! first word.
//!
//! **Refusals.** The first word after which no further words could make a program is refused, on its line:
//! [`CodeFault::BadWord`] for an unknown word at the place of an item or `FUNC`, a kind that
//! the instruction doesn't take, no truth value at the place of one, a parenthesis for a name, or a
//! byte that no text has; [`CodeFault::BadNumber`] for a word that isn't a number at the place of one, or a
//! negative number at the place of a count; [`CodeFault::Misplaced`] for a known word in another's place;
//! [`CodeFault::TooLarge`] past a limit; [`CodeFault::FunctionTwice`] for a name again; in this order if
//! there are two. If every word is good and the text ends inside something, it is
//! [`CodeFault::Unfinished`] at the begin of the innermost: a comment, then a list, then an instruction, then
//! an IF, then a function. An instruction that a word `INT` may follow, which means nothing, is whole
//! without it.
//!
//! **What is read** is a [`Program`]: its functions with their lines. The body of a function holds no `RET`,
//! which comes only after it, and `IF` only as the begin of a choice. This is a fact of the types of
//! [`Function::item`] and [`Program::functions`].
//!
//! `specs/Heads` is the table of words: what each begins, and what must follow it; `specs/Keywords`
//! the instruction that it gives; `specs/Gram` the grammar as a relation, by cases; `specs/Parsing` the
//! table of refusals; `specs/Scan` the words of a text; `specs/First` what the first fault is. [`laws`] and
//! [`read`] say that each text is read so. [`CodeReader`] reads a text that comes in pieces.
#![tactic(auto)]

mod ahead;
mod class;
mod code;
mod code_lines;
mod fault;
mod front_list;
mod head;
mod keyword;
pub mod laws;
mod line;
mod link;
mod number;
mod parser;
mod parts;
mod place;
mod program;
mod reader;
mod word;

pub use fault::{CodeFault, ReadFault};
pub use line::{CodeItem, CodeLine, Numbered};
pub use program::{Function, Program};
pub use reader::{CodeReader, MOST_CODE_BYTES, read};
