//! What there is to say of a batch or a job that is refused: the line, what is wrong there, and what was expected.
//!
//! [`batch_refusal`] and [`refusal`] answer whole texts. The rest is what they are made of, for programs that say more:
//! the [`Lines`] of a batch as they may be shown, the [`Parts`] of its jobs, the words of a text, and the names of
//! kinds and operands.
//!
//! What may come next in a text is found by the readers of code and of signatures themselves: each candidate is put
//! after the text, and read.
#![tactic(auto)]

mod batch_notes;
mod expected;
mod kind_notes;
mod kind_walk;
mod kinds;
mod left_out;
mod lines;
mod meanings;
mod operands;
mod parts;
mod refusals;
mod signature_notes;
mod text_notes;
mod words;

pub use batch_notes::{batch_of, batch_refusal};
pub use kinds::kind_text;
pub use lines::{Lines, printable};
pub use meanings::{batch_meaning, job_meaning};
pub use operands::operand_names;
pub use parts::{LineSpan, Parts, parts_of_jobs};
pub use refusals::refusal;
pub use words::{Text, Word, words_of};
