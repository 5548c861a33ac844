//! The signatures of code that has none.
//!
//! [`find_signatures`] answers a text of signatures by which a program is well kinded. `kind_search` makes a guess. It
//! is read as a text of signatures, and the program is verified by them. The contract is about that: only a text that
//! passed is answered.
#![tactic(auto)]

mod fault;
mod found;

pub use fault::FindFault;
pub use found::{MOST_ENTRIES, find_signatures};
pub use kind_search::Obstacle;
