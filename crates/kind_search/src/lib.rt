//! The search for the signatures of code that has none.
//!
//! [`make_guess`] answers a text of signatures that may not fit the program: whoever asks has to verify the program by
//! them. The text is found in three steps. Each takes a function after those that it calls, except in a cycle of calls:
//!
//! 1. `heights` counts entries: with how many more or fewer a function returns. A path ends at a CALL of a function of
//!    which that isn't known yet, and an IF goes on with the parts that reach its ENDIF. A body is walked through again
//!    only if a function became known at whose CALL a path ended.
//! 2. `shapes` finds how many operands each function needs for its own instructions, and for the functions that it
//!    calls. Only the callers of a function that needs more are looked at again.
//! 3. `kinds` walks once through each body on a stack of kinds. Those of operands are open at first. Instructions and
//!    CALLs decide them. A kind that is open in the end may be any, and is INT.
//!
//! [`KindWalk`], the stack of `kinds`, serves also those who know all signatures, and ask which line made an entry.
//!
//! The contracts here say that the search is safe and ends, and nothing of what it finds.
#![tactic(auto)]

mod agenda;
mod call_graph;
mod classes;
mod fault;
mod finder;
mod height_walk;
mod heights;
mod kind_walk;
mod kinds;
mod paths;
mod search;
mod shapes;
mod stacks;
mod text;

pub use classes::KindId;
pub use fault::{Obstacle, PathFault, PlacedFault};
pub use kind_walk::KindWalk;
pub use search::{Guess, make_guess};
pub use stacks::Stack;
