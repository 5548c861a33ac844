//! The verifier: a program and its signatures in; a well kinded program with the kinds that its functions
//! take and give, or its first kind fault with the line, out.
//!
//! **Kinds.** A function begins with the operands of its signature on its stack, and each instruction
//! takes the entries at the top that it has as operands and leaves its results in their place; what lies
//! below stays. `COPY`, `POP` and `CPOP` take entries of any kinds. An `IF` takes one `BOOL`, and both its
//! parts go from what lies below to the same entries; a missing part changes nothing. A `CALL` takes the
//! operands of the signature of its function and leaves its results. At `RET` the entries are exactly the
//! signature's results. `MAIN` takes nothing. A signature without a function is no fault.
//!
//! **Faults.** [`KindFault`] has them. A missing `MAIN` comes before all others, at the program's first
//! line; after it the first in the order of the text is answered. At one `FUNC` a missing signature comes
//! before operands of `MAIN`; at one `CALL` an unknown function before a missing signature, before missing
//! entries, before entries of other kinds.
//!
//! **Walks.** [`walk_line`] does what a line does to any [`AbstractStack`]. That of the verifier has kinds.
//! Those who look for signatures, or for the line that made an entry, have stacks of their own.
//!
//! `specs/Kinded` says when a program is well kinded, as a relation by cases on its tree; `specs/First`
//! what its first fault is; `specs/Steps` what a line does to a stack; `specs/Typed` what a [`Verified`]
//! program keeps: for each function, by its place, the kinds that it takes and gives. [`laws`] says that
//! there is no fault exactly if the program is well kinded.
#![tactic(auto)]

mod fault;
pub mod laws;
mod lines;
mod open_ifs;
mod scope;
mod stack;
mod verified;
mod walk;

pub use fault::{KindFault, VerifyFault};
pub use verified::{Verified, verify};
pub use walk::{AbstractStack, Calls, walk_line};
