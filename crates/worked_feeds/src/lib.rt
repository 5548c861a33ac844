//! Texts that come in pieces, and memory that is refused.
//!
//! This crate has tests alone. The readers of code, of signatures and of batches take each text cut at each place,
//! and answer as they do when it comes at once.
//!
//! Their memory is a `LocalHeap` of the crate `linked_list_allocator`: a heap of a fixed size, which refuses what
//! doesn't fit it. Before one of the calls, each in turn, all of the heap is taken but a few bytes: none at first, and
//! then 16 more each time, until a run meets no refusal. So in each call the first growth is refused, and each other
//! that needs more than those before it. Once one was, the heap is free again: what a reader answers then it owes to
//! its own memory of the refusal.
#![tactic(auto)]

#[cfg(test)]
mod batches;
#[cfg(test)]
mod codes;
#[cfg(test)]
mod course;
#[cfg(test)]
mod shortage;
#[cfg(test)]
mod signature_lines;
#[cfg(test)]
mod sweeps;
