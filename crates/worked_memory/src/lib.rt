//! Worked runs over the largest regions, counted references and books of reservations.
//!
//! This crate has tests alone. Calls on holes and on memories of a small region are rows of a table, which
//! `worked_regions` reads.
#![tactic(auto)]

#[cfg(test)]
mod compare;
#[cfg(test)]
mod counted_blocks;
#[cfg(test)]
mod granted_words;
#[cfg(test)]
mod largest_regions;
