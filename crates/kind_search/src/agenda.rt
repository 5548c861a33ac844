//! Functions that are to be looked at.

use crate::call_graph::CallGraph;
use std::alloc::{AllocError, Allocator};

/// Functions that are to be looked at. The next is the one that comes first in the order of a call graph.
#[derive(Drop)]
pub(crate) struct Agenda<A: Allocator> {
    /// Whether the function at each place in the order is to be looked at.
    listed: Vec<bool, A>,
    /// No function before this place is to be looked at.
    first: usize,
}

impl<A: Allocator> Agenda<A> {
    /// All functions.
    pub(crate) fn all(alloc: A, graph: &CallGraph<A>) -> Result<Agenda<A>, AllocError> {
        Ok(Agenda {
            listed: vec![in alloc; true; graph.len()]?,
            first: 0,
        })
    }

    /// Adds a function.
    pub(crate) fn add(&mut self, graph: &CallGraph<A>, function: usize) {
        if let Some(rank) = graph.rank(function) {
            if let Some(listed) = self.listed.get_mut(rank) {
                *listed = true;
                self.first = self.first.min(rank);
            }
        }
    }

    /// Takes the next function.
    pub(crate) fn next(&mut self, graph: &CallGraph<A>) -> Option<usize> {
        for rank in self.first..self.listed.len() {
            self.first = rank;
            if let Some(listed) = self.listed.get_mut(rank) {
                if *listed {
                    *listed = false;
                    return graph.at(rank);
                }
            }
        }
        None
    }
}
