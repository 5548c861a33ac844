//! Which functions of a program call which.

use std::alloc::{AllocError, Allocator};
use vcode_reader::Program;

/// The calls of a program. Functions are named by their places in it.
#[derive(Drop)]
pub(crate) struct CallGraph<A: Allocator> {
    /// Each function comes after those that it calls, except in a cycle of calls.
    order: Vec<usize, A>,
    /// The place of each function in that order.
    ranks: Vec<usize, A>,
    /// The functions that call each function.
    callers: Vec<Vec<usize, A>, A>,
}

impl<A: Allocator + Copy> CallGraph<A> {
    /// The calls of this program.
    pub(crate) fn new(alloc: A, program: &Program<A>) -> Result<CallGraph<A>, AllocError> {
        let order = callees_first(alloc, program)?;
        Ok(CallGraph {
            ranks: ranks_of(alloc, &order)?,
            callers: callers_of(alloc, program)?,
            order,
        })
    }
}

impl<A: Allocator> CallGraph<A> {
    /// How many functions there are.
    pub(crate) fn len(&self) -> usize {
        self.order.len()
    }

    /// The function at a place in the order.
    pub(crate) fn at(&self, rank: usize) -> Option<usize> {
        self.order.get(rank).copied()
    }

    /// The place of a function in the order.
    pub(crate) fn rank(&self, function: usize) -> Option<usize> {
        self.ranks.get(function).copied()
    }

    /// The functions that call a function.
    pub(crate) fn callers(&self, function: usize) -> &[usize] {
        match self.callers.get(function) {
            Some(callers) => callers.as_slice(),
            None => &[],
        }
    }
}

/// The place of each function in an order of all.
fn ranks_of<A: Allocator>(alloc: A, order: &[usize]) -> Result<Vec<usize, A>, AllocError> {
    let mut ranks = vec![in alloc; 0; order.len()]?;
    for (rank, function) in order.iter().enumerate() {
        if let Some(known) = ranks.get_mut(*function) {
            *known = rank;
        }
    }
    Ok(ranks)
}

/// The functions that call each function.
fn callers_of<A: Allocator + Copy>(
    alloc: A,
    program: &Program<A>,
) -> Result<Vec<Vec<usize, A>, A>, AllocError> {
    let mut callers = Vec::with_capacity(alloc, program.functions().len())?;
    for _ in program.functions() {
        callers.push(Vec::new(alloc))?;
    }
    for (place, function) in program.functions().iter().enumerate() {
        for line in 0..function.line_count() {
            if let Some(callee) = program.callee(place, line) {
                add_caller(&mut callers, callee, place)?;
            }
        }
    }
    Ok(callers)
}

/// Adds a caller of a function, unless it was the one that was added last.
fn add_caller<A: Allocator>(
    callers: &mut Vec<Vec<usize, A>, A>,
    callee: usize,
    caller: usize,
) -> Result<(), AllocError> {
    if let Some(callers) = callers.get_mut(callee) {
        if callers.last() != Some(&caller) {
            callers.push(caller)?;
        }
    }
    Ok(())
}

/// A search that follows each call before it goes on after it.
#[derive(Drop)]
struct Search<'a, A: Allocator> {
    program: &'a Program<A>,
    seen: Vec<bool, A>,
    /// The functions that were entered and not left, each with the line at which the search goes on.
    entered: Vec<(usize, usize), A>,
    /// The functions in the order in which they were left.
    left: Vec<usize, A>,
}

/// The functions of a program in an order in which each comes after those that it calls, except in a cycle of calls.
fn callees_first<A: Allocator + Copy>(
    alloc: A,
    program: &Program<A>,
) -> Result<Vec<usize, A>, AllocError> {
    let mut search = Search::new(alloc, program)?;
    match search.enter_all(program.functions().len()) {
        Ok(()) => Ok(search.into_order()),
        Err(AllocError) => {
            drop(search);
            Err(AllocError)
        }
    }
}

impl<'a, A: Allocator + Copy> Search<'a, A> {
    /// No function was entered.
    fn new(alloc: A, program: &'a Program<A>) -> Result<Search<'a, A>, AllocError> {
        Ok(Search {
            program,
            seen: vec![in alloc; false; program.functions().len()]?,
            entered: Vec::new(alloc),
            left: Vec::new(alloc),
        })
    }
}

impl<'a, A: Allocator> Search<'a, A> {
    /// Enters each of `count` functions and those that it calls, and leaves them.
    fn enter_all(&mut self, count: usize) -> Result<(), AllocError> {
        for function in 0..count {
            self.enter(function)?;
            // Each step enters a function or leaves one.
            for _ in 0..count.saturating_mul(2) {
                if !self.step()? {
                    break;
                }
            }
        }
        Ok(())
    }

    /// Enters a function, unless it was entered before.
    fn enter(&mut self, function: usize) -> Result<(), AllocError> {
        if let Some(seen) = self.seen.get_mut(function) {
            if !*seen {
                *seen = true;
                self.entered.push((function, 0))?;
            }
        }
        Ok(())
    }

    /// Goes on in the function that was entered last: enters one that it calls, or leaves it. Answers whether there was
    /// one.
    fn step(&mut self) -> Result<bool, AllocError> {
        let Some((function, line)) = self.entered.pop() else {
            return Ok(false);
        };
        match self.next_call(function, line) {
            Some((callee, after)) => {
                self.entered.push((function, after))?;
                self.enter(callee)?;
            }
            None => self.left.push(function)?,
        }
        Ok(true)
    }

    /// The next function that a function calls, from a line on, and the line after this call. Those that were entered
    /// are passed over.
    fn next_call(&self, function: usize, line: usize) -> Option<(usize, usize)> {
        for at in line..self.program.functions().get(function)?.line_count() {
            if let Some(callee) = self.program.callee(function, at) {
                if self.seen.get(callee) == Some(&false) {
                    return Some((callee, at + 1));
                }
            }
        }
        None
    }

    /// The functions in the order in which they were left.
    fn into_order(self) -> Vec<usize, A> {
        let Search {
            program: _,
            seen: _,
            entered: _,
            left,
        } = self;
        left
    }
}
