//! A walk through a body that counts entries.

use crate::fault::{Obstacle, PlacedFault};
use crate::paths::Paths;
use std::alloc::{AllocError, Allocator};
use vcode_base::limits::MOST_KINDS;
use vcode_base::{Kind, StackMove};
use verifier::{AbstractStack, Calls};

/// The height with which a function is taken to begin: it may take as many entries as a signature may have.
pub(crate) const BEGIN: usize = MOST_KINDS;

/// The lowest CALL of another function.
#[derive(Clone, Copy)]
pub(crate) struct Call {
    pub callee: usize,
    /// The height right before the CALL.
    pub height: usize,
    pub line: u64,
}

/// What a walk through a body has found.
#[derive(Drop)]
pub(crate) struct Reach<A: Allocator> {
    /// The height at RET, if a path reaches it.
    pub end: Option<usize>,
    /// The lowest height of a path.
    pub lowest: usize,
    /// The calls of functions that are known to return: the lowest of each function.
    pub calls: Vec<Call, A>,
    /// The function at whose CALL a path ended last, if one did.
    pub waits_for: Option<usize>,
}

impl<A: Allocator> Reach<A> {
    /// That of no walk.
    pub(crate) fn new(alloc: A) -> Reach<A> {
        Reach {
            end: None,
            lowest: BEGIN,
            calls: Vec::new(alloc),
            waits_for: None,
        }
    }
}

/// Walks through bodies, one after the other. A path is its height.
#[derive(Drop)]
pub(crate) struct HeightWalk<A: Allocator> {
    /// The place of the function.
    function: usize,
    paths: Paths<usize, A>,
    found: Reach<A>,
    /// For each function where its call is among those that were found, if it has one.
    slots: Vec<usize, A>,
}

/// The height after an IF whose parts end so. The path ends if the two differ.
fn joined(first: Option<usize>, second: Option<usize>) -> Option<usize> {
    match (first, second) {
        (Some(one), Some(other)) if one != other => None,
        _ => first.or(second),
    }
}

impl<A: Allocator + Copy> HeightWalk<A> {
    /// A walk in none of this number of functions.
    pub(crate) fn new(alloc: A, functions: usize) -> Result<HeightWalk<A>, AllocError> {
        Ok(HeightWalk {
            function: 0,
            paths: Paths::new(alloc),
            found: Reach::new(alloc),
            slots: vec![in alloc; 0; functions]?,
        })
    }

    /// What the walk has found after the last line of a body.
    pub(crate) fn reach(&self, alloc: A) -> Result<Reach<A>, AllocError> {
        Ok(Reach {
            end: self.paths.path,
            lowest: self.found.lowest,
            calls: Vec::from_slice(alloc, self.found.calls.as_slice())?,
            waits_for: self.found.waits_for,
        })
    }
}

impl<A: Allocator> HeightWalk<A> {
    /// The walk through the body of the function at this place begins.
    pub(crate) fn begin(&mut self, function: usize) {
        self.function = function;
        self.paths.begin(BEGIN);
        self.found.lowest = BEGIN;
        self.found.calls.clear();
        self.found.waits_for = None;
    }

    /// The path takes `takes` entries off and then puts `gives` on.
    fn change(&mut self, takes: usize, gives: usize, line: u64) -> Result<(), PlacedFault> {
        let Some(height) = self.paths.path else {
            return Ok(());
        };
        let Some(below) = height.checked_sub(takes) else {
            return Err(self.many_operands(line));
        };
        self.found.lowest = self.found.lowest.min(below);
        self.paths.path = Some(below.saturating_add(gives));
        Ok(())
    }

    /// Adds a call at this height.
    fn add_call(&mut self, callee: usize, height: usize, line: u64) -> Result<(), AllocError> {
        let Some(slot) = self.slots.get_mut(callee) else {
            return Ok(());
        };
        let call = Call {
            callee,
            height,
            line,
        };
        if let Some(known) = self.found.calls.get_mut(*slot) {
            if known.callee == callee {
                if height < known.height {
                    *known = call;
                }
                return Ok(());
            }
        }
        *slot = self.found.calls.len();
        self.found.calls.push(call)?;
        Ok(())
    }

    /// That a path takes more entries than a signature may have operands.
    fn many_operands(&self, line: u64) -> PlacedFault {
        PlacedFault::Function(Obstacle::ManyOperands, self.function, line)
    }
}

/// A line with a fault of kinds ends the path without a fault here: the walk by kinds meets this line and reports it.
impl<A: Allocator> AbstractStack for HeightWalk<A> {
    /// A path takes more entries than a signature may have operands.
    type Fault = PlacedFault;

    ghost After = { λ _ _ _ _. Unit {0} };

    fn replace(&mut self, takes: &[Kind], gives: &[Kind], line: u64) -> Result<(), PlacedFault> {
        self.change(takes.len(), gives.len(), line)
    }

    fn shift(
        &mut self,
        motion: StackMove,
        lower: u16,
        upper: u16,
        line: u64,
    ) -> Result<(), PlacedFault> {
        let lower = usize::from(lower);
        let moved = lower + usize::from(upper);
        match motion {
            StackMove::Copy => self.change(moved, moved + lower, line),
            StackMove::MoveToTop => self.change(moved, moved, line),
            StackMove::Pop => self.change(moved, moved - lower, line),
        }
    }

    fn begin_if(&mut self) -> Result<(), PlacedFault> {
        Ok(self.paths.begin_if()?)
    }

    fn begin_else(&mut self) -> Result<(), PlacedFault> {
        self.paths.begin_else();
        Ok(())
    }

    fn end_if(&mut self, _line: u64) -> Result<(), PlacedFault> {
        let (first, second) = self.paths.end_if();
        self.paths.path = joined(first, second);
        Ok(())
    }
}

/// The height at the RET of each function, if that is known.
#[derive(Drop)]
pub(crate) struct Ends<A: Allocator>(pub Vec<Option<usize>, A>);

/// The path ends at a CALL of a function that isn't known to return, or isn't there.
impl<A: Allocator> Calls<HeightWalk<A>> for Ends<A> {
    ghost AfterCall = { λ _ _ _ _ _ _ _. Unit {0} };

    fn call(
        &self,
        walk: &mut HeightWalk<A>,
        callee: Option<usize>,
        _name: &[u8],
        line: u64,
    ) -> Result<(), PlacedFault> {
        let (Some(height), Some(callee)) = (walk.paths.path.take(), callee) else {
            return Ok(());
        };
        let Some(Some(end)) = self.0.get(callee) else {
            walk.found.waits_for = Some(callee);
            return Ok(());
        };
        walk.add_call(callee, height, line)?;
        walk.paths.path = height.saturating_add(*end).checked_sub(BEGIN);
        match walk.paths.path {
            Some(_) => Ok(()),
            None => Err(walk.many_operands(line)),
        }
    }
}
