//! How many entries each function takes and leaves, whatever their kinds.

use crate::agenda::Agenda;
use crate::call_graph::CallGraph;
use crate::fault::{Obstacle, PlacedFault};
use crate::height_walk::{BEGIN, Call, Ends, HeightWalk, Reach};
use std::alloc::{AllocError, Allocator};
use vcode_base::limits::MOST_KINDS;
use vcode_reader::{Function, Program};
use verifier::walk_line;

/// With how many entries each function of a program returns. A height is a number of entries; each function is taken
/// to begin at the height [`BEGIN`].
#[derive(Drop)]
pub(crate) struct Heights<'a, A: Allocator> {
    alloc: A,
    program: &'a Program<A>,
    graph: &'a CallGraph<A>,
    ends: Ends<A>,
    /// What the last walk through each body has found.
    reaches: Vec<Reach<A>, A>,
    /// The functions that are to be walked through.
    agenda: Agenda<A>,
    walk: HeightWalk<A>,
    /// Whether each function was assumed to return.
    assumed: Vec<bool, A>,
    /// The first that was.
    first_assumed: Option<usize>,
    /// No function before this place waits for another.
    first_waiting: usize,
}

impl<'a, A: Allocator + Copy> Heights<'a, A> {
    /// Finds the height at the RET of each function that returns on some path.
    ///
    /// # Errors
    ///
    /// A function takes or gives more entries than a signature may have.
    pub(crate) fn of_known(
        alloc: A,
        program: &'a Program<A>,
        graph: &'a CallGraph<A>,
    ) -> Result<Heights<'a, A>, PlacedFault> {
        let mut heights = Heights::new(alloc, program, graph)?;
        match heights.settle() {
            Ok(()) => Ok(heights),
            Err(fault) => {
                drop(heights);
                Err(fault)
            }
        }
    }

    /// Nothing is known, and all functions are to be walked through.
    fn new(
        alloc: A,
        program: &'a Program<A>,
        graph: &'a CallGraph<A>,
    ) -> Result<Heights<'a, A>, AllocError> {
        let count = program.functions().len();
        Ok(Heights {
            alloc,
            program,
            graph,
            ends: Ends(vec![in alloc; None; count]?),
            reaches: no_reaches(alloc, count)?,
            agenda: Agenda::all(alloc, graph)?,
            walk: HeightWalk::new(alloc, count)?,
            assumed: vec![in alloc; false; count]?,
            first_assumed: None,
            first_waiting: 0,
        })
    }

    /// Assumes of each function that returns on no path that it leaves as many entries as it takes.
    ///
    /// # Errors
    ///
    /// A function that doesn't fit this assumption.
    pub(crate) fn assume_all(&mut self) -> Result<(), PlacedFault> {
        for _ in 0..self.ends.0.len() {
            let Some(function) = self.waiting() else {
                break;
            };
            self.assume(function);
            match self.settle() {
                Ok(()) => {}
                Err(PlacedFault::Memory) => return Err(PlacedFault::Memory),
                Err(_) => return Err(self.never_returns(function)),
            }
        }
        Ok(())
    }

    /// Assumes that a function leaves as many entries as it takes.
    fn assume(&mut self, function: usize) {
        if let Some(assumed) = self.assumed.get_mut(function) {
            *assumed = true;
        }
        self.first_assumed = self.first_assumed.or(Some(function));
        self.learn(function, BEGIN);
    }

    /// Walks through the bodies that are to be walked through. A function is so again only after another one that it
    /// calls became known.
    fn settle(&mut self) -> Result<(), PlacedFault> {
        let count = self.graph.len();
        for _ in 0..count.saturating_mul(count.saturating_add(1)) {
            let Some(place) = self.agenda.next(self.graph) else {
                break;
            };
            if let Some(function) = self.program.functions().get(place) {
                self.look_at(place, function)?;
            }
        }
        Ok(())
    }

    /// Walks through the body of the function at this place, and keeps what that shows.
    fn look_at(&mut self, place: usize, function: &Function<A>) -> Result<(), PlacedFault> {
        self.walk_through(place, function)?;
        let reach = self.walk.reach(self.alloc)?;
        let end = reach.end;
        if let Some(known) = self.reaches.get_mut(place) {
            *known = reach;
        }
        match (end, self.end(place)) {
            (Some(found), Some(known)) if found != known => Err(self.never_returns(place)),
            (Some(found), None) if found > BEGIN + MOST_KINDS => {
                let many = Obstacle::ManyResults;
                Err(PlacedFault::of_function(many, self.program, place))
            }
            (Some(found), None) => {
                self.learn(place, found);
                Ok(())
            }
            _ => Ok(()),
        }
    }

    /// Walks through the body of the function at this place.
    fn walk_through(&mut self, place: usize, function: &Function<A>) -> Result<(), PlacedFault> {
        self.walk.begin(place);
        for at in 0..function.line_count() {
            let Some(line) = function.item(at) else {
                break;
            };
            walk_line(&mut self.walk, &self.ends, self.program, place, at, &line)?;
        }
        Ok(())
    }

    /// A function is known to return at this height, so its callers at whose CALLs a path ended are to be walked
    /// through again.
    fn learn(&mut self, function: usize, height: usize) {
        if let Some(end) = self.ends.0.get_mut(function) {
            *end = Some(height);
        }
        for caller in self.graph.callers(function) {
            if self.waits_for(*caller).is_some() {
                self.agenda.add(self.graph, *caller);
            }
        }
    }
}

impl<'a, A: Allocator> Heights<'a, A> {
    /// The height at the RET of a function, if that is known.
    pub(crate) fn end(&self, function: usize) -> Option<usize> {
        *self.ends.0.get(function)?
    }

    /// The lowest height that a path through a function has reached.
    pub(crate) fn lowest(&self, function: usize) -> usize {
        match self.reaches.get(function) {
            Some(reach) => reach.lowest,
            None => BEGIN,
        }
    }

    /// The calls of a function.
    pub(crate) fn calls(&self, function: usize) -> &[Call] {
        match self.reaches.get(function) {
            Some(reach) => reach.calls.as_slice(),
            None => &[],
        }
    }

    /// Whether a function was assumed to return.
    pub(crate) fn is_assumed(&self, function: usize) -> bool {
        self.assumed.get(function) == Some(&true)
    }

    /// The first function that was assumed to return, if one was.
    pub(crate) fn first_assumed(&self) -> Option<usize> {
        self.first_assumed
    }

    /// That a function returns on no path.
    fn never_returns(&self, function: usize) -> PlacedFault {
        PlacedFault::of_function(Obstacle::NeverReturns, self.program, function)
    }

    /// The function at whose CALL a path through a function ended last, if one did.
    fn waits_for(&self, function: usize) -> Option<usize> {
        self.reaches.get(function)?.waits_for
    }

    /// A function that returns on no path, if there is one: the first that waits for another waits for it in the end.
    pub(crate) fn waiting(&mut self) -> Option<usize> {
        for place in self.first_waiting..self.ends.0.len() {
            self.first_waiting = place;
            if self.end(place).is_none() {
                return Some(self.awaited(place));
            }
        }
        None
    }

    /// The function for which this one waits in the end.
    fn awaited(&self, function: usize) -> usize {
        let mut last = function;
        for _ in 0..self.ends.0.len() {
            match self.waits_for(last) {
                Some(next) if next != last => last = next,
                _ => break,
            }
        }
        last
    }
}

/// What is found by no walk, for this number of functions.
fn no_reaches<A: Allocator + Copy>(alloc: A, count: usize) -> Result<Vec<Reach<A>, A>, AllocError> {
    let mut reaches = Vec::with_capacity(alloc, count)?;
    for _ in 0..count {
        reaches.push(Reach::new(alloc))?;
    }
    Ok(reaches)
}
