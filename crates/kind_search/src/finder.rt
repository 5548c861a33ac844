//! What a program's functions take and give.

use crate::call_graph::CallGraph;
use crate::fault::{Obstacle, PlacedFault};
use crate::heights::Heights;
use crate::kinds::Kinds;
use crate::shapes::shapes_of;
use signatures::FunctionType;
use std::alloc::Allocator;
use vcode_reader::Program;
use verifier::KindFault;

/// What the functions of a program take and give.
#[derive(Drop)]
pub(crate) struct Finder<'a, A: Allocator> {
    program: &'a Program<A>,
    kinds: Kinds<'a, A>,
    /// The first function that was assumed to return.
    assumed: Option<usize>,
}

impl<'a, A: Allocator + Copy> Finder<'a, A> {
    /// Finds what all functions take and give. One that returns on no path is assumed to give what it takes. A stack
    /// may have at most `most_entries` entries.
    pub(crate) fn find(
        alloc: A,
        program: &'a Program<A>,
        most_entries: usize,
    ) -> Result<Finder<'a, A>, PlacedFault> {
        let graph = CallGraph::new(alloc, program)?;
        let found = Finder::find_in(alloc, program, &graph, most_entries);
        drop(graph);
        found
    }

    /// The same, by the calls of the program.
    fn find_in(
        alloc: A,
        program: &'a Program<A>,
        graph: &CallGraph<A>,
        most_entries: usize,
    ) -> Result<Finder<'a, A>, PlacedFault> {
        let mut heights = Heights::of_known(alloc, program, graph)?;
        let found = Finder::find_by(alloc, program, graph, &mut heights, most_entries);
        drop(heights);
        found
    }

    /// The same, by the heights that are known without an assumption.
    fn find_by(
        alloc: A,
        program: &'a Program<A>,
        graph: &CallGraph<A>,
        heights: &mut Heights<'_, A>,
        most_entries: usize,
    ) -> Result<Finder<'a, A>, PlacedFault> {
        if heights.waiting().is_some() {
            // What the others take and give has to be right without an assumption, and so has what MAIN takes.
            check_known(alloc, program, graph, heights, most_entries)?;
            heights.assume_all()?;
        }
        let assumed = heights.first_assumed();
        match kinds_by(alloc, program, graph, heights, most_entries) {
            Ok(kinds) => Ok(Finder {
                program,
                kinds,
                assumed,
            }),
            Err(fault) => Err(blamed_on(fault, program, assumed)),
        }
    }

    /// What the function at this place takes and gives, with INT for kinds that are open.
    pub(crate) fn function_type(&mut self, place: usize) -> Result<FunctionType<A>, PlacedFault> {
        self.kinds.function_type(place)
    }
}

impl<'a, A: Allocator> Finder<'a, A> {
    /// That a function returns on no path, if one was assumed to return.
    pub(crate) fn blame(&self) -> Option<PlacedFault> {
        Some(never_returns(self.program, self.assumed?))
    }
}

/// The kinds of all functions by these heights.
fn kinds_by<'a, A: Allocator + Copy>(
    alloc: A,
    program: &'a Program<A>,
    graph: &CallGraph<A>,
    heights: &Heights<'_, A>,
    most_entries: usize,
) -> Result<Kinds<'a, A>, PlacedFault> {
    let shapes = shapes_of(alloc, program, graph, heights)?;
    Kinds::find(alloc, program, graph, shapes.as_slice(), most_entries)
}

/// Refuses functions that have no kinds by these heights, and a MAIN that takes operands.
fn check_known<A: Allocator + Copy>(
    alloc: A,
    program: &Program<A>,
    graph: &CallGraph<A>,
    heights: &Heights<'_, A>,
    most_entries: usize,
) -> Result<(), PlacedFault> {
    let known = kinds_by(alloc, program, graph, heights, most_entries)?;
    let checked = check_main(program, &known);
    drop(known);
    checked
}

/// Refuses a MAIN that takes operands.
fn check_main<A: Allocator>(program: &Program<A>, kinds: &Kinds<'_, A>) -> Result<(), PlacedFault> {
    let Some(place) = program.position(b"MAIN") else {
        return Ok(());
    };
    match program.functions().get(place) {
        Some(main) if kinds.takes_operands(place) => {
            Err(PlacedFault::Program(KindFault::MainTakes, main.line()))
        }
        _ => Ok(()),
    }
}

/// That a function returns on no path.
fn never_returns<A: Allocator>(program: &Program<A>, function: usize) -> PlacedFault {
    PlacedFault::of_function(Obstacle::NeverReturns, program, function)
}

/// A fault, or that a function returns on no path, if it was assumed to return and the fault may come from that.
fn blamed_on<A: Allocator>(
    fault: PlacedFault,
    program: &Program<A>,
    assumed: Option<usize>,
) -> PlacedFault {
    match assumed {
        Some(function) if !fault.is_of_room() => never_returns(program, function),
        _ => fault,
    }
}
