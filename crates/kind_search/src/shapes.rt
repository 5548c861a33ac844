//! How many operands each function takes, and how many results it gives.

use crate::agenda::Agenda;
use crate::call_graph::CallGraph;
use crate::fault::{Obstacle, PlacedFault};
use crate::height_walk::BEGIN;
use crate::heights::Heights;
use std::alloc::{AllocError, Allocator};
use vcode_base::limits::MOST_KINDS;
use vcode_reader::Program;

/// How many entries a function takes, and how many it leaves in their place.
#[derive(Clone, Copy)]
pub(crate) struct Shape {
    pub operands: usize,
    /// None if the function isn't known to return.
    pub results: Option<usize>,
    /// Whether the function was assumed to give what it takes.
    pub assumed: bool,
}

/// The shape of each function: it takes as many entries as a path through it needs.
///
/// # Errors
///
/// A function takes or gives more entries than a signature may have.
pub(crate) fn shapes_of<A: Allocator + Copy>(
    alloc: A,
    program: &Program<A>,
    graph: &CallGraph<A>,
    heights: &Heights<'_, A>,
) -> Result<Vec<Shape, A>, PlacedFault> {
    let operands = operands_of(alloc, graph, heights)?;
    let mut shapes = Vec::with_capacity(alloc, operands.len())?;
    for (place, operands) in operands.iter().enumerate() {
        shapes.push(shape_of(program, heights, place, *operands)?)?;
    }
    Ok(shapes)
}

/// The shape of the function at this place, which takes `operands` operands.
fn shape_of<A: Allocator>(
    program: &Program<A>,
    heights: &Heights<'_, A>,
    place: usize,
    operands: usize,
) -> Result<Shape, PlacedFault> {
    let results = match heights.end(place) {
        Some(end) => Some(operands.saturating_add(end).saturating_sub(BEGIN)),
        None => None,
    };
    match results {
        Some(count) if count > MOST_KINDS => {
            Err(PlacedFault::of_function(Obstacle::ManyResults, program, place))
        }
        _ => Ok(Shape {
            operands,
            results,
            assumed: heights.is_assumed(place),
        }),
    }
}

/// How many operands each function takes.
fn operands_of<A: Allocator + Copy>(
    alloc: A,
    graph: &CallGraph<A>,
    heights: &Heights<'_, A>,
) -> Result<Vec<usize, A>, PlacedFault> {
    let mut agenda = Agenda::all(alloc, graph)?;
    let mut operands = own_operands(alloc, graph, heights)?;
    add_needed(&mut operands, &mut agenda, graph, heights)?;
    Ok(operands)
}

/// How many operands each function needs for its own instructions.
fn own_operands<A: Allocator>(
    alloc: A,
    graph: &CallGraph<A>,
    heights: &Heights<'_, A>,
) -> Result<Vec<usize, A>, AllocError> {
    let mut operands = Vec::with_capacity(alloc, graph.len())?;
    for function in 0..graph.len() {
        operands.push(BEGIN.saturating_sub(heights.lowest(function)))?;
    }
    Ok(operands)
}

/// Adds what functions need for those that they call, looking at those of an agenda.
fn add_needed<A: Allocator>(
    operands: &mut [usize],
    agenda: &mut Agenda<A>,
    graph: &CallGraph<A>,
    heights: &Heights<'_, A>,
) -> Result<(), PlacedFault> {
    // A function is looked at once, and again after one that it calls takes more.
    let looks = graph.len().saturating_mul(graph.len());
    for _ in 0..looks.saturating_mul(MOST_KINDS + 1) {
        let Some(function) = agenda.next(graph) else {
            break;
        };
        let needed = needed_by_calls(operands, function, heights)?;
        if let Some(known) = operands.get_mut(function) {
            if needed > *known {
                *known = needed;
                for caller in graph.callers(function) {
                    agenda.add(graph, *caller);
                }
            }
        }
    }
    Ok(())
}

/// How many operands a function needs for what the functions take that it calls.
fn needed_by_calls<A: Allocator>(
    operands: &[usize],
    function: usize,
    heights: &Heights<'_, A>,
) -> Result<usize, PlacedFault> {
    let mut most = 0;
    for call in heights.calls(function) {
        let takes = operands.get(call.callee).copied().unwrap_or(0);
        let needed = takes.saturating_add(BEGIN).saturating_sub(call.height);
        if needed > MOST_KINDS {
            return Err(PlacedFault::Function(Obstacle::ManyOperands, function, call.line));
        }
        most = most.max(needed);
    }
    Ok(most)
}
