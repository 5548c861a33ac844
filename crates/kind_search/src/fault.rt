//! Why a search finds no signatures.

use crate::classes::KindId;
use crate::stacks::Stack;
use std::alloc::{AllocError, AllocFailed, Allocator};
use vcode_reader::Program;
use verifier::KindFault;

/// What stands in the way of a function's signature.
#[derive(Clone, Copy, PartialEq, Eq, Debug)]
pub enum Obstacle {
    /// What it takes is of one kind at one place, and of another kind at another.
    TwoKinds,
    /// No path through it reaches its RET.
    NeverReturns,
    /// It takes more operands than a signature may have, as one that asks for more at each of its calls does.
    ManyOperands,
    /// It gives more results than a signature may have.
    ManyResults,
    /// Its stack has more entries than were allowed, or they were moved so often that there is no room to remember how.
    ManyEntries,
}

impl Obstacle {
    /// What a message says of the function.
    pub fn text(self) -> &'static str {
        match self {
            Obstacle::TwoKinds => "is used at two kinds",
            Obstacle::NeverReturns => "returns on no path",
            Obstacle::ManyOperands => "asks for more and more operands",
            Obstacle::ManyResults => "gives too many results",
            Obstacle::ManyEntries => "has too many entries on its stack",
        }
    }
}

/// Why a search finds no signatures. It names a function by its place in the program.
#[derive(Drop)]
pub enum PlacedFault {
    /// Memory was refused.
    Memory,
    /// The function at this place has no signature, as this line shows.
    Function(Obstacle, usize, u64),
    /// No signatures would help: the program has this fault at this line.
    Program(KindFault, u64),
}

impl PlacedFault {
    /// What stands in the way of the function at a place, at its FUNC.
    pub(crate) fn of_function<A: Allocator>(
        obstacle: Obstacle,
        program: &Program<A>,
        place: usize,
    ) -> PlacedFault {
        let line = match program.functions().get(place) {
            Some(function) => function.line(),
            None => program.first_line(),
        };
        PlacedFault::Function(obstacle, place, line)
    }

    /// Whether there was too little room for the search.
    pub(crate) fn is_of_room(&self) -> bool {
        match self {
            PlacedFault::Memory => true,
            PlacedFault::Function(obstacle, _, _) => *obstacle == Obstacle::ManyEntries,
            PlacedFault::Program(..) => false,
        }
    }
}

impl From<AllocError> for PlacedFault {
    fn from(_: AllocError) -> PlacedFault {
        PlacedFault::Memory
    }
}

impl<T: Drop> From<AllocFailed<T>> for PlacedFault {
    fn from(_: AllocFailed<T>) -> PlacedFault {
        PlacedFault::Memory
    }
}

/// Why a walk by kinds can't go on.
#[derive(Drop)]
pub enum PathFault {
    Memory,
    /// This entry is of another kind than is asked for.
    OtherKind(KindId),
    /// There may be no more entries.
    ManyEntries,
    /// The parts of an IF leave these, which differ.
    PartsDiffer(Stack, Stack),
    Refused(KindFault),
}

impl From<AllocError> for PathFault {
    fn from(_: AllocError) -> PathFault {
        PathFault::Memory
    }
}

impl<T: Drop> From<AllocFailed<T>> for PathFault {
    fn from(_: AllocFailed<T>) -> PathFault {
        PathFault::Memory
    }
}
