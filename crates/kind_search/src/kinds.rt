//! The kinds of what each function takes and gives.

use crate::call_graph::CallGraph;
use crate::classes::KindId;
use crate::fault::{Obstacle, PathFault, PlacedFault};
use crate::kind_walk::KindWalk;
use crate::shapes::Shape;
use crate::stacks::Piece;
use signatures::FunctionType;
use std::alloc::{AllocError, Allocator};
use vcode_base::Kind;
use vcode_reader::{Function, Program};
use verifier::{Calls, KindFault, walk_line};

/// What a function takes and gives.
#[derive(Clone, Copy)]
struct FunctionKinds {
    /// Its operands, from the bottom up.
    operands: Piece,
    /// Its results, if it is known to return.
    results: Option<Results>,
    /// Whether it returns on no path, and was assumed to give what it takes.
    assumed: bool,
}

/// The results of a function, from the bottom up.
#[derive(Clone, Copy)]
struct Results {
    /// Kinds that are open until the function was walked through.
    open: Piece,
    /// What a CALL gives: these, and after the walk the entries at RET.
    given: Piece,
}

/// The kinds of all functions. Each body is walked through once.
#[derive(Drop)]
pub(crate) struct Kinds<'a, A: Allocator> {
    alloc: A,
    program: &'a Program<A>,
    functions: Vec<FunctionKinds, A>,
    walk: KindWalk<A>,
}

/// The next `count` numbers of kinds.
fn open_kinds(next: &mut u32, count: usize) -> Piece {
    let from = *next;
    let until = from.saturating_add(u32::try_from(count).unwrap_or(0));
    *next = until;
    Piece {
        from,
        count: until - from,
    }
}

/// The kinds of functions of these shapes, which are all open, and how many numbers of kinds there are.
fn open_functions<A: Allocator>(
    alloc: A,
    shapes: &[Shape],
) -> Result<(Vec<FunctionKinds, A>, u32), AllocError> {
    let mut next = KindId::KNOWN;
    let mut functions = Vec::with_capacity(alloc, shapes.len())?;
    for shape in shapes {
        let operands = open_kinds(&mut next, shape.operands);
        let results = match shape.results {
            Some(count) => {
                let open = open_kinds(&mut next, count);
                Some(Results { open, given: open })
            }
            None => None,
        };
        functions.push(FunctionKinds {
            operands,
            results,
            assumed: shape.assumed,
        })?;
    }
    Ok((functions, next))
}

/// The operands and the results of the function at this place, if it is known to return.
fn arrow_of(functions: &[FunctionKinds], place: usize) -> Option<(Piece, Results)> {
    let function = functions.get(place)?;
    Some((function.operands, function.results?))
}

/// The path ends at a CALL of a function that isn't known to return.
impl<A: Allocator> Calls<KindWalk<A>> for Vec<FunctionKinds, A> {
    ghost AfterCall = { λ _ _ _ _ _ _ _. Unit {0} };

    fn call(
        &self,
        walk: &mut KindWalk<A>,
        callee: Option<usize>,
        _name: &[u8],
        _line: u64,
    ) -> Result<(), PathFault> {
        let Some(callee) = callee else {
            return Err(PathFault::Refused(KindFault::UnknownFunction));
        };
        match arrow_of(self.as_slice(), callee) {
            Some((operands, results)) => walk.replace_piece(operands, results.given),
            None => {
                walk.end_path();
                Ok(())
            }
        }
    }
}

impl<'a, A: Allocator + Copy> Kinds<'a, A> {
    /// The kinds of functions of these shapes. A stack may have at most `most_entries` entries.
    ///
    /// # Errors
    ///
    /// Two kinds that have to be equal aren't, or a stack has more entries.
    pub(crate) fn find(
        alloc: A,
        program: &'a Program<A>,
        graph: &CallGraph<A>,
        shapes: &[Shape],
        most_entries: usize,
    ) -> Result<Kinds<'a, A>, PlacedFault> {
        let (functions, count) = open_functions(alloc, shapes)?;
        let mut kinds = Kinds {
            alloc,
            program,
            functions,
            walk: KindWalk::new(alloc, count, most_entries)?,
        };
        match kinds.walk_all(graph) {
            Ok(()) => Ok(kinds),
            Err(fault) => {
                drop(kinds);
                Err(fault)
            }
        }
    }

    /// Walks through all bodies, in the order of the graph.
    fn walk_all(&mut self, graph: &CallGraph<A>) -> Result<(), PlacedFault> {
        for rank in 0..graph.len() {
            if let Some(place) = graph.at(rank) {
                if let Some(function) = self.program.functions().get(place) {
                    self.walk(place, function)?;
                }
            }
        }
        self.decide_assumed();
        Ok(())
    }

    /// What the function at this place takes and gives, with INT for kinds that are open.
    pub(crate) fn function_type(&mut self, place: usize) -> Result<FunctionType<A>, PlacedFault> {
        match arrow_of(self.functions.as_slice(), place) {
            Some((operands, results)) => {
                let operands = self.kinds_of(operands)?;
                let results = self.kinds_of(results.open)?;
                Ok(FunctionType::new(operands, results))
            }
            None => Err(PlacedFault::of_function(Obstacle::NeverReturns, self.program, place)),
        }
    }

    /// The kinds of the entries of a piece.
    fn kinds_of(&mut self, piece: Piece) -> Result<Vec<Kind, A>, AllocError> {
        let mut kinds = Vec::with_capacity(self.alloc, piece.count as usize)?;
        for place in 0..piece.count {
            let id = KindId(piece.from.saturating_add(place));
            kinds.push(self.walk.classes.kind(id))?;
        }
        Ok(kinds)
    }
}

impl<'a, A: Allocator> Kinds<'a, A> {
    /// Whether the function at this place takes operands.
    pub(crate) fn takes_operands(&self, place: usize) -> bool {
        match self.functions.get(place) {
            Some(function) => function.operands.count > 0,
            None => false,
        }
    }

    /// Walks through the body of the function at this place.
    fn walk(&mut self, place: usize, function: &Function<A>) -> Result<(), PlacedFault> {
        let Some(FunctionKinds { operands, .. }) = self.functions.get(place).copied() else {
            return Ok(());
        };
        let mut last = function.line();
        if let Err(fault) = self.walk.begin(operands) {
            return Err(self.fault_at(fault, place, None, last));
        }
        for at in 0..function.line_count() {
            let Some(line) = function.item(at) else {
                break;
            };
            last = line.number;
            if let Err(fault) = walk_line(
                &mut self.walk,
                &self.functions,
                self.program,
                place,
                at,
                &line,
            ) {
                let callee = self.program.callee(place, at);
                return Err(self.fault_at(fault, place, callee, last));
            }
        }
        match self.finish(place) {
            Ok(()) => Ok(()),
            Err(fault) => Err(self.fault_at(fault, place, None, last)),
        }
    }

    /// The walk through the body of the function at this place has come to its end: the entries at RET are its results.
    fn finish(&mut self, place: usize) -> Result<(), PathFault> {
        let Some(stack) = self.walk.path() else {
            return Ok(());
        };
        let given = self.walk.stacks.keep(stack)?;
        let Some(function) = self.functions.get_mut(place) else {
            return Ok(());
        };
        let Some(Results { open, given: _ }) = function.results else {
            return Ok(());
        };
        function.results = Some(Results { open, given });
        if function.assumed {
            let operands = function.operands;
            self.give_back(operands, open, given);
        }
        self.walk.stacks.unify(&mut self.walk.classes, given, open)
    }

    /// The results of a function that come from its own CALL are its operands, if they may be of equal kinds.
    fn give_back(&mut self, operands: Piece, open: Piece, given: Piece) {
        for place in 0..operands.count.min(open.count) {
            let result_kind = KindId(open.from.saturating_add(place));
            let entry = self.walk.stacks.entry(given.from.saturating_add(place));
            if self.walk.classes.are_equal(entry, result_kind) {
                let operand = KindId(operands.from.saturating_add(place));
                let _ = self.walk.classes.unify(operand, result_kind);
            }
        }
    }

    /// Gives the results of functions that were assumed to return, as far as they are open, the kinds of the operands.
    fn decide_assumed(&mut self) {
        for place in 0..self.functions.len() {
            if let Some(
                FunctionKinds {
                    operands,
                    results: Some(results),
                    assumed: true,
                },
            ) = self.functions.get(place).copied()
            {
                self.decide(operands, results.open);
            }
        }
    }

    /// Gives results, as far as they are open, the kinds of the operands.
    fn decide(&mut self, operands: Piece, open: Piece) {
        for place in 0..operands.count.min(open.count) {
            let result_kind = KindId(open.from.saturating_add(place));
            if self.walk.classes.is_open(result_kind) {
                let operand = KindId(operands.from.saturating_add(place));
                let _ = self.walk.classes.unify(operand, result_kind);
            }
        }
    }

    /// The fault that ends a walk through a function at a line, which may call one.
    fn fault_at(
        &self,
        fault: PathFault,
        function: usize,
        callee: Option<usize>,
        line: u64,
    ) -> PlacedFault {
        match fault {
            PathFault::Memory => PlacedFault::Memory,
            PathFault::Refused(fault) => PlacedFault::Program(fault, line),
            PathFault::PartsDiffer(..) => PlacedFault::Program(KindFault::ArmsDiffer, line),
            PathFault::ManyEntries => {
                PlacedFault::Function(Obstacle::ManyEntries, function, line)
            }
            PathFault::OtherKind(entry) => match callee.or(self.owner(entry)) {
                Some(used) => PlacedFault::Function(Obstacle::TwoKinds, used, line),
                None => PlacedFault::Program(KindFault::WrongKind, line),
            },
        }
    }

    /// The function that has an operand of this number.
    fn owner(&self, entry: KindId) -> Option<usize> {
        self.functions
            .iter()
            .position(|function| function.operands.has(entry.0))
    }
}
