//! The walk by which kinds are checked: the kinds on the stack of each function, with the lines that make them, up to
//! the first instruction that they don't fit.

use crate::operands::operand_names;
use kind_search::{KindId, KindWalk, PathFault, Stack};
use signatures::Signatures;
use std::alloc::{AllocError, Global};
use vcode_base::{Instr, Instruction, Kind, Op};
use vcode_reader::{CodeItem, CodeLine, Function, Program};
use verifier::walk_line;

/// An entry of the stack before a job runs: its kind, and the line that makes it.
#[derive(Clone, Copy, Drop, PartialEq)]
pub(crate) struct StackEntry {
    pub kind: Kind,
    pub line: u64,
}

/// The most entries of a stack that is walked further.
const MOST_ENTRIES: usize = 65_536;

/// The names of what has none.
pub(crate) const NO_NAMES: &[&str] = &[];

/// What is wanted at a place of the stack: entries of this kind, or of any.
#[derive(Clone, Copy, Drop)]
pub(crate) enum Wanted {
    Of(Kind),
    Any,
}

/// Why kinds don't fit.
#[derive(Drop)]
pub(crate) enum Clash {
    /// The entries that an instruction takes, from the bottom up, with their names if they have some.
    Operands(Vec<Wanted>, &'static [&'static str]),
    /// The entries that a function leaves, from the bottom up. It may leave no others.
    Results(Vec<Wanted>),
    /// What the other part of an IF leaves, from the bottom up. What the stack has is left by the first.
    Parts(Vec<StackEntry>),
}

/// The first place where the kinds of a program don't fit: the function, the line, how many instructions of the line
/// come before it, the stack there, and why.
#[derive(Drop)]
pub(crate) struct Misfit {
    pub function: usize,
    pub line: u64,
    pub before: usize,
    pub stack: Vec<StackEntry>,
    pub clash: Clash,
}

/// A walk through the functions, one after the other.
#[derive(Drop)]
struct Walk {
    walk: KindWalk<Global>,
    /// The kind of each number of the walk, and the line that makes entries of this number.
    made: Vec<StackEntry>,
}

/// Entries of these kinds.
fn wanted_of(alloc: Global, kinds: &[Kind]) -> Result<Vec<Wanted>, AllocError> {
    kinds.iter().map(|kind| Wanted::Of(*kind)).collect(alloc)
}

/// What the function of this name takes and gives.
fn arrow_of<'a>(signatures: &'a Signatures<Global>, name: &[u8]) -> (&'a [Kind], &'a [Kind]) {
    signatures.get(name).unwrap_or((&[], &[]))
}

/// What a line wants, in a function that gives these kinds.
fn wanted_by(
    alloc: Global,
    signatures: &Signatures<Global>,
    gives: &[Kind],
    item: &CodeItem<Instruction<'_>>,
) -> Result<Clash, AllocError> {
    let (kinds, names): (&[Kind], _) = match item {
        CodeItem::Do(Instr::Return) => return Ok(Clash::Results(wanted_of(alloc, gives)?)),
        CodeItem::Do(Instr::Move(_, lower, upper)) => {
            let count = usize::from(*lower) + usize::from(*upper);
            return Ok(Clash::Operands(vec![in alloc; Wanted::Any; count]?, &[]));
        }
        CodeItem::Do(Instr::Call(name)) => (arrow_of(signatures, name.as_slice()).0, NO_NAMES),
        CodeItem::Do(instruction) => {
            let op = instruction.op();
            (op.operand_kinds(), operand_names(op))
        }
        _ => (Op::If.operand_kinds(), operand_names(Op::If)),
    };
    Ok(Clash::Operands(wanted_of(alloc, kinds)?, names))
}

impl Walk {
    /// Goes on at this line.
    fn go_to(&mut self, line: u64) -> Result<(), PathFault> {
        if matches!(self.made.last(), Some(last) if last.line == line) {
            return Ok(());
        }
        for kind in [Kind::Int, Kind::Bool, Kind::Segdes] {
            self.made.push(StackEntry { kind, line })?;
        }
        self.walk.add_known()
    }

    /// The line at this place of the function at that place of the program, which gives these kinds.
    fn step(
        &mut self,
        program: &Program<Global>,
        signatures: &Signatures<Global>,
        function: usize,
        gives: &[Kind],
        place: usize,
        line: &CodeLine<'_>,
    ) -> Result<(), PathFault> {
        // An ELSE may be on an earlier line, that of its IF.
        if !matches!(&line.item, CodeItem::Else) {
            self.go_to(line.number)?;
        }
        walk_line(&mut self.walk, signatures, program, function, place, line)?;
        match &line.item {
            CodeItem::Do(Instr::Return) => self.walk.check_end(gives),
            _ => Ok(()),
        }
    }

    /// The entries of a stack, from the bottom up.
    fn entries(&mut self, alloc: Global, stack: Stack) -> Result<Vec<StackEntry>, PathFault> {
        let mut entries = Vec::new(alloc);
        for KindId(number) in self.walk.numbers(stack)? {
            if let Some(entry) = self.made.get(*number as usize) {
                entries.push(*entry)?;
            }
        }
        Ok(entries)
    }
}

/// How many of the first `end` items of a function are instructions of the line of this number.
fn count_in(function: &Function<Global>, end: usize, number: u64) -> usize {
    let is_counted = |place: &usize| match function.item(*place) {
        Some(line) => line.number == number && matches!(&line.item, CodeItem::Do(_) | CodeItem::If),
        None => false,
    };
    (0..end).filter(is_counted).count()
}

/// How many instructions of the line of this number come before a place of a function, which is at this place of the
/// program.
fn count_before(program: &Program<Global>, function: usize, place: usize, number: u64) -> usize {
    let mut count: usize = 0;
    for earlier in program.functions().iter().take(function) {
        count = count.saturating_add(count_in(earlier, earlier.line_count(), number));
    }
    match program.functions().get(function) {
        Some(function) => count.saturating_add(count_in(function, place, number)),
        None => count,
    }
}

/// The first place where the kinds of a function don't fit. It is the function of this place in the program.
///
/// # Errors
///
/// The walk is given up before that.
fn misfit_in(
    walk: &mut Walk,
    alloc: Global,
    program: &Program<Global>,
    signatures: &Signatures<Global>,
    place: usize,
    function: &Function<Global>,
) -> Result<Option<Misfit>, PathFault> {
    let Some((takes, gives)) = signatures.get(function.name()) else {
        return Ok(None);
    };
    walk.go_to(function.line())?;
    walk.walk.begin_with(takes)?;
    for at in 0..function.line_count() {
        let (Some(line), Some(stack)) = (function.item(at), walk.walk.path()) else {
            return Ok(None);
        };
        let (stack, clash) = match walk.step(program, signatures, place, gives, at, &line) {
            Ok(()) => continue,
            Err(PathFault::PartsDiffer(first, second)) => {
                (first, Clash::Parts(walk.entries(alloc, second)?))
            }
            Err(PathFault::OtherKind(_) | PathFault::Refused(_)) => {
                (stack, wanted_by(alloc, signatures, gives, &line.item)?)
            }
            Err(fault) => return Err(fault),
        };
        return Ok(Some(Misfit {
            function: place,
            line: line.number,
            before: count_before(program, place, at, line.number),
            stack: walk.entries(alloc, stack)?,
            clash,
        }));
    }
    Ok(None)
}

/// The first place where the kinds of a program don't fit, but for functions in which the walk is given up.
pub(crate) fn misfit_of(
    alloc: Global,
    program: &Program<Global>,
    signatures: &Signatures<Global>,
) -> Result<Option<Misfit>, AllocError> {
    let mut walk = Walk {
        walk: KindWalk::new(alloc, 0, MOST_ENTRIES)?,
        made: Vec::new(alloc),
    };
    for (place, function) in program.functions().iter().enumerate() {
        match misfit_in(&mut walk, alloc, program, signatures, place, function) {
            Ok(None) | Err(PathFault::ManyEntries) => {}
            Ok(misfit) => return Ok(misfit),
            Err(_) => return Err(AllocError),
        }
    }
    Ok(None)
}
