//! A walk by kinds through bodies, one after the other.

use crate::classes::{Classes, KindId};
use crate::fault::PathFault;
use crate::paths::Paths;
use crate::stacks::{Piece, Stack, Stacks};
use signatures::Signatures;
use std::alloc::{AllocError, Allocator};
use vcode_base::{Kind, StackMove};
use verifier::{AbstractStack, Calls, KindFault};

/// A walk by kinds through bodies, one after the other. An entry of a stack is the number of its kind. What a CALL and
/// a RET do is up to who walks. Nothing changes after the end of a path.
#[derive(Drop)]
pub struct KindWalk<A: Allocator> {
    pub(crate) classes: Classes<A>,
    pub(crate) stacks: Stacks<A>,
    paths: Paths<Stack, A>,
    /// For each open IF the fewest entries that its path had in the part of an IF around it.
    lowest: Vec<usize, A>,
}

impl<A: Allocator + Copy> KindWalk<A> {
    /// A walk in no body, with `count` numbers of kinds. A stack may have at most `most_entries` entries.
    pub fn new(alloc: A, count: u32, most_entries: usize) -> Result<KindWalk<A>, AllocError> {
        Ok(KindWalk {
            classes: Classes::new(alloc, count)?,
            stacks: Stacks::new(alloc, count, most_entries)?,
            paths: Paths::new(alloc),
            lowest: Vec::new(alloc),
        })
    }
}

impl<A: Allocator> KindWalk<A> {
    /// Adds three numbers, of INT, BOOL and SEGDES, which entries of these kinds have that are made from now on. The
    /// first of all numbers is 0.
    pub fn add_known(&mut self) -> Result<(), PathFault> {
        let first = self.classes.add_known()?;
        self.stacks.add_known(first)
    }

    /// The walk through a body begins with a stack of this piece.
    pub(crate) fn begin(&mut self, operands: Piece) -> Result<(), PathFault> {
        let stack = self.stacks.begin(operands)?;
        self.lowest.clear();
        self.paths.begin(stack);
        Ok(())
    }

    /// The walk through a body begins with a stack of these kinds.
    pub fn begin_with(&mut self, operands: &[Kind]) -> Result<(), PathFault> {
        self.begin(Piece { from: 0, count: 0 })?;
        self.replace_kinds(&[], operands)
    }

    /// The stack, unless the path has ended.
    pub fn path(&self) -> Option<Stack> {
        self.paths.path
    }

    /// The path ends.
    pub(crate) fn end_path(&mut self) {
        self.paths.path = None;
    }

    /// The numbers of the entries of a stack, from the bottom up.
    pub fn numbers(&mut self, stack: Stack) -> Result<&[KindId], PathFault> {
        self.stacks.entries_of(stack)
    }

    /// Takes entries of these kinds off the stack, and then puts entries of those kinds on it.
    fn replace_kinds(&mut self, takes: &[Kind], gives: &[Kind]) -> Result<(), PathFault> {
        if let Some(stack) = &mut self.paths.path {
            self.stacks.take_kinds(&mut self.classes, stack, takes)?;
            self.stacks.put_kinds(stack, gives)?;
        }
        Ok(())
    }

    /// The same with pieces.
    pub(crate) fn replace_piece(&mut self, takes: Piece, gives: Piece) -> Result<(), PathFault> {
        if let Some(stack) = &mut self.paths.path {
            self.stacks.take_like(&mut self.classes, stack, takes)?;
            self.stacks.put(stack, gives)?;
        }
        Ok(())
    }

    /// Takes entries of these kinds off the stack, which may have no others.
    pub fn check_end(&mut self, kinds: &[Kind]) -> Result<(), PathFault> {
        self.replace_kinds(kinds, &[])?;
        match self.paths.path {
            Some(stack) if stack.height > 0 => Err(PathFault::Refused(KindFault::ResultDiffers)),
            _ => Ok(()),
        }
    }

    /// The path after an IF whose parts end so.
    fn joined(
        &mut self,
        first: Option<Stack>,
        second: Option<Stack>,
    ) -> Result<Option<Stack>, PathFault> {
        let (Some(one), Some(other)) = (first, second) else {
            return Ok(first.or(second));
        };
        match self.stacks.join(&mut self.classes, one, other) {
            None => Err(PathFault::PartsDiffer(one, other)),
            Some(stack) if self.stacks.known == 0 => Ok(Some(stack)),
            Some(_) => Ok(Some(self.stacks.merge(&mut self.classes, one, other)?)),
        }
    }
}

impl<A: Allocator> AbstractStack for KindWalk<A> {
    type Fault = PathFault;

    ghost After = { λ _ _ _ _. Unit {0} };

    fn replace(&mut self, takes: &[Kind], gives: &[Kind], _line: u64) -> Result<(), PathFault> {
        self.replace_kinds(takes, gives)
    }

    fn shift(
        &mut self,
        motion: StackMove,
        lower: u16,
        upper: u16,
        _line: u64,
    ) -> Result<(), PathFault> {
        match &mut self.paths.path {
            Some(stack) => self.stacks.shift(stack, motion, lower, upper),
            None => Ok(()),
        }
    }

    fn begin_if(&mut self) -> Result<(), PathFault> {
        let mut lowest = 0;
        if let Some(stack) = &mut self.paths.path {
            lowest = stack.lowest;
            stack.lowest = stack.height;
        }
        self.lowest.push(lowest)?;
        self.paths.begin_if()?;
        Ok(())
    }

    fn begin_else(&mut self) -> Result<(), PathFault> {
        self.paths.begin_else();
        Ok(())
    }

    fn end_if(&mut self, _line: u64) -> Result<(), PathFault> {
        let lowest = self.lowest.pop().unwrap_or(0);
        let (first, second) = self.paths.end_if();
        self.paths.path = self.joined(first, second)?;
        if let Some(stack) = &mut self.paths.path {
            stack.lowest = stack.lowest.min(lowest);
        }
        Ok(())
    }
}

/// A CALL of a function that has no signature changes nothing.
impl<A: Allocator> Calls<KindWalk<A>> for Signatures<A> {
    ghost AfterCall = { λ _ _ _ _ _ _ _. Unit {0} };

    fn call(
        &self,
        walk: &mut KindWalk<A>,
        _callee: Option<usize>,
        name: &[u8],
        _line: u64,
    ) -> Result<(), PathFault> {
        let (takes, gives) = self.get(name).unwrap_or((&[], &[]));
        walk.replace_kinds(takes, gives)
    }
}
