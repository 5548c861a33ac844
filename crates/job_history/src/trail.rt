//! Where each vector of a run comes from, and where each of its calls was made.

use crate::next::Next;
use job_profile::{Effect, Run};
use std::alloc::{AllocError, Allocator};
use vcode_base::{Kind, Op};

/// Where a vector comes from: its kind, the line that made it, and how many vectors were made before it. An entry of
/// the stack and its copies have one vector.
#[derive(Clone, Copy, Drop)]
pub struct Origin {
    pub kind: Kind,
    pub line: u64,
    pub before: u64,
}

/// Where a call was made: the line of its CALL, and how many entries there were before it.
#[derive(Clone, Copy, Drop)]
pub struct Caller {
    pub line: u64,
    pub depth: usize,
}

/// The origins of the vectors of a run, each at the number of its block, and where its active calls were made, but for
/// that of `MAIN`.
#[derive(Drop)]
pub struct Trail<A: Allocator> {
    origins: Vec<Origin, A>,
    callers: Vec<Caller, A>,
    made: u64,
}

impl Origin {
    /// That of no vector.
    const NONE: Origin = Origin {
        kind: Kind::Int,
        line: 0,
        before: 0,
    };
}

impl<A: Allocator + Clone> Trail<A> {
    /// The trail of a run that has executed nothing.
    ///
    /// # Errors
    ///
    /// [`AllocError`] if the allocator can't be cloned.
    pub fn new(alloc: A) -> Result<Trail<A>, AllocError> {
        let origins = Vec::new(alloc.clone()?);
        Ok(Trail {
            origins,
            callers: Vec::new(alloc),
            made: 0,
        })
    }

    /// The same.
    pub(crate) fn first(alloc: &A) -> Result<Trail<A>, AllocError> {
        Trail::new(alloc.clone()?)
    }
}

impl<A: Allocator> Trail<A> {
    /// The origin of the entry at a depth of a run, 0 at the top.
    pub fn origin(&self, run: &Run<A>, depth: usize) -> Option<Origin> {
        self.origin_at(run.block(depth)?)
    }

    /// The origin of the vector in the block of a number.
    pub fn origin_at(&self, block: usize) -> Option<Origin> {
        Some(*self.origins.get(block)?)
    }

    /// Where the call was made that the call at this place made, that of `MAIN` at 0. `None` if it is the innermost.
    pub fn caller(&self, place: usize) -> Option<Caller> {
        Some(*self.callers.get(place)?)
    }

    /// Where the calls were made that the active calls made.
    pub(crate) fn callers(&self) -> &[Caller] {
        &self.callers
    }

    /// Whether an instruction that does this ends the call of `MAIN`, if it is executed next.
    #[inline(always)]
    pub fn ends_with(&self, effect: Effect) -> bool {
        matches!(effect, Effect::Returns) && self.callers.is_empty()
    }

    /// The trail after an instruction that a run has executed.
    ///
    /// # Errors
    ///
    /// [`AllocError`] if memory was refused. The trail isn't that of the run then.
    #[inline(always)]
    pub fn follow(&mut self, next: Next, run: &Run<A>) -> Result<(), AllocError> {
        match next.op {
            Op::Call => self.call(next.line, run),
            Op::Return => {
                self.leave();
                Ok(())
            }
            Op::Const(_) | Op::Elementwise(_) | Op::Segmented(_) => self.make(
                next.op, next.line, run,
            ),
            Op::Move(..) | Op::If => Ok(()),
        }
    }

    /// The trail after the next instruction, if there was one.
    pub(crate) fn follow_next(
        &mut self,
        next: Option<Next>,
        run: &Run<A>,
    ) -> Result<(), AllocError> {
        match next {
            Some(next) => self.follow(next, run),
            None => Ok(()),
        }
    }

    /// The trail after a CALL of a line that a run has executed.
    ///
    /// # Errors
    ///
    /// As of [`Trail::follow`].
    #[inline(always)]
    pub fn call(&mut self, line: u64, run: &Run<A>) -> Result<(), AllocError> {
        let depth = run.depth();
        self.callers.push(Caller { line, depth })?;
        Ok(())
    }

    /// The trail after a RET.
    #[inline(always)]
    pub fn leave(&mut self) {
        self.callers.pop();
    }

    /// The trail after an instruction of a line that a run has executed, whose results are at the top of the stack.
    ///
    /// # Errors
    ///
    /// As of [`Trail::follow`].
    pub fn make(&mut self, op: Op, line: u64, run: &Run<A>) -> Result<(), AllocError> {
        let kinds = op.result_kinds();
        for (place, kind) in kinds.iter().enumerate() {
            let above = kinds.len().saturating_sub(place).saturating_sub(1);
            if let Some(block) = run.block(above) {
                self.put(block, *kind, line)?;
            }
        }
        Ok(())
    }

    /// Notes that a line has made a vector of a kind in the block of this number. Vectors of one instruction come from
    /// the bottom of the stack up.
    ///
    /// # Errors
    ///
    /// As of [`Trail::follow`].
    #[inline(always)]
    pub fn put(&mut self, block: usize, kind: Kind, line: u64) -> Result<(), AllocError> {
        for _ in self.origins.len()..=block {
            self.origins.push(Origin::NONE)?;
        }
        let before = self.made;
        if let Some(origin) = self.origins.get_mut(block) {
            *origin = Origin { kind, line, before };
        }
        self.made = self.made.saturating_add(1);
        Ok(())
    }
}
