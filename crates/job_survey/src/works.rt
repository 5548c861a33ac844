//! What each instruction of a program takes and makes.

use job_history::op_of;
use job_steps::Frame;
use std::alloc::{AllocError, Global};
use vcode_base::Kind;
use vcode_reader::{Function, Program};

/// How many operands an instruction has, and the kinds of its results from the bottom of the stack up.
#[derive(Clone, Copy, Drop)]
pub(crate) struct Work {
    pub(crate) operands: usize,
    pub(crate) results: &'static [Kind],
}

/// What the instructions of a program take and make, by their places in the code, so that a step needn't find it from
/// the instruction. Kept are the place of the first of each function, and all of them, one function after the other.
#[derive(Drop)]
pub(crate) struct Works {
    firsts: Vec<usize>,
    works: Vec<Work>,
}

impl Work {
    /// That of no instruction.
    const NONE: Work = Work {
        operands: 0,
        results: &[],
    };
}

/// Adds what the instructions of a function take and make.
fn push_function(works: &mut Vec<Work>, function: &Function<Global>) -> Result<(), AllocError> {
    for place in 0..function.line_count() {
        let work = match function.item(place) {
            Some(line) => {
                let op = op_of(&line);
                Work {
                    operands: op.operand_kinds().len(),
                    results: op.result_kinds(),
                }
            }
            None => Work::NONE,
        };
        works.push(work)?;
    }
    Ok(())
}

impl Works {
    /// Those of a program.
    pub(crate) fn of(alloc: Global, program: &Program<Global>) -> Result<Works, AllocError> {
        let (mut firsts, mut works) = (Vec::new(alloc), Vec::new(alloc));
        for function in program.functions() {
            firsts.push(works.len())?;
            push_function(&mut works, function)?;
        }
        Ok(Works { firsts, works })
    }

    /// What the instruction at a frame takes and makes.
    #[inline(always)]
    pub(crate) fn at(&self, frame: Frame) -> Work {
        let Some(first) = self.firsts.get(frame.function) else {
            return Work::NONE;
        };
        match self.works.get(first.wrapping_add(frame.place)) {
            Some(work) => *work,
            None => Work::NONE,
        }
    }
}
