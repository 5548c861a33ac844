ghost use Rattle.job_steps.specs.Buffers.{HaveAtMost};
ghost use Rattle.vcode_base.specs.Operands.{contents};

use crate::answer::{Answer, Vector};
use job_steps::{Desk, compute, lengths};
use std::alloc::{AllocError, Global};
use vcode_base::limits::MOST_WORDS;
use vcode_base::{Op, have_kinds};

/// Runs an instruction over its operands, or over the list of a CONST, on a desk of the fewest words that do.
pub fn run(alloc: Global, op: Op, ops: &[&[i64]]) -> Result<Answer, AllocError> {
    if !have_kinds(op.source_kinds(), ops) {
        return Ok(Answer::NotOfItsKinds);
    }
    let (first_len, second_len) = match lengths(op, ops) {
        Ok(needed) => needed,
        Err(fault) => return Ok(Answer::Fault(fault)),
    };
    let room = first_len.saturating_add(second_len);
    let words = widest(ops).max(room);
    if words > MOST_WORDS as u64 {
        return Ok(Answer::Needs(words));
    }
    let desk = Desk::new(alloc, words as usize)?;
    let filled = compute(desk.ask(1, 0, op, ops));
    match filled.answer() {
        Ok((first, second)) => {
            let first = Vec::from_slice(alloc, first)?;
            let second = Vec::from_slice(alloc, second)?;
            Ok(results(op, first, second))
        }
        Err(fault) => Ok(Answer::Fault(fault)),
    }
}

/// The words of the longest operand.
fn widest(ops: &[&[i64]]) -> u64
    ensures { HaveAtMost result (contents ops.now) }
{
    let mut most: u64 = 0;
    for operand in ops {
        most = most.max(operand.len() as u64);
    }
    most
}

/// The results of an instruction, which are of its kinds.
fn results(op: Op, first: Vec<i64>, second: Vec<i64>) -> Answer {
    match op.result_kinds() {
        [kind] => Answer::One(Vector {
            kind: *kind,
            words: first,
        }),
        [lower, upper] => Answer::Two(
            Vector {
                kind: *lower,
                words: first,
            },
            Vector {
                kind: *upper,
                words: second,
            },
        ),
        _ => Answer::NoCase,
    }
}
