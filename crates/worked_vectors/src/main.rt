//! Runs worked cases of the vector and segment instructions, and prints the answer of each.
//!
//! A line of standard input is a case in VCODE: a comment that names it, its operands as CONSTs from the bottom of the
//! stack up, and the instruction. A segment descriptor is written as the CONST INT of its lengths, and a CONST alone is
//! a case of itself. The line is printed as it is, with ` = ` and the answer after it: the results, the text of the
//! fault, or the number of words that a result needs if they are too many to be made.
#![tactic(auto)]

mod answer;
mod runs;

use crate::answer::Answer;
use crate::runs::run;
use std::alloc::{AllocError, Global};
use std::io;
use vcode_base::Instr;
use vcode_base::laws::line_feeds_are_few;
use vcode_reader::{CodeItem, Function, MOST_CODE_BYTES, ReadFault, read};

/// The lists of the first `count` lines of a function. None if one isn't a CONST.
fn lists_of<'a>(
    alloc: Global,
    function: &'a Function<Global>,
    count: usize,
) -> Result<Option<Vec<&'a [i64]>>, AllocError> {
    let mut lists = Vec::new(alloc);
    for place in 0..count {
        let Some(line) = function.item(place) else {
            return Ok(None);
        };
        let CodeItem::Do(Instr::Const(_, list)) = &line.item else {
            return Ok(None);
        };
        lists.push(list.as_slice())?;
    }
    Ok(Some(lists))
}

/// The answer to the case that the lines of a function before its `RET` are, the last of them the instruction.
fn answer_of(alloc: Global, function: &Function<Global>) -> Result<Answer, AllocError> {
    if function.line_count() < 2 {
        return Ok(Answer::NoCase);
    }
    let operands = function.line_count() - 2;
    let Some(last) = function.item(operands) else {
        return Ok(Answer::NoCase);
    };
    let (CodeItem::Do(instr), Some(mut ops)) = (&last.item, lists_of(alloc, function, operands)?)
    else {
        return Ok(Answer::NoCase);
    };
    if let Instr::Const(_, list) = instr {
        ops.push(list.as_slice())?;
    }
    run(alloc, instr.op(), &ops)
}

/// The answer to the case of this text.
fn read_case(alloc: Global, line: &str) -> Result<Answer, AllocError> {
    line_feeds_are_few();
    let text = format!(in alloc; "FUNC f {line} RET")?;
    if text.len() > MOST_CODE_BYTES {
        return Ok(Answer::NoCase);
    }
    let program = match read(alloc, text.as_bytes(), 1) {
        Ok(program) => program,
        Err(ReadFault::At(fault, _)) => return Ok(Answer::Refused(fault)),
        Err(ReadFault::Memory) => return Err(AllocError),
    };
    let [function] = program.functions() else {
        return Ok(Answer::NoCase);
    };
    answer_of(alloc, function)
}

fn main(rt: HostRuntime) -> io::Result<()> {
    let alloc = rt.alloc();
    for line in rt.lines(alloc) {
        let line = line?;
        let answer = read_case(alloc, line.as_str())?;
        println!(rt; "{line} = {answer}")?;
    }
    Ok(())
}
