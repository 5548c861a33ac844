//! The next instruction of a run.

ghost use Rattle.std.specs.Prelude.{◌≡◌, option_copied};
ghost use Rattle.vcode_base.specs.Instructions.{op_of};
ghost use Rattle.job_steps.specs.Frames.{instruction_in};
ghost use Rattle.job_profile.specs.Walks.{progress_of};
ghost use Rattle.job_history.specs.Nexts.{callee_in, name_of, next_in};

use job_profile::Run;
use std::alloc::Allocator;
use vcode_base::{Instr, Instruction, Op};
use vcode_reader::{CodeItem, CodeLine};

/// An instruction without its list and its name, and its line.
#[derive(Clone, Copy, PartialEq, Eq, Debug, Drop)]
pub struct Next {
    pub op: Op,
    pub line: u64,
}

/// The instruction of a line.
pub fn op_of(line: &CodeLine<'_>) -> Op
    ensures { result ≡ op_of (instruction_in line.now.item) }
{
    match &line.item {
        CodeItem::Do(instruction) => instruction.op(),
        CodeItem::If | CodeItem::Else | CodeItem::Endif => Op::If,
    }
}

impl Next {
    /// The next instruction of a run, if the job goes on.
    #[inline(always)]
    pub fn of<A: Allocator>(run: &Run<A>) -> Option<Next>
        ensures { result ≡ next_in (progress_of run.now) }
    {
        let line = run.next_line()?;
        Some(Next {
            op: op_of(&line),
            line: line.number,
        })
    }
}

/// The name that an instruction calls, if it is a `CALL`.
fn name_of<'a>(instruction: Instruction<'a>) -> Option<&'a [u8]>
    ensures { option_copied result ≡ name_of instruction.entry }
{
    match instruction {
        Instr::Call(name) => Some(name.as_slice()),
        _ => None,
    }
}

/// The name of the function that the next instruction of a run calls, if it is a `CALL`.
pub(crate) fn callee_of<A: Allocator>(run: &Run<A>) -> Option<&[u8]>
    ensures { option_copied result ≡ callee_in (progress_of run.now) }
{
    match run.next_line()?.item {
        CodeItem::Do(instruction) => name_of(instruction),
        CodeItem::If | CodeItem::Else | CodeItem::Endif => None,
    }
}
