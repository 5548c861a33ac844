//! What a line of code does to a stack, whatever an entry of the stack is.

ghost use Rattle.vcode_reader.specs.Callees.{callee_at};
ghost use Rattle.verifier.specs.Steps.{DoesIf, DoesLine};

use std::alloc::Allocator;
use vcode_base::{Instr, Kind, StackMove};
use vcode_reader::{CodeItem, CodeLine, Program};

/// A stack at a place of the code, whatever an entry of it is, with what is kept for the open IFs.
pub trait AbstractStack {
    ghost use Rattle.std.specs.Prelude.{Result};
    ghost use Rattle.verifier.specs.Steps.{Step, Replace, Shift, BeginIf, BeginElse, EndIf};

    /// Why a line can't be done.
    type Fault;

    /// What a step does: the stack before it, its answer, and the stack after it.
    ghost After: { Step → Self → Result (Unit {0}) Self.Fault → Self → Type 0 };

    /// An instruction of this line that takes and gives entries of these kinds.
    fn replace(&mut self, takes: &[Kind], gives: &[Kind], line: u64) -> Result<(), Self::Fault>
        ensures { After (Replace takes.now gives.now line) self.old result self.new };

    /// A motion of the lower entries and of the upper ones that lie on them.
    fn shift(
        &mut self,
        motion: StackMove,
        lower: u16,
        upper: u16,
        line: u64,
    ) -> Result<(), Self::Fault>
        ensures { After (Shift motion lower upper line) self.old result self.new };

    /// The first part of an IF begins.
    fn begin_if(&mut self) -> Result<(), Self::Fault>
        ensures { After BeginIf self.old result self.new };

    /// The first part of the innermost IF has ended, and the other one begins.
    fn begin_else(&mut self) -> Result<(), Self::Fault>
        ensures { After BeginElse self.old result self.new };

    /// Both parts of the innermost IF have ended.
    fn end_if(&mut self, line: u64) -> Result<(), Self::Fault>
        ensures { After (EndIf line) self.old result self.new };
}

/// What the CALLs of a program do to a stack.
pub trait Calls<S: AbstractStack> {
    ghost use Rattle.std.specs.Prelude.{ℕ, List, Option, Result};

    /// What a CALL does, by its callee, its name and its line: the stack before it, its answer, and the stack after it.
    ghost AfterCall: { Self → Option ℕ → List ℕ → ℕ → S → Result (Unit {0}) S.Fault → S → Type 0 };

    /// A CALL of this name. Its callee is the place of the function with that name, if there is one.
    fn call(
        &self,
        stack: &mut S,
        callee: Option<usize>,
        name: &[u8],
        line: u64,
    ) -> Result<(), S::Fault>
        ensures { AfterCall self.now callee name.now line stack.old result stack.new };
}

/// An IF takes a BOOL, and its first part begins.
fn begin_if<S: AbstractStack>(stack: &mut S, line: u64) -> Result<(), S::Fault>
    ensures { DoesIf S.After line stack.old result stack.new }
{
    stack.replace(&[Kind::Bool], &[], line)?;
    stack.begin_if()
}

/// The line at this place of the function at that place of the program.
#[inline(always)]
pub fn walk_line<S: AbstractStack, C: Calls<S>, A: Allocator>(
    stack: &mut S,
    calls: &C,
    program: &Program<A>,
    function: usize,
    place: usize,
    line: &CodeLine<'_>,
) -> Result<(), S::Fault>
    ensures { DoesLine S.After (C.AfterCall calls.now (callee_at program.now.functions function place))
        line.now.item line.now.number stack.old result stack.new }
{
    let number = line.number;
    match &line.item {
        CodeItem::Do(Instr::Move(motion, lower, upper)) => {
            stack.shift(*motion, *lower, *upper, number)
        }
        CodeItem::Do(Instr::Call(name)) => {
            let callee = program.callee(function, place);
            calls.call(stack, callee, name.as_slice(), number)
        }
        CodeItem::Do(instruction) => {
            let op = instruction.op();
            stack.replace(op.operand_kinds(), op.result_kinds(), number)
        }
        CodeItem::If => begin_if(stack, number),
        CodeItem::Else => stack.begin_else(),
        CodeItem::Endif => stack.end_if(number),
    }
}
