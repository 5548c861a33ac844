//! The kinds of a body, line by line.

ghost use Rattle.std.specs.Prelude.{◌≡◌, ◌+◌, ◌≤◌, Ok, Err, Some, OnOk, MatchResult, length, slice_get};
ghost use Rattle.vcode_base.specs.declared.instr.Instr.TheVariants.{Call};
ghost use Rattle.vcode_reader.specs.declared.line.CodeItem.TheVariants.{Do};
ghost use Rattle.vcode_reader.specs.Callees.{callee_of};
ghost use Rattle.verifier.specs.First.{arrow_of, stack_with_move};
ghost use Rattle.verifier.specs.Walk.{state_after_lines, front_of, Goes};

use crate::fault::{KindFault, VerifyFault};
use crate::scope::Scope;
use crate::stack::KindStack;
use crate::walk::{AbstractStack, Calls, walk_line};
use std::alloc::{AllocError, Allocator};
use vcode_base::{Kind, StackMove};
use vcode_reader::Function;

/// Moves the entries above the first `below`, of which the first `lower` are the lower ones.
#[tactic(auto, using(crate::proofs::Keeping::copied))]
#[inline(always)]
fn place<A: Allocator + Clone>(
    stack: &mut KindStack<A>,
    motion: StackMove,
    below: usize,
    lower: usize,
) -> Result<(), AllocError>
    requires { below + lower ≤ length stack.old.kinds }
    ensures { OnOk result (stack.new
        ≡ record stack.old { kinds = stack_with_move motion below lower stack.old.kinds }) }
{
    match motion {
        StackMove::Copy => stack.repeat(below, lower),
        StackMove::Pop => stack.remove(below, lower),
        StackMove::MoveToTop => stack.lift(below, lower),
    }
}

impl<A: Allocator + Clone> AbstractStack for KindStack<A> {
    ghost use Rattle.verifier.specs.Walk.{StepGoes};

    type Fault = VerifyFault;

    ghost After = { StepGoes };

    #[tactic(auto, using(crate::proofs::Keeping::same_tops), unfolding(crate::specs::First::stack_after_arrow))]
    #[inline(always)]
    fn replace(&mut self, takes: &[Kind], gives: &[Kind], line: u64) -> Result<(), VerifyFault> {
        if takes.is_empty() {
            self.extend(gives)?;
            return Ok(());
        }
        let len = self.len();
        if self.replace_end(takes, gives)? {
            return Ok(());
        }
        if len < takes.len() {
            Err(VerifyFault::At(KindFault::MissingOperand, line))
        } else {
            Err(VerifyFault::At(KindFault::WrongKind, line))
        }
    }

    #[tactic(auto, unfolding(crate::specs::First::stack_after_move))]
    #[inline(always)]
    fn shift(
        &mut self,
        motion: StackMove,
        lower: u16,
        upper: u16,
        line: u64,
    ) -> Result<(), VerifyFault> {
        let count = lower as usize + upper as usize;
        if self.len() < count {
            return Err(VerifyFault::At(KindFault::MissingOperand, line));
        }
        let below = self.len() - count;
        place(self, motion, below, lower as usize)?;
        Ok(())
    }

    #[inline(always)]
    fn begin_if(&mut self) -> Result<(), VerifyFault> {
        self.keep()?;
        Ok(())
    }

    #[inline(always)]
    fn begin_else(&mut self) -> Result<(), VerifyFault> {
        self.swap()?;
        Ok(())
    }

    #[tactic(auto, unfolding(crate::specs::First::stack_after_endif))]
    fn end_if(&mut self, line: u64) -> Result<(), VerifyFault> {
        if self.forget()? {
            Ok(())
        } else {
            Err(VerifyFault::At(KindFault::ArmsDiffer, line))
        }
    }
}

/// What a `CALL` of this name takes and gives. Its callee is the place of the function with that name, if
/// there is one.
#[tactic(auto, unfolding(crate::specs::First::arrow_of))]
fn arrow_of<'a, A: Allocator>(
    scope: &Scope<'a, A>,
    callee: Option<usize>,
    name: &[u8],
) -> Result<(&'a [Kind], &'a [Kind]), KindFault>
    ensures { callee ≡ callee_of scope.now.functions (Do (Call name.now)) → MatchResult result
        (λ kinds. arrow_of scope.now name.now ≡ Ok (kinds.0.now, kinds.1.now))
        (λ fault. arrow_of scope.now name.now ≡ Err fault) }
{
    if callee.is_none() {
        return Err(KindFault::UnknownFunction);
    }
    match scope.signature(name) {
        None => Err(KindFault::NoSignature),
        Some(arrow) => Ok(arrow),
    }
}

impl<'a, A: Allocator + Clone> Calls<KindStack<A>> for Scope<'a, A> {
    ghost use Rattle.verifier.specs.Walk.{CallGoes};

    ghost AfterCall = { CallGoes };

    #[inline(never)]
    fn call(
        &self,
        stack: &mut KindStack<A>,
        callee: Option<usize>,
        name: &[u8],
        line: u64,
    ) -> Result<(), VerifyFault> {
        match arrow_of(self, callee, name) {
            Ok((takes, gives)) => stack.replace(takes, gives, line),
            Err(fault) => Err(VerifyFault::At(fault, line)),
        }
    }
}

/// The entries after the lines before the last of the function at this place of the program.
#[tactic(auto, using(crate::proofs::Functions::code_lines))]
pub(crate) fn check_lines<A: Allocator + Clone>(
    stack: &mut KindStack<A>,
    scope: &Scope<A>,
    number: usize,
    function: &Function<A>,
) -> Result<(), VerifyFault>
    requires { slice_get scope.now.functions number ≡ Some function.now }
    ensures { Goes result stack.new (state_after_lines scope.now (Ok stack.old) (front_of function.now)) }
{
    let last = function.line_count() - 1;
    for place in 0..last {
        let line = function.item(place).unwrap();
        match walk_line(stack, scope, scope.program(), number, place, &line) {
            Ok(()) => {}
            Err(fault) => return Err(fault),
        }
    }
    Ok(())
}
