//! A whole program.

ghost use Rattle.std.specs.Prelude.{◌≡◌, List, [], None, Ok, Some, IfOk, MatchOption, MatchResult};
ghost use Rattle.std.specs.List.{slice_get};
ghost use Rattle.vcode_base.specs.declared.kind.Kind.{Kind as KindOf};
ghost use Rattle.vcode_base.specs.Names.{main_name};
ghost use Rattle.signatures.specs.Signatures.{kinds_of};
ghost use Rattle.verifier.specs.First.{stack_after_body, is_main_with_operands, fault_at_return, function_fault};
ghost use Rattle.verifier.specs.First.{functions_fault, kind_fault, FaultIs, Finds};
ghost use Rattle.verifier.specs.Kinded.{IsWellKinded};
ghost use Rattle.verifier.specs.Typed.{IsVerified, IsVerifiedBy, AreArrows};

use crate::fault::{KindFault, VerifyFault};
use crate::lines::check_lines;
use crate::scope::Scope;
use crate::stack::KindStack;
use signatures::{FunctionType, Signatures};
use std::alloc::{AllocError, Allocator};
use std::marker::Model;
use vcode_base::{Kind, Sequence};
use vcode_reader::{Function, Program};

/// A well kinded program. It keeps, for each function, the kinds that the signatures by which it was
/// verified let this function take and give.
#[derive(Drop)]
#[derive_where(PartialEq, Eq)]
pub struct Verified<A: Allocator> {
    program: Program<A>,
    types: Sequence<FunctionType<A>, A>,
    results: Sequence<Kind, A>,
}

impl<A: Allocator> Model for Verified<A> {
    ghost use Rattle.std.specs.Coded.{codes};
    ghost use Rattle.verifier.specs.Typed.{TypedProgram, typed_program_code};

    ghost Value = { TypedProgram };

    ghost coded = { typed_program_code (Prim.hlevel codes) (Prim.hlevel codes) };

    ghost use Rattle.verifier.specs.Typed.{IsVerified};

    ghost view = { λ v. record { program = v.program; arrows = v.types; results = v.results } };

    ghost invariant = { λ v. IsVerified (record { program = v.program; arrows = v.types; results = v.results }) };

    ghost inverse = { λ t. record { program = t.program; types = t.arrows; results = t.results } };
}

impl<A: Allocator> Verified<A> {
    /// The program.
    pub fn program(&self) -> &Program<A>
        ensures same { result.now ≡ self.now.program }
        ensures verified { IsVerified self.now }
    {
        &self.program
    }

    /// The kinds that the function at a place takes and those that it gives, from the bottom of the
    /// stack up; `None` past the last function. Places count from 0 in the order of the text.
    pub fn signature(&self, place: usize) -> Option<(&[Kind], &[Kind])>
        ensures { MatchOption result
            (slice_get self.now.arrows place ≡ None)
            (λ kinds. slice_get self.now.arrows place ≡ Some (kinds.0.now, kinds.1.now)) }
    {
        let found = self.types.as_slice().get(place)?;
        Some(found.kinds())
    }

    /// The kinds of what `MAIN` leaves, from the bottom of the stack up.
    pub fn results(&self) -> &[Kind]
        ensures same { result.now ≡ self.now.results }
        ensures verified { IsVerified self.now }
    {
        self.results.as_slice()
    }
}

/// The program, if it is well kinded by the signatures, with what they let its functions take and
/// give; else its first fault, or out of memory: that it has no `MAIN`, at its first line, and after
/// that the first in the order of its text. The program is spent in both cases.
pub fn verify<A: Allocator + Clone>(
    alloc: A,
    program: Program<A>,
    signatures: &Signatures<A>,
) -> Result<Verified<A>, VerifyFault>
    ensures { MatchResult result
        (λ v. IsVerifiedBy signatures.now v × (v.program ≡ program))
        (λ e. FaultIs e (kind_fault signatures.now program)) }
{
    match check_program(alloc.clone()?, &program, signatures) {
        Ok(()) => {
            let types = types_of(alloc.clone()?, &program, signatures)?;
            let results = results_of_main(alloc, signatures)?;
            Ok(Verified {
                program,
                types,
                results,
            })
        }
        Err(fault) => Err(fault),
    }
}

/// The kinds that each function takes and gives, in the order of the text.
fn types_of<A: Allocator + Clone>(
    alloc: A,
    program: &Program<A>,
    signatures: &Signatures<A>,
) -> Result<Sequence<FunctionType<A>, A>, AllocError>
    requires { IsWellKinded signatures.now program.now }
    ensures { IfOk result (AreArrows signatures.now program.now.functions) }
{
    let mut types = Vec::new(alloc.clone()?);
    for function in program.functions() {
        let (takes, gives) = signatures.get(function.name()).unwrap();
        types.push(FunctionType::from_slices(alloc.clone()?, takes, gives)?)?;
    }
    Ok(Sequence::from_vec(types))
}

/// The kinds of what `MAIN` leaves, which takes nothing.
fn results_of_main<A: Allocator>(
    alloc: A,
    signatures: &Signatures<A>,
) -> Result<Sequence<Kind, A>, AllocError>
    requires { (results : List KindOf) × (kinds_of signatures.now main_name ≡ Some ([], results)) }
    ensures { IfOk result (λ results. kinds_of signatures.now main_name ≡ Some ([], results)) }
{
    let (_, results) = signatures.get(b"MAIN").unwrap();
    Ok(Sequence::from_vec(results.to_vec(alloc)?))
}

#[tactic(auto, unfolding(crate::specs::First::kind_fault))]
fn check_program<A: Allocator + Clone>(
    alloc: A,
    program: &Program<A>,
    signatures: &Signatures<A>,
) -> Result<(), VerifyFault>
    ensures { Finds result (kind_fault signatures.now program.now) }
{
    if program.position(b"MAIN").is_some() {
        check_functions(alloc, &Scope::new(program, signatures))
    } else {
        Err(VerifyFault::At(KindFault::NoMain, program.first_line()))
    }
}

fn check_functions<A: Allocator + Clone>(alloc: A, scope: &Scope<A>) -> Result<(), VerifyFault>
    ensures { Finds result (functions_fault scope.now scope.now.functions) }
{
    for (place, function) in scope.program().functions().iter().enumerate() {
        match check_function(alloc.clone()?, scope, place, function) {
            Ok(()) => {}
            Err(fault) => return Err(fault),
        }
    }
    Ok(())
}

/// The function at a place.
#[tactic(auto, unfolding(crate::specs::First::function_fault))]
fn check_function<A: Allocator + Clone>(
    alloc: A,
    scope: &Scope<A>,
    place: usize,
    function: &Function<A>,
) -> Result<(), VerifyFault>
    requires { slice_get scope.now.functions place ≡ Some function.now }
    ensures { Finds result (function_fault scope.now function.now) }
{
    let Some((takes, gives)) = scope.signature(function.name()) else {
        return Err(VerifyFault::At(KindFault::NoSignature, function.line()));
    };
    if is_main_with_operands(function, takes) {
        Err(VerifyFault::At(KindFault::MainTakes, function.line()))
    } else {
        check_body(alloc, scope, place, function, takes, gives)
    }
}

fn is_main_with_operands<A: Allocator>(function: &Function<A>, takes: &[Kind]) -> bool
    ensures { result ≡ is_main_with_operands function.now takes.now }
{
    match takes {
        [] => false,
        _ => function.name() == b"MAIN".as_slice(),
    }
}

/// A body that begins with these entries, and the entries at its `RET`.
#[tactic(auto, using(crate::proofs::Functions::walk_is))]
fn check_body<A: Allocator + Clone>(
    alloc: A,
    scope: &Scope<A>,
    place: usize,
    function: &Function<A>,
    takes: &[Kind],
    gives: &[Kind],
) -> Result<(), VerifyFault>
    requires { slice_get scope.now.functions place ≡ Some function.now }
    ensures { Finds result
        (fault_at_return gives.now function.now.ret (stack_after_body scope.now function.now.body takes.now)) }
{
    let mut stack = KindStack::new(alloc, takes)?;
    match check_lines(&mut stack, scope, place, function) {
        Ok(()) => check_results(&stack, gives, return_line(function)),
        Err(fault) => Err(fault),
    }
}

/// The line of its `RET`.
#[tactic(auto, using(crate::proofs::Functions::code_lines))]
fn return_line<A: Allocator>(function: &Function<A>) -> u64
    ensures { result ≡ function.now.ret }
{
    let last = function.line_count() - 1;
    function.item(last).unwrap().number
}

/// The entries at the `RET` of this line are those that the signature gives.
fn check_results<A: Allocator + Clone>(
    stack: &KindStack<A>,
    gives: &[Kind],
    ret: u64,
) -> Result<(), VerifyFault>
    ensures { Finds result (fault_at_return gives.now ret (Ok stack.now.kinds)) }
{
    if stack.equals(gives) {
        Ok(())
    } else {
        Err(VerifyFault::At(KindFault::ResultDiffers, ret))
    }
}
