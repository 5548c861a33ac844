//! Signatures that are found, and by which the program is verified.

ghost use Rattle.std.specs.Prelude.{◌≡◌, ◌≤◌, Ok, Some, IsTrue, IfOk, IfSome, MatchResult, length, slice_get};
ghost use Rattle.vcode_base.specs.TextAnswers.{Answers};
ghost use Rattle.vcode_reader.specs.declared.reader.TheConstants.{MOST_CODE_BYTES};
ghost use Rattle.vcode_reader.specs.Reading.{reading};
ghost use Rattle.signatures.specs.First.{TextSays};
ghost use Rattle.signatures.specs.Signatures.{Signature};
ghost use Rattle.kind_finder.specs.Texts.{AreOfFunctions, IsFaultOf, IsOfProgram, SaysSignatures, SaysSignaturesOf};

use crate::fault::FindFault;
use kind_search::{Guess, Obstacle, PlacedFault, make_guess};
use signatures::{SigFault, Signatures};
use std::alloc::{AllocError, Allocator};
use vcode_base::TextFault;
use vcode_base::laws::line_feeds_are_few;
use vcode_reader::{Function, Program, ReadFault};
use verifier::{KindFault, verify};

/// The most entries of a function's stack, unless fewer or more are asked for.
pub const MOST_ENTRIES: usize = 67_108_864;

/// A text of signatures by which the program of a code is well kinded: a line for each of its functions, in their
/// order. A function whose stack has more than `most_entries` entries is a fault, before memory is taken for them.
///
/// # Errors
///
/// [`FindFault`] has them. A code with a function that returns on no path may have signatures even so.
pub fn find_signatures<A: Allocator + Copy>(
    alloc: A,
    code: &[u8],
    most_entries: usize,
) -> Result<Vec<u8, A>, FindFault<Vec<u8, A>>>
    requires { length code.now ≤ MOST_CODE_BYTES }
    ensures { MatchResult result
        (λ text. SaysSignaturesOf code.now text.items)
        (λ fault. IsFaultOf code.now fault) }
{
    match program_of(alloc, code) {
        Ok(program) => signatures_of(alloc, program, most_entries),
        Err(TextFault::Memory) => Err(FindFault::Memory),
        Err(TextFault::At(fault, line)) => Err(FindFault::Code(fault, line)),
    }
}

/// The program of a code.
fn program_of<A: Allocator + Copy>(alloc: A, code: &[u8]) -> Result<Program<A>, ReadFault>
    requires { length code.now ≤ MOST_CODE_BYTES }
    ensures { Answers result (reading 1 code.now) }
{
    line_feeds_are_few();
    vcode_reader::read(alloc, code, 1)
}

/// A text of signatures by which a program is well kinded.
fn signatures_of<A: Allocator + Copy>(
    alloc: A,
    program: Program<A>,
    most_entries: usize,
) -> Result<Vec<u8, A>, FindFault<Vec<u8, A>>>
    ensures { MatchResult result (λ text. SaysSignatures program text.items) (λ fault. IsOfProgram fault) }
{
    let Guess { text, blame } = match make_guess(alloc, &program, most_entries) {
        Ok(guess) => guess,
        Err(fault) => return Err(named(alloc, &program, fault)),
    };
    let blame = blame_of(alloc, &program, blame);
    match check(alloc, program, text.as_slice()) {
        Ok(()) => Ok(text),
        Err(fault) => Err(blamed(fault, blame)),
    }
}

/// What is wrong if the guess doesn't fit the program, if the search says so, with the name of the function.
fn blame_of<A: Allocator>(
    alloc: A,
    program: &Program<A>,
    blame: Option<PlacedFault>,
) -> Option<FindFault<Vec<u8, A>>>
    ensures { IfSome result (λ fault. IsOfProgram fault) }
{
    match blame {
        Some(fault) => Some(named(alloc, program, fault)),
        None => None,
    }
}

/// The fault of a program by a guess that doesn't fit it. A MAIN that isn't there is so by any signatures.
fn blamed<N: Drop>(fault: FindFault<N>, blame: Option<FindFault<N>>) -> FindFault<N>
    requires fault { IsOfProgram fault }
    requires blame { IfSome blame (λ fault. IsOfProgram fault) }
    ensures { IsOfProgram result }
{
    match &fault {
        FindFault::Program(KindFault::NoMain, _) => fault,
        FindFault::Program(..) => blame.unwrap_or(fault),
        _ => fault,
    }
}

/// A fault with the name of its function.
fn named<A: Allocator>(alloc: A, program: &Program<A>, fault: PlacedFault) -> FindFault<Vec<u8, A>>
    ensures { IsOfProgram result }
{
    match fault {
        PlacedFault::Memory => FindFault::Memory,
        PlacedFault::Program(fault, line) => FindFault::Program(fault, line),
        PlacedFault::Function(obstacle, place, line) => match name_of(alloc, program, place) {
            Ok(name) => FindFault::Function(obstacle, name, line),
            Err(_) => FindFault::Memory,
        },
    }
}

/// The name of the function at a place, or of none.
fn name_of<A: Allocator>(
    alloc: A,
    program: &Program<A>,
    place: usize,
) -> Result<Vec<u8, A>, AllocError> {
    match program.functions().get(place) {
        Some(function) => Vec::from_slice(alloc, function.name()),
        None => Ok(Vec::new(alloc)),
    }
}

/// Whether the signature at a place has this name.
fn is_of<A: Allocator>(signatures: &Signatures<A>, place: usize, name: &[u8]) -> bool
    ensures { IsTrue result → (s : Signature) → slice_get signatures.now place ≡ Some s → s.name ≡ name.now }
{
    match signatures.at(place) {
        Some((found, _, _)) => found == name,
        None => false,
    }
}

/// Whether signatures are those of functions, in their order.
fn are_of<A: Allocator>(signatures: &Signatures<A>, functions: &[Function<A>]) -> bool
    ensures { IsTrue result → AreOfFunctions signatures.now functions.now }
{
    if signatures.len() != functions.len() {
        return false;
    }
    for (place, function) in functions.iter().enumerate() {
        if !is_of(signatures, place, function.name()) {
            return false;
        }
    }
    true
}

/// Verifies a program by the signatures that a text says, which have to be those of its functions, in their order.
fn check<A: Allocator + Copy>(
    alloc: A,
    program: Program<A>,
    text: &[u8],
) -> Result<(), FindFault<Vec<u8, A>>>
    ensures { MatchResult result (λ _. SaysSignatures program text.now) (λ fault. IsOfProgram fault) }
{
    let signatures = match read(alloc, text) {
        Ok(signatures) => signatures,
        Err(SigFault::Memory) => return Err(FindFault::Memory),
        Err(SigFault::At(_, line)) => return Err(many_results(alloc, &program, line)),
    };
    // The search says a line for each function. No other text is answered in any case.
    if !are_of(&signatures, program.functions()) {
        return Err(FindFault::Program(KindFault::NoSignature, program.first_line()));
    }
    match verify(alloc, program, &signatures) {
        Ok(_) => Ok(()),
        Err(TextFault::Memory) => Err(FindFault::Memory),
        Err(TextFault::At(fault, line)) => Err(FindFault::Program(fault, line)),
    }
}

/// The signatures that a text says.
fn read<A: Allocator + Copy>(alloc: A, text: &[u8]) -> Result<Signatures<A>, SigFault>
    ensures { IfOk result (λ found. TextSays text.now found) }
{
    line_feeds_are_few();
    signatures::read(alloc, text, 1)
}

/// That the function on this line of the text gives too many results, since no other limit can be passed.
fn many_results<A: Allocator>(alloc: A, program: &Program<A>, line: u64) -> FindFault<Vec<u8, A>>
    ensures { IsOfProgram result }
{
    for (place, function) in program.functions().iter().enumerate() {
        if place as u64 + 1 == line {
            let fault = PlacedFault::Function(Obstacle::ManyResults, place, function.line());
            return named(alloc, program, fault);
        }
    }
    FindFault::Memory
}
