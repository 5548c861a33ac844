//! Laws of the definitions that the contracts cite, and of `==`: each is the contract of a function.

ghost use Rattle.std.specs.Prelude.{◌≡◌, ◌↔◌, IsTrue};
ghost use Rattle.vcode_reader.specs.Callees.{EachCallIsFound};
ghost use Rattle.vcode_reader.specs.Targets.{EachPartIsPassed, EachTargetIsFirst};
ghost use Rattle.vcode_reader.specs.First.{EveryTextIsRead, WholeTextsAreRead, OneProgram};

use crate::program::Program;
use std::alloc::Allocator;

/// Whatever the text, its reading is by the grammar: the program that the grammar relates to its words,
/// or else its first fault with the line.
#[tactic(auto, using(crate::proofs::Answers::every_text_is_read))]
pub fn every_text_is_read()
    ensures { EveryTextIsRead }
{}

/// A text that the grammar relates to a program, and that leaves no comment open, is read as that
/// program.
#[tactic(auto, using(crate::proofs::Answers::whole_texts_are_read))]
pub fn whole_texts_are_read()
    ensures { WholeTextsAreRead }
{}

/// The grammar relates words to one program at most.
#[tactic(auto, using(crate::proofs::Answers::one_program))]
pub fn one_program()
    ensures { OneProgram }
{}

/// In any code, the target at a place is the first of those from the place on.
#[tactic(auto, using(crate::proofs::Codes::each_target_is_first))]
pub fn each_target_is_first()
    ensures { EachTargetIsFirst }
{}

/// In any code, the target of an IF whose first part is a body is the place after its ELSE, and that
/// of an ELSE whose part is a body the place after its ENDIF.
pub fn each_part_is_passed()
    ensures { EachPartIsPassed }
{}

/// In any program, the callee of a CALL that names a function is the first function of that name.
#[tactic(auto, using(crate::proofs::Callees::each_call_is_found))]
pub fn each_call_is_found()
    ensures { EachCallIsFound }
{}

/// Two programs are `==` exactly if all that they hold is equal.
pub fn equal_programs<A: Allocator>(left: &Program<A>, right: &Program<A>) -> bool
    ensures { IsTrue result ↔ (left.now ≡ right.now) }
{
    *left == *right
}
