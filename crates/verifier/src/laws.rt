//! Laws of the definitions that the contracts cite, and of `==`: each is the contract of a function.

ghost use Rattle.std.specs.Prelude.{◌≡◌, ◌↔◌, IsTrue};
ghost use Rattle.verifier.specs.Laws.{NoFaultWhereWellKinded};
ghost use Rattle.verifier.specs.Typed.{TypedProgram};

use crate::verified::Verified;
use std::alloc::Allocator;

/// Whatever the signatures, a program has no kind fault exactly if it is well kinded.
pub fn no_fault_where_well_kinded()
    ensures { NoFaultWhereWellKinded }
{}

/// `==` of two verified programs is true exactly if the programs, and the kinds that their functions take
/// and give, are equal.
pub fn equality_is_exact<A: Allocator>()
    ensures { (left right : TypedProgram)
        → (IsTrue (⟦<Verified<A> as PartialEq>⟧.eq left right) ↔ (left ≡ right)) }
{}

/// What was verified is `==` exactly if the programs, and the kinds that their functions take and
/// give, are equal.
pub fn equal_verified<A: Allocator>(left: &Verified<A>, right: &Verified<A>) -> bool
    ensures { IsTrue result ↔ (left.now ≡ right.now) }
{
    equality_is_exact::<A>();
    *left == *right
}
