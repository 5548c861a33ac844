//! What the CALLs of a program may name.

ghost use Rattle.std.specs.Prelude.{◌≡◌, None, Some, MatchOption};
ghost use Rattle.signatures.specs.Signatures.{kinds_of};
ghost use Rattle.verifier.specs.Kinded.{scope_of};

use signatures::Signatures;
use std::alloc::Allocator;
use std::marker::Model;
use vcode_base::Kind;
use vcode_reader::Program;

/// The functions of a program, and what functions of some names take and give.
#[derive(Drop)]
pub struct Scope<'a, A: Allocator> {
    program: &'a Program<A>,
    signatures: &'a Signatures<A>,
}

impl<'a, A: Allocator> Model for Scope<'a, A> {
    ghost use Rattle.std.specs.Prelude.{List, refl};
    ghost use Rattle.std.specs.Coded.{code_by, codes, coded_list, coded×};
    ghost use Rattle.vcode_reader.specs.Decode.{function_code};
    ghost use Rattle.vcode_reader.specs.Trees.{Function as FunctionTree};
    ghost use Rattle.signatures.specs.Signatures.{Signature};
    ghost use Rattle.verifier.specs.Kinded.{Scope as ScopeOf, scope_of};

    ghost Value = { ScopeOf };

    ghost coded = { code_by (List FunctionTree × List Signature)
        (coded× (coded_list (function_code (Prim.hlevel codes))) (Prim.hlevel codes))
        (λ s. (s.functions, s.signatures)) (λ p. record { functions = p.0; signatures = p.1 }) (λ _. refl) };

    ghost view = { λ s. scope_of s.signatures.now s.program.now };
}

impl<'a, A: Allocator> Scope<'a, A> {
    pub(crate) fn new(program: &'a Program<A>, signatures: &'a Signatures<A>) -> Scope<'a, A>
        ensures { result ≡ scope_of signatures.now program.now }
    {
        Scope {
            program,
            signatures,
        }
    }

    /// The program.
    pub(crate) fn program(&self) -> &'a Program<A>
        ensures { result.now.functions ≡ self.now.functions }
    {
        self.program
    }

    /// What the function of this name takes and gives; `None` if it has no signature.
    pub(crate) fn signature(&self, name: &[u8]) -> Option<(&'a [Kind], &'a [Kind])>
        ensures { MatchOption result
            (kinds_of self.now.signatures name.now ≡ None)
            (λ kinds. kinds_of self.now.signatures name.now ≡ Some (kinds.0.now, kinds.1.now)) }
    {
        self.signatures.get(name)
    }
}
