//! What a function takes and gives.

ghost use Rattle.std.specs.Prelude.{◌≡◌, IfOk};

use std::alloc::{AllocError, Allocator};
use std::marker::Model;
use vcode_base::{Kind, Sequence};

/// The kinds of the operands that a function takes, and those of the results that it gives, from the
/// bottom of the stack up.
///
/// [`Signatures::get`](crate::Signatures::get) lends it as the two lists.
#[derive(Drop)]
#[derive_where(PartialEq, Eq)]
pub struct FunctionType<A: Allocator> {
    operands: Sequence<Kind, A>,
    results: Sequence<Kind, A>,
}

impl<A: Allocator> Model for FunctionType<A> {
    ghost use Rattle.signatures.specs.Signatures.{FunctionType as FunctionTypeOf};

    ghost Value = { FunctionTypeOf };

    ghost view = { λ t. (t.operands, t.results) };

    ghost inverse = { λ t. record { operands = t.0; results = t.1 } };
}

impl<A: Allocator> FunctionType<A> {
    /// A function that takes and gives these kinds. Takes no memory.
    pub fn new(operands: Vec<Kind, A>, results: Vec<Kind, A>) -> FunctionType<A>
        ensures { result ≡ (operands.items, results.items) }
    {
        FunctionType {
            operands: Sequence::from_vec(operands),
            results: Sequence::from_vec(results),
        }
    }

    /// A function that takes and gives copies of these kinds. An error means that the allocator refused the memory for
    /// them.
    pub fn from_slices(
        alloc: A,
        operands: &[Kind],
        results: &[Kind],
    ) -> Result<FunctionType<A>, AllocError>
    where
        A: Clone,
        ensures { IfOk result (λ copy. copy ≡ (operands.now, results.now)) }
    {
        let operands = operands.to_vec(alloc.clone()?)?;
        let results = results.to_vec(alloc)?;
        Ok(FunctionType::new(operands, results))
    }

    /// The kinds that it takes.
    pub fn operands(&self) -> &[Kind]
        ensures { result.now ≡ self.now.0 }
    {
        self.operands.as_slice()
    }

    /// The kinds that it gives.
    pub fn results(&self) -> &[Kind]
        ensures { result.now ≡ self.now.1 }
    {
        self.results.as_slice()
    }

    /// Both lists.
    pub fn kinds(&self) -> (&[Kind], &[Kind])
        ensures { (result.0.now, result.1.now) ≡ self.now }
    {
        (self.operands(), self.results())
    }
}
