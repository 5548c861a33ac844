//! Lists that contracts see as lists.

ghost use Rattle.std.specs.Prelude.{◌≡◌, [], ◌∷◌, ◌++◌, length, OnOk, OnErr};

use std::alloc::{AllocError, Allocator};
use std::marker::Model;

/// The elements of a `Vec`, in order. Neither [`from_vec`](Sequence::from_vec) nor
/// [`into_vec`](Sequence::into_vec) takes memory.
#[derive(Debug, Drop)]
pub struct Sequence<T, A: Allocator> {
    elements: Vec<T, A>,
}

impl<T, A: Allocator> Model for Sequence<T, A> {
    ghost use Rattle.std.specs.Prelude.{List};

    ghost Value = { List T };

    ghost view = { λ s. s.elements.items };
}

impl<T, A: Allocator> Sequence<T, A> {
    /// The elements of a `Vec`.
    pub fn from_vec(elements: Vec<T, A>) -> Sequence<T, A>
        ensures { result ≡ elements.items }
    {
        Sequence { elements }
    }

    /// The `Vec` of the elements.
    pub fn into_vec(self) -> Vec<T, A>
        ensures { result.items ≡ self }
    {
        let Sequence { elements } = self;
        elements
    }

    /// The elements in order.
    pub fn as_slice(&self) -> &[T]
        ensures { result.now ≡ self.now }
    {
        &self.elements
    }

    /// How many elements there are.
    pub fn len(&self) -> usize
        ensures { result ≡ length self.now }
    {
        self.elements.len()
    }
}

impl<T: Drop, A: Allocator> Sequence<T, A> {
    /// Adds one element at the end. If its memory is refused, nothing changes.
    pub fn push(&mut self, element: T) -> Result<(), AllocError>
        ensures pushed { OnOk result (self.new ≡ self.old ++ element ∷ []) }
        ensures unchanged { OnErr result (self.new ≡ self.old) }
    {
        self.elements.push(element)?;
        Ok(())
    }

    /// Removes all elements.
    pub fn clear(&mut self)
        ensures { self.new ≡ [] }
    {
        self.elements.clear();
    }
}

/// Equal if the elements are, place by place.
impl<T: PartialEq, A: Allocator> PartialEq for Sequence<T, A> {
    ghost use Rattle.std.specs.Cmp.Lexicographic.{pointwise};
    ghost use Rattle.std.specs.Cmp.Rules.{comparing};
    ghost use Rattle.std.proofs.Common.{rules};

    ghost eq = { pointwise T.eq };

    ghost laws = { Prim.search (comparing, rules) };

    fn eq(&self, other: &Sequence<T, A>) -> bool {
        self.elements.as_slice() == other.elements.as_slice()
    }
}

impl<T: Eq, A: Allocator> Eq for Sequence<T, A> {
    ghost use Rattle.std.specs.Cmp.Rules.{comparing};
    ghost use Rattle.std.proofs.Common.{rules};

    ghost laws = { Prim.search (comparing, rules) };
}

/// The elements of a list that lies elsewhere, in order.
#[derive(Debug, Drop)]
pub struct Elements<'a, T> {
    elements: &'a [T],
}

impl<'a, T> Model for Elements<'a, T> {
    ghost use Rattle.std.specs.Prelude.{List};

    ghost Value = { List T };

    ghost view = { λ s. s.elements.now };
}

impl<'a, T> Elements<'a, T> {
    /// The elements of a slice.
    pub fn new(elements: &'a [T]) -> Elements<'a, T>
        ensures { result ≡ elements.now }
    {
        Elements { elements }
    }

    /// The elements in order.
    pub fn as_slice(&self) -> &'a [T]
        ensures { result.now ≡ self.now }
    {
        self.elements
    }
}
