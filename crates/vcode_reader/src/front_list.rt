//! A list that grows and shrinks at its front.

ghost use Rattle.std.specs.Prelude.{◌≡◌, [], ◌∷◌, length, OnOk, option_copied};
ghost use Rattle.vcode_reader.specs.Targets.{first_of, others_of};

use std::alloc::{AllocError, Allocator};
use std::marker::Model;

/// A list that grows and shrinks at its front.
#[derive(Drop)]
pub(crate) struct FrontList<T, A: Allocator> {
    elements: Vec<T, A>,
}

impl<T, A: Allocator> Model for FrontList<T, A> {
    ghost use Rattle.std.specs.Prelude.{List, reverse};

    ghost Value = { List T };

    ghost view = { λ s. reverse s.elements.items };
}

impl<T: Drop, A: Allocator> FrontList<T, A> {
    pub(crate) fn new(alloc: A) -> FrontList<T, A>
        ensures { result ≡ [] }
    {
        FrontList {
            elements: Vec::new(alloc),
        }
    }

    pub(crate) fn push(&mut self, element: T) -> Result<(), AllocError>
        ensures { OnOk result (self.new ≡ element ∷ self.old) }
    {
        self.elements.push(element)?;
        Ok(())
    }

    pub(crate) fn pop(&mut self) -> Option<T>
        ensures first { result ≡ first_of self.old }
        ensures others { self.new ≡ others_of self.old }
    {
        self.elements.pop()
    }

    pub(crate) fn clear(&mut self)
        ensures { self.new ≡ [] }
    {
        self.elements.clear();
    }

    pub(crate) fn len(&self) -> usize
        ensures { result ≡ length self.now }
    {
        self.elements.len()
    }

    pub(crate) fn first(&self) -> Option<&T>
        ensures { option_copied result ≡ first_of self.now }
    {
        self.elements.last()
    }
}
