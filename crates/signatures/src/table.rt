//! Signatures by name.

ghost use Rattle.std.specs.Prelude.{◌≡◌, ◌↔◌, IsTrue, MatchOption, MatchResult, OnErr};
ghost use Rattle.std.specs.Prelude.{length, [], None, Some, Ok};
ghost use Rattle.std.specs.List.{slice_get};
ghost use Rattle.signatures.specs.Faults.{OnWrong};
ghost use Rattle.signatures.specs.Reading.{add, is_too_large};
ghost use Rattle.signatures.specs.Signatures.{kinds_of, signature, NamesDiffer};

use crate::fault::{EntryFault, SignatureFault};
use crate::function_type::FunctionType;
use indexmap::IndexMap;
use std::alloc::Allocator;
use std::hash::{BuildHasherDefault, FoldHasher};
use std::marker::Model;
use vcode_base::Kind;
use vcode_base::limits::{LONGEST_NAME, MOST_FUNCTIONS, MOST_KINDS};

/// The signatures of a text, in the order of its lines. No name comes twice.
#[derive(Drop)]
pub struct Signatures<A: Allocator> {
    types: IndexMap<Vec<u8, A>, FunctionType<A>, BuildHasherDefault<FoldHasher>, A>,
}

impl<A: Allocator> Model for Signatures<A> {
    ghost use Rattle.std.specs.Prelude.{List};
    ghost use Rattle.signatures.specs.Signatures.{Signature};
    ghost use Rattle.signatures.specs.Table.{signatures_in};

    ghost Value = { List Signature };

    ghost view = { λ s. signatures_in s.types.entries };
}

impl<A: Allocator + Copy> Signatures<A> {
    /// No signatures. It takes no memory.
    pub(crate) fn new(alloc: A) -> Signatures<A>
        ensures { result ≡ [] }
    {
        Signatures {
            types: IndexMap::new(alloc),
        }
    }

    /// Adds a signature after the others, if it fits the limits and its name is new. At an `Err`
    /// they are as before.
    #[tactic(auto, using(crate::proofs::TableLemmas::kinds_in), unfolding(crate::specs::Reading::add))]
    pub(crate) fn add(&mut self, name: &[u8], kinds: FunctionType<A>) -> Result<(), EntryFault>
        ensures added { MatchResult result
            (λ _. add self.old (signature name.now kinds) ≡ Ok self.new)
            (λ fault. OnWrong fault (add self.old (signature name.now kinds))) }
        ensures err { OnErr result (self.new ≡ self.old) }
    {
        if self.is_too_large(name, &kinds) {
            return Err(EntryFault::Wrong(SignatureFault::TooLarge));
        }
        if self.types.contains_key(name) {
            return Err(EntryFault::Wrong(SignatureFault::NameTwice));
        }
        let owned = Vec::from_slice(*self.types.allocator(), name)?;
        self.types.insert(owned, kinds)?;
        Ok(())
    }
}

impl<A: Allocator> Signatures<A> {
    /// The allocator that they are kept by.
    pub(crate) fn allocator(&self) -> A
    where
        A: Copy,
    {
        *self.types.allocator()
    }

    /// The kinds that the function of this name takes and those that it gives, from bottom to top;
    /// `None` if it has no signature.
    #[tactic(auto, using(crate::proofs::TableLemmas::kinds_in))]
    pub fn get(&self, name: &[u8]) -> Option<(&[Kind], &[Kind])>
        ensures { MatchOption result (kinds_of self.now name.now ≡ None)
            (λ kinds. kinds_of self.now name.now ≡ Some (kinds.0.now, kinds.1.now)) }
    {
        let found = self.types.get(name)?;
        Some(found.kinds())
    }

    /// Whether one signature more would pass a limit.
    fn is_too_large(&self, name: &[u8], kinds: &FunctionType<A>) -> bool
        ensures { result ≡ is_too_large self.now (signature name.now kinds.now) }
    {
        name.len() > LONGEST_NAME
            || kinds.operands().len() > MOST_KINDS
            || kinds.results().len() > MOST_KINDS
            || self.len() >= MOST_FUNCTIONS
    }

    /// The signature at a place, counted from 0: its name, the kinds that it takes and those that it
    /// gives; `None` past the last.
    #[tactic(auto, using(crate::proofs::TableLemmas::signature_at))]
    pub fn at(&self, place: usize) -> Option<(&[u8], &[Kind], &[Kind])>
        ensures { MatchOption result (slice_get self.now place ≡ None)
            (λ parts. slice_get self.now place
            ≡ Some (record { name = parts.0.now; operands = parts.1.now; results = parts.2.now })) }
    {
        let (name, kinds) = self.types.get_index(place)?;
        Some((name.as_slice(), kinds.operands(), kinds.results()))
    }

    /// How many there are.
    #[tactic(auto, using(crate::proofs::TableLemmas::names_differ))]
    pub fn len(&self) -> usize
        ensures len { result ≡ length self.now }
        ensures distinct { NamesDiffer self.now }
    {
        self.types.len()
    }

    /// Whether there is none.
    pub fn is_empty(&self) -> bool
        ensures { IsTrue result ↔ (self.now ≡ []) }
    {
        self.types.is_empty()
    }
}
