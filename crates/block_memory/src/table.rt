//! A table of numbered places, each with a value or empty, that takes memory only when it is made.
ghost use Rattle.std.specs.Prelude.{◌≡◌, ◌+◌, ◌<◌, ◌≤◌, ◌++◌, [], ◌∷◌, length, replicate, slice_set, Some, None};
ghost use Rattle.std.specs.Prelude.{IfOk, IsSome, option_copied, vec_capacity};
ghost use Rattle.slab.specs.Slab.{HasRoomFor, slab_len};
ghost use Rattle.block_memory.specs.Table.{value_at, value_count};
ghost use Rattle.block_memory.specs.TableInside.{AreKeys, places};

use slab::Slab;
use std::alloc::{AllocError, Allocator};
use std::marker::Model;
use std::mem;

/// Values under numbers from 0 on. Each number that was used is the place of a key in the list of keys, and the slab's
/// entry under the key is marked with the value, or as empty. The numbers after these, up to `count`, were never used.
#[derive(Drop)]
pub(crate) struct Table<T, A: Allocator> {
    entries: Slab<Option<T>, A>,
    keys: Vec<usize, A>,
    // The numbers that are empty again, the next one to be used last.
    vacant: Vec<usize, A>,
    count: usize,
}

impl<T, A: Allocator> Model for Table<T, A> {
    ghost use Rattle.std.specs.Prelude.{List, Option, vec_capacity};

    ghost Value = { List (Option T) };

    ghost use Rattle.block_memory.specs.TableInside.{all_places, IsTable};

    ghost view = { λ t. all_places t.entries t.keys.items t.count };

    ghost invariant = { λ t. IsTable t.entries t.keys.items t.vacant.items (vec_capacity t.keys) (vec_capacity t.vacant)
        t.count };
}

/// Adds a place with a value, and answers its number.
#[cold]
#[inline(never)]
#[tactic(auto, using(crate::proofs::TableLemmas::for_push_place))]
fn push_place<T: Drop, A: Allocator>(
    entries: &mut Slab<Option<T>, A>,
    keys: &mut Vec<usize, A>,
    value: T,
) -> usize
    requires entry_room { HasRoomFor entries.old 1 }
    requires key_room { length keys.old.items < vec_capacity keys.old }
    requires are_keys { AreKeys entries.old keys.old.items }
    ensures number { result ≡ length keys.old.items }
    ensures places { places entries.new keys.new.items ≡ places entries.old keys.old.items ++ Some value ∷ [] }
    ensures are_keys { AreKeys entries.new keys.new.items }
    ensures keys { length keys.new.items ≡ length keys.old.items + 1 }
    ensures entries { slab_len entries.new ≡ slab_len entries.old + 1 }
    ensures entry_room { entries.new.capacity ≡ entries.old.capacity }
    ensures key_room { vec_capacity keys.new ≡ vec_capacity keys.old }
{
    let number = keys.len();
    keys.push_reserved(entries.insert_reserved(Some(value)));
    number
}

impl<T, A: Allocator> Table<T, A> {
    /// A table of `count` empty places.
    pub(crate) fn new(alloc: A, count: usize) -> Result<Self, AllocError>
    where
        A: Clone,
        T: Drop,
        ensures { IfOk result (λ t. t ≡ replicate count None) }
    {
        Ok(Table {
            entries: Slab::with_capacity(alloc.clone()?, count)?,
            keys: Vec::with_capacity(alloc.clone()?, count)?,
            vacant: Vec::with_capacity(alloc, count)?,
            count,
        })
    }

    /// How many places there are.
    #[inline(always)]
    pub(crate) fn len(&self) -> usize
        ensures { result ≡ length self.now }
    {
        self.count
    }

    /// How many places have a value.
    #[inline(always)]
    pub(crate) fn values(&self) -> usize
        ensures { result ≡ value_count self.now }
    {
        self.keys.len() - self.vacant.len()
    }

    /// The value of a number, which has one.
    #[inline(always)]
    pub(crate) fn value(&self, number: usize) -> &T
        requires { IsSome (value_at self.now number) }
        ensures { value_at self.now number ≡ Some result.now }
    {
        match &self.entries[self.keys[number]] {
            Some(value) => value,
            None => unreachable!(),
        }
    }

    /// The value of a number, if it has one. A number past the last has none.
    #[inline(always)]
    pub(crate) fn find(&self, number: usize) -> Option<&T>
        ensures { option_copied result ≡ value_at self.now number }
    {
        let key = *self.keys.get(number)?;
        self.entries[key].as_ref()
    }

    /// Replaces the value of a number.
    #[inline(always)]
    #[tactic(auto, using(crate::proofs::TableLemmas::for_set))]
    pub(crate) fn set(&mut self, number: usize, value: T)
    where
        T: Drop,
        requires { IsSome (value_at self.old number) }
        ensures { self.new ≡ slice_set self.old number (Some value) }
    {
        self.entries[self.keys[number]] = Some(value);
    }

    /// Puts the value that a number is to have at an empty one, of which there is one, and answers the number.
    #[inline(always)]
    #[tactic(auto, using(crate::proofs::TableLemmas::for_insert))]
    pub(crate) fn insert_with<F: FnOnce(usize) -> T>(&mut self, value: F) -> usize
    where
        T: Drop,
        requires room { value_count self.old < length self.old }
        requires callable { F.IsAlwaysCallable value }
        ensures in_range { result < length self.old }
        ensures vacant { value_at self.old result ≡ None }
        ensures inserted { (v : T) × F.post value result v × (self.new ≡ slice_set self.old result (Some v)) }
    {
        let Some(number) = self.vacant.pop() else {
            let number = self.keys.len();
            return push_place(&mut self.entries, &mut self.keys, value(number));
        };
        self.entries[self.keys[number]] = Some(value(number));
        number
    }

    /// Puts a value at an empty number, of which there is one, and answers the number.
    #[inline(always)]
    #[tactic(auto, using(crate::proofs::TableLemmas::for_insert))]
    pub(crate) fn insert(&mut self, value: T) -> usize
    where
        T: Drop,
        requires { value_count self.old < length self.old }
        ensures in_range { result < length self.old }
        ensures vacant { value_at self.old result ≡ None }
        ensures inserted { self.new ≡ slice_set self.old result (Some value) }
    {
        let Some(number) = self.vacant.pop() else {
            return push_place(&mut self.entries, &mut self.keys, value);
        };
        self.entries[self.keys[number]] = Some(value);
        number
    }

    /// Takes the value of a number, which has one. The number is empty then.
    #[inline(always)]
    #[tactic(auto, using(crate::proofs::TableLemmas::for_remove))]
    pub(crate) fn remove(&mut self, number: usize) -> T
        requires { IsSome (value_at self.old number) }
        ensures value { value_at self.old number ≡ Some result }
        ensures removed { self.new ≡ slice_set self.old number None }
    {
        match mem::replace(&mut self.entries[self.keys[number]], None) {
            Some(value) => {
                self.vacant.push_reserved(number);
                value
            }
            None => unreachable!(),
        }
    }
}
