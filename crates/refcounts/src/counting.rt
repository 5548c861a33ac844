//! The list of counts, which grows when a number is first used.
ghost use Rattle.std.specs.Prelude.{◌≡◌, ◌+◌, ◌<◌, ◌≤◌, length, slice_set, vec_capacity};
ghost use Rattle.refcounts.specs.Inside.{lengthened};

use std::alloc::Allocator;

/// Counts the first reference to the block of a number, for whose count there is room.
#[inline(always)]
pub(crate) fn count_first<A: Allocator>(counts: &mut Vec<u64, A>, number: usize)
    requires { number < vec_capacity counts.old }
    ensures counted { counts.new.items ≡ slice_set (lengthened counts.old.items (number + 1)) number 1 }
    ensures capacity { vec_capacity counts.old ≤ vec_capacity counts.new }
{
    if number >= counts.len() {
        lengthen(counts, number + 1);
    }
    counts[number] = 1;
}

// Makes the list so long by counts of 0. A number that is used for the first time comes here, and most come in turn.
#[tactic(auto, using(std::proofs::lemmas::List::take_all))]
#[cold]
#[inline(never)]
fn lengthen<A: Allocator>(counts: &mut Vec<u64, A>, len: usize)
    requires room { len ≤ vec_capacity counts.old }
    requires longer { length counts.old.items ≤ len }
    ensures zeros { counts.new.items ≡ lengthened counts.old.items len }
    ensures capacity { vec_capacity counts.old ≤ vec_capacity counts.new }
{
    let Ok(()) = counts.resize(len, 0) else {
        unreachable!()
    };
}
