//! The bytes in which the words of a result are kept.

use crate::refusals::heaps::Heap;
use std::alloc::AllocError;
use std::process::Abort;
use std::test::Fail;
use test_support::RefusingHeap;
use vcode_base::SharedWords;

/// How many words there are.
const WORDS: usize = 1_000;

/// A word, and the bytes of a copy of zeros and this word.
const COPIES: [(i64, usize); 10] = [
    (127, 1_000),
    (-128, 1_000),
    (128, 3_000),
    (-129, 3_000),
    (8_388_607, 3_000),
    (-8_388_608, 3_000),
    (8_388_608, 8_000),
    (-8_388_609, 8_000),
    (i64::MAX, 8_000),
    (i64::MIN, 8_000),
];

/// The bytes that a copy of these words takes.
fn bytes_of(heap: &Heap, words: &[i64]) -> Result<usize, AllocError> {
    let before = heap.live_bytes();
    let copy = SharedWords::copy_of(heap, words)?;
    let bytes = heap.live_bytes().saturating_sub(before);
    drop(copy);
    Ok(bytes)
}

/// A copy of zeros and this word takes this many bytes, beside those that a copy of no words takes.
fn takes(rt: &impl Abort, heap: &Heap, word: i64, bytes: usize) -> Result<(), Fail> {
    let mut words = [0; WORDS];
    words[WORDS - 1] = word;
    let beside = bytes_of(heap, &[])?;
    assert_eq!(rt; bytes_of(heap, &words)?.saturating_sub(beside), bytes);
    Ok(())
}

#[test]
fn words_take_as_many_bytes_as_the_widest_needs(rt: HostRuntime) -> Result<(), Fail> {
    let heap = RefusingHeap::new(rt.alloc());
    for (word, bytes) in COPIES {
        takes(&rt, &heap, word, bytes)?;
    }
    Ok(())
}
