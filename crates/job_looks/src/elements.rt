//! What instructions read and make.

use job_profile::Run;
use std::alloc::Global;

/// How many words the entries at the top of the stack of a run have, `count` of them or as many as there are.
pub fn elements_of(run: &Run<Global>, count: usize) -> u64 {
    let mut elements: u64 = 0;
    for depth in 0..count {
        if let Some(words) = run.words(depth) {
            elements = elements.saturating_add(words.len() as u64);
        }
    }
    elements
}
