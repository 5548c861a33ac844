//! Counts by place.

ghost use Rattle.std.specs.Prelude.{◌≡◌, ◌+◌, ◌<◌, ◌^◌, OnOk, drop, length, slice_index, slice_set, sum, take};
ghost use Rattle.job_profile.specs.Sound.{CountAlike};

use std::alloc::{AllocError, Allocator};

/// Appends counts of 0 until there is one at this place. An error means that the allocator refused memory.
#[inline(always)]
pub(crate) fn grow<A: Allocator>(times: &mut Vec<u64, A>, place: usize) -> Result<(), AllocError>
    ensures same { CountAlike times.old.items times.new.items }
    ensures long { OnOk result (place < length times.new.items) }
{
    for _ in times.len()..=place {
        times.push(0)?;
    }
    Ok(())
}

/// Adds 1 to the count at a place.
#[inline(always)]
pub(crate) fn count<A: Allocator>(times: &mut Vec<u64, A>, place: usize)
    requires there { place < length times.old.items }
    requires fits { slice_index times.old.items place + 1 < 2 ^ 64 }
    ensures { times.new.items ≡ slice_set times.old.items place (slice_index times.old.items place + 1) }
{
    times[place] += 1;
}

/// The counts at `count` places from the first on, or as many as there are.
pub(crate) fn part(times: &[u64], first: usize, count: usize) -> &[u64]
    ensures { result.now ≡ take count (drop first times.now) }
{
    let rest = times.get(first..).unwrap_or(&[]);
    rest.get(..count).unwrap_or(rest)
}

/// The sum of counts.
pub(crate) fn sum_of(times: &[u64]) -> u64
    requires { sum times.now < 2 ^ 64 }
    ensures { result ≡ sum times.now }
{
    let mut all: u64 = 0;
    for count in times {
        all += *count;
    }
    all
}
