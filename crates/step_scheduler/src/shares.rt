//! The shares of the workers.

ghost use Rattle.std.specs.Prelude.{◌≡◌, ◌+◌, sum, vec_len, IfOk, OnOk};

use crate::guarded::{Opening, WorkerShare};
use std::alloc::{AllocError, Allocator};
use std::sync::ledger::Share;

/// A part of the ledger for each worker.
pub(crate) fn split_shares<L: Opening, A: Allocator>(
    alloc: A,
    all: &mut Share<L>,
    workers: usize,
) -> Result<Vec<WorkerShare<L>, A>, AllocError>
    requires parts { all.old.parts ≡ workers + 1 }
    requires amount { all.old.amount ≡ 0 }
    ensures shares { IfOk result (λ shares. vec_len shares ≡ workers) }
    ensures left { OnOk result ((all.new.parts ≡ 1) × (all.new.amount ≡ 0)) }
{
    let mut shares = Vec::with_capacity(alloc, workers)?;
    for _worker in 0..workers {
        let share = all.split_off(1, 0);
        shares.push(WorkerShare::new(share))?;
    }
    Ok(shares)
}

/// Takes back the parts of all workers, and answers how many instructions each counted.
pub(crate) fn merge_shares<L: Opening, A: Allocator>(
    alloc: A,
    all: &mut Share<L>,
    shares: Vec<WorkerShare<L>, A>,
) -> Result<Vec<u64, A>, AllocError>
    requires { all.old.amount ≡ 0 }
    ensures counts { IfOk result (λ counts. vec_len counts ≡ vec_len shares) }
    ensures amount { IfOk result (λ counts. all.new.amount ≡ sum counts.items) }
    ensures parts { OnOk result (all.new.parts ≡ all.old.parts + vec_len shares) }
{
    let mut counts = Vec::with_capacity(alloc, shares.len())?;
    for share in shares {
        let (share, count) = share.into_parts();
        all.merge(share);
        counts.push(count)?;
    }
    Ok(counts)
}
