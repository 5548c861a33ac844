//! The limits of a job, before an instruction.

ghost use Rattle.std.specs.Prelude.{◌≡◌, ◌^◌, ◌<◌, ◌≤◌};
ghost use Rattle.vcode_base.specs.declared.limits.TheConstants.{MOST_CELLS, MOST_CALLS};
ghost use Rattle.job_steps.specs.Motions.{depth_after, depth_after_move};
ghost use Rattle.job_steps.specs.Steps.{memory_fault, is_call};

use vcode_base::{Limits, MemoryFault, Op, StackMove};

/// The limit that an instruction would pass, given how many words would be held and needed, and how many
/// entries and active calls there are before it.
#[tactic(auto, unfolding(crate::specs::Steps::memory_fault))]
#[inline(always)]
pub(crate) fn memory_fault(
    limits: &Limits,
    op: Op,
    words: u64,
    depth: usize,
    calls: usize,
) -> Option<MemoryFault>
    requires depth { depth ≤ MOST_CELLS }
    requires calls { calls ≤ MOST_CALLS }
    ensures { result ≡ memory_fault limits.now op words (depth_after op depth) calls }
{
    if (limits.words as u64) < words {
        Some(MemoryFault::Words)
    } else if limits.cells < depth_after(op, depth) {
        Some(MemoryFault::Cells)
    } else if is_call(op) && limits.calls < calls + 1 {
        Some(MemoryFault::Calls)
    } else {
        None
    }
}

#[inline(always)]
fn is_call(op: Op) -> bool
    ensures { result ≡ is_call op }
{
    match op {
        Op::Call => true,
        _ => false,
    }
}

/// How many entries an instruction leaves, of `depth` entries before.
#[tactic(auto, using(crate::proofs::StackLemmas::few_results))]
#[inline(always)]
fn depth_after(op: Op, depth: usize) -> usize
    requires { depth ≤ MOST_CELLS }
    ensures { result ≡ depth_after op depth }
{
    match op {
        Op::Move(motion, lower, _) => depth_after_move(motion, lower as usize, depth),
        _ => depth.saturating_sub(op.operand_kinds().len()) + op.result_kinds().len(),
    }
}

#[inline(always)]
fn depth_after_move(motion: StackMove, lower: usize, depth: usize) -> usize
    requires depth { depth ≤ MOST_CELLS }
    requires lower { lower < 2 ^ 16 }
    ensures { result ≡ depth_after_move motion lower depth }
{
    match motion {
        StackMove::Copy => depth + lower,
        StackMove::Pop => depth.saturating_sub(lower),
        StackMove::MoveToTop => depth,
    }
}
