//! Which limit an instruction would pass: what there is before it, what it needs, and the limit.

use crate::pieces::push_size;
use crate::state::JobState;
use crate::text::Text;
use vcode_base::{MemoryFault, Op, Rule, StackMove};

/// How many entries a stack of `depth` entries would have after an instruction.
pub fn depth_after(op: Op, depth: usize) -> usize {
    match op {
        Op::Move(StackMove::Copy, lower, _) => depth.saturating_add(usize::from(lower)),
        _ => depth
            .saturating_sub(op.operand_kinds().len())
            .saturating_add(op.result_kinds().len()),
    }
}

/// Which words count as held, if not all do: under the second rule those below the operands.
fn below_text<S: JobState>(state: &S, op: Op) -> &'static str {
    if state.rule() == Rule::Second && !op.operand_kinds().is_empty() {
        return " below the operands";
    }
    ""
}

/// Adds why the words would be too many at the next instruction at a state. What it needs is known from the lengths of
/// its operands.
fn push_words_note<S: JobState>(text: &mut Text, state: &S, op: Op) {
    let (wanted, needed) = (state.demand(), state.need());
    push_size(text, "", wanted.saturating_sub(needed));
    text.push_str(" words held");
    text.push_str(below_text(state, op));
    push_size(text, " and ", needed);
    push_size(text, " needed are ", wanted);
    push_size(text, ", and the limit is ", state.job().limits().words);
}

/// Adds why a limit would be passed at the next instruction at a state.
pub(crate) fn push_memory_note<S: JobState>(
    text: &mut Text,
    state: &S,
    op: Op,
    fault: MemoryFault,
) {
    let limits = state.job().limits();
    match fault {
        MemoryFault::Words => push_words_note(text, state, op),
        MemoryFault::Cells => {
            let depth = state.depth();
            push_size(text, "", depth);
            push_size(text, " entries now and ", depth_after(op, depth));
            push_size(text, " after it, and the limit is ", limits.cells);
        }
        MemoryFault::Calls => {
            let calls = state.calls();
            push_size(text, "", calls);
            push_size(text, " calls are active now and ", calls.saturating_add(1));
            push_size(text, " in it, and the limit is ", limits.calls);
        }
    }
}
