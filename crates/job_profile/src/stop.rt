//! What is looked for at the states of a run.

ghost use Rattle.std.specs.Prelude.{◌≡◌, ◌+◌, true, if◌then◌else◌, MatchOption};
ghost use Rattle.job_profile.specs.Stops.{calls_name, holds_in, is_call_of, is_on};
ghost use Rattle.job_profile.specs.Walks.{progress_of};

use crate::run::Run;
use std::alloc::Allocator;
use vcode_base::{Elements, Instr, Instruction};
use vcode_reader::{CodeItem, CodeLine};

/// What may hold at a state of a run that goes on, over the type of the name of a function.
#[derive(Debug, Drop)]
pub enum Stop<N> {
    /// An instruction of the line of this number is next.
    Line(u64),
    /// A `CALL` of the function of this name is next.
    Call(N),
    /// More words than this are held.
    Words(usize),
    /// The stack has more entries than this.
    Entries(usize),
    /// An instruction is next whose results have more words than this.
    Makes(usize),
}

/// How many of `left` other states are left after a state at which it holds or doesn't. `None` if this is the one after
/// them.
pub(crate) fn left_after(holds: bool, left: u64) -> Option<u64>
    ensures { MatchOption result ((holds ≡ true) × (left ≡ 0)) (λ next. left ≡ next + (if holds then 1 else 0)) }
{
    if holds {
        left.checked_sub(1)
    } else {
        Some(left)
    }
}

/// Whether there is a line, and it has this number.
fn is_on(line: Option<CodeLine<'_>>, number: u64) -> bool
    ensures { result ≡ is_on number line.entry }
{
    match line {
        Some(line) => line.number == number,
        None => false,
    }
}

/// Whether an item of the code calls the function of this name.
fn calls_name(item: &CodeItem<Instruction<'_>>, name: &[u8]) -> bool
    ensures { result ≡ calls_name name.now item.now }
{
    match item {
        CodeItem::Do(Instr::Call(called)) => called.as_slice() == name,
        CodeItem::Do(_) | CodeItem::If | CodeItem::Else | CodeItem::Endif => false,
    }
}

/// Whether there is a line, and it calls the function of this name.
fn is_call_of(line: Option<CodeLine<'_>>, name: &[u8]) -> bool
    ensures { result ≡ is_call_of name.now line.entry }
{
    match line {
        Some(line) => calls_name(&line.item, name),
        None => false,
    }
}

/// Whether it holds at the state of a run.
pub(crate) fn holds<A: Allocator>(run: &Run<A>, stop: &Stop<Elements<'_, u8>>) -> bool
    ensures { result ≡ holds_in stop.now (progress_of run.now) }
{
    match stop {
        Stop::Line(number) => is_on(run.next_line(), *number),
        Stop::Call(name) => is_call_of(run.next_line(), name.as_slice()),
        Stop::Words(most) => *most < run.held(),
        Stop::Entries(most) => *most < run.depth(),
        Stop::Makes(most) => *most < run.need(),
    }
}
