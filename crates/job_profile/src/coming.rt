//! The next instruction of a run, as far as each step has to know it.

ghost use Rattle.std.specs.Prelude.{◌≡◌};
ghost use Rattle.job_profile.specs.Comings.{coming_by, does_move, effect_of};

use vcode_base::{Instr, Instruction, Segmented, StackMove};
use vcode_reader::{CodeItem, CodeLine};

/// What an instruction does.
#[derive(Clone, Copy)]
pub enum Effect {
    /// It makes one result, of its operands or its list.
    Makes,
    /// It makes two results of its operands.
    MakesTwo,
    /// It takes an operand and makes nothing: an `IF`.
    Chooses,
    /// It moves entries of the stack.
    Moves(StackMove),
    /// It calls a function.
    Calls,
    /// It ends a call.
    Returns,
    /// There is no instruction, since the run is over.
    Nothing,
}

/// What the next instruction of a run does, and the number of its line, which is 0 if there is no instruction.
#[derive(Clone, Copy)]
pub struct Coming {
    /// What it does.
    pub effect: Effect,
    /// Its line.
    pub line: u64,
}

/// What an instruction does.
#[inline(always)]
fn effect_of(item: &CodeItem<Instruction<'_>>) -> Effect
    ensures { result ≡ effect_of item.now }
{
    match item {
        CodeItem::Do(Instr::Move(motion, ..)) => Effect::Moves(*motion),
        CodeItem::Do(Instr::Call(_)) => Effect::Calls,
        CodeItem::Do(Instr::Return) => Effect::Returns,
        CodeItem::Do(Instr::Segmented(Segmented::Pack(_))) => Effect::MakesTwo,
        CodeItem::Do(Instr::Const(..) | Instr::Elementwise(_) | Instr::Segmented(_)) =>
            Effect::Makes,
        CodeItem::Do(Instr::If) | CodeItem::If | CodeItem::Else | CodeItem::Endif =>
            Effect::Chooses,
    }
}

/// What the instruction of a line does, and the number of the line, if there is one.
#[inline(always)]
pub(crate) fn coming_by(line: Option<CodeLine<'_>>) -> Coming
    ensures { result ≡ coming_by line.entry }
{
    match line {
        Some(line) => Coming {
            effect: effect_of(&line.item),
            line: line.number,
        },
        None => Coming {
            effect: Effect::Nothing,
            line: 0,
        },
    }
}

/// Whether an instruction moves entries or calls: it takes no operand and has no result.
#[inline(always)]
pub(crate) fn does_move(effect: Effect) -> bool
    ensures { result ≡ does_move effect }
{
    match effect {
        Effect::Moves(_) | Effect::Calls | Effect::Returns => true,
        Effect::Makes | Effect::MakesTwo | Effect::Chooses | Effect::Nothing => false,
    }
}
