//! The first words of instructions, and what must follow each.

ghost use Rattle.std.specs.Prelude.{◌≡◌, []};
ghost use Rattle.vcode_reader.specs.Firsts.{TakesOff};
ghost use Rattle.vcode_reader.specs.Keywords.{fold_of, folding_slots, keyword_slots, takes_int, takes_kind};
ghost use Rattle.vcode_reader.specs.Keywords.{instruction_of};

use crate::parts::InstructionParts;
use std::alloc::Allocator;
use std::marker::Model;
use vcode_base::{
    Arith, Comparison, Elements, Elementwise, Fold, Instr, Instruction, Logic, Scalar, Segmented,
    StackMove,
};

/// How a scan or a reduction takes elements together, as its first word says.
#[derive(Clone, Copy)]
pub enum Folding {
    Sum,
    Product,
    Max,
    Min,
    Logic(Logic),
}

/// The first word of an instruction.
#[derive(Clone, Copy)]
pub enum Keyword {
    Const,
    Arith(Arith),
    Compare(Comparison),
    Logic(Logic),
    Not,
    Select,
    IntToBool,
    BoolToInt,
    Scan(Folding),
    Reduce(Folding),
    Distribute,
    Index,
    Permute,
    BackPermute,
    DefaultPermute,
    Extract,
    Replace,
    Pack,
    MakeSegdes,
    Lengths,
    Move(StackMove),
    Call,
}

/// Which of the entries that a motion of the stack takes.
#[derive(Clone, Copy)]
pub enum Entries {
    /// The lower ones, whose count is `i`.
    Lower,
    /// The upper ones, whose count is `j`.
    Upper,
}

/// What some words of an instruction must be.
#[derive(Clone, Copy)]
pub enum WordSlot {
    /// The kind `INT`.
    Int,
    /// A kind, `INT` or `BOOL`.
    Kind,
    /// A value of the instruction's kind, or such values in parentheses.
    Values,
    /// A count of a motion of the stack.
    Count(Entries),
    /// The name of the function that is called.
    Callee,
}

impl Folding {
    fn fold(self, kind: Scalar) -> Fold
        ensures { result ≡ fold_of self kind }
    {
        match self {
            Folding::Sum => Fold::Sum,
            Folding::Product => Fold::Product,
            Folding::Max => Fold::Max,
            Folding::Min => Fold::Min,
            Folding::Logic(logic) => Fold::Logic(logic, kind),
        }
    }

    fn slots(self) -> &'static [WordSlot]
        ensures { result.now ≡ folding_slots self }
    {
        match self {
            Folding::Logic(_) => &[WordSlot::Kind],
            _ => &[WordSlot::Int],
        }
    }
}

impl Keyword {
    /// What the words after it must be.
    pub(crate) fn slots(self) -> Slots
        ensures { result ≡ keyword_slots self }
    {
        let left: &'static [WordSlot] = match self {
            Keyword::Const => &[WordSlot::Kind, WordSlot::Values],
            Keyword::Arith(_) | Keyword::Compare(_) => &[WordSlot::Int],
            Keyword::Scan(folding) | Keyword::Reduce(folding) => folding.slots(),
            Keyword::IntToBool
            | Keyword::BoolToInt
            | Keyword::Index
            | Keyword::MakeSegdes
            | Keyword::Lengths => &[],
            Keyword::Move(_) => &[
                WordSlot::Count(Entries::Lower),
                WordSlot::Count(Entries::Upper),
            ],
            Keyword::Call => &[WordSlot::Callee],
            Keyword::Logic(_)
            | Keyword::Not
            | Keyword::Select
            | Keyword::Distribute
            | Keyword::Permute
            | Keyword::BackPermute
            | Keyword::DefaultPermute
            | Keyword::Extract
            | Keyword::Replace
            | Keyword::Pack => &[WordSlot::Kind],
        };
        Slots { left }
    }

    /// Is a kind the one word that must follow it?
    #[inline(always)]
    pub(crate) fn takes_kind(self) -> bool
        ensures { result ≡ takes_kind self }
    {
        !matches!(
            self,
            Keyword::Const
                | Keyword::IntToBool
                | Keyword::BoolToInt
                | Keyword::Index
                | Keyword::MakeSegdes
                | Keyword::Lengths
                | Keyword::Move(_)
                | Keyword::Call
        )
    }

    /// Does a word `INT` after it mean nothing?
    pub(crate) fn takes_int(self) -> bool
        ensures { result ≡ takes_int self }
    {
        matches!(
            self,
            Keyword::Index | Keyword::MakeSegdes | Keyword::Lengths
        )
    }

    /// The instruction of this first word and of what the words after it gave.
    #[inline(always)]
    pub(crate) fn instruction<A: Allocator>(self, parts: &InstructionParts<A>) -> Instruction<'_>
        ensures { result ≡ instruction_of self parts.now }
    {
        let kind = parts.kind;
        match self {
            Keyword::Const => Instr::Const(kind, Elements::new(parts.numbers.as_slice())),
            Keyword::Call => Instr::Call(Elements::new(parts.callee.as_slice())),
            Keyword::Move(motion) => Instr::Move(motion, parts.lower, parts.upper),
            Keyword::Arith(op) => Instr::Elementwise(Elementwise::Arith(op)),
            Keyword::Compare(op) => Instr::Elementwise(Elementwise::Compare(op)),
            Keyword::Logic(op) => Instr::Elementwise(Elementwise::Logic(op, kind)),
            Keyword::Not => Instr::Elementwise(Elementwise::Not(kind)),
            Keyword::Select => Instr::Elementwise(Elementwise::Select(kind)),
            Keyword::IntToBool => Instr::Elementwise(Elementwise::IntToBool),
            Keyword::BoolToInt => Instr::Elementwise(Elementwise::BoolToInt),
            Keyword::Scan(folding) => Instr::Segmented(Segmented::Scan(folding.fold(kind))),
            Keyword::Reduce(folding) => Instr::Segmented(Segmented::Reduce(folding.fold(kind))),
            Keyword::Distribute => Instr::Segmented(Segmented::Distribute(kind)),
            Keyword::Index => Instr::Segmented(Segmented::Index),
            Keyword::Permute => Instr::Segmented(Segmented::Permute(kind)),
            Keyword::BackPermute => Instr::Segmented(Segmented::BackPermute(kind)),
            Keyword::DefaultPermute => Instr::Segmented(Segmented::DefaultPermute(kind)),
            Keyword::Extract => Instr::Segmented(Segmented::Extract(kind)),
            Keyword::Replace => Instr::Segmented(Segmented::Replace(kind)),
            Keyword::Pack => Instr::Segmented(Segmented::Pack(kind)),
            Keyword::MakeSegdes => Instr::Segmented(Segmented::MakeSegdes),
            Keyword::Lengths => Instr::Segmented(Segmented::Lengths),
        }
    }
}

/// What the next words of an instruction must be, in order.
#[derive(Drop)]
pub struct Slots {
    left: &'static [WordSlot],
}

impl Model for Slots {
    ghost use Rattle.std.specs.Prelude.{List};
    ghost use Rattle.vcode_reader.specs.declared.keyword.WordSlot.{WordSlot};

    ghost Value = { List WordSlot };

    ghost view = { λ s. s.left.now };
}

impl Slots {
    /// Nothing is left.
    pub(crate) fn none() -> Slots
        ensures { result ≡ [] }
    {
        Slots { left: &[] }
    }

    /// Takes the next one off the front.
    pub(crate) fn next(&mut self) -> Option<WordSlot>
        ensures { TakesOff result self.old self.new }
    {
        let (next, left) = self.left.split_first()?;
        self.left = left;
        Some(*next)
    }
}
