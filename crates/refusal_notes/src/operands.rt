//! The names of operands, as the page on the language has them, from the bottom of the stack up.

ghost use Rattle.std.specs.Prelude.{◌≡◌, length};
ghost use Rattle.vcode_base.specs.Kinds.{operand_kinds};

use vcode_base::{Elementwise, Op, Segmented};

/// The names of the operands of an instruction, as many as it takes.
pub fn operand_names(op: Op) -> &'static [&'static str]
    ensures { length result.now ≡ length (operand_kinds op) }
{
    match op {
        Op::Elementwise(op) => elementwise_names(op),
        Op::Segmented(op) => segmented_names(op),
        Op::If => &["flag"],
        Op::Const(_) | Op::Move(..) | Op::Call | Op::Return => &[],
    }
}

/// The names of the operands of an elementwise instruction.
fn elementwise_names(op: Elementwise) -> &'static [&'static str]
    ensures { length result.now ≡ length (operand_kinds (Op.Elementwise op)) }
{
    match op {
        Elementwise::Arith(_) | Elementwise::Compare(_) | Elementwise::Logic(..) => &["a", "b"],
        Elementwise::Not(_) | Elementwise::IntToBool | Elementwise::BoolToInt => &["a"],
        Elementwise::Select(_) => &["flag", "a", "b"],
    }
}

/// The names of the operands of an instruction over segments.
fn segmented_names(op: Segmented) -> &'static [&'static str]
    ensures { length result.now ≡ length (operand_kinds (Op.Segmented op)) }
{
    match op {
        Segmented::Scan(_) | Segmented::Reduce(_) | Segmented::Distribute(_) => &["V", "S"],
        Segmented::Index => &["A", "D", "S"],
        Segmented::Permute(_) | Segmented::Extract(_) => &["V", "I", "S"],
        Segmented::BackPermute(_) => &["V", "I", "S", "R"],
        Segmented::DefaultPermute(_) => &["V", "I", "D", "S", "R"],
        Segmented::Replace(_) => &["V", "I", "X", "S"],
        Segmented::Pack(_) => &["V", "B", "S"],
        Segmented::MakeSegdes => &["I"],
        Segmented::Lengths => &["S"],
    }
}
