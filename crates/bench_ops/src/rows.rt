//! The instructions that are timed, each with its name in a line and the vectors that it takes.

use vcode_base::{Arith, Comparison, Elementwise, Fold, Logic, Op, Scalar, Segmented};

/// A vector of a load.
#[derive(Clone, Copy)]
pub enum Operand {
    /// Numbers of both signs.
    Numbers,
    /// Shifts of 0 to 5 places: one for each segment, or for each word if there are no segments.
    Shifts,
    /// As many shifts of 3 places.
    Threes,
    /// Flags, half of them T.
    Flags,
    /// The indices of each segment, in no order.
    Mixed,
    /// The indices of each segment, rising.
    Rising,
    /// The descriptor of the segments.
    Lengths,
}

/// An instruction.
#[derive(Clone, Copy)]
pub struct Row {
    pub name: &'static str,
    pub op: Op,
    pub operands: &'static [Operand],
}

/// One or more of each family of the elementwise instructions.
pub const ELEMENTWISE: [Row; 10] = [
    Row {
        name: "+ INT",
        op: Op::Elementwise(Elementwise::Arith(Arith::Add)),
        operands: &[Operand::Numbers, Operand::Numbers],
    },
    Row {
        name: "* INT",
        op: Op::Elementwise(Elementwise::Arith(Arith::Multiply)),
        operands: &[Operand::Numbers, Operand::Numbers],
    },
    Row {
        name: "/ INT",
        op: Op::Elementwise(Elementwise::Arith(Arith::Divide)),
        operands: &[Operand::Numbers, Operand::Numbers],
    },
    Row {
        name: "LSHIFT INT",
        op: Op::Elementwise(Elementwise::Arith(Arith::ShiftLeft)),
        operands: &[Operand::Numbers, Operand::Shifts],
    },
    Row {
        name: "LSHIFT INT by one number",
        op: Op::Elementwise(Elementwise::Arith(Arith::ShiftLeft)),
        operands: &[Operand::Numbers, Operand::Threes],
    },
    Row {
        name: "< INT",
        op: Op::Elementwise(Elementwise::Compare(Comparison::Less)),
        operands: &[Operand::Numbers, Operand::Shifts],
    },
    Row {
        name: "XOR INT",
        op: Op::Elementwise(Elementwise::Logic(Logic::Xor, Scalar::Int)),
        operands: &[Operand::Numbers, Operand::Shifts],
    },
    Row {
        name: "NOT BOOL",
        op: Op::Elementwise(Elementwise::Not(Scalar::Bool)),
        operands: &[Operand::Flags],
    },
    Row {
        name: "SELECT INT",
        op: Op::Elementwise(Elementwise::Select(Scalar::Int)),
        operands: &[Operand::Flags, Operand::Numbers, Operand::Shifts],
    },
    Row {
        name: "I_TO_B",
        op: Op::Elementwise(Elementwise::IntToBool),
        operands: &[Operand::Numbers],
    },
];

/// One or more of each family of the segment instructions.
pub const SEGMENTED: [Row; 13] = [
    Row {
        name: "+_SCAN INT",
        op: Op::Segmented(Segmented::Scan(Fold::Sum)),
        operands: &[Operand::Numbers, Operand::Lengths],
    },
    Row {
        name: "MAX_SCAN INT",
        op: Op::Segmented(Segmented::Scan(Fold::Max)),
        operands: &[Operand::Numbers, Operand::Lengths],
    },
    Row {
        name: "+_REDUCE INT",
        op: Op::Segmented(Segmented::Reduce(Fold::Sum)),
        operands: &[Operand::Numbers, Operand::Lengths],
    },
    Row {
        name: "MAX_REDUCE INT",
        op: Op::Segmented(Segmented::Reduce(Fold::Max)),
        operands: &[Operand::Numbers, Operand::Lengths],
    },
    Row {
        name: "DIST INT",
        op: Op::Segmented(Segmented::Distribute(Scalar::Int)),
        operands: &[Operand::Shifts, Operand::Lengths],
    },
    Row {
        name: "INDEX",
        op: Op::Segmented(Segmented::Index),
        operands: &[Operand::Shifts, Operand::Shifts, Operand::Lengths],
    },
    Row {
        name: "PERMUTE INT",
        op: Op::Segmented(Segmented::Permute(Scalar::Int)),
        operands: &[Operand::Numbers, Operand::Mixed, Operand::Lengths],
    },
    Row {
        name: "BPERMUTE INT",
        op: Op::Segmented(Segmented::BackPermute(Scalar::Int)),
        operands: &[
            Operand::Numbers,
            Operand::Mixed,
            Operand::Lengths,
            Operand::Lengths,
        ],
    },
    Row {
        name: "DPERMUTE INT",
        op: Op::Segmented(Segmented::DefaultPermute(Scalar::Int)),
        operands: &[
            Operand::Numbers,
            Operand::Mixed,
            Operand::Numbers,
            Operand::Lengths,
            Operand::Lengths,
        ],
    },
    Row {
        name: "PERMUTE INT rising",
        op: Op::Segmented(Segmented::Permute(Scalar::Int)),
        operands: &[Operand::Numbers, Operand::Rising, Operand::Lengths],
    },
    Row {
        name: "DPERMUTE INT rising",
        op: Op::Segmented(Segmented::DefaultPermute(Scalar::Int)),
        operands: &[
            Operand::Numbers,
            Operand::Rising,
            Operand::Numbers,
            Operand::Lengths,
            Operand::Lengths,
        ],
    },
    Row {
        name: "EXTRACT INT",
        op: Op::Segmented(Segmented::Extract(Scalar::Int)),
        operands: &[Operand::Numbers, Operand::Shifts, Operand::Lengths],
    },
    Row {
        name: "PACK INT",
        op: Op::Segmented(Segmented::Pack(Scalar::Int)),
        operands: &[Operand::Numbers, Operand::Flags, Operand::Lengths],
    },
];
