use crate::kind::{Kind, Scalar};

/// Arithmetic on two numbers, element by element.
#[derive(Clone, Copy, PartialEq, Eq, Debug)]
pub enum Arith {
    /// `+`, modulo 2^64 as are the two below.
    Add,
    Subtract,
    Multiply,
    /// `/`: the quotient towards zero.
    Divide,
    /// `%`: the remainder, with the sign of the dividend.
    Remainder,
    /// `LSHIFT`: the left operand times 2 to the right one, modulo 2^64.
    ShiftLeft,
    /// `RSHIFT`: the left operand divided by 2 to the right one, rounded down.
    ShiftRight,
}

/// A comparison of two signed numbers, element by element.
#[derive(Clone, Copy, PartialEq, Eq, Debug)]
pub enum Comparison {
    Less,
    LessOrEqual,
    Greater,
    GreaterOrEqual,
    Equal,
    NotEqual,
}

/// Bit by bit on numbers, and on truth values the connective.
#[derive(Clone, Copy, PartialEq, Eq, Debug)]
pub enum Logic {
    And,
    Or,
    Xor,
}

/// How a scan or a reduction takes the elements of a segment together.
#[derive(Clone, Copy, PartialEq, Eq, Debug)]
pub enum Fold {
    /// Modulo 2^64, as are products.
    Sum,
    Product,
    Max,
    Min,
    Logic(Logic, Scalar),
}

/// An instruction whose operands have equal lengths and no segment descriptor.
#[derive(Clone, Copy, PartialEq, Eq, Debug)]
pub enum Elementwise {
    Arith(Arith),
    Compare(Comparison),
    Logic(Logic, Scalar),
    /// `NOT`: each bit turned, and of truth values the other one.
    Not(Scalar),
    /// `SELECT`: the element of the second operand if the flag is T, else of the third.
    Select(Scalar),
    /// `I_TO_B`: T exactly if the number is not 0.
    IntToBool,
    /// `B_TO_I`: 1 for T and 0 for F.
    BoolToInt,
}

/// An instruction that makes, reads or takes a segment descriptor.
#[derive(Clone, Copy, PartialEq, Eq, Debug)]
pub enum Segmented {
    /// An exclusive scan: for each element the fold of those before it in its segment.
    Scan(Fold),
    /// One fold for each segment.
    Reduce(Fold),
    /// `DIST`: one element for each segment, repeated over it.
    Distribute(Scalar),
    /// `INDEX`: an arithmetic progression in each segment.
    Index,
    /// `PERMUTE`: each element goes to its index.
    Permute(Scalar),
    /// `BPERMUTE`: each index fetches its element.
    BackPermute(Scalar),
    /// `DPERMUTE`: each element goes to its index over a default.
    DefaultPermute(Scalar),
    /// `EXTRACT`: one element of each segment.
    Extract(Scalar),
    /// `REPLACE`: one element of each segment is another.
    Replace(Scalar),
    /// `PACK`: the flagged elements, and how many each segment has.
    Pack(Scalar),
    /// `MAKE_SEGDES`: a descriptor of these lengths.
    MakeSegdes,
    /// `LENGTHS`: the lengths of a descriptor.
    Lengths,
}

/// How the entries at the top of the stack are moved: of its two counts `i` and `j`, `j` entries
/// lie on top of `i`.
#[derive(Clone, Copy, PartialEq, Eq, Debug)]
pub enum StackMove {
    /// `COPY`: the `i` entries are pushed again.
    Copy,
    /// `POP`: the `i` entries are removed.
    Pop,
    /// `CPOP`: the `i` entries go to the top.
    MoveToTop,
}

/// An instruction without its list and without the name that it calls.
#[derive(Clone, Copy, PartialEq, Eq, Debug)]
pub enum Op {
    Const(Scalar),
    Elementwise(Elementwise),
    Segmented(Segmented),
    If,
    /// A motion of the stack with its counts `i` and `j`.
    Move(StackMove, u16, u16),
    Call,
    Return,
}

impl Op {
    ghost use Rattle.std.specs.Prelude.{◌≡◌};
    ghost use Rattle.vcode_base.specs.Kinds.{operand_kinds, result_kinds, source_kinds};

    /// The kinds of the operands from the bottom of the stack up, if they are the same at every use of
    /// the instruction: none for `CONST`, a motion of the stack, `CALL` and `RET`.
    #[inline(always)]
    pub fn operand_kinds(self) -> &'static [Kind]
        ensures { result.now ≡ operand_kinds self }
    {
        match self {
            Op::Elementwise(op) => op.operand_kinds(),
            Op::Segmented(op) => op.operand_kinds(),
            Op::If => &[Kind::Bool],
            Op::Const(_) | Op::Move(..) | Op::Call | Op::Return => &[],
        }
    }

    /// The kinds of what its results are computed from, from the bottom of the stack up: the same as
    /// [`operand_kinds`](Op::operand_kinds), but of `CONST` the kind of its list.
    pub fn source_kinds(self) -> &'static [Kind]
        ensures { result.now ≡ source_kinds self }
    {
        match self {
            Op::Const(scalar) => scalar.kinds(),
            _ => self.operand_kinds(),
        }
    }

    /// The kinds of the results that it makes, the top of the stack last: none for `IF`, a motion
    /// of the stack, `CALL` and `RET`.
    #[inline(always)]
    pub fn result_kinds(self) -> &'static [Kind]
        ensures { result.now ≡ result_kinds self }
    {
        match self {
            Op::Const(elements) => elements.kinds(),
            Op::Elementwise(op) => op.result_kinds(),
            Op::Segmented(op) => op.result_kinds(),
            Op::If | Op::Move(..) | Op::Call | Op::Return => &[],
        }
    }
}

impl Elementwise {
    ghost use Rattle.std.specs.Prelude.{◌≡◌};
    ghost use Rattle.vcode_base.specs.Kinds.{elementwise_operands, elementwise_results};

    /// The kinds of its operands from the bottom of the stack up.
    #[inline(always)]
    fn operand_kinds(self) -> &'static [Kind]
        ensures { result.now ≡ elementwise_operands self }
    {
        match self {
            Elementwise::Arith(_) | Elementwise::Compare(_) => &[Kind::Int, Kind::Int],
            Elementwise::Logic(_, Scalar::Int) => &[Kind::Int, Kind::Int],
            Elementwise::Logic(_, Scalar::Bool) => &[Kind::Bool, Kind::Bool],
            Elementwise::Not(elements) => elements.kinds(),
            Elementwise::Select(Scalar::Int) => &[Kind::Bool, Kind::Int, Kind::Int],
            Elementwise::Select(Scalar::Bool) => &[Kind::Bool, Kind::Bool, Kind::Bool],
            Elementwise::IntToBool => &[Kind::Int],
            Elementwise::BoolToInt => &[Kind::Bool],
        }
    }

    /// The kind of its result.
    #[inline(always)]
    fn result_kinds(self) -> &'static [Kind]
        ensures { result.now ≡ elementwise_results self }
    {
        match self {
            Elementwise::Arith(_) | Elementwise::BoolToInt => &[Kind::Int],
            Elementwise::Compare(_) | Elementwise::IntToBool => &[Kind::Bool],
            Elementwise::Logic(_, elements)
            | Elementwise::Not(elements)
            | Elementwise::Select(elements) => elements.kinds(),
        }
    }
}

impl Segmented {
    ghost use Rattle.std.specs.Prelude.{◌≡◌};
    ghost use Rattle.vcode_base.specs.Kinds.{segmented_operands, segmented_results};

    /// The kinds of its operands from the bottom of the stack up.
    #[inline(always)]
    fn operand_kinds(self) -> &'static [Kind]
        ensures { result.now ≡ segmented_operands self }
    {
        match self {
            Segmented::Scan(fold) | Segmented::Reduce(fold) => fold.operand_kinds(),
            Segmented::Distribute(Scalar::Int) => &[Kind::Int, Kind::Segdes],
            Segmented::Distribute(Scalar::Bool) => &[Kind::Bool, Kind::Segdes],
            Segmented::Index => &[Kind::Int, Kind::Int, Kind::Segdes],
            Segmented::Permute(Scalar::Int) | Segmented::Extract(Scalar::Int) => {
                &[Kind::Int, Kind::Int, Kind::Segdes]
            }
            Segmented::Permute(Scalar::Bool) | Segmented::Extract(Scalar::Bool) => {
                &[Kind::Bool, Kind::Int, Kind::Segdes]
            }
            Segmented::BackPermute(Scalar::Int) => {
                &[Kind::Int, Kind::Int, Kind::Segdes, Kind::Segdes]
            }
            Segmented::BackPermute(Scalar::Bool) => {
                &[Kind::Bool, Kind::Int, Kind::Segdes, Kind::Segdes]
            }
            Segmented::DefaultPermute(Scalar::Int) => {
                &[Kind::Int, Kind::Int, Kind::Int, Kind::Segdes, Kind::Segdes]
            }
            Segmented::DefaultPermute(Scalar::Bool) => {
                &[
                    Kind::Bool,
                    Kind::Int,
                    Kind::Bool,
                    Kind::Segdes,
                    Kind::Segdes,
                ]
            }
            Segmented::Replace(Scalar::Int) => &[Kind::Int, Kind::Int, Kind::Int, Kind::Segdes],
            Segmented::Replace(Scalar::Bool) => &[Kind::Bool, Kind::Int, Kind::Bool, Kind::Segdes],
            Segmented::Pack(Scalar::Int) => &[Kind::Int, Kind::Bool, Kind::Segdes],
            Segmented::Pack(Scalar::Bool) => &[Kind::Bool, Kind::Bool, Kind::Segdes],
            Segmented::MakeSegdes => &[Kind::Int],
            Segmented::Lengths => &[Kind::Segdes],
        }
    }

    /// The kinds of its results, the top of the stack last.
    #[inline(always)]
    fn result_kinds(self) -> &'static [Kind]
        ensures { result.now ≡ segmented_results self }
    {
        match self {
            Segmented::Scan(fold) | Segmented::Reduce(fold) => fold.result_kinds(),
            Segmented::Distribute(elements)
            | Segmented::Permute(elements)
            | Segmented::BackPermute(elements)
            | Segmented::DefaultPermute(elements)
            | Segmented::Extract(elements)
            | Segmented::Replace(elements) => elements.kinds(),
            Segmented::Pack(Scalar::Int) => &[Kind::Int, Kind::Segdes],
            Segmented::Pack(Scalar::Bool) => &[Kind::Bool, Kind::Segdes],
            Segmented::Index | Segmented::Lengths => &[Kind::Int],
            Segmented::MakeSegdes => &[Kind::Segdes],
        }
    }
}

impl Fold {
    ghost use Rattle.std.specs.Prelude.{◌≡◌, [], ◌∷◌};
    ghost use Rattle.vcode_base.specs.Kinds.{fold_kind};
    ghost use Rattle.vcode_base.specs.declared.kind.Kind.TheVariants.{Segdes};

    /// The kinds of a vector that is folded and of its descriptor.
    #[inline(always)]
    fn operand_kinds(self) -> &'static [Kind]
        ensures { result.now ≡ fold_kind self ∷ Segdes ∷ [] }
    {
        match self {
            Fold::Logic(_, Scalar::Bool) => &[Kind::Bool, Kind::Segdes],
            Fold::Sum | Fold::Product | Fold::Max | Fold::Min | Fold::Logic(_, Scalar::Int) => {
                &[Kind::Int, Kind::Segdes]
            }
        }
    }

    /// The kind of a fold.
    #[inline(always)]
    fn result_kinds(self) -> &'static [Kind]
        ensures { result.now ≡ fold_kind self ∷ [] }
    {
        match self {
            Fold::Logic(_, elements) => elements.kinds(),
            Fold::Sum | Fold::Product | Fold::Max | Fold::Min => &[Kind::Int],
        }
    }
}
