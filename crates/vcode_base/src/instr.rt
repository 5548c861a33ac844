use crate::kind::Scalar;
use crate::op::{Elementwise, Op, Segmented, StackMove};
use crate::sequence::{Elements, Sequence};

/// An instruction of the code, over the type of its list and the type of the name that it calls:
/// the code holds an [`Instruction`].
#[derive(PartialEq, Eq, Debug, Drop)]
pub enum Instr<L, N> {
    /// `CONST`: its list of numbers, or of truth values as 1 and 0.
    Const(Scalar, L),
    Elementwise(Elementwise),
    Segmented(Segmented),
    If,
    /// `COPY`, `POP` or `CPOP` with its counts `i` and `j`.
    Move(StackMove, u16, u16),
    /// `CALL` of the function of this name.
    Call(N),
    /// `RET`.
    Return,
}

/// An instruction whose list or name lies elsewhere.
pub type Instruction<'a> = Instr<Elements<'a, i64>, Elements<'a, u8>>;

impl<L, N> Instr<L, N> {
    ghost use Rattle.std.specs.Prelude.{◌≡◌};
    ghost use Rattle.vcode_base.specs.Instructions.{op_of};

    /// The instruction without its list and without the name that it calls.
    pub fn op(&self) -> Op
        ensures { result ≡ op_of self.now }
    {
        match self {
            Instr::Const(scalar, _) => Op::Const(*scalar),
            Instr::Elementwise(op) => Op::Elementwise(*op),
            Instr::Segmented(op) => Op::Segmented(*op),
            Instr::If => Op::If,
            Instr::Move(motion, lower, upper) => Op::Move(*motion, *lower, *upper),
            Instr::Call(_) => Op::Call,
            Instr::Return => Op::Return,
        }
    }
}

/// The name of a function: its bytes.
pub type FunctionName<A> = Sequence<u8, A>;
