//! Classes of instructions. A step is compiled for each class apart, so that it asks only once of which the instruction
//! is.

ghost use Rattle.std.specs.Prelude.{◌≡◌};
ghost use Rattle.vcode_base.specs.declared.op.Op.{Op};
ghost use Rattle.vcode_base.specs.declared.op.Op.TheVariants as op;
ghost use Rattle.vcode_base.specs.declared.op.Elementwise.TheVariants as elementwise;
ghost use Rattle.vcode_base.specs.declared.op.Segmented.TheVariants as segmented;
ghost use Rattle.vcode_base.specs.declared.op.StackMove.TheVariants as motion;

use vcode_base::{Arith, Comparison, Elementwise, Fold, Op, Scalar, Segmented, StackMove};

/// An instruction without its list and without the name that it calls, of a class that its type says.
pub(crate) trait Class {
    ghost use Rattle.vcode_base.specs.declared.op.Op.{Op};

    /// What it is among all instructions.
    ghost among_all: { Self → Op };

    /// What it is among all instructions.
    fn op(self) -> Op
        ensures { result ≡ among_all self };
}

/// An instruction of any class.
impl Class for Op {
    ghost among_all = { λ it. it };

    #[inline(always)]
    fn op(self) -> Op {
        self
    }
}

/// `CONST`.
#[derive(Drop)]
pub(crate) struct Constant(pub(crate) Scalar);

impl Class for Constant {
    ghost among_all = { λ it. op.Const it.0 };

    #[inline(always)]
    fn op(self) -> Op {
        Op::Const(self.0)
    }
}

impl Class for Arith {
    ghost among_all = { λ it. op.Elementwise (elementwise.Arith it) };

    #[inline(always)]
    fn op(self) -> Op {
        Op::Elementwise(Elementwise::Arith(self))
    }
}

impl Class for Comparison {
    ghost among_all = { λ it. op.Elementwise (elementwise.Compare it) };

    #[inline(always)]
    fn op(self) -> Op {
        Op::Elementwise(Elementwise::Compare(self))
    }
}

impl Class for Elementwise {
    ghost among_all = { λ it. op.Elementwise it };

    #[inline(always)]
    fn op(self) -> Op {
        Op::Elementwise(self)
    }
}

/// `+_SCAN` and the other scans.
#[derive(Drop)]
pub(crate) struct Scan(pub(crate) Fold);

impl Class for Scan {
    ghost among_all = { λ it. op.Segmented (segmented.Scan it.0) };

    #[inline(always)]
    fn op(self) -> Op {
        Op::Segmented(Segmented::Scan(self.0))
    }
}

/// `+_REDUCE` and the other reductions.
#[derive(Drop)]
pub(crate) struct Reduce(pub(crate) Fold);

impl Class for Reduce {
    ghost among_all = { λ it. op.Segmented (segmented.Reduce it.0) };

    #[inline(always)]
    fn op(self) -> Op {
        Op::Segmented(Segmented::Reduce(self.0))
    }
}

/// `DIST` of elements of this kind.
#[derive(Drop)]
pub(crate) struct Distribute(pub(crate) Scalar);

impl Class for Distribute {
    ghost among_all = { λ it. op.Segmented (segmented.Distribute it.0) };

    #[inline(always)]
    fn op(self) -> Op {
        Op::Segmented(Segmented::Distribute(self.0))
    }
}

/// `INDEX`.
#[derive(Drop)]
pub(crate) struct Index;

impl Class for Index {
    ghost among_all = { λ it. op.Segmented segmented.Index };

    #[inline(always)]
    fn op(self) -> Op {
        Op::Segmented(Segmented::Index)
    }
}

/// `PERMUTE` of elements of this kind.
#[derive(Drop)]
pub(crate) struct Permute(pub(crate) Scalar);

impl Class for Permute {
    ghost among_all = { λ it. op.Segmented (segmented.Permute it.0) };

    #[inline(always)]
    fn op(self) -> Op {
        Op::Segmented(Segmented::Permute(self.0))
    }
}

/// `BPERMUTE` of elements of this kind.
#[derive(Drop)]
pub(crate) struct BackPermute(pub(crate) Scalar);

impl Class for BackPermute {
    ghost among_all = { λ it. op.Segmented (segmented.BackPermute it.0) };

    #[inline(always)]
    fn op(self) -> Op {
        Op::Segmented(Segmented::BackPermute(self.0))
    }
}

/// `DPERMUTE` of elements of this kind.
#[derive(Drop)]
pub(crate) struct DefaultPermute(pub(crate) Scalar);

impl Class for DefaultPermute {
    ghost among_all = { λ it. op.Segmented (segmented.DefaultPermute it.0) };

    #[inline(always)]
    fn op(self) -> Op {
        Op::Segmented(Segmented::DefaultPermute(self.0))
    }
}

/// `EXTRACT` of elements of this kind.
#[derive(Drop)]
pub(crate) struct Extract(pub(crate) Scalar);

impl Class for Extract {
    ghost among_all = { λ it. op.Segmented (segmented.Extract it.0) };

    #[inline(always)]
    fn op(self) -> Op {
        Op::Segmented(Segmented::Extract(self.0))
    }
}

/// `REPLACE` of elements of this kind.
#[derive(Drop)]
pub(crate) struct Replace(pub(crate) Scalar);

impl Class for Replace {
    ghost among_all = { λ it. op.Segmented (segmented.Replace it.0) };

    #[inline(always)]
    fn op(self) -> Op {
        Op::Segmented(Segmented::Replace(self.0))
    }
}

/// `PACK` of elements of this kind.
#[derive(Drop)]
pub(crate) struct Pack(pub(crate) Scalar);

impl Class for Pack {
    ghost among_all = { λ it. op.Segmented (segmented.Pack it.0) };

    #[inline(always)]
    fn op(self) -> Op {
        Op::Segmented(Segmented::Pack(self.0))
    }
}

/// `MAKE_SEGDES`.
#[derive(Drop)]
pub(crate) struct MakeSegdes;

impl Class for MakeSegdes {
    ghost among_all = { λ it. op.Segmented segmented.MakeSegdes };

    #[inline(always)]
    fn op(self) -> Op {
        Op::Segmented(Segmented::MakeSegdes)
    }
}

/// `LENGTHS`.
#[derive(Drop)]
pub(crate) struct Lengths;

impl Class for Lengths {
    ghost among_all = { λ it. op.Segmented segmented.Lengths };

    #[inline(always)]
    fn op(self) -> Op {
        Op::Segmented(Segmented::Lengths)
    }
}

/// `COPY`, with its two counts.
#[derive(Drop)]
pub(crate) struct Copy(pub(crate) u16, pub(crate) u16);

impl Class for Copy {
    ghost among_all = { λ it. op.Move motion.Copy it.0 it.1 };

    #[inline(always)]
    fn op(self) -> Op {
        Op::Move(StackMove::Copy, self.0, self.1)
    }
}

/// `POP`, with its two counts.
#[derive(Drop)]
pub(crate) struct Pop(pub(crate) u16, pub(crate) u16);

impl Class for Pop {
    ghost among_all = { λ it. op.Move motion.Pop it.0 it.1 };

    #[inline(always)]
    fn op(self) -> Op {
        Op::Move(StackMove::Pop, self.0, self.1)
    }
}

/// `CPOP`, with its two counts.
#[derive(Drop)]
pub(crate) struct MoveToTop(pub(crate) u16, pub(crate) u16);

impl Class for MoveToTop {
    ghost among_all = { λ it. op.Move motion.MoveToTop it.0 it.1 };

    #[inline(always)]
    fn op(self) -> Op {
        Op::Move(StackMove::MoveToTop, self.0, self.1)
    }
}

/// `IF`, whose parts its `ELSE` and `ENDIF` end.
#[derive(Drop)]
pub(crate) struct If;

impl Class for If {
    ghost among_all = { λ it. op.If };

    #[inline(always)]
    fn op(self) -> Op {
        Op::If
    }
}

/// `CALL`.
#[derive(Drop)]
pub(crate) struct Call;

impl Class for Call {
    ghost among_all = { λ it. op.Call };

    #[inline(always)]
    fn op(self) -> Op {
        Op::Call
    }
}

/// `RET`.
#[derive(Drop)]
pub(crate) struct Return;

impl Class for Return {
    ghost among_all = { λ it. op.Return };

    #[inline(always)]
    fn op(self) -> Op {
        Op::Return
    }
}
