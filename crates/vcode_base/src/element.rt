//! The arithmetic of two numbers of 64 bits, for the elementwise instructions and for the scans and reductions.

#![tactic(auto, using(std::proofs::lemmas::Int::wraps))]

ghost use Rattle.std.specs.Prelude.{◌≡◌, ℤ};
ghost use Rattle.vcode_base.specs.Elements.{arithmetic, logic};
ghost use Rattle.vcode_base.specs.declared.op.Arith.TheVariants.{Add, Multiply};
ghost use Rattle.vcode_base.specs.declared.op.Logic.TheVariants.{And as LogicAnd, Or as LogicOr, Xor as LogicXor};

/// What makes one number of any two.
pub trait Combine {
    ghost combination: { ℤ → ℤ → ℤ };

    /// The number that the two make.
    fn combine(left: i64, right: i64) -> i64
        ensures { result ≡ combination left right };
}

/// The sum, modulo 2^64.
pub struct Sum;

impl Combine for Sum {
    ghost combination = { arithmetic Add };

    fn combine(left: i64, right: i64) -> i64 {
        left.wrapping_add(right)
    }
}

/// The product, modulo 2^64.
pub struct Product;

impl Combine for Product {
    ghost combination = { arithmetic Multiply };

    fn combine(left: i64, right: i64) -> i64 {
        left.wrapping_mul(right)
    }
}

/// The bits that both have, which on truth values is AND.
pub struct And;

impl Combine for And {
    ghost combination = { logic LogicAnd };

    fn combine(left: i64, right: i64) -> i64 {
        left & right
    }
}

/// The bits that one of them has, which on truth values is OR.
pub struct Or;

impl Combine for Or {
    ghost combination = { logic LogicOr };

    fn combine(left: i64, right: i64) -> i64 {
        left | right
    }
}

/// The bits that just one of them has, which on truth values is XOR.
pub struct Xor;

impl Combine for Xor {
    ghost combination = { logic LogicXor };

    fn combine(left: i64, right: i64) -> i64 {
        left ^ right
    }
}
