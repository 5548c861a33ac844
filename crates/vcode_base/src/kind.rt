ghost use Rattle.std.specs.Prelude.{◌≡◌, ◌≤◌, ◌||◌, ◌↔◌, IsTrue, pos, int_lt, nat_lt};
ghost use Rattle.std.specs.List.{All, list_any};
ghost use Rattle.vcode_base.specs.Kinds.{IsFlag, HasKind, HaveKinds};
ghost use Rattle.vcode_base.specs.Operands.{contents};
ghost use Rattle.vcode_base.specs.Segments.{total};
ghost use Rattle.vcode_base.specs.declared.limits.TheConstants.{MOST_TOTAL};

use crate::limits::MOST_TOTAL;

/// What the words of a vector are.
#[derive(Clone, Copy, PartialEq, Eq, Debug)]
pub enum Kind {
    /// Signed 64-bit numbers.
    Int,
    /// Truth values, 1 for T and 0 for F.
    Bool,
    /// Segment lengths, none negative, of a total of at most 4,294,967,295: a segment descriptor.
    Segdes,
}

impl Kind {
    /// Whether these are the words of a vector of this kind: for `Int` any words, for `Bool` each 0
    /// or 1, for `Segdes` none negative and a total, found without wrapping, of at most
    /// 4,294,967,295.
    #[tactic(auto, using(crate::proofs::KindTests::kind_steps))]
    pub fn holds(self, words: &[i64]) -> bool
        ensures { IsTrue result ↔ HasKind self words.now }
    {
        match self {
            Kind::Int => true,
            Kind::Bool => are_flags(words),
            Kind::Segdes => !is_bad_descriptor(words),
        }
    }
}

/// The kind that is written after an instruction's word, as in `SELECT BOOL`.
#[derive(Clone, Copy, PartialEq, Eq, Debug)]
pub enum Scalar {
    Int,
    Bool,
}

impl Scalar {
    ghost use Rattle.std.specs.Prelude.{◌≡◌, [], ◌∷◌};
    ghost use Rattle.vcode_base.specs.Kinds.{kind_of};

    /// The kind of a vector of such elements.
    pub fn kind(self) -> Kind
        ensures { result ≡ kind_of self }
    {
        match self {
            Scalar::Int => Kind::Int,
            Scalar::Bool => Kind::Bool,
        }
    }

    /// The kind of one such vector, as a list.
    pub(crate) fn kinds(self) -> &'static [Kind]
        ensures { result.now ≡ kind_of self ∷ [] }
    {
        match self {
            Scalar::Int => &[Kind::Int],
            Scalar::Bool => &[Kind::Bool],
        }
    }
}

/// Whether there are as many vectors as kinds, and each is of the kind at its place.
///
/// At the kinds that [`Op::source_kinds`](crate::Op::source_kinds) answers, this is whether an
/// instruction takes these operands, or `CONST` this list.
#[tactic(auto, using(crate::proofs::KindTests::as_many))]
pub fn have_kinds(kinds: &[Kind], vectors: &[&[i64]]) -> bool
    ensures { IsTrue result ↔ HaveKinds kinds.now (contents vectors.now) }
{
    if kinds.len() != vectors.len() {
        return false;
    }
    for i in 0..kinds.len() {
        if !kinds[i].holds(vectors[i]) {
            return false;
        }
    }
    true
}

/// Whether each word is 0 or 1.
#[tactic(auto, using(crate::proofs::KindTests::kind_steps))]
fn are_flags(words: &[i64]) -> bool
    ensures { IsTrue result ↔ All IsFlag words.now }
{
    let mut all = true;
    for word in words {
        all &= *word == 0 || *word == 1;
    }
    all
}

/// Whether a length is negative, or their total passes the greatest.
fn is_bad_descriptor(lengths: &[i64]) -> bool
    ensures { result
        ≡ (list_any (λ n. int_lt n (pos 0)) lengths.now
        || nat_lt MOST_TOTAL (total lengths.now)) }
{
    let mut any_negative = false;
    let mut sum: u64 = 0;
    for size in lengths {
        any_negative |= *size < 0;
        sum = sum.saturating_add(size.unsigned_abs());
    }
    any_negative || sum > MOST_TOTAL
}
