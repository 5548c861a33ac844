//! The words of kinds.

ghost use Rattle.std.specs.Prelude.{◌≡◌};
ghost use Rattle.signatures.specs.Spelling.{word_of};

use vcode_base::Kind;

/// The word of a kind.
pub fn kind_text(kind: Kind) -> &'static str
    ensures { result.now ≡ word_of kind }
{
    match kind {
        Kind::Int => "INT",
        Kind::Bool => "BOOL",
        Kind::Segdes => "SEGDES",
    }
}
