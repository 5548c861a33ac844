ghost use Rattle.std.specs.Prelude.{◌≡◌, length};

use crate::bits::WORD_DIGITS;
use crate::chunk::Chunk;
use std::marker::Model;

/// 32 kinds in a word.
#[derive(Drop)]
pub(crate) struct FullChunk {
    digits: u64,
}

impl Model for FullChunk {
    ghost use Rattle.std.specs.Prelude.{List};
    ghost use Rattle.vcode_base.specs.declared.kind.Kind.{Kind};
    ghost use Rattle.kind_list.specs.Packed.{kinds_of, IsPacked};

    ghost Value = { List Kind };

    ghost view = { λ c. kinds_of 32 c.digits };

    ghost invariant = { λ c. IsPacked 32 c.digits };
}

impl FullChunk {
    /// The kinds of a chunk.
    #[inline(always)]
    #[tactic(auto, using(crate::proofs::Digits::known))]
    pub(crate) fn new(chunk: &Chunk) -> FullChunk
        requires { length chunk.now ≡ 32 }
        ensures { result ≡ chunk.now }
    {
        FullChunk {
            digits: chunk.digits(),
        }
    }

    /// The kinds.
    #[inline(always)]
    #[tactic(auto, using(crate::proofs::Digits::length_kinds))]
    pub(crate) fn chunk(&self) -> Chunk
        ensures is { result ≡ self.now }
        ensures full { length result ≡ 32 }
    {
        Chunk::from_digits(self.digits, WORD_DIGITS)
    }
}
