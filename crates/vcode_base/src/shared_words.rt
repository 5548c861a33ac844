//! Words that have several owners.

ghost use Rattle.std.specs.Prelude.{◌≡◌, ◌+◌, ◌≤◌, length, take, drop, IfOk};

use crate::packed_words::PackedWords;
use std::alloc::{AllocError, Allocator};
use std::marker::Model;
use std::sync::Arc;

/// The words of a vector. Several vectors may own them together, and they are in memory once. The last owner gives
/// their memory back.
#[derive(Debug, Drop)]
pub struct SharedWords<A: Allocator> {
    words: Arc<PackedWords<A>, A>,
}

impl<A: Allocator> Model for SharedWords<A> {
    ghost use Rattle.std.specs.Arc.{arc_value};
    ghost use Rattle.std.specs.Prelude.{List, ℤ};
    ghost use Rattle.vcode_base.specs.PackedWords.{words_of};

    ghost Value = { List ℤ };

    ghost view = { λ s. words_of (arc_value s.words) };
}

impl<A: Allocator> SharedWords<A> {
    /// A copy of these words, which has one owner.
    ///
    /// # Errors
    ///
    /// [`AllocError`] if memory for them was refused.
    pub fn copy_of(alloc: A, words: &[i64]) -> Result<SharedWords<A>, AllocError>
    where
        A: Clone,
        ensures { IfOk result (λ copy. copy ≡ words.now) }
    {
        let words = PackedWords::copy_of(alloc.clone()?, words)?;
        Ok(SharedWords {
            words: Arc::new(alloc, words)?,
        })
    }

    /// The same words for one more owner. Nothing is copied.
    ///
    /// # Errors
    ///
    /// [`AllocError`] if they already have as many owners as can be counted.
    pub fn share(&self) -> Result<SharedWords<A>, AllocError>
        ensures { IfOk result (λ shared. shared ≡ self.now) }
    {
        Ok(SharedWords {
            words: Arc::try_clone(&self.words)?,
        })
    }

    /// How many words there are.
    pub fn len(&self) -> usize
        ensures { result ≡ length self.now }
    {
        self.words.len()
    }

    /// Fills `into` with the words from the place `from` on. There are at least as many.
    pub fn copy_from(&self, from: usize, into: &mut [i64])
        requires { from + length into.old ≤ length self.now }
        ensures { into.new ≡ take (length into.old) (drop from self.now) }
    {
        self.words.copy_from(from, into)
    }
}
