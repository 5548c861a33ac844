//! What a node of the tree knows of its words.

ghost use Rattle.std.specs.Prelude.{◌≡◌, List, Bool};
ghost use Rattle.holes.specs.Tree.{join, nothing_free};

/// The free words at the front and at the end of some words, and the longest range of free words among them.
#[derive(Clone, Copy, PartialEq, Eq, Debug)]
pub struct Summary {
    /// How many words are free in a row from the front on.
    pub front: u32,
    /// How many words are free in a row up to the end.
    pub back: u32,
    /// The number of words of the widest hole.
    pub longest: u32,
    /// Whether every word is free.
    pub whole: bool,
}

impl Summary {
    /// There is no word.
    pub const EMPTY: Summary = Summary {
        front: 0,
        back: 0,
        longest: 0,
        whole: true,
    };

    /// No word is free.
    pub const TAKEN: Summary = Summary {
        front: 0,
        back: 0,
        longest: 0,
        whole: false,
    };

    /// The summary of these words and, right after them, those of `next`. A sum is at most the largest number.
    pub(crate) fn join(self, next: Summary) -> Summary
        ensures { result ≡ join self next }
    {
        Summary {
            front: if self.whole {
                self.front.saturating_add(next.front)
            } else {
                self.front
            },
            back: if next.whole {
                next.back.saturating_add(self.back)
            } else {
                next.back
            },
            longest: self
                .longest
                .max(next.longest)
                .max(self.back.saturating_add(next.front)),
            whole: self.whole && next.whole,
        }
    }
}
