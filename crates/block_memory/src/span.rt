//! Where the words of a block lie.

/// The owner of a block, and where its words lie in the list of all words.
#[derive(Clone, Copy, Debug)]
pub(crate) struct Span {
    pub(crate) owner: usize,
    pub(crate) place: usize,
    pub(crate) len: usize,
}

/// What a block had that is gone: its words, and those of the region that it covered.
#[derive(Clone, Copy, Debug)]
pub(crate) struct Freed {
    /// How many words it had.
    pub(crate) words: usize,
    /// The place of the first word that it covered.
    pub(crate) place: usize,
    /// How many words it covered: none, if its word was that of its number.
    pub(crate) covered: usize,
}
