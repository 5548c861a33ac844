//! How a batch counts the words that an instruction's operands hold.

/// Whether the operands of an instruction count as held while its results are made.
///
/// A job that needs more words than its limit ends by [`Words`](crate::MemoryFault::Words); the rule decides what
/// counts as held at that check, and in the job's peak. Both rules are this profile's own.
#[derive(Clone, Copy, PartialEq, Eq, Debug)]
pub enum Rule {
    /// Operands count: what is held at an instruction is the words of all distinct vectors on the stack.
    First,
    /// Operands do not count: what is held is the words of the distinct vectors that the entries below the operands
    /// name.
    Second,
}
