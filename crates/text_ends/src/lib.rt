//! What is open where a text ends.
//!
//! This decision is a crate of its own, since a wrong body of it is tried: the gate proves a crate twice that has one.
#![tactic(auto)]

ghost use Rattle.std.specs.Prelude.{◌≡◌};
ghost use Rattle.vcode_base.specs.Choices.{or_else};

/// The line where the innermost thing that is open in a text begins, or none if nothing is open. A comment is inside
/// all else; `other` is the line of what else is innermost.
#[inline(always)]
pub fn innermost_open(comment: Option<u64>, other: Option<u64>) -> Option<u64>
    ensures { result ≡ or_else comment other }
{
    comment.or(other)
}
