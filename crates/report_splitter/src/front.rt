//! The entry at the front of a report.

ghost use Rattle.std.specs.Prelude.{◌≡◌, ◌<◌, ◌≤◌, ◌+◌, ◌-◌, ◌++◌, ◌∷◌, ℕ, List, Some, length, take, drop, IfSome};
ghost use Rattle.std.specs.Prelude.{MatchOption, MatchResult};
ghost use Rattle.memchr.specs.Find.{OccursAt};
ghost use Rattle.report_splitter.specs.declared.fault.CutFault.TheVariants.{BrokenOff};
ghost use Rattle.report_splitter.specs.Answers.{HasEntry, IsFaultOf, IsHeadFault};
ghost use Rattle.report_splitter.specs.Fronts.{HasFeed, HasLine, IsTail};

use crate::ending::after;
use crate::fault::CutFault;
use memchr::{memchr, memmem};

/// Where the tail of an entry ends: after the first LF that is followed by what begins the next line. `next` is both.
fn end_of_tail(rest: &[u8], next: &[u8]) -> Option<usize>
    ensures front { (n : ℕ) (tail head more : List ℕ) → IsTail tail head → next.now ≡ 10 ∷ head
        → rest.now ≡ take n (tail ++ (head ++ more)) → IfSome result (λ at. (at ≡ length tail)
        × (at ≤ length rest.now)) }
    ensures whole { (tail head more : List ℕ) → IsTail tail head → next.now ≡ 10 ∷ head
        → rest.now ≡ tail ++ (head ++ more) → result ≡ Some (length tail) }
    ensures first { MatchOption result ((k : ℕ) → OccursAt rest.now next.now k → ⊥) (λ at. (k : ℕ) × (at ≡ k + 1)
        × OccursAt rest.now next.now k × ((j : ℕ) → OccursAt rest.now next.now j → k ≤ j)) }
{
    match memmem::find(rest, next) {
        Some(at) => Some(at + 1),
        None => None,
    }
}

/// Cuts a text at this place, if an LF is after it.
fn cut_at(text: &[u8], at: usize) -> Result<(&[u8], &[u8]), CutFault>
    ensures { MatchResult result
        (λ r. (r.0.now ≡ take at text.now) × (r.1.now ≡ drop at text.now) × HasFeed (drop at text.now))
        (λ fault. (fault ≡ BrokenOff) × (HasFeed (drop at text.now) → ⊥)) }
{
    if at > text.len() {
        return Err(CutFault::BrokenOff);
    }
    let (front, rest) = text.split_at(at);
    match memchr(b'\n', rest) {
        Some(_) => Ok((front, rest)),
        None => Err(CutFault::BrokenOff),
    }
}

/// Cuts the tail of an entry off the front of a text, if the line after it is there with its LF.
fn cut_tail<'a>(rest: &'a [u8], next: &[u8]) -> Result<(&'a [u8], &'a [u8]), CutFault>
    ensures front { (n : ℕ) (tail head more : List ℕ) → IsTail tail head → next.now ≡ 10 ∷ head
        → rest.now ≡ take n (tail ++ (head ++ more)) → MatchResult result
        (λ r. (r.0.now ≡ tail) × (r.1.now ≡ take (n - length tail) (head ++ more)))
        (λ fault. fault ≡ BrokenOff) }
    ensures whole { (tail head more : List ℕ) → IsTail tail head → next.now ≡ 10 ∷ head → HasFeed (head ++ more)
        → rest.now ≡ tail ++ (head ++ more) → MatchResult result
        (λ r. (r.0.now ≡ tail) × (r.1.now ≡ head ++ more))
        (λ _. ⊥) }
    ensures line { (head : List ℕ) → next.now ≡ 10 ∷ head → MatchResult result
        (λ _. HasLine head rest.now)
        (λ fault. (fault ≡ BrokenOff) × (HasLine head rest.now → ⊥)) }
{
    match end_of_tail(rest, next) {
        Some(at) => cut_at(rest, at),
        None => Err(CutFault::BrokenOff),
    }
}

/// Why a report doesn't begin with a head.
fn head_fault(report: &[u8], head: &[u8]) -> CutFault
    ensures { IsHeadFault head.now report.now result }
{
    if head.starts_with(report) {
        CutFault::BrokenOff
    } else {
        CutFault::OtherBatch
    }
}

/// Cuts the entry that begins with this head off the front of a report. Answers its tail, and what is after it.
///
/// # Errors
///
/// [`CutFault::BrokenOff`] if the entry isn't whole, or the line after it isn't; [`CutFault::OtherBatch`] if the report
/// begins otherwise.
pub(crate) fn cut_front<'a>(
    report: &'a [u8],
    head: &[u8],
    next: &[u8],
) -> Result<(&'a [u8], &'a [u8]), CutFault>
    ensures front { (n : ℕ) (tail next_head more : List ℕ) → IsTail tail next_head → next.now ≡ 10 ∷ next_head
        → report.now ≡ take n (head.now ++ (tail ++ (next_head ++ more))) → MatchResult result
        (λ r. (r.0.now ≡ tail) × ((m : ℕ) × (r.1.now ≡ take m (next_head ++ more))))
        (λ fault. fault ≡ BrokenOff) }
    ensures whole { (tail next_head more : List ℕ) → IsTail tail next_head → next.now ≡ 10 ∷ next_head
        → HasFeed (next_head ++ more) → report.now ≡ head.now ++ (tail ++ (next_head ++ more)) → MatchResult result
        (λ r. (r.0.now ≡ tail) × (r.1.now ≡ next_head ++ more))
        (λ _. ⊥) }
    ensures answer { (next_head : List ℕ) → next.now ≡ 10 ∷ next_head → MatchResult result
        (λ _. HasEntry head.now next_head report.now)
        (λ fault. IsFaultOf head.now next_head report.now fault) }
{
    match after(report, head) {
        Some(rest) => cut_tail(rest, next),
        None => Err(head_fault(report, head)),
    }
}
