//! Laws over the definitions alone: each is the contract of a function that does nothing.

ghost use Rattle.vcode_base.specs.Laws.{ResultsHaveNeededLengths, EachElementAtItsIndex};
ghost use Rattle.vcode_base.specs.DigitLaws.{FewDigitsFit};
ghost use Rattle.vcode_base.specs.LineLaws.{LineFeedsAreFew};

/// If an instruction has no fault, its results have the lengths that `need` gives.
#[tactic(auto, using(crate::proofs::Needs::results_have_needed_lengths))]
pub fn results_have_needed_lengths()
    ensures { ResultsHaveNeededLengths }
{}

/// If no index of a segment comes twice and none is outside it, `PERMUTE` puts the element at
/// place `p` of the segment to the place that the index at `p` names.
#[tactic(auto, using(crate::proofs::Permuted::each_element_at_its_index))]
pub fn each_element_at_its_index()
    ensures { EachElementAtItsIndex }
{}

/// A text has no more LFs than bytes.
#[tactic(auto, using(crate::proofs::LineFeeds::line_feeds_are_few))]
pub fn line_feeds_are_few()
    ensures { LineFeedsAreFew }
{}

/// The value of fewer than 20 decimal digits fits into 64 bits.
#[tactic(auto, using(crate::proofs::Digits::few_digits_fit))]
pub fn few_digits_fit()
    ensures { FewDigitsFit }
{}
