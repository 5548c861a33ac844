//! Laws of free words. Each function does nothing, and its contract is the law.

ghost use Rattle.holes.specs.Laws.{OneHoleHasAll, TakingLowersCount, GivingRaisesCount};
ghost use Rattle.holes.specs.Laws.{OneHoleMoreThanRanges, HolesAreCounted, WidestIsGreatest, NoMoreHolesThanWords};

/// If there is at most one hole, it has all free words, so that every length up to their number fits.
#[tactic(auto, using(crate::proofs::Ranges::widest_alone))]
pub fn one_hole_has_all()
    ensures { OneHoleHasAll }
{}

/// Taking free words lowers the number of free words by their number.
#[tactic(auto, using(crate::proofs::Ranges::free_count_taken))]
pub fn taking_lowers_count()
    ensures { TakingLowersCount }
{}

/// Giving words back raises the number of free words by their number.
#[tactic(auto, using(crate::proofs::Ranges::free_count_given))]
pub fn giving_raises_count()
    ensures { GivingRaisesCount }
{}

/// If all words but those of some ranges are free, there is at most one hole more than there are ranges.
#[tactic(auto, using(crate::proofs::Ranges::few_beside))]
pub fn one_hole_more_than_ranges()
    ensures { OneHoleMoreThanRanges }
{}

/// The number of holes is that of the greatest ranges of free words.
#[tactic(auto, using(crate::proofs::Listed::holes_counted))]
pub fn holes_are_counted()
    ensures { HolesAreCounted }
{}

/// The widest hole is as long as the longest of the greatest ranges of free words.
#[tactic(auto, using(crate::proofs::Listed::widest_greatest))]
pub fn widest_is_greatest()
    ensures { WidestIsGreatest }
{}

/// There are no more holes than free words.
#[tactic(auto, using(crate::proofs::Ranges::few_holes))]
pub fn no_more_holes_than_words()
    ensures { NoMoreHolesThanWords }
{}
