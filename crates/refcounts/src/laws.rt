//! Laws of memories of counted blocks. Each function does nothing, and its contract is the law.

ghost use Rattle.refcounts.specs.Laws.{MakingChangesOnlyOwn, SharingChangesOnlyOwn, ReleasingChangesOnlyOwn};
ghost use Rattle.refcounts.specs.Laws.{SharesAreCounted, ReleasesAreCounted, ReleasesKeepBlocks};
ghost use Rattle.refcounts.specs.Laws.{ReleasesOnlyFree, ReleaseStaysTidy};

/// A block that an owner makes changes no other owner's blocks.
pub fn making_changes_only_own()
    ensures { MakingChangesOnlyOwn }
{}

/// Blocks that an owner shares, one by one, change no other owner's blocks.
pub fn sharing_changes_only_own()
    ensures { SharingChangesOnlyOwn }
{}

/// Blocks that an owner releases, one by one, change no other owner's blocks.
pub fn releasing_changes_only_own()
    ensures { ReleasingChangesOnlyOwn }
{}

/// Each block that is shared has one reference more for each time that it is listed.
#[tactic(auto, using(crate::proofs::Puts::shares_counted))]
pub fn shares_are_counted()
    ensures { SharesAreCounted }
{}

/// Each block that is released has one reference less for each time that it is listed.
#[tactic(auto, using(crate::proofs::Puts::releases_counted))]
pub fn releases_are_counted()
    ensures { ReleasesAreCounted }
{}

/// A block that is released less often than references name it keeps its owner and its words.
#[tactic(auto, using(crate::proofs::Puts::releases_keep))]
pub fn releases_keep_blocks()
    ensures { ReleasesKeepBlocks }
{}

/// Blocks that are released leave no more words in use, and no more blocks.
#[tactic(auto, using(crate::proofs::Freed::releases_free))]
pub fn releases_only_free()
    ensures { ReleasesOnlyFree }
{}

/// A number that no reference names has no block after a release either.
#[tactic(auto, using(crate::proofs::Puts::tidy_released))]
pub fn release_stays_tidy()
    ensures { ReleaseStaysTidy }
{}
