//! Laws of books of reservations. Each function does nothing, and its contract is the law.

ghost use Rattle.reservations.specs.Laws.{NothingIsGrantedAtFirst, HeldIsWithinGranted, GrantedWordsAreThere};
ghost use Rattle.reservations.specs.Laws.{OneGrantChanges, GrantedAddsUp, HeldAddsUp, ClosingGivesBack};

/// In a book that was just made nothing is granted, and nothing is held.
pub fn nothing_is_granted_at_first()
    ensures { NothingIsGrantedAtFirst }
{}

/// What all jobs hold together is at most what is granted to them, and so at most the region.
pub fn held_is_within_granted()
    ensures { HeldIsWithinGranted }
{}

/// A job that keeps within its grant finds the words in the region, whatever the other jobs hold.
pub fn granted_words_are_there()
    ensures { GrantedWordsAreThere }
{}

/// A change of one job's grant leaves every other job's as it was.
pub fn one_grant_changes()
    ensures { OneGrantChanges }
{}

/// The words that are granted to all jobs change by as many as the one grant that changes.
pub fn granted_adds_up()
    ensures { GrantedAddsUp }
{}

/// The words that all jobs hold change by as many as those of the one grant that changes.
pub fn held_adds_up()
    ensures { HeldAddsUp }
{}

/// A grant that is closed gives back all its words.
pub fn closing_gives_back()
    ensures { ClosingGivesBack }
{}
