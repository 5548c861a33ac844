//! Why something of a state can't be shown.

/// Why something of a state can't be shown.
#[derive(Clone, Copy, PartialEq, Eq, Debug, Drop)]
pub enum Fault {
    /// No call has this id.
    NoFrame,
    /// There is nothing of this reference.
    NoReference,
    /// The stack has no entry at this depth.
    NoEntry,
    /// The place is after the end of the entry.
    NoPlace,
    /// The expression has another form.
    NotUnderstood,
    /// The state isn't the last one before an end by a fault or a limit.
    NoException,
}

impl Fault {
    /// What is wrong, as a sentence without a full stop.
    pub fn why(self) -> &'static str {
        match self {
            Fault::NoFrame => "no call has this id at this state of the run",
            Fault::NoReference =>
                "there is nothing of this variablesReference at this state of the run",
            Fault::NoEntry => "the stack has no entry at this depth",
            Fault::NoPlace => "this place is after the end of the entry",
            Fault::NotUnderstood => concat!(
                "an expression is D, D:A or D:A-B: the depth of an entry, 0 at the top, and places of its values; ",
                "in the console also at N, the number of a state"
            ),
            Fault::NoException =>
                "the run isn't at the last state before an end by a fault or a limit",
        }
    }
}
