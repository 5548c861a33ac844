use crate::fault::{DataFault, MemoryFault};

/// How a job ended, over the type of the list of its results.
#[derive(PartialEq, Eq, Debug, Drop)]
pub enum Outcome<R> {
    /// `MAIN` returned with these results.
    Returned(R),
    /// An instruction has no results at its operands: why, and the line of its first word.
    Fault(DataFault, u64),
    /// An instruction would have passed a limit: which, and the line of its first word.
    Memory(MemoryFault, u64),
    /// The budget of instructions was spent.
    Budget,
}
