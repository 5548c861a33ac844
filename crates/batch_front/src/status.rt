/// The status of a batch.
#[derive(Clone, Copy, PartialEq, Eq, Debug)]
pub enum Status {
    /// Every job returned, or there was none.
    AllReturned,
    /// Some job was refused or ended otherwise.
    SomeNot,
    /// The batch was refused as a whole, and no job ran.
    BatchRefused,
}
