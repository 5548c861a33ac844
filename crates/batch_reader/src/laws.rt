//! Laws of the definitions that the contracts cite. Each is the contract of a function that does nothing.

ghost use Rattle.batch_reader.specs.Laws.{OneBatch, OneEntry};

/// Whatever the bytes and the region, the batch has one answer: one refusal, or one list of jobs with one
/// fate each.
#[tactic(auto, using(crate::proofs::OneBatch::one_batch))]
pub fn one_batch()
    ensures { OneBatch }
{}

/// Whatever else a batch holds, the text of a job has one entry over a region.
pub fn one_entry()
    ensures { OneEntry }
{}
