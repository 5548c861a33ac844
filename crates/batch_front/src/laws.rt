//! Laws of the definitions that the contracts cite. Each is the contract of a function that does nothing.

ghost use Rattle.batch_front.specs.Laws.{OwnLines, OwnLinesInBatches};

use batch_reader::laws::one_entry;

/// The report's lines on a job are one function of the job's text, of its place, of the region and of the rule:
/// whatever else the batch holds, and however the other jobs end.
///
/// The text of a job is its own lines with their numbers.
pub fn own_lines()
    ensures entries { OwnLines }
    ensures batches { OwnLinesInBatches }
{
    one_entry();
}
