//! Laws of the definitions that the contracts of `report_splitter` and `batch_front` cite: what is cut off a report on
//! a batch is the report on the job's own file. Each is the contract of a function that does nothing.
#![tactic(auto)]

ghost use Rattle.report_laws.specs.Laws.{CodeMoves, FilesAreCut, KindsMove, OwnReportsAreCut, PackedReportsAreCut};
ghost use Rattle.report_laws.specs.Laws.{ReportsAreCut, RunsMove, SignaturesMove};

use batch_packer::laws::joined_jobs;
use signatures::laws::{every_text_is_read, one_reading};

/// The report on a batch that isn't refused is a report as `report_splitter` cuts it: its entries are those of the jobs
/// in their order, and its last line counts them and those that are refused.
///
/// The names have no blank and no LF, and the lines of the ends have at most 64 bits.
pub fn reports_are_cut()
    ensures { ReportsAreCut }
{}

/// If a job ends in a batch as it ends in its own file, but n lines further on, the report that is cut for a file
/// before which there are n lines is the report on that file, byte for byte.
pub fn own_reports_are_cut()
    ensures { OwnReportsAreCut }
{}

/// Code whose first line is moved by n is the program with its lines moved by n, or has the same first fault, n lines
/// further on.
pub fn code_moves()
    ensures { CodeMoves }
{}

/// A program whose lines are moved by n has the same first kind fault, n lines further on, or none as before.
pub fn kinds_move()
    ensures { KindsMove }
{}

/// A job whose program's lines are moved by n ends as before, n lines further on, with the same counts.
pub fn runs_move()
    ensures { RunsMove }
{}

/// A job whose lines are moved by n is refused for its words or its signatures as before, n lines further on; or its
/// signatures are the same.
pub fn signatures_move()
    ensures { SignaturesMove }
{
    every_text_is_read();
    one_reading();
}

/// If the lines of a job are moved by n in a batch, what is cut of its entry for a file before which there are n lines
/// is the report on a batch of the job alone, byte for byte. The lines of the job alone count from 1.
pub fn files_are_cut()
    ensures { FilesAreCut }
{
    every_text_is_read();
    one_reading();
}

/// If each file is exactly one job and the sizes fit, what is cut for each file off the report on the batch of the
/// files is the report on the file alone, byte for byte.
pub fn packed_reports_are_cut()
    ensures { PackedReportsAreCut }
{
    every_text_is_read();
    one_reading();
    joined_jobs();
}
