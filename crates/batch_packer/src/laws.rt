//! Laws of the definitions that the contracts cite. Each is the contract of a function that does nothing.

ghost use Rattle.batch_packer.specs.Laws.{JoinedJobs};

/// If each file is exactly one job and the sizes fit, the batch of the files is these jobs in their order. Each job is
/// as in its own file, with its lines moved by the lines before that file.
pub fn joined_jobs()
    ensures { JoinedJobs }
{}
