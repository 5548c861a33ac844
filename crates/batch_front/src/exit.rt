//! The numbers that the program exits with.
ghost use Rattle.std.specs.Prelude.{◌≡◌};
ghost use Rattle.batch_front.specs.Exits.{exit_of};

use crate::fault::FrontFault;
use crate::status::Status;

/// The number that the program exits with after a run: 0 if every job returned, 1 if some didn't, 2 if the
/// batch was refused, 3 if the run failed.
pub fn exit_status(outcome: &Result<Status, FrontFault>) -> u8
    ensures { result ≡ exit_of outcome.now }
{
    match outcome {
        Ok(Status::AllReturned) => 0,
        Ok(Status::SomeNot) => 1,
        Ok(Status::BatchRefused) => 2,
        Err(_) => 3,
    }
}
