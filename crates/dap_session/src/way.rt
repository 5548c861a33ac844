//! Ways over the states of a run.

ghost use Rattle.std.specs.Prelude.{IfOk};
ghost use Rattle.dap_session.specs.Ways.{HasGone};

use job_history::{Found, Goal, History};
use std::alloc::{AllocError, Global};

/// A way over the states of a run.
#[derive(Clone, Copy)]
pub(crate) enum Way<'a> {
    /// On by a number of states.
    Forward(u64),
    /// Back by a number of states.
    Back(u64),
    /// On to a state that is sought, by a number of states at most.
    Next(&'a Goal<'a>, u64),
    /// Back to a state that is sought.
    Before(&'a Goal<'a>),
}

/// A run that has gone a way.
pub(crate) fn gone(
    history: History<Global>,
    way: Way<'_>,
) -> Result<(History<Global>, Found), AllocError>
    ensures { IfOk result (λ gone. HasGone way.entry history gone.0 gone.1) }
{
    match way {
        Way::Forward(count) => Ok((history.forward(count)?, Found::Here)),
        Way::Back(count) => Ok((history.back(count)?, Found::Here)),
        Way::Next(goal, most) => history.find_next(goal, most),
        Way::Before(goal) => history.find_before(goal),
    }
}
