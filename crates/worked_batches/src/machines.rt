//! Calls on machines, with what each answers.
//!
//! Each line is a call, which is printed as it is, then ` = ` and the answer. Blank lines and those that begin with `#`
//! are printed alone. A line `machine` makes a machine, on which the calls after it are
//! made; jobs, steps and tickets are numbers, tickets from 0 on in the order of their begins.
//!
//! | Line | Call |
//! |---|---|
//! | `machine REGION JOBS` | a machine of these jobs over a region of REGION words |
//! | `another REGION JOBS` | the same; the tickets of the machine before can be handed to this one |
//! | `admit`, `used`, `jobs`, `run_out` | that call; `run_out` on a desk of the region's words |
//! | `begin JOB WORDS`, `step JOB WORDS` | that call on a new desk of WORDS words |
//! | `finish TICKET` | `compute` and `finish` |
//! | `recall JOB`, `collect JOB`, `status JOB`, `outcome JOB`, `executed JOB`, `peak JOB`, `passed JOB` | that call |
//! | `replay EVENTS` | that call; an event is `a` (admit), or `b` (begin), `f` (finish), `r` (recall) or `c` (collect)
//! with the number of a job |
//! | `list` | whether `holds` is true of the machine's own `list` |
//! | `holds JOBS` | whether `holds` is true of these jobs |
//!
//! `JOBS` are `CODE BUDGET WORDS ..`: a code, the budget of each job, and the words of each. The code is `nothing`,
//! which is `RET` alone, `seven` and `eight`, which leave `INT (7)` and `INT (8)`, `divide`, which divides `INT (7)` by
//! `INT (0)`, or `spread`, which distributes `INT (7)` over a segment of 4,294,967,295 elements.

mod call;
mod events;
mod fault;
mod jobs;
mod player;

use crate::machines::call::answer;
pub(crate) use player::Player;
use std::io;

/// Prints a line of the table, and after it the answer.
pub(crate) fn show_call(
    rt: &HostRuntime,
    player: &mut Option<Player>,
    line: &str,
) -> io::Result<()> {
    if line.is_empty() || line.starts_with('#') {
        return println!(rt; "{line}");
    }
    match answer(rt.alloc(), player, line) {
        Ok(value) => println!(rt; "{line} = {value}"),
        Err(fault) => println!(rt; "{line} = {fault}"),
    }
}
