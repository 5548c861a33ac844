//! Prints a table of texts with what each gives.
//!
//! Each line of standard input is a case: a word that says what is tried, and a text with escapes. It is
//! printed as it is, and after it ` = ` and the answer: what was read, or the fault with its line.
//! Blank lines and those that begin with `#` are printed alone.
//!
//! | Word | Text | Answer |
//! |---|---|---|
//! | `code` | code | its functions, line by line |
//! | `equal` | code, `\|`, code | whether they are read as equal programs |
//! | `position` | a name, `\|`, code | the place of the first function of this name |
//! | `signatures` | signatures | names and kinds |
//! | `get` | a name, `\|`, signatures | its kinds |
//! | `kinds` | signatures, `\|`, code | whether the code is well kinded, and the kinds of what its `MAIN` leaves |
//! | `same` | signatures, `\|`, signatures, `\|`, code | whether the code is verified alike by both |
//! | `find` | code | the signatures that are found for it, or why there are none |
//! | `within` | a number, `\|`, code | the same, with stacks of at most that many entries |
//! | `shown` | bytes | how they are shown on one line |
//! | `lines` | a text of lines | how a terminal is to show it, or `as it is` |
//!
//! Each code and each text of signatures is read at once, and in pieces of 1 and of 7 bytes: if these
//! give something else, the answer is `otherwise in pieces`. The code of `find` and `within` is read once.
//!
//! The first line of a code is line 5, but that of the code of `find` and `within` is line 1, and that of signatures
//! is line 3. Of a long text only the number of its functions or signatures is printed.
#![tactic(auto)]

mod case;
mod escape;
mod fault;
mod pieces;
mod show;

use case::answer;
use std::io;

/// Prints a line of the table, and after it the answer.
fn show_line(rt: &HostRuntime, line: &str) -> io::Result<()> {
    if line.is_empty() || line.starts_with('#') {
        return println!(rt; "{line}");
    }
    match answer(rt.alloc(), line) {
        Ok(value) => println!(rt; "{line} = {value}"),
        Err(fault) => println!(rt; "{line} = {fault}"),
    }
}

fn main(rt: HostRuntime) -> io::Result<()> {
    for line in rt.lines(rt.alloc()) {
        show_line(&rt, line?.as_str())?;
    }
    Ok(())
}
