//! What a command line asks for.

ghost use Rattle.std.specs.Prelude.{IfOk};
ghost use Rattle.program_words.specs.Faults.{IsShownHelp};

use crate::{Program, WordsFault, help_of, matches_of, words_of};
use clap::ArgMatches;
use std::alloc::{AllocGlobal, Global};
use std::rt::Env;

/// A program whose command line [`line_of`] reads.
pub trait Asking: Program {
    /// What it can be asked for.
    type Asked: Drop;

    /// What words ask for of which clap has matched this.
    ///
    /// # Errors
    ///
    /// [`WordsFault::Refused`] if the program refuses them, with the text that says why; [`WordsFault::Memory`] if
    /// memory was refused.
    fn asked_of(alloc: Global, matches: &ArgMatches<'_>) -> Result<Self::Asked, WordsFault>;
}

/// What a command line asks for, over what its program can be asked for.
#[derive(Drop)]
pub enum Line<T> {
    /// What the program is to do.
    Run(T),
    /// The text of help or of the version, to be printed.
    Help(String),
}

/// What the words that a program was called with ask for.
///
/// # Errors
///
/// [`WordsFault::Refused`] if an argument is no UTF-8, or if clap or the program refuses the words, with the text that
/// says why; [`WordsFault::Memory`] if memory was refused.
pub fn line_of<P: Asking, R: Env + AllocGlobal>(rt: &R) -> Result<Line<P::Asked>, WordsFault>
    ensures { IfOk result IsShownHelp }
{
    let words = words_of::<P, R>(rt)?;
    read_line::<P>(rt.alloc(), &words)
}

/// What the words of a command line ask for, the program's name first.
fn read_line<P: Asking>(alloc: Global, words: &[String]) -> Result<Line<P::Asked>, WordsFault>
    ensures { IfOk result IsShownHelp }
{
    match matches_of::<P>(alloc, words) {
        Ok(matches) => Ok(Line::Run(P::asked_of(alloc, &matches)?)),
        Err(error) => Ok(Line::Help(help_of::<P>(alloc, &error, words)?)),
    }
}
