//! The command line, which has no arguments.

use clap::{ArgMatches, Command};
use program_words::{Arguments, Asking, Program, WordsFault};
use std::alloc::{AllocError, Global};

/// The name of the program in its texts, by whatever name it was called.
pub const NAME: &str = "vjobs-dap";

/// The program whose words these are.
pub struct VjobsDap;

impl Program for VjobsDap {
    const NAME: &'static str = NAME;

    fn described<'a>(command: Command<'a>) -> Command<'a> {
        command.about(concat!(
            "Debugs a job of a VCODE batch, forward and back, for an editor that speaks the Debug Adapter ",
            "Protocol on standard input and output"
        ))
    }

    fn add_arguments<'a>(_arguments: &mut Arguments<'a>) -> Result<(), AllocError> {
        Ok(())
    }
}

impl Asking for VjobsDap {
    /// A session, of which nothing more can be asked.
    type Asked = ();

    fn asked_of(_alloc: Global, _matches: &ArgMatches<'_>) -> Result<(), WordsFault> {
        Ok(())
    }
}
