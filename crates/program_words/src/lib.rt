//! The words of a program's command line, and what is printed if they aren't a line that the program runs.
//!
//! [`line_of`] lets clap read a program's words. clap quotes them in its texts as they are, and a stranger may have
//! chosen them, for instance as names of files. So a program prints no text of clap itself. If clap gives no matches,
//! [`help_of`] gives the text that is to be printed: it lets clap read the words once more, each as it may be shown.
#![tactic(auto)]

ghost use Rattle.std.specs.Prelude.{◌≡◌, ◌⊎◌, IfOk, IfErr, Err, MatchResult, string_bytes};
ghost use Rattle.clap.specs.Values.{kind_of};
ghost use Rattle.clap.specs.declared.error.kind.ErrorKind.TheVariants.{OutOfMemory, DisplayHelp, DisplayVersion};
ghost use Rattle.shown_text.specs.Lines.{HasShownLines};
ghost use Rattle.program_words.specs.declared.fault.WordsFault.TheVariants.{Memory};
ghost use Rattle.program_words.specs.Faults.{SaysShownLines, exit_of};

mod arguments;
mod fault;
mod line;

pub use arguments::Arguments;
use clap::error::ErrorKind;
use clap::{Arg, ArgMatches, Command};
pub use fault::WordsFault;
pub use line::{Asking, Line, line_of};
use shown_text::{ArgumentFault, arguments, shown, shown_lines};
use std::alloc::{AllocError, AllocGlobal, Global};
use std::io::{Eprint, Print};
use std::rt::Env;

/// The version of the programs.
const VERSION: &str = "0.1.0";

/// A program whose words clap reads.
pub trait Program {
    /// Its name in its texts, by whatever name it was called.
    const NAME: &'static str;

    /// Its command, with what help says of the program.
    fn described<'a>(command: Command<'a>) -> Command<'a>;

    /// Adds the arguments that it takes, in the order in which help has them.
    ///
    /// # Errors
    ///
    /// [`AllocError`] if memory was refused.
    fn add_arguments<'a>(arguments: &mut Arguments<'a>) -> Result<(), AllocError>;
}

/// The arguments that a program takes.
fn arguments_of<'a, P: Program>(alloc: Global) -> Result<Vec<Arg<'a>>, AllocError> {
    let mut arguments = Arguments::new(alloc);
    P::add_arguments(&mut arguments)?;
    Ok(arguments.into_list())
}

/// The command of this name, in the version that all programs have, that takes these arguments.
fn command_with<'a>(
    alloc: Global,
    name: &'a str,
    arguments: Vec<Arg<'a>>,
) -> Result<Command<'a>, clap::Error> {
    let command = Command::new(alloc, name).args(arguments)?;
    Ok(command.version(VERSION).bin_name(name)?)
}

/// The command by which clap reads the words of a program.
fn command_of<'a, P: Program>(alloc: Global) -> Result<Command<'a>, clap::Error> {
    let arguments = arguments_of::<P>(alloc)?;
    Ok(P::described(command_with(alloc, P::NAME, arguments)?))
}

/// What clap matches of words.
///
/// # Errors
///
/// The error that [`help_of`] takes.
pub fn matches_of<'a, P: Program>(
    alloc: Global,
    words: &'a [String],
) -> Result<ArgMatches<'a>, clap::Error> {
    command_of::<P>(alloc)?.try_get_matches_from(words)
}

/// The text of an error of clap, as it may be printed.
fn text_of(alloc: Global, error: &clap::Error) -> Result<String, AllocError>
    ensures { IfOk result (λ text. HasShownLines (string_bytes text)) }
{
    let text = error.to_string(alloc)?;
    shown_lines(alloc, text)
}

/// The refusal of words by this error, as it may be printed.
fn refusal_by(alloc: Global, error: &clap::Error) -> WordsFault
    ensures { SaysShownLines result }
{
    if error.kind() == ErrorKind::OutOfMemory {
        return WordsFault::Memory;
    }
    match text_of(alloc, error) {
        Ok(text) => WordsFault::Refused(text),
        Err(AllocError) => WordsFault::Memory,
    }
}

/// The words as they may be shown.
fn shown_words(alloc: Global, words: &[String]) -> Result<Vec<String>, AllocError> {
    let mut texts = Vec::new(alloc);
    for word in words {
        texts.push(shown(alloc, word.as_bytes())?)?;
    }
    Ok(texts)
}

/// By which error clap refuses words, if it refuses them.
fn refusing_error<P: Program>(alloc: Global, texts: &[String]) -> Option<clap::Error> {
    match matches_of::<P>(alloc, texts) {
        Ok(_matches) => None,
        Err(error) => Some(error),
    }
}

/// The refusal of words that clap refuses by this error.
fn refusal_of<P: Program>(alloc: Global, error: &clap::Error, words: &[String]) -> WordsFault
    ensures { SaysShownLines result }
{
    let Ok(texts) = shown_words(alloc, words) else {
        return WordsFault::Memory;
    };
    match refusing_error::<P>(alloc, &texts) {
        Some(shown) if shown.use_stderr() => refusal_by(alloc, &shown),
        _ => refusal_by(alloc, error),
    }
}

/// The text that is to be printed if clap gives this error in place of matches of words: that of help or of the
/// version, if they ask for it.
///
/// # Errors
///
/// [`WordsFault::Refused`] if clap refuses the words, with the text that says why and quotes them as they are shown;
/// [`WordsFault::Memory`] if memory was refused.
pub fn help_of<P: Program>(
    alloc: Global,
    error: &clap::Error,
    words: &[String],
) -> Result<String, WordsFault>
    ensures shown { MatchResult result (λ text. HasShownLines (string_bytes text)) SaysShownLines }
    ensures help { IfOk result (λ text. (kind_of error.now ≡ DisplayHelp) ⊎ (kind_of error.now ≡ DisplayVersion)) }
    ensures memory { kind_of error.now ≡ OutOfMemory → result ≡ Err Memory }
{
    if error.kind() == ErrorKind::OutOfMemory {
        return Err(WordsFault::Memory);
    }
    if error.use_stderr() {
        return Err(refusal_of::<P>(alloc, error, words));
    }
    Ok(text_of(alloc, error)?)
}

/// The error by which a command refuses a word for this reason.
fn error_of(mut command: Command<'_>, reason: &str) -> Result<clap::Error, AllocError> {
    command.error(ErrorKind::ValueValidation, reason)
}

/// The refusal of an argument that is no text, as clap says it.
fn not_text<P: Program>(alloc: Global, fault: &ArgumentFault) -> Result<WordsFault, clap::Error>
    ensures { IfOk result SaysShownLines }
{
    let reason = format!(in alloc; "{fault}")?;
    let error = error_of(command_of::<P>(alloc)?, reason.as_str())?;
    Ok(refusal_by(alloc, &error))
}

/// The words that a program was called with: its name, and its arguments.
///
/// # Errors
///
/// [`WordsFault::Refused`] if an argument is no UTF-8, with a text that shows the first of these;
/// [`WordsFault::Memory`] if memory was refused.
pub fn words_of<P: Program, R: Env + AllocGlobal>(rt: &R) -> Result<Vec<String>, WordsFault>
    ensures { IfErr result SaysShownLines }
{
    match arguments(rt) {
        Ok(words) => Ok(words),
        Err(ArgumentFault::Memory) => Err(WordsFault::Memory),
        Err(fault) => Err(not_text::<P>(rt.alloc(), &fault).unwrap_or(WordsFault::Memory)),
    }
}

/// Prints on standard error why the program of this name has no line to run. Answers the number that it exits with.
pub fn print_fault<R: Eprint>(rt: &R, program: &str, fault: &WordsFault) -> u8
    ensures { result ≡ exit_of fault.now }
{
    let _ = match fault {
        WordsFault::Refused(text) => eprint!(rt; "{text}"),
        WordsFault::Memory => eprintln!(rt; "{program}: out of memory"),
    };
    fault.exit_status()
}

/// Prints the text of help or of the version on standard output, and on standard error why it can't be written. Answers
/// the number that the program of this name exits with: 0, or 3 if standard output can't be written.
pub fn print_help<R: Print + Eprint>(rt: &R, program: &str, text: &str) -> u8
    ensures { (result ≡ 0) ⊎ (result ≡ 3) }
{
    match print!(rt; "{text}") {
        Ok(()) => 0,
        Err(error) => {
            let _ = eprintln!(rt; "{program}: standard output: {error}");
            3
        }
    }
}
