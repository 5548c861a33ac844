ghost use Rattle.std.specs.Prelude.{◌≡◌};
ghost use Rattle.vcode_reader.specs.Refusals.{refusal_text};

use vcode_base::TextFault;

/// What is wrong with a text.
#[derive(Clone, Copy, PartialEq, Eq, Debug)]
pub enum CodeFault {
    /// A word that isn't allowed at its place, or a byte that no text has.
    BadWord,
    /// A word that is no number at the place of a number.
    BadNumber,
    /// The text ends inside something.
    Unfinished,
    /// An instruction or a part of a function that has no place here.
    Misplaced,
    /// A name that an earlier function has.
    FunctionTwice,
    /// More than a limit allows.
    TooLarge,
}

/// Why a text gives no program: there was no memory for it, or it has this fault at this line.
pub type ReadFault = TextFault<CodeFault>;

impl CodeFault {
    /// The name that the report prints.
    pub fn text(self) -> &'static str
        ensures { result.now ≡ refusal_text self }
    {
        match self {
            CodeFault::BadWord => "S1 BAD_WORD",
            CodeFault::BadNumber => "S2 BAD_NUMBER",
            CodeFault::Unfinished => "S3 UNFINISHED",
            CodeFault::Misplaced => "S4 MISPLACED",
            CodeFault::FunctionTwice => "S5 FUNCTION_TWICE",
            CodeFault::TooLarge => "S6 TOO_LARGE",
        }
    }
}
