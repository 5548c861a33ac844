ghost use Rattle.std.specs.Prelude.{◌≡◌};
ghost use Rattle.verifier.specs.Faults.{kind_fault_text};

use vcode_base::TextFault;

/// Why a program is not well kinded.
#[derive(Clone, Copy, PartialEq, Eq, Debug)]
pub enum KindFault {
    /// The function's own entries are fewer than the instruction takes.
    MissingOperand,
    /// There are enough entries, but of other kinds.
    WrongKind,
    /// A `CALL` of a name that no `FUNC` has.
    UnknownFunction,
    /// The two parts of an `IF` end with other entries; its line is the `ENDIF`.
    ArmsDiffer,
    /// The entries at `RET` are not exactly the signature's results.
    ResultDiffers,
    /// A function without a signature, at its `FUNC` or at a `CALL` of it.
    NoSignature,
    /// No function `MAIN`; its line is the program's first.
    NoMain,
    /// The signature of `MAIN` has operands; its line is that of the `FUNC`.
    MainTakes,
}

/// Why a program was not verified: there was no memory for it, or it has this fault at this line.
pub type VerifyFault = TextFault<KindFault>;

impl KindFault {
    /// The name that the report prints.
    pub fn text(self) -> &'static str
        ensures { result.now ≡ kind_fault_text self }
    {
        match self {
            KindFault::MissingOperand => "V1 MISSING_OPERAND",
            KindFault::WrongKind => "V2 WRONG_KIND",
            KindFault::UnknownFunction => "V3 UNKNOWN_FUNCTION",
            KindFault::ArmsDiffer => "V4 ARMS_DIFFER",
            KindFault::ResultDiffers => "V5 RESULT_DIFFERS",
            KindFault::NoSignature => "V6 NO_SIGNATURE",
            KindFault::NoMain => "V7 NO_MAIN",
            KindFault::MainTakes => "V8 MAIN_TAKES",
        }
    }
}
