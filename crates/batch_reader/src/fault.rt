//! What refuses a batch, and what refuses one job of it.

ghost use Rattle.std.specs.Prelude.{◌≡◌};
ghost use Rattle.batch_reader.specs.BatchTexts.{batch_fault_text, job_fault_text};

use signatures::SignatureFault;
use vcode_reader::CodeFault;
use verifier::KindFault;

/// Why a batch is refused as a whole.
#[derive(Clone, Copy, PartialEq, Eq, Debug)]
pub enum BatchFault {
    /// A line between jobs that is neither blank nor a good JOB line, or another in the place of
    /// `SIGNATURES`.
    BadJobLine,
    /// A job that the batch ends inside, or whose `END` comes before `CODE`. Its line is the JOB line.
    UnfinishedJob,
    /// One job too many, or one byte.
    TooLarge,
}

/// Why one job is refused.
#[derive(Clone, Copy, PartialEq, Eq, Debug)]
pub enum JobFault {
    /// Its words are more than the region has. Its line is the JOB line.
    WordsPastRegion,
    /// Its signatures have this fault.
    Sig(SignatureFault),
    /// Its code has this fault.
    Read(CodeFault),
    /// Its program has this fault of kinds.
    Kind(KindFault),
}

impl BatchFault {
    /// The name that the report prints.
    pub fn text(self) -> &'static str
        ensures { result.now ≡ batch_fault_text self }
    {
        match self {
            BatchFault::BadJobLine => "B1 BAD_JOB_LINE",
            BatchFault::UnfinishedJob => "B2 UNFINISHED_JOB",
            BatchFault::TooLarge => "B4 TOO_LARGE",
        }
    }
}

impl JobFault {
    /// The name that the report prints.
    pub fn text(self) -> &'static str
        ensures { result.now ≡ job_fault_text self }
    {
        match self {
            JobFault::WordsPastRegion => "B3 WORDS_PAST_REGION",
            JobFault::Sig(fault) => fault.text(),
            JobFault::Read(fault) => fault.text(),
            JobFault::Kind(fault) => fault.text(),
        }
    }
}
