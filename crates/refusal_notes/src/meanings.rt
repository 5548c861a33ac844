//! What refusals mean.

use batch_reader::{BatchFault, JobFault};
use signatures::SignatureFault;
use vcode_reader::CodeFault;
use verifier::KindFault;

/// What is wrong with a batch that is refused as a whole.
pub fn batch_meaning(fault: BatchFault) -> &'static str {
    match fault {
        BatchFault::BadJobLine =>
            "neither a good JOB line nor a blank one, or no SIGNATURES after a JOB line",
        BatchFault::UnfinishedJob => "this job has no END after its CODE",
        BatchFault::TooLarge => "more than 64 jobs, or more than 16777216 bytes",
    }
}

/// What is wrong with a job that is refused.
pub fn job_meaning(fault: JobFault) -> &'static str {
    match fault {
        JobFault::WordsPastRegion => "the job asks for more words than the region has",
        JobFault::Sig(fault) => signature_meaning(fault),
        JobFault::Read(fault) => code_meaning(fault),
        JobFault::Kind(fault) => kind_meaning(fault),
    }
}

/// What is wrong with a signature.
fn signature_meaning(fault: SignatureFault) -> &'static str {
    match fault {
        SignatureFault::BadLine => "neither blank nor a signature: NAME (kinds) -> (kinds)",
        SignatureFault::NameTwice => "an earlier line has this name",
        SignatureFault::TooLarge =>
            "the name, a list of kinds or the number of signatures is too large",
    }
}

/// What is wrong with the text of code.
fn code_meaning(fault: CodeFault) -> &'static str {
    match fault {
        CodeFault::BadWord => "a word that may not come here, or a byte that no word has",
        CodeFault::BadNumber => "no number, or none in its range, where one must come",
        CodeFault::Unfinished => "what begins here isn't ended",
        CodeFault::Misplaced => "this may not come here",
        CodeFault::FunctionTwice => "an earlier function has this name",
        CodeFault::TooLarge =>
            "a name, a constant, a count, or the number of functions or open IFs is too large",
    }
}

/// What is wrong with the kinds of code.
fn kind_meaning(fault: KindFault) -> &'static str {
    match fault {
        KindFault::MissingOperand => "the function has fewer entries on the stack than this takes",
        KindFault::WrongKind =>
            "the entries at the top of the stack are of other kinds than this takes",
        KindFault::UnknownFunction => "no function has this name",
        KindFault::ArmsDiffer => "the parts of this IF leave different kinds",
        KindFault::ResultDiffers => "the entries aren't exactly what the signature gives",
        KindFault::NoSignature => "this function has no signature",
        KindFault::NoMain => "no function is called MAIN",
        KindFault::MainTakes => "MAIN takes operands, by its signature",
    }
}
