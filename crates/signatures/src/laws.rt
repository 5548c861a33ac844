//! Laws of the definitions that the contracts cite: each is the contract of a function.

ghost use Rattle.signatures.specs.First.{EveryTextIsRead, OneReading};
ghost use Rattle.signatures.specs.Spelling.{GoodLinesHaveGoodBytes};

/// Whatever the text, its reading is what its lines say, or else its first fault.
#[tactic(auto, using(crate::proofs::Readings::every_text_is_read))]
pub fn every_text_is_read()
    ensures { EveryTextIsRead }
{}

/// A text has one reading: it doesn't say two lists of signatures, has no second first fault, and
/// doesn't say signatures if it has a fault.
#[tactic(auto, using(crate::proofs::Readings::one_reading))]
pub fn one_reading()
    ensures { OneReading }
{}

/// A line, which holds no LF, has no bytes but blank, tab, CR and those from 33 to 126, and no brace,
/// if it says a signature.
#[tactic(auto, using(crate::proofs::Bytes::good_lines_have_good_bytes))]
pub fn good_lines_have_good_bytes()
    ensures { GoodLinesHaveGoodBytes }
{}
