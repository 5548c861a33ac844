//! The sections of a batch, line by line.

ghost use Rattle.std.specs.Prelude.{◌≡◌};
ghost use Rattle.batch_reader.specs.Headings.{heading_of};
ghost use Rattle.batch_reader.specs.Lines.{batch_words};
ghost use Rattle.batch_reader.specs.Sections.{section_after};

use crate::heading::{Heading, heading_of};

/// The section of a batch to which a line belongs.
#[derive(Clone, Copy, PartialEq, Eq, Debug)]
pub enum Section {
    /// What is between jobs, with the JOB line that ends it.
    Between,
    /// The `SIGNATURES` after a JOB line.
    Headed,
    /// The signature lines of a job, with the `CODE` that ends them.
    Signatures,
    /// The code of a job, with the `END` that ends it.
    Code,
}

impl Section {
    /// The section of the line after this one, which belongs to this section of a batch that isn't refused so far. An
    /// `END` among signatures changes no section: the batch is refused there.
    pub fn after(self, line: &[u8]) -> Section
        ensures { result ≡ section_after self (heading_of (batch_words line.now)) }
    {
        match self {
            Section::Between => match heading_of(line) {
                Heading::Blank | Heading::SecondRule => Section::Between,
                _ => Section::Headed,
            },
            Section::Headed => Section::Signatures,
            Section::Signatures => match heading_of(line) {
                Heading::Code => Section::Code,
                _ => Section::Signatures,
            },
            Section::Code => match heading_of(line) {
                Heading::End => Section::Between,
                _ => Section::Code,
            },
        }
    }
}
