//! Batches, and a machine of one.

use crate::machines::{REGION, machine};
use job_machine::Machine;
use std::alloc::Global;
use std::test::Fail;
use test_support::TWELVE_JOBS;

/// The instructions that the two jobs of `test_support` execute.
pub const EXECUTED_BY_TWO: [u64; 2] = [2, 4];

/// Two jobs that divide a vector of 20,000 words by itself four times.
pub const DIVISIONS: &[u8] = b"JOB one 80000 16 4 100\nSIGNATURES\nMAIN () -> ()\nCODE\nFUNC MAIN\n\
    CONST INT 7\nCONST INT 20000\nMAKE_SEGDES\nDIST INT\n\
    COPY 1 0\nCOPY 1 0\n/ INT\nPOP 1 0\nCOPY 1 0\nCOPY 1 0\n/ INT\nPOP 1 0\n\
    COPY 1 0\nCOPY 1 0\n/ INT\nPOP 1 0\nCOPY 1 0\nCOPY 1 0\n/ INT\nPOP 1 0\n\
    POP 1 0\nRET\nEND\n\
    JOB two 80000 16 4 100\nSIGNATURES\nMAIN () -> ()\nCODE\nFUNC MAIN\n\
    CONST INT 7\nCONST INT 20000\nMAKE_SEGDES\nDIST INT\n\
    COPY 1 0\nCOPY 1 0\n/ INT\nPOP 1 0\nCOPY 1 0\nCOPY 1 0\n/ INT\nPOP 1 0\n\
    COPY 1 0\nCOPY 1 0\n/ INT\nPOP 1 0\nCOPY 1 0\nCOPY 1 0\n/ INT\nPOP 1 0\n\
    POP 1 0\nRET\nEND\n";

/// The words of both together.
pub const DIVISION_WORDS: usize = 160_000;

/// The instructions that each executes: four to make the vector, four for each division, and two to end.
pub const EXECUTED_BY_DIVISIONS: [u64; 2] = [22, 22];

/// A machine of the twelve jobs after this line.
///
/// # Errors
///
/// An error if memory was refused.
pub(crate) fn machine_of_twelve(alloc: Global, rule_line: &str) -> Result<Machine<Global>, Fail> {
    let batch = format!(in alloc; "{rule_line}{TWELVE_JOBS}")?;
    machine(alloc, batch.as_bytes(), REGION)
}

/// The line by which jobs run by the second rule.
pub const SECOND_RULE: &str = "BATCH 2\n";

/// The instructions that the twelve execute.
pub const EXECUTED_BY_TWELVE: [u64; 12] = [5, 2, 1, 0, 4, 2, 5, 2, 2, 5, 4, 3];

/// The same by the second rule, which two of them return by.
pub const EXECUTED_BY_THE_SECOND_RULE: [u64; 12] = [5, 5, 1, 0, 4, 4, 5, 2, 2, 5, 4, 3];
