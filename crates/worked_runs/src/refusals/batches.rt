//! Batches, and their reports.

/// One job that returns.
pub const ONE_JOB: &[u8] =
    b"JOB t 9 16 4 100\nSIGNATURES\nMAIN () -> (INT)\nCODE\nFUNC MAIN\nCONST INT 7\nRET\nEND\n";

pub const REPORT_ON_ONE: &[u8] =
    b"JOB 1 t RETURNED\nINT (7)\nUSED 2 instructions 1 words\nEND 1 jobs 0 refused\n";
