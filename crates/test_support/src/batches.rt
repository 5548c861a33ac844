//! Batches that tests of several crates run, and a report.
//!
//! Reports were worked out by hand from docs/FORMATS.md.

/// Two jobs that return, after 2 and 4 instructions, and whose words fit a region of 64 words together.
pub const TWO_JOBS: &[u8] =
    b"JOB one 8 16 4 100\nSIGNATURES\nMAIN () -> (INT)\nCODE\nFUNC MAIN\nCONST INT 7\n\
    RET\nEND\n\
    JOB two 8 16 4 100\nSIGNATURES\nMAIN () -> (INT)\nCODE\nFUNC MAIN\nCONST INT 1\nCONST INT 2\n+ INT\nRET\nEND\n";

/// Twelve jobs, which end in many ways over a region of 64 words.
pub const TWELVE_JOBS: &str = "JOB t 5 16 4 100\nSIGNATURES\nMAIN () -> (INT)\nCODE\nFUNC MAIN\n\
    CONST INT (1 2 3)\nCONST INT 3\nMAKE_SEGDES\n+_REDUCE INT\nRET\nEND\n\
    JOB t 4 16 4 100\nSIGNATURES\nMAIN () -> (INT)\nCODE\nFUNC MAIN\nCONST INT (1 2 3)\nCONST INT 3\n\
    MAKE_SEGDES\n+_REDUCE INT\nRET\nEND\n\
    JOB t 0 16 4 1\nSIGNATURES\nMAIN () -> ()\nCODE\nFUNC MAIN\nRET\nEND\n\
    JOB t 0 16 4 0\nSIGNATURES\nMAIN () -> ()\nCODE\nFUNC MAIN\nRET\nEND\n\
    JOB t 3 16 4 100\nSIGNATURES\nMAIN () -> (INT INT INT)\nCODE\nFUNC MAIN\nCONST INT (1 2 3)\nCOPY 1 0\n\
    COPY 1 0\nRET\nEND\n\
    JOB t 3 16 4 100\nSIGNATURES\nMAIN () -> (INT)\nCODE\nFUNC MAIN\nCONST INT (1 2 3)\nCOPY 1 0\n+ INT\nRET\nEND\n\
    JOB t 16 16 4 100\nSIGNATURES\nMAIN () -> (INT INT INT)\nCODE\nFUNC MAIN\nCONST INT 1\nCONST INT 2\n\
    CONST INT 3\nCPOP 2 1\nRET\nEND\n\
    JOB t 16 16 3 10\nSIGNATURES\nMAIN () -> ()\nCODE\nFUNC MAIN\nCALL MAIN\nRET\nEND\n\
    JOB t 16 16 4 100\nSIGNATURES\nMAIN () -> (INT)\nCODE\nFUNC MAIN\nCONST INT 1\nCONST INT 0\n/ INT\nRET\nEND\n\
    JOB t 13 16 4 100\nSIGNATURES\nMAIN () -> (INT)\nCODE\nFUNC MAIN\nCONST INT (1 2 3 4 5)\nCONST INT (2 0 3)\n\
    MAKE_SEGDES\n+_SCAN INT\nRET\nEND\n\
    JOB t 16 16 4 100\nSIGNATURES\nMAIN () -> (INT)\nCODE\nFUNC MAIN\nCONST INT (10 20)\nCONST INT (0 0)\n\
    CONST INT 2\nMAKE_SEGDES\nPERMUTE INT\nRET\nEND\n\
    JOB t 64 16 4 100\nSIGNATURES\nMAIN () -> (INT)\nCODE\nFUNC MAIN\nCONST INT 7\nCONST INT 16777216\n\
    MAKE_SEGDES\nDIST INT\nRET\nEND\n";

/// The report on the twelve jobs.
pub const REPORT_ON_TWELVE: &[u8] = b"JOB 1 t RETURNED\nINT (6)\nUSED 5 instructions 5 words\n\
    JOB 2 t MEMORY line 19 M1 WORDS\nUSED 2 instructions 4 words\n\
    JOB 3 t RETURNED\nUSED 1 instructions 0 words\nJOB 4 t BUDGET\nUSED 0 instructions 0 words\n\
    JOB 5 t RETURNED\nINT (1 2 3)\nINT (1 2 3)\nINT (1 2 3)\nUSED 4 instructions 3 words\n\
    JOB 6 t MEMORY line 54 M1 WORDS\nUSED 2 instructions 3 words\n\
    JOB 7 t RETURNED\nINT (3)\nINT (1)\nINT (2)\nUSED 5 instructions 3 words\n\
    JOB 8 t MEMORY line 73 M3 CALLS\nUSED 2 instructions 0 words\n\
    JOB 9 t FAULT line 83 F4 ZERO_DIVISOR\nUSED 2 instructions 2 words\n\
    JOB 10 t RETURNED\nINT (0 1 0 3 7)\nUSED 5 instructions 13 words\n\
    JOB 11 t FAULT line 106 F7 INDEX_TWICE\nUSED 4 instructions 6 words\n\
    JOB 12 t MEMORY line 117 M1 WORDS\nUSED 3 instructions 3 words\nEND 12 jobs 0 refused\n";
