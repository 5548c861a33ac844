//! What a job, a program and a batch may have at most.

ghost use Rattle.std.specs.Prelude.{◌≤◌};
ghost use Rattle.vcode_base.specs.declared.limits.TheConstants.{MOST_WORDS, MOST_CELLS, MOST_CALLS, MOST_BUDGET};

/// The most words of a region, and of a job.
pub const MOST_WORDS: usize = 1_048_576;

/// The most jobs of a batch.
pub const MOST_JOBS: usize = 64;

/// How often, at most, a job that waits is passed by: how many jobs after it are admitted before it.
pub const MOST_PASSES: u8 = 8;

/// The most entries of a job's stack; it has at least 1.
pub const MOST_CELLS: usize = 4_096;

/// The most calls of a job that are active at once, that of `MAIN` counted; it has at least 1.
pub const MOST_CALLS: usize = 1_024;

/// The most instructions of a job's budget.
pub const MOST_BUDGET: u64 = 1_000_000_000;

/// The most functions of a program, and the most signatures of a text.
pub const MOST_FUNCTIONS: usize = 512;

/// The most kinds in one list of a signature.
pub const MOST_KINDS: usize = 256;

/// The most IFs that are open at a time.
pub const MOST_OPEN_IFS: usize = 64;

/// The most elements of a constant.
pub const MOST_ELEMENTS: usize = 65_536;

/// The greatest count of `COPY`, `POP` and `CPOP`.
pub const MOST_MOVED: u64 = 4_096;

/// The greatest total of a segment descriptor.
pub const MOST_TOTAL: u64 = 4_294_967_295;

/// The most bytes of a function's or a job's name; it has at least 1.
pub const LONGEST_NAME: usize = 64;

/// The most worker threads; there is at least 1.
pub const MOST_WORKERS: usize = 16;

/// The most bytes of a batch.
pub const MOST_BATCH_BYTES: usize = 16_777_216;

/// The most items of a schedule.
pub const MOST_SCHEDULE_ITEMS: usize = 65_536;

/// What a job may use.
#[derive(Clone, Copy, PartialEq, Eq, Debug)]
pub struct Limits {
    /// The words that it reserves: the most that its stack's distinct vectors hold.
    pub words: usize,
    /// The most entries of its stack.
    pub cells: usize,
    /// The most calls that are active at once, `MAIN` counted.
    pub calls: usize,
    /// The most instructions that it executes.
    pub budget: u64,
    ghost words_in_range: { words ≤ MOST_WORDS },
    ghost cells_in_range: { (1 ≤ cells) × (cells ≤ MOST_CELLS) },
    ghost calls_in_range: { (1 ≤ calls) × (calls ≤ MOST_CALLS) },
    ghost budget_in_range: { budget ≤ MOST_BUDGET },
}
