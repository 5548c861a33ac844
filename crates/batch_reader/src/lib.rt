//! The reader of a batch: bytes in, piece by piece; jobs that may run, or what refuses them, out.
//!
//! **Lines.** Each LF ends a line, and the last line may do without. Lines have the numbers 1, 2 and so on. Blanks,
//! tabs and CRs separate the words of a line. A heading is a line with one word, which is `SIGNATURES`, `CODE`
//! or `END`.
//!
//! **The rule.** If the words of the first line that isn't blank are `BATCH` and `2`, the batch has the second
//! [rule](vcode_base::Rule), and its jobs come after that line. Every other batch has the first.
//!
//! **Jobs.** First comes `JOB name words cells calls budget`, and directly after it the heading `SIGNATURES`. The
//! lines from there to the next `CODE` are the job's signatures, and those from `CODE` to the next `END` its code,
//! whatever comments they hold. Nothing but blank lines may be between two jobs. A name is at most
//! [`LONGEST_NAME`](vcode_base::limits::LONGEST_NAME) bytes long and has at least one, all of them visible ASCII. A
//! number is written in at most 10 digits and keeps to its range in [`vcode_base::limits`].
//!
//! **Refusals of the batch.** The foremost refusal of a batch is its answer, and no job is reported:
//! [`BatchFault::BadJobLine`] for a line at the place of a job that is neither blank nor a good JOB line, or
//! for another line than `SIGNATURES` after a JOB line; [`BatchFault::UnfinishedJob`], at the JOB line,
//! for an `END` among signatures or a batch that ends before the job does; [`BatchFault::TooLarge`] at a good
//! JOB line when the batch has as many jobs as it may, and at a line that reaches past the most bytes of a batch,
//! whatever else is wrong with that line.
//!
//! **Refusals of a job.** It has one at most, and the other jobs don't suffer by it: that its words are more than
//! the region's, at its JOB line; else the first fault of its signatures; else the first of its code; else the
//! first of its kinds.
//!
//! [`Feed`] takes the pieces. [`Section`] says which lines of a text are the parts of a job. [`laws`] says that a
//! batch has one answer. `specs/Batches` has the rule of a batch and its jobs as texts, or what refuses it;
//! `specs/Fates` what becomes of each job, and the answer to a batch; `specs/Standings` and `specs/Feeds` what is kept
//! of a batch whose end hasn't come.
#![tactic(auto)]

mod batch_line;
mod code_run;
mod entry;
mod fate;
mod fault;
mod feed;
mod head;
mod heading;
mod job_line;
pub mod laws;
mod line;
mod line_reader;
mod part;
mod section;
mod stage;
mod step;

pub use entry::{Batch, Entry, Fate, JobEntries, JobEntry};
pub use fault::{BatchFault, JobFault};
pub use feed::Feed;
pub use heading::{Heading, heading_of};
pub use section::Section;
