//! Files of one job each, packed into batches.
//!
//! A job file is a batch of exactly one job. [`one_job`] reads it, and refuses any other file. A [`Pack`] joins job
//! files to one batch. [`laws`] says that the jobs of that batch are those of the files, in their order, each as in its
//! own file, with its lines moved by the lines before that file. So no text decides anything of another's job.
//!
//! Files under the second [rule](vcode_base::Rule) are packed with their like: the batch begins with the rule line, and
//! in each of its files a blank line stands for it.
#![tactic(auto)]

mod fault;
mod job_file;
pub mod laws;
mod pack;
mod text;

pub use fault::PackFault;
pub use job_file::{JobFile, one_job};
pub use pack::Pack;
