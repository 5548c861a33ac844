//! A batch that files are joined to.

ghost use Rattle.std.specs.Prelude.{◌≡◌, ◌+◌, ◌++◌, ◌∷◌, [], List, Ok, IfOk, IsTrue, MatchResult, OnErr, true};
ghost use Rattle.vcode_base.specs.Lines.{line_feeds};
ghost use Rattle.batch_reader.specs.Batches.{jobs_of};
ghost use Rattle.batch_packer.specs.Joins.{IsOneJob, OneJob, joined_jobs, rule_line, text_of};
ghost use Rattle.batch_packer.specs.Packs.{IsPack, has_room, same_rule};

use crate::job_file::JobFile;
use crate::laws::joined_jobs;
use crate::text::line_feeds;
use std::alloc::{AllocError, Allocator};
use std::marker::Model;
use vcode_base::Rule;
use vcode_base::limits::{MOST_BATCH_BYTES, MOST_JOBS};

/// A batch of files of one job each. All have one rule, which is the batch's.
#[derive(Drop)]
pub struct Pack<A: Allocator> {
    rule: Rule,
    jobs: usize,
    lines: usize,
    bytes: Vec<u8, A>,
}

impl<A: Allocator> Model for Pack<A> {
    ghost use Rattle.batch_packer.specs.Packs.{IsWithin, PackState};

    ghost Value = { PackState };

    ghost view = { λ p. record { rule = p.rule; jobs = p.jobs; bytes = p.bytes.items } };

    ghost invariant = { λ p. IsWithin p.jobs p.lines p.bytes.items };
}

impl<A: Allocator> Pack<A> {
    /// A batch of this rule and of no file.
    ///
    /// # Errors
    ///
    /// [`AllocError`] if memory for its rule line is refused.
    pub fn new(alloc: A, rule: Rule) -> Result<Pack<A>, AllocError>
        ensures empty { IfOk result (λ pack. pack ≡ record { rule = rule; jobs = 0; bytes = rule_line rule }) }
        ensures is_pack { IfOk result (λ pack. IsPack pack []) }
    {
        let mut bytes = Vec::new(alloc);
        let mut lines = 0;
        if rule == Rule::Second {
            bytes.extend_from_slice(b"BATCH 2\n")?;
            lines = 1;
        }
        Ok(Pack {
            rule,
            jobs: 0,
            lines,
            bytes,
        })
    }

    /// Whether one file more fits: it has the rule of the batch, and keeps to the most jobs and bytes of a batch.
    pub fn has_room(&self, file: &JobFile<A>) -> bool
        ensures { result ≡ has_room self.now file.now }
    {
        same_rule(self.rule, file.rule())
            && self.jobs < MOST_JOBS
            && file.text().len() <= MOST_BATCH_BYTES - self.bytes.len()
    }

    /// Joins a file to the batch, and answers at which line it begins there. At an `Err` the batch is as before.
    ///
    /// # Errors
    ///
    /// [`AllocError`] if memory for it is refused.
    pub fn join(&mut self, file: &JobFile<A>) -> Result<u64, AllocError>
        requires { IsTrue (has_room self.old file.now) }
        ensures joined { MatchResult result
            (λ line. (line ≡ line_feeds self.old.bytes + 1) × (self.new ≡ record self.old {
              jobs = self.old.jobs + 1;
              bytes = self.old.bytes ++ file.now.text;
            }))
            (λ _. self.new ≡ self.old) }
        // After the jobs of the files before stands that of this file.
        ensures is_pack { IfOk result (λ _. (files : List OneJob) (one : OneJob) → IsPack self.old files
            → IsOneJob file.now.rule one → file.now.text ≡ text_of file.now.rule one.bytes
            → IsPack self.new (files ++ one ∷ [])) }
    {
        self.bytes.extend_from_slice(file.text())?;
        let line = self.lines as u64 + 1;
        self.lines += line_feeds(file.text());
        self.jobs += 1;
        Ok(line)
    }

    /// How many files were joined.
    pub fn jobs(&self) -> usize
        ensures { result ≡ self.now.jobs }
    {
        self.jobs
    }

    /// The bytes of the batch. Its jobs are those of its files in their order, each as in its own file, with its
    /// lines moved by the lines before that file.
    pub fn bytes(&self) -> &[u8]
        ensures bytes { result.now ≡ self.now.bytes }
        ensures jobs { (files : List OneJob) → IsPack self.now files
            → jobs_of result.now ≡ Ok (self.now.rule, joined_jobs self.now.rule files) }
    {
        joined_jobs();
        &self.bytes
    }
}

/// Whether two rules are the same.
fn same_rule(one: Rule, other: Rule) -> bool
    ensures { result ≡ same_rule one other }
{
    match (one, other) {
        (Rule::First, Rule::First) => true,
        (Rule::Second, Rule::Second) => true,
        _ => false,
    }
}
