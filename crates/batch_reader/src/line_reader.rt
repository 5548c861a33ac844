//! A batch whose lines come one after another.

ghost use Rattle.std.specs.Prelude.{◌≡◌, ◌+◌, ◌≤◌, ◌↔◌, ℕ, List, [], ◌∷◌, length, true, IsErr, IsTrue};
ghost use Rattle.std.specs.Prelude.{OnOk, OnErr, IfOk};
ghost use Rattle.vcode_base.specs.Lines.{line_feeds};
ghost use Rattle.vcode_base.specs.declared.limits.TheConstants.{MOST_BATCH_BYTES};
ghost use Rattle.batch_reader.specs.Feeds.{AnswersLines, ByLines, HasFailed, HasFewJobs, IsFirstLine, IsOutside};
ghost use Rattle.batch_reader.specs.Feeds.{IsRefused};
ghost use Rattle.batch_reader.specs.Feeds.{Keeps};
ghost use Rattle.batch_reader.specs.Feeds.{RefusesLongLine, Stands, is_settled};
ghost use Rattle.batch_reader.specs.Headings.{heading_of, line_of};
ghost use Rattle.batch_reader.specs.Lines.{batch_words};
ghost use Rattle.batch_reader.specs.Runs.{AreCodeLines, IsInCode, TakesCode};
ghost use Rattle.batch_reader.specs.Standings.{BatchStanding, HasRoom, StageFits, StageShows, StepFits, Stays, Turns};
ghost use Rattle.batch_reader.specs.Standings.{rule_by, shown_line};
ghost use Rattle.batch_reader.specs.declared.heading.Heading.TheVariants as headings;
ghost use Rattle.batch_reader.specs.declared.stage.Stage.TheVariants as stages;

use crate::batch_line::BatchLine;
use crate::code_run::CodeRun;
use crate::entry::{Batch, JobEntries};
use crate::fault::BatchFault;
use crate::heading::{Heading, heading_of};
use crate::stage::{JobStage, JobStep, Stage, StageStep};
use crate::step::{step, step_inside, step_through};
use std::alloc::{AllocError, Allocator};
use std::marker::Model;
use std::mem;
use vcode_base::limits::{MOST_BATCH_BYTES, MOST_JOBS};
use vcode_base::{Rule, Sequence};

/// Reads the jobs of a batch whose lines come one after another.
#[derive(Drop)]
pub(crate) struct LineReader<A: Allocator> {
    alloc: A,
    region: usize,
    number: u64,
    left: usize,
    rule: Rule,
    stage: JobStage<A>,
    entries: JobEntries<A>,
}

impl<A: Allocator> Model for LineReader<A> {
    ghost use Rattle.std.specs.Coded.{codes};
    ghost use Rattle.vcode_reader.specs.ParseCode.{fed_code, parse_code, scan_code};
    ghost use Rattle.job_steps.specs.Jobs.{job_code};
    ghost use Rattle.batch_reader.specs.Feeds.{AreLinesWithin, LinesState, lines_code};

    ghost Value = { LinesState };

    ghost coded = { lines_code (Prim.hlevel codes) (Prim.hlevel (
      codes,
      fed_code (scan_code
          (parse_code (Prim.hlevel codes) (Prim.hlevel codes) (Prim.hlevel codes) (Prim.hlevel codes)
          (Prim.hlevel codes)
          (Prim.hlevel codes)) (Prim.hlevel codes)),
    ))
        (Prim.hlevel (codes, job_code (Prim.hlevel codes) (Prim.hlevel codes) (Prim.hlevel codes))) };

    ghost view = { λ r. record {
      region = r.region;
      number = r.number;
      left = r.left;
      rule = r.rule;
      stage = r.stage;
      entries = r.entries;
    } };

    ghost invariant = { λ r. AreLinesWithin r.number r.left r.stage };
}

impl<A: Allocator + Copy> LineReader<A> {
    /// A batch before its first line.
    pub(crate) fn new(alloc: A, region: usize) -> Result<LineReader<A>, AllocError>
        ensures first { IfOk result (IsFirstLine region) }
    {
        let entries = Vec::with_capacity(alloc, MOST_JOBS)?;
        Ok(LineReader {
            alloc,
            region,
            number: 1,
            left: MOST_BATCH_BYTES,
            rule: Rule::First,
            stage: Stage::Fresh,
            entries: Sequence::from_vec(entries),
        })
    }

    /// How many bytes the batch may have from the next line on.
    pub(crate) fn left(&self) -> usize
        ensures { result ≡ self.now.left }
    {
        self.left
    }

    /// Whether memory was refused.
    pub(crate) fn has_failed(&self) -> bool
        ensures { IsTrue result ↔ HasFailed self.now }
    {
        matches!(self.stage, Stage::Failed)
    }

    /// Whether the batch is refused, so that no further line changes the answer.
    pub(crate) fn is_refused(&self) -> bool
        ensures { result ≡ true → IsRefused self.now }
    {
        matches!(self.stage, Stage::Refused(..))
    }

    /// Notes that memory was refused.
    pub(crate) fn fail(&mut self)
        ensures failed { HasFailed self.new }
        ensures region { self.new.region ≡ self.old.region }
        ensures left { self.new.left ≡ self.old.left }
    {
        fail_stage(&mut self.stage);
    }

    /// Takes the next line, which is within the limit of a batch.
    ///
    /// # Errors
    ///
    /// [`AllocError`] if memory is refused, and from then on at each line.
    pub(crate) fn take(&mut self, text: &[u8]) -> Result<(), AllocError>
        requires within { length text.now ≤ self.old.left }
        requires some { 1 ≤ length text.now }
        requires line { line_feeds text.now ≤ 1 }
        ensures taken { OnOk result ((come : ByLines) → Stands self.old come
            → Stands self.new (λ ls. come (line_of self.old.number text.now ∷ ls))) }
        ensures number { OnOk result (self.new.number ≡ self.old.number + 1) }
        ensures left { OnOk result (self.new.left + length text.now ≡ self.old.left) }
        ensures unread { OnErr result (self.new.left ≡ self.old.left) }
        ensures region { self.new.region ≡ self.old.region }
        ensures failed { OnErr result (HasFailed self.new) }
        ensures again { HasFailed self.old → IsErr result }
    {
        let heading = heading_of(text);
        if passes_over(&self.stage, heading) {
            self.number += 1;
            self.left -= text.len();
            return Ok(());
        }
        let line = BatchLine {
            number: self.number,
            place: MOST_BATCH_BYTES - self.left,
            text,
            heading,
        };
        if stays(&self.stage, heading) {
            if let Err(refused) = step_inside(&mut self.stage, line) {
                fail_stage(&mut self.stage);
                return Err(refused);
            }
            self.number += 1;
            self.left -= text.len();
            return Ok(());
        }
        self.take_other(line)
    }

    /// Whether the next line is one of a job's code, or its `END`.
    pub(crate) fn is_in_code(&self) -> bool
        ensures { result ≡ true → IsInCode self.now.stage }
    {
        matches!(self.stage, Stage::Code(..))
    }

    /// Takes the next lines, which are code of the open job and within the limit of a batch.
    ///
    /// # Errors
    ///
    /// [`AllocError`] if memory is refused. The reader has then failed.
    #[tactic(auto, using(crate::proofs::ReaderLemmas::code_taken, crate::proofs::CodeTexts::few_lines))]
    pub(crate) fn take_code(&mut self, run: CodeRun<'_>) -> Result<(), AllocError>
        requires in_code { IsInCode self.old.stage }
        requires lines { AreCodeLines run.count run.text.now }
        requires within { length run.text.now ≤ self.old.left }
        ensures taken { OnOk result ((come : ByLines) → Stands self.old come
            → TakesCode self.old self.new run.entry.text.now come) }
        ensures unread { OnErr result (self.new.left ≡ self.old.left) }
        ensures left { OnOk result (self.new.left + length run.entry.text.now ≡ self.old.left) }
        ensures region { self.new.region ≡ self.old.region }
        ensures failed { OnErr result (HasFailed self.new) }
    {
        if let Err(refused) = step_through(&mut self.stage, run.text) {
            fail_stage(&mut self.stage);
            return Err(refused);
        }
        self.number += run.count;
        self.left -= run.text.len();
        Ok(())
    }

    /// Takes the next line, which may make another stage. It has this reader's number and its own heading.
    ///
    /// # Errors
    ///
    /// [`AllocError`] if memory is refused. The reader has then failed.
    #[tactic(auto, using(crate::proofs::ReaderLemmas::at_place))]
    #[inline(never)]
    fn take_other(&mut self, line: BatchLine<'_>) -> Result<(), AllocError>
        requires within { length line.text.now ≤ self.old.left }
        requires some { 1 ≤ length line.text.now }
        requires number { line.number ≡ self.old.number }
        requires place { line.place + self.old.left ≡ MOST_BATCH_BYTES }
        requires heading { line.heading ≡ heading_of (batch_words line.text.now) }
        ensures taken { OnOk result ((come : ByLines) → Stands self.old come
            → Stands self.new (λ ls. come (line_of line.entry.number line.entry.text.now ∷ ls))) }
        ensures number { OnOk result (self.new.number ≡ self.old.number + 1) }
        ensures left { OnOk result (self.new.left + length line.entry.text.now ≡ self.old.left) }
        ensures unread { OnErr result (self.new.left ≡ self.old.left) }
        ensures region { self.new.region ≡ self.old.region }
        ensures failed { OnErr result (HasFailed self.new) }
        ensures again { HasFailed self.old → IsErr result }
    {
        let ended = self.entries.len();
        let step = take_step(self.alloc, self.region, ended, &mut self.stage, line)?;
        keep_step(step, &mut self.entries, &mut self.rule, &mut self.stage)?;
        self.number += 1;
        self.left -= line.text.len();
        Ok(())
    }

    /// Takes the next line, which holds the first byte past the limit of a batch.
    #[tactic(auto, using(crate::proofs::ReaderLemmas::of_long_line))]
    pub(crate) fn take_long_line(&mut self)
        ensures refused { (come : ByLines) → Stands self.old come → RefusesLongLine self.old self.new come }
        ensures region { self.new.region ≡ self.old.region }
        ensures number { self.new.number ≡ self.old.number }
        ensures left { self.new.left ≡ self.old.left }
        ensures again { HasFailed self.old → HasFailed self.new }
    {
        if is_settled(&self.stage) {
            return;
        }
        set_stage(
            &mut self.stage,
            Stage::Refused(self.number, BatchFault::TooLarge),
        );
    }

    /// The answer to the lines, if no more follow.
    pub(crate) fn finish(self) -> Result<Batch<JobEntries<A>>, AllocError>
        ensures batch { IfOk result (λ batch. (come : ByLines) → Stands self come
            → AnswersLines self.region batch (come [])) }
        ensures few { IfOk result (λ batch. (come : ByLines) → Stands self come → HasFewJobs batch) }
        ensures failed { HasFailed self → IsErr result }
    {
        let LineReader {
            rule,
            stage,
            entries,
            ..
        } = self;
        match stage {
            Stage::Fresh => Ok(Batch::Jobs(Rule::First, entries)),
            Stage::Between => Ok(Batch::Jobs(rule, entries)),
            Stage::Headed(head) => Ok(Batch::Refused(head.line, BatchFault::UnfinishedJob)),
            Stage::Signatures(head, _) => Ok(Batch::Refused(head.line, BatchFault::UnfinishedJob)),
            Stage::Code(head, _) => Ok(Batch::Refused(head.line, BatchFault::UnfinishedJob)),
            Stage::Refused(line, fault) => Ok(Batch::Refused(line, fault)),
            Stage::Failed => Err(AllocError),
        }
    }
}

/// Makes this the stage.
fn set_stage<A: Allocator>(stage: &mut JobStage<A>, next: JobStage<A>)
    ensures { stage.new ≡ next }
{
    *stage = next;
}

/// Whether no line changes a stage.
fn is_settled<A: Allocator>(stage: &JobStage<A>) -> bool
    ensures { result ≡ is_settled stage.now }
{
    matches!(stage, Stage::Refused(..) | Stage::Failed)
}

/// Whether a line of this heading is blank and comes before the first job or between jobs.
fn passes_over<A: Allocator>(stage: &JobStage<A>, heading: Heading) -> bool
    ensures { IsTrue result → IsOutside stage.now × (heading ≡ headings.Blank) }
{
    matches!(
        (stage, heading),
        (Stage::Fresh | Stage::Between, Heading::Blank)
    )
}

/// Memory was refused: the stage has failed. It is a function of its own, so that a line is taken without room for a
/// stage.
#[inline(never)]
fn fail_stage<A: Allocator>(stage: &mut JobStage<A>)
    ensures { stage.new ≡ stages.Failed }
{
    *stage = Stage::Failed;
}

/// Whether a line of this heading is one more of the signatures or of the code.
fn stays<A: Allocator>(stage: &JobStage<A>, heading: Heading) -> bool
    ensures { IsTrue result → Stays stage.now heading }
{
    match stage {
        Stage::Code(..) => !matches!(heading, Heading::End),
        Stage::Signatures(..) => !matches!(heading, Heading::End | Heading::Code),
        _ => false,
    }
}

/// Takes a line at a stage, and answers its step. The stage has failed until the step is kept.
fn take_step<A: Allocator + Copy>(
    alloc: A,
    region: usize,
    ended: usize,
    stage: &mut JobStage<A>,
    line: BatchLine<'_>,
) -> Result<JobStep<A>, AllocError>
    requires { StageFits line.place stage.old }
    ensures stage { stage.new ≡ stages.Failed }
    ensures fits { IfOk result (StepFits (line.entry.place + length line.entry.text.now)) }
    ensures turns { IfOk result (λ s. (room : ℕ) (standing : BatchStanding) → StageShows region stage.old standing
        → HasRoom ended room standing → Turns region ended room standing (shown_line line.entry) s) }
    ensures failed { stage.old ≡ stages.Failed → IsErr result }
{
    let taken = mem::replace(stage, Stage::Failed);
    step(alloc, region, ended, taken, line)
}

/// Keeps a step: its stage, and the rule that it gives; a job that ends goes after the others. If memory is refused,
/// the stage stays.
fn keep_step<A: Allocator>(
    step: JobStep<A>,
    entries: &mut JobEntries<A>,
    rule: &mut Rule,
    stage: &mut JobStage<A>,
) -> Result<(), AllocError>
    ensures kept { OnOk result (Keeps step entries.old entries.new stage.new) }
    ensures rule { rule.new ≡ rule_by step rule.old }
    ensures unchanged { OnErr result (stage.new ≡ stage.old) }
{
    match step {
        StageStep::To(next) => set_stage(stage, next),
        StageStep::Ends(entry) => {
            entries.push(entry)?;
            set_stage(stage, Stage::Between);
        }
        StageStep::Begins(given, next) => {
            *rule = given;
            set_stage(stage, next);
        }
    }
    Ok(())
}
