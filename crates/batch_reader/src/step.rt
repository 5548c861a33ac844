//! What a line makes of a stage.

ghost use Rattle.std.specs.Prelude.{◌≡◌, ◌+◌, ◌≤◌, ℕ, [], length, IsErr, IfOk, OnOk};
ghost use Rattle.vcode_base.specs.declared.limits.TheConstants.{MOST_BATCH_BYTES};
ghost use Rattle.job_steps.specs.Jobs.{IsName};
ghost use Rattle.batch_reader.specs.declared.stage.Stage.TheVariants as stages;
ghost use Rattle.batch_reader.specs.declared.stage.StageStep.TheVariants.{To};
ghost use Rattle.batch_reader.specs.declared.fault.JobFault.TheVariants.{Read};
ghost use Rattle.batch_reader.specs.declared.part.Part.TheVariants.{Refused as PartRefused};
ghost use Rattle.batch_reader.specs.Batches.{JobText, job_without_parts};
ghost use Rattle.batch_reader.specs.Headings.{BatchLine as SpecLine};
ghost use Rattle.batch_reader.specs.JobLines.{JobLine as JobLineOf};
ghost use Rattle.batch_reader.specs.Runs.{GoesOn, IsInCode};
ghost use Rattle.batch_reader.specs.Standings.{Fresh, Between, Headed, InSignatures, InCode, BatchStanding};
ghost use Rattle.batch_reader.specs.Standings.{HasRoom, StageShows, ShowsHead};
ghost use Rattle.batch_reader.specs.Standings.{ShowsSignatures, ShowsCode, SaysJob, SignaturesFit, CodeFits, StageFits};
ghost use Rattle.batch_reader.specs.Standings.{Stays, StepFits, Turns, shown_line, with_signatures, with_code_line};
ghost use Rattle.batch_reader.specs.Standings.{with_code};

use crate::batch_line::BatchLine;
use crate::fate::job_entry;
use crate::fault::{BatchFault, JobFault};
use crate::head::JobHeader;
use crate::heading::Heading;
use crate::job_line::{JobLine, job_line};
use crate::part::Part;
use crate::stage::{CodeReading, JobStage, JobStep, Stage, StageStep};
use job_steps::JobName;
use signatures::{SigFault, SigReader};
use std::alloc::{AllocError, Allocator};
use vcode_base::Rule;
use vcode_base::laws::line_feeds_are_few;
use vcode_base::limits::MOST_JOBS;
use vcode_reader::{CodeFault, CodeReader};

/// What this line makes of a stage, if `ended` jobs have ended, over a region of `region` words.
#[tactic(auto, using(crate::proofs::StepLemmas::turns_of_code))]
pub(crate) fn step<A: Allocator + Copy>(
    alloc: A,
    region: usize,
    ended: usize,
    stage: JobStage<A>,
    line: BatchLine<'_>,
) -> Result<JobStep<A>, AllocError>
    requires { StageFits line.place stage }
    ensures fits { IfOk result (StepFits (line.entry.place + length line.entry.text.now)) }
    ensures turns { IfOk result (λ s. (room : ℕ) (standing : BatchStanding) → StageShows region stage standing
        → HasRoom ended room standing → Turns region ended room standing (shown_line line.entry) s) }
    ensures failed { stage ≡ stages.Failed → IsErr result }
{
    match stage {
        Stage::Fresh => step_at_front(alloc, ended, line),
        Stage::Between => Ok(StageStep::To(step_between(alloc, ended, line)?)),
        Stage::Headed(head) => Ok(StageStep::To(step_behind_head(alloc, region, head, line))),
        Stage::Signatures(head, part) => Ok(StageStep::To(step_in_signatures(
            alloc, head, part, line,
        )?)),
        Stage::Code(head, part) => step_in_code(alloc, head, part, line),
        Stage::Refused(number, fault) => Ok(StageStep::To(Stage::Refused(number, fault))),
        Stage::Failed => Err(AllocError),
    }
}

/// A line before which there are only blank lines.
#[tactic(auto, using(crate::proofs::StepLemmas::at_front))]
fn step_at_front<A: Allocator + Copy>(
    alloc: A,
    ended: usize,
    line: BatchLine<'_>,
) -> Result<JobStep<A>, AllocError>
    ensures fits { IfOk result (StepFits (line.entry.place + length line.entry.text.now)) }
    ensures turns { IfOk result (λ s. (region room : ℕ) → HasRoom ended room Fresh
        → Turns region ended room Fresh (shown_line line.entry) s) }
{
    match line.heading {
        Heading::Blank => Ok(StageStep::To(Stage::Fresh)),
        Heading::SecondRule => Ok(StageStep::Begins(Rule::Second, Stage::Between)),
        _ => Ok(StageStep::Begins(Rule::First, step_between(alloc, ended, line)?)),
    }
}

/// A line between jobs.
#[tactic(auto, using(crate::proofs::StepLemmas::turns_at_blank))]
fn step_between<A: Allocator + Copy>(
    alloc: A,
    ended: usize,
    line: BatchLine<'_>,
) -> Result<JobStage<A>, AllocError>
    ensures fits { IfOk result (StageFits (line.entry.place + length line.entry.text.now)) }
    ensures turns { IfOk result (λ s. (region room : ℕ) → HasRoom ended room Between
        → Turns region ended room Between (shown_line line.entry) (To s)) }
{
    match line.heading {
        Heading::Blank => Ok(Stage::Between),
        _ => match job_line(line.text) {
            None => Ok(Stage::Refused(line.number, BatchFault::BadJobLine)),
            Some(job) => step_at_job(alloc, ended, job, line.number),
        },
    }
}

/// A good JOB line of this number between jobs.
fn step_at_job<A: Allocator + Copy>(
    alloc: A,
    ended: usize,
    job: JobLine<'_>,
    line: u64,
) -> Result<JobStage<A>, AllocError>
    ensures fits { IfOk result (λ s. (place : ℕ) → StageFits place s) }
    ensures turns { IfOk result (λ s. (region room : ℕ) (l : SpecLine) → HasRoom ended room Between
        → SaysJob l (record { name = job.entry.name.now; limits = job.entry.limits }) line
        → Turns region ended room Between l (To s)) }
{
    if ended >= MOST_JOBS {
        return Ok(Stage::Refused(line, BatchFault::TooLarge));
    }
    let name = JobName::from_vec(Vec::from_slice(alloc, job.name)?);
    Ok(Stage::Headed(JobHeader {
        name,
        limits: job.limits,
        line,
    }))
}

/// The line after a JOB line.
#[tactic(auto, using(crate::proofs::StepLemmas::turns_at_signatures))]
fn step_behind_head<A: Allocator + Copy>(
    alloc: A,
    region: usize,
    head: JobHeader<JobName<A>>,
    line: BatchLine<'_>,
) -> JobStage<A>
    requires { IsName head.name }
    ensures fits { StageFits (line.entry.place + length line.entry.text.now) result }
    ensures turns { (ended room : ℕ) (job : JobLineOf) (number : ℕ) → ShowsHead head job number
        → HasRoom ended room (Headed job number)
        → Turns region ended room (Headed job number) (shown_line line.entry) (To result) }
{
    match line.heading {
        Heading::Signatures => {
            let part = signatures_part(alloc, region, &head, line.number + 1);
            Stage::Signatures(head, part)
        }
        _ => Stage::Refused(line.number, BatchFault::BadJobLine),
    }
}

/// The signatures of a job, whose first line has this number, before any line of them.
#[tactic(auto, unfolding(crate::specs::Fates::limits_within))]
fn signatures_part<A: Allocator + Copy>(
    alloc: A,
    region: usize,
    head: &JobHeader<JobName<A>>,
    first_line: u64,
) -> Part<SigReader<A>>
    ensures fits { (place : ℕ) → first_line ≤ place + 1 → SignaturesFit place result }
    ensures shown { (job : JobLineOf) (number : ℕ) → ShowsHead head.now job number
        → ShowsSignatures region result (job_without_parts job number first_line) }
{
    if head.limits.words > region {
        return Part::Refused(head.line, JobFault::WordsPastRegion);
    }
    Part::Reading(SigReader::new(alloc, first_line))
}

/// A line after `SIGNATURES`.
#[tactic(auto, using(crate::proofs::StepLemmas::in_signatures))]
fn step_in_signatures<A: Allocator + Copy>(
    alloc: A,
    head: JobHeader<JobName<A>>,
    mut part: Part<SigReader<A>>,
    line: BatchLine<'_>,
) -> Result<JobStage<A>, AllocError>
    requires name { IsName head.name }
    requires part { SignaturesFit line.place part }
    ensures fits { IfOk result (StageFits (line.entry.place + length line.entry.text.now)) }
    ensures turns { IfOk result (λ s. (region ended room : ℕ) (job : JobText)
        → StageShows region (stages.Signatures head part) (InSignatures job) → HasRoom ended room (InSignatures job)
        → Turns region ended room (InSignatures job) (shown_line line.entry) (To s)) }
{
    match line.heading {
        Heading::End => Ok(Stage::Refused(head.line, BatchFault::UnfinishedJob)),
        Heading::Code => {
            let part = code_part(alloc, part, line.number + 1)?;
            Ok(Stage::Code(head, part))
        }
        _ => {
            more_signatures(&mut part, line)?;
            Ok(Stage::Signatures(head, part))
        }
    }
}

/// Takes one line more of the signatures.
fn more_signatures<A: Allocator + Copy>(
    part: &mut Part<SigReader<A>>,
    line: BatchLine<'_>,
) -> Result<(), AllocError>
    requires { SignaturesFit line.place part.old }
    ensures fits { OnOk result (SignaturesFit (line.entry.place + length line.entry.text.now) part.new) }
    ensures shown { OnOk result ((region : ℕ) (job : JobText) → ShowsSignatures region part.old job
        → ShowsSignatures region part.new (with_signatures job line.entry.text.now)) }
{
    match part {
        Part::Reading(reader) => reader.feed(line.text),
        Part::Refused(..) => Ok(()),
    }
}

/// The code of a job of these signatures, whose first line has this number, before any line of it.
#[tactic(auto, unfolding(crate::specs::Fates::signatures_of, crate::specs::Fates::signed_program_of))]
fn code_part<A: Allocator + Copy>(
    alloc: A,
    part: Part<SigReader<A>>,
    first_line: u64,
) -> Result<Part<CodeReading<A>>, AllocError>
    ensures fits { IfOk result (λ p. (place : ℕ) → first_line ≤ place + 1 → CodeFits place p) }
    ensures shown { IfOk result (λ p. (region : ℕ) (job : JobText) → ShowsSignatures region part job → job.code ≡ []
        → ShowsCode region p (with_code_line job first_line)) }
{
    match part {
        Part::Refused(number, fault) => Ok(Part::Refused(number, fault)),
        Part::Reading(reader) => match reader.finish() {
            Ok(signatures) => {
                let reader = CodeReader::new(alloc, first_line)?;
                Ok(Part::Reading((signatures, reader)))
            }
            Err(SigFault::At(fault, number)) => Ok(Part::Refused(number, JobFault::Sig(fault))),
            Err(SigFault::Memory) => Err(AllocError),
        },
    }
}

/// A line after `CODE`.
#[tactic(auto, using(crate::proofs::StepLemmas::turns_at_end))]
fn step_in_code<A: Allocator + Copy>(
    alloc: A,
    head: JobHeader<JobName<A>>,
    mut part: Part<CodeReading<A>>,
    line: BatchLine<'_>,
) -> Result<JobStep<A>, AllocError>
    requires name { IsName head.name }
    requires part { CodeFits line.place part }
    ensures fits { IfOk result (StepFits (line.entry.place + length line.entry.text.now)) }
    ensures turns { IfOk result (λ s. (region ended room : ℕ) (job : JobText)
        → StageShows region (stages.Code head part) (InCode job) → HasRoom ended room (InCode job)
        → Turns region ended room (InCode job) (shown_line line.entry) s) }
{
    match line.heading {
        Heading::End => Ok(StageStep::Ends(job_entry(alloc, head, part)?)),
        _ => {
            more_code(&mut part, line.text)?;
            Ok(StageStep::To(Stage::Code(head, part)))
        }
    }
}

/// Takes one line more of the signatures or of the code, and leaves the stage as it is.
///
/// # Errors
///
/// [`AllocError`] if memory is refused. The stage then says nothing of the lines so far.
pub(crate) fn step_inside<A: Allocator + Copy>(
    stage: &mut JobStage<A>,
    line: BatchLine<'_>,
) -> Result<(), AllocError>
    requires fits { StageFits line.place stage.old }
    requires stays { Stays stage.old line.heading }
    ensures fits { OnOk result (StageFits (line.entry.place + length line.entry.text.now) stage.new) }
    ensures turns { OnOk result ((region ended room : ℕ) (standing : BatchStanding)
        → StageShows region stage.old standing
        → HasRoom ended room standing → Turns region ended room standing (shown_line line.entry) (To stage.new)) }
{
    match stage {
        Stage::Code(_, part) => more_code(part, line.text),
        Stage::Signatures(_, part) => more_signatures(part, line),
        _ => Ok(()),
    }
}

/// Takes more lines of the code, and leaves the stage as it is.
///
/// # Errors
///
/// [`AllocError`] if memory is refused. The stage then says nothing of the lines so far.
pub(crate) fn step_through<A: Allocator + Copy>(
    stage: &mut JobStage<A>,
    text: &[u8],
) -> Result<(), AllocError>
    requires in_code { IsInCode stage.old }
    requires fits { (place : ℕ) × StageFits place stage.old × (place + length text.now ≤ MOST_BATCH_BYTES) }
    ensures fits { OnOk result ((place : ℕ) → StageFits place stage.old
        → StageFits (place + length text.now) stage.new) }
    ensures shown { OnOk result (GoesOn stage.old stage.new text.now) }
{
    match stage {
        Stage::Code(_, part) => more_code(part, text),
        _ => Ok(()),
    }
}

/// Takes more of the code. Once the code has a fault, no further line is read.
#[tactic(auto, using(crate::proofs::FateLemmas::of_more_code), unfolding(crate::specs::Fates::signed_program_of))]
fn more_code<A: Allocator + Copy>(
    part: &mut Part<CodeReading<A>>,
    text: &[u8],
) -> Result<(), AllocError>
    requires { (place : ℕ) × CodeFits place part.old × (place + length text.now ≤ MOST_BATCH_BYTES) }
    ensures fits { OnOk result ((place : ℕ) → CodeFits place part.old → CodeFits (place + length text.now) part.new) }
    ensures shown { OnOk result ((region : ℕ) (job : JobText) → ShowsCode region part.old job
        → ShowsCode region part.new (with_code job text.now)) }
{
    line_feeds_are_few();
    match part {
        Part::Reading((_, reader)) => {
            reader.feed(text)?;
            match reader.fault() {
                None => Ok(()),
                Some((fault, number)) => {
                    refuse_code(part, fault, number);
                    Ok(())
                }
            }
        }
        Part::Refused(..) => Ok(()),
    }
}

/// The code is refused for this fault at this line.
#[cold]
#[inline(never)]
fn refuse_code<A: Allocator>(part: &mut Part<CodeReading<A>>, fault: CodeFault, line: u64)
    ensures { part.new ≡ PartRefused line (Read fault) }
{
    *part = Part::Refused(line, JobFault::Read(fault));
}
