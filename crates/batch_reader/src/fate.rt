//! What becomes of a job at its `END`.

ghost use Rattle.std.specs.Prelude.{◌≡◌, ℕ, Ok, IfOk};
ghost use Rattle.vcode_reader.specs.Reading.{reading};
ghost use Rattle.job_steps.specs.Jobs.{IsName};
ghost use Rattle.batch_reader.specs.Batches.{JobText};
ghost use Rattle.batch_reader.specs.Fates.{IsEntry, IsFate, signatures_of};
ghost use Rattle.batch_reader.specs.Standings.{HasRead, ShowsCode, ShowsHead};

use crate::entry::{Fate, JobEntry};
use crate::fault::JobFault;
use crate::head::JobHeader;
use crate::part::Part;
use crate::stage::CodeReading;
use job_steps::{Job, JobName};
use signatures::Signatures;
use std::alloc::{AllocError, Allocator};
use vcode_reader::{CodeReader, Program, ReadFault};
use verifier::laws::no_fault_where_well_kinded;
use verifier::{VerifyFault, verify};

/// The job of this JOB line, whose code is whole.
#[tactic(auto, using(crate::proofs::FateLemmas::refused_with_none))]
pub(crate) fn job_entry<A: Allocator + Copy>(
    alloc: A,
    head: JobHeader<JobName<A>>,
    part: Part<CodeReading<A>>,
) -> Result<JobEntry<A>, AllocError>
    requires { IsName head.name }
    ensures { IfOk result (λ e. (region : ℕ) (job : JobText) → ShowsHead head job.head job.line
        → ShowsCode region part job → IsEntry region job e) }
{
    match part {
        Part::Refused(line, fault) => Ok(JobEntry {
            name: head.name,
            fate: Fate::Refused(line, fault),
        }),
        Part::Reading((signatures, reader)) => {
            let fate = read_fate(alloc, &head, &signatures, reader)?;
            Ok(JobEntry {
                name: head.name,
                fate,
            })
        }
    }
}

/// What becomes of a job of these signatures, whose code this reader was fed.
#[tactic(auto, using(crate::proofs::FateLemmas::code_comes_to), unfolding(crate::specs::Fates::signed_program_of))]
fn read_fate<A: Allocator + Copy>(
    alloc: A,
    head: &JobHeader<JobName<A>>,
    signatures: &Signatures<A>,
    reader: CodeReader<A>,
) -> Result<Fate<Job<A>>, AllocError>
    requires { IsName head.now.name }
    ensures { IfOk result (λ fate. (region : ℕ) (job : JobText) → ShowsHead head.now job.head job.line
        → HasRead region signatures.now reader job → IsFate region job fate) }
{
    match reader.finish() {
        Ok(program) => verified_fate(alloc, head, signatures, program),
        Err(ReadFault::At(fault, line)) => Ok(Fate::Refused(line, JobFault::Read(fault))),
        Err(ReadFault::Memory) => Err(AllocError),
    }
}

/// What becomes of a job of these signatures and this program.
#[tactic(auto, unfolding(crate::specs::Fates::signed_program_of))]
fn verified_fate<A: Allocator + Copy>(
    alloc: A,
    head: &JobHeader<JobName<A>>,
    signatures: &Signatures<A>,
    program: Program<A>,
) -> Result<Fate<Job<A>>, AllocError>
    requires { IsName head.now.name }
    ensures { IfOk result (λ fate. (region : ℕ) (job : JobText) → ShowsHead head.now job.head job.line
        → signatures_of region job ≡ Ok signatures.now → reading job.code_line job.code ≡ Ok program
        → IsFate region job fate) }
{
    match verify(alloc, program, signatures) {
        Ok(verified) => {
            no_fault_where_well_kinded();
            let name = JobName::from_vec(Vec::from_slice(alloc, head.name.as_slice())?);
            Ok(Fate::Ready(Job::new(name, verified, head.limits)))
        }
        Err(VerifyFault::At(fault, line)) => Ok(Fate::Refused(line, JobFault::Kind(fault))),
        Err(VerifyFault::Memory) => Err(AllocError),
    }
}
