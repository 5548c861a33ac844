//! The text of a manifest.

ghost use Rattle.std.specs.Prelude.{◌≡◌, ◌∷◌, [], ◌++◌, OnOk};
ghost use Rattle.report_splitter.specs.Manifests.{batch_words, job_words, seal_words};

use crate::manifest::{FORMAT, PackedJob, SealedBatch};
use crate::text::put_number;
use std::alloc::{AllocError, Allocator};

/// Puts the words of a batch after the format, and the NUL that ends its entry.
#[tactic(auto, unfolding(crate::specs::Manifests::seal_words))]
fn put_seal<A: Allocator>(text: &mut Vec<u8, A>, batch: &SealedBatch<'_>) -> Result<(), AllocError>
    ensures { OnOk result (text.new.items ≡ text.old.items ++ (seal_words batch.now ++ 0 ∷ [])) }
{
    put_number(text, batch.bytes())?;
    text.push(b' ')?;
    text.extend_from_slice(batch.digest())?;
    text.push(b' ')?;
    put_number(text, batch.jobs())?;
    text.push(b' ')?;
    text.extend_from_slice(batch.file())?;
    text.push(0)?;
    Ok(())
}

/// Puts the first entry of a manifest after a text: that of its batch.
///
/// # Errors
///
/// [`AllocError`] if memory is refused. The text may have a part of the entry then.
pub fn put_batch<A: Allocator>(
    text: &mut Vec<u8, A>,
    batch: &SealedBatch<'_>,
) -> Result<(), AllocError>
    ensures { OnOk result (text.new.items ≡ text.old.items ++ (batch_words batch.now ++ 0 ∷ [])) }
{
    text.extend_from_slice(FORMAT)?;
    put_seal(text, batch)
}

/// Puts the entry of the job at this place after a text. Places count from 1.
///
/// # Errors
///
/// [`AllocError`] if memory is refused. The text may have a part of the entry then.
#[tactic(auto, unfolding(crate::specs::Manifests::job_words))]
pub fn put_job<A: Allocator>(
    text: &mut Vec<u8, A>,
    place: u64,
    job: &PackedJob<'_>,
) -> Result<(), AllocError>
    ensures { OnOk result (text.new.items ≡ text.old.items ++ (job_words place job.now ++ 0 ∷ [])) }
{
    put_number(text, place)?;
    text.push(b' ')?;
    put_number(text, job.first_line())?;
    text.push(b' ')?;
    text.extend_from_slice(job.name())?;
    text.push(b' ')?;
    text.extend_from_slice(job.file())?;
    text.push(0)?;
    Ok(())
}
