//! What seals a batch: the number of its bytes, and their digest.

ghost use Rattle.std.specs.Prelude.{◌≡◌, ◌↔◌, IfOk, IsTrue, length, string_bytes};
ghost use Rattle.report_splitter.specs.Seals.{digest_text};

use crate::manifest::SealedBatch;
use hex::encode;
use sha2::{Digest, Sha256};
use std::alloc::{AllocError, Allocator};

/// The SHA-256 of these bytes, in hexadecimal digits.
///
/// # Errors
///
/// [`AllocError`] if memory is refused.
pub fn digest_text<A: Allocator>(alloc: A, bytes: &[u8]) -> Result<String<A>, AllocError>
    ensures { IfOk result (λ text. string_bytes text ≡ digest_text bytes.now) }
{
    let digest = Sha256::digest(bytes);
    encode(alloc, digest.as_slice())
}

/// Whether these bytes are those of a batch: as many, and with the same digest.
///
/// # Errors
///
/// [`AllocError`] if memory is refused.
pub fn is_sealed<A: Allocator>(
    alloc: A,
    batch: &SealedBatch<'_>,
    bytes: &[u8],
) -> Result<bool, AllocError>
    ensures { IfOk result (λ same. IsTrue same
        ↔ ((length bytes.now ≡ batch.now.bytes) × (digest_text bytes.now ≡ batch.now.digest))) }
{
    let text = digest_text(alloc, bytes)?;
    Ok(bytes.len() as u64 == batch.bytes() && text.as_bytes() == batch.digest())
}
