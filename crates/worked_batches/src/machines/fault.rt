use std::alloc::AllocError;
use thiserror::Error;

/// Why a line has no answer.
#[derive(Debug, Drop, Error)]
pub enum CaseFault {
    /// It is no call, or one that may not be made.
    #[error("no call")]
    NoCall,
    #[error(transparent)]
    Memory(#[from] AllocError),
}
