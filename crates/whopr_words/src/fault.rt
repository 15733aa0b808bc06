//! Why a job file is refused.
ghost use Rattle.std.specs.Prelude.{◌≡◌};
ghost use Rattle.whopr_words.specs.declared.fault.JobError.TheVariants.{NoMemory};

use std::alloc::{AllocError, AllocFailed};
use thiserror::Error;

/// Why a job file is refused.
#[derive(Clone, Copy, Debug, PartialEq, Eq, Error)]
pub enum JobError {
    /// The first line that has another form or a number outside its range, whose OUT stands before, with which the workers
    /// pass 256, that is missing, or that is one too many; counted from 1.
    #[error("line {line} is bad")]
    Fault { line: u32 },
    #[error("out of memory")]
    NoMemory,
}

impl From<AllocError> for JobError {
    ghost from_gives = { λ _ e. e ≡ NoMemory };

    fn from(_e: AllocError) -> JobError {
        JobError::NoMemory
    }
}

impl<T: Drop> From<AllocFailed<T>> for JobError {
    ghost from_gives = { λ _ e. e ≡ NoMemory };

    fn from(_e: AllocFailed<T>) -> JobError {
        JobError::NoMemory
    }
}
