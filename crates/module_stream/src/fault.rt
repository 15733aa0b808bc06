//! Why a stream is refused.
ghost use Rattle.std.specs.Prelude.{◌≡◌};
ghost use Rattle.module_stream.specs.declared.fault.StreamError.TheVariants.{NoMemory};

use std::alloc::{AllocError, AllocFailed};
use thiserror::Error;

/// Why a stream could not be read.
#[derive(Clone, Copy, Debug, PartialEq, Eq, Error)]
pub enum StreamError {
    /// The first field from the left that is bad; the offset is that of its first byte, from the start of the bytes.
    #[error("the field at {offset} is bad")]
    BadStream { offset: u64 },
    #[error("out of memory")]
    NoMemory,
}

impl From<AllocError> for StreamError {
    ghost from_gives = { λ _ e. e ≡ NoMemory };

    fn from(_e: AllocError) -> StreamError {
        StreamError::NoMemory
    }
}

impl<T: Drop> From<AllocFailed<T>> for StreamError {
    ghost from_gives = { λ _ e. e ≡ NoMemory };

    fn from(_e: AllocFailed<T>) -> StreamError {
        StreamError::NoMemory
    }
}
