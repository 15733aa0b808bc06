//! Why a program has no image. `specs/Linking.antt` says in which order these are looked for.
ghost use Rattle.std.specs.Prelude.{◌≡◌};
ghost use Rattle.program_link.specs.declared.fault.LinkError.TheVariants.{NoMemory};

use std::alloc::{AllocError, AllocFailed};
use thiserror::Error;

/// What has a limit.
#[derive(Clone, Copy, Debug, PartialEq, Eq)]
pub enum Quantity {
    /// The number of functions, 20,000 at most.
    LinkFunctions,
    /// The sum of the functions' code bounds in bytes, 32 MiB at most.
    LinkCode,
    /// The sum of the arrays' sizes in bytes, each rounded up to 8, 64 MiB at most.
    LinkData,
}

/// A number that is above its limit.
#[derive(Clone, Copy, Debug, PartialEq, Eq)]
pub struct LimitFault {
    pub quantity: Quantity,
    pub number: u64,
    pub limit: u64,
}

/// Why there is no image.
#[derive(Clone, Copy, Debug, PartialEq, Eq, Error)]
pub enum LinkError {
    /// The program passes a limit; the first.
    #[error("{0:?}")]
    Limit(LimitFault),
    #[error("out of memory")]
    NoMemory,
}

impl From<AllocError> for LinkError {
    ghost from_gives = { λ _ e. e ≡ NoMemory };

    fn from(_error: AllocError) -> LinkError {
        LinkError::NoMemory
    }
}

impl<T: Drop> From<AllocFailed<T>> for LinkError {
    ghost from_gives = { λ _ e. e ≡ NoMemory };

    fn from(_error: AllocFailed<T>) -> LinkError {
        LinkError::NoMemory
    }
}
