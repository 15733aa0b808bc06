//! Why objects have no image. `specs/Linking.antt` says in which order these are looked for.
ghost use Rattle.std.specs.Prelude.{◌≡◌};
ghost use Rattle.plain_link.specs.declared.fault.LinkError.TheVariants.{NoMemory};
ghost use Rattle.plain_link.specs.Linking.{of_merging, of_program};

use program_link::LimitFault;
use std::alloc::{AllocError, AllocFailed};
use symbol_resolution::ResolutionError;
use thiserror::Error;

/// Why there is no image.
#[derive(Debug, Drop, PartialEq, Eq, Error)]
pub enum LinkError {
    /// The objects do not merge under the resolution; the first fault.
    #[error("{0}")]
    Resolution(ResolutionError),
    /// The merged program passes a limit; the first.
    #[error("{0:?}")]
    Limit(LimitFault),
    #[error("out of memory")]
    NoMemory,
}

impl From<ResolutionError> for LinkError {
    ghost from_gives = { λ e x. x ≡ of_merging e };

    fn from(error: ResolutionError) -> LinkError {
        match error {
            ResolutionError::NoMemory => LinkError::NoMemory,
            fault => LinkError::Resolution(fault),
        }
    }
}

impl From<program_link::LinkError> for LinkError {
    ghost from_gives = { λ e x. x ≡ of_program e };

    fn from(error: program_link::LinkError) -> LinkError {
        match error {
            program_link::LinkError::Limit(passed) => LinkError::Limit(passed),
            program_link::LinkError::NoMemory => LinkError::NoMemory,
        }
    }
}

impl From<AllocError> for LinkError {
    ghost from_gives = { λ _ e. e ≡ NoMemory };

    fn from(_error: AllocError) -> LinkError {
        LinkError::NoMemory
    }
}

impl<T: Drop> From<AllocFailed<T>> for LinkError {
    ghost from_gives = { λ _ e. e ≡ NoMemory };

    fn from(_error: AllocFailed<T>) -> LinkError {
        LinkError::NoMemory
    }
}
