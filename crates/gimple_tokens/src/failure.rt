// Why a function that reads tokens stopped.
ghost use Rattle.std.specs.Prelude.{◌≡◌};

use crate::token::TextKind;
use std::alloc::AllocError;
use thiserror::Error;

/// Why reading stopped. A fault is that of the token at which the reader stands.
#[derive(Clone, Copy, Debug, PartialEq, Eq, Error)]
pub enum Failure {
    #[error("out of memory")]
    NoMemory,
    #[error("{0:?}")]
    Fault(TextKind),
}

impl From<AllocError> for Failure {
    ghost use Rattle.gimple_tokens.specs.declared.failure.Failure.TheVariants.{NoMemory};

    ghost from_gives = { λ _ failure. failure ≡ NoMemory };

    fn from(_error: AllocError) -> Failure {
        Failure::NoMemory
    }
}
