//! Why an image was not loaded.

ghost use Rattle.std.specs.Prelude.{◌≡◌};
ghost use Rattle.rv64_meaning.specs.declared.fault.LoadError.TheVariants.{NoMemory};

use std::alloc::AllocError;
use thiserror::Error;

/// The first fault of the bytes of an image: `offset` is that of the first field that is not as the form says, or of the first
/// byte that is not the zero that it should be, or where the file ends too early or should have ended.
#[derive(Clone, Copy, Debug, PartialEq, Eq)]
pub struct ImageFault {
    pub offset: u64,
}

/// Why an image was not loaded.
#[derive(Clone, Copy, Debug, PartialEq, Eq, Error)]
pub enum LoadError {
    /// The bytes are not of the form of an image.
    #[error("no image at byte {}", .0.offset)]
    Fault(ImageFault),
    /// The image has no fault, and its memory was refused.
    #[error("out of memory")]
    NoMemory,
}

impl From<AllocError> for LoadError {
    ghost from_gives = { λ _ e. e ≡ NoMemory };

    fn from(_e: AllocError) -> LoadError {
        LoadError::NoMemory
    }
}
