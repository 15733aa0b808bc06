//! Why a resolution is refused.
ghost use Rattle.std.specs.Prelude.{◌≡◌};
ghost use Rattle.resolution_text.specs.declared.fault.ResolutionError.TheVariants.{NoMemory};

use gimple_ir::Name;
use std::alloc::{AllocError, AllocFailed};
use thiserror::Error;

/// What is wrong, with the numbers 1 to 11 in this order.
#[derive(Clone, Copy, Debug, PartialEq, Eq)]
pub enum ResolutionKind {
    /// A line of the text has another form, is missing, or is one too many.
    BadLine,
    /// The text has another number of files than the link.
    FileCount,
    /// A file of the text has another name than that of the link.
    FileName,
    /// A file of the text has another number of symbols.
    SymbolCount,
    /// A symbol of the text has another name.
    SymbolName,
    /// A word that no linker of these objects alone gives.
    NativeWord,
    /// No definition of a name prevails.
    NoPrevailing,
    /// Two definitions of a name prevail.
    TwoPrevailing,
    /// A word of definitions on a declaration, or the other way round.
    WordKind,
    /// Two symbols of a name have different types.
    TypeMismatch,
    /// No function `int main ()` prevails.
    NoMain,
}

/// Why a resolution is refused.
#[derive(Debug, Drop, PartialEq, Eq, Error)]
pub enum ResolutionError {
    /// A fault of a line of the text, counted from 1.
    #[error("{kind:?} at line {line}")]
    AtLine { kind: ResolutionKind, line: u32 },
    /// A fault of all symbols of a name.
    #[error("{kind:?} of {name:?}")]
    AtName { kind: ResolutionKind, name: Name },
    #[error("out of memory")]
    NoMemory,
}

impl From<AllocError> for ResolutionError {
    ghost from_gives = { λ _ e. e ≡ NoMemory };

    fn from(_e: AllocError) -> ResolutionError {
        ResolutionError::NoMemory
    }
}

impl<T: Drop> From<AllocFailed<T>> for ResolutionError {
    ghost from_gives = { λ _ e. e ≡ NoMemory };

    fn from(_e: AllocFailed<T>) -> ResolutionError {
        ResolutionError::NoMemory
    }
}
