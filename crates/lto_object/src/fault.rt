//! Why an object is refused. `specs/ObjectReading.antt` says in which order faults are looked for.
ghost use Rattle.std.specs.Prelude.{◌≡◌};
ghost use Rattle.lto_object.specs.declared.fault.ObjectError.TheVariants.{NoMemory};

use gimple_ir::{Summary, TypeFault};
use std::alloc::{AllocError, AllocFailed};
use thiserror::Error;

/// What is wrong with an object. Offsets are in bytes from the start of the file.
#[derive(Debug, Drop, PartialEq, Eq, Error)]
pub enum ObjectFault {
    /// The first four bytes are not those of ELF.
    #[error("NotElf {offset}")]
    NotElf {
        offset: u64,
    },
    /// No file of 64 bits with the low byte first, in the current version.
    #[error("WrongClass {offset}")]
    WrongClass {
        offset: u64,
    },
    /// No file to be linked for RISC-V, in the current version.
    #[error("WrongMachine {offset}")]
    WrongMachine {
        offset: u64,
    },
    /// The file ends before its header, its section table or a section does.
    #[error("Truncated {offset}")]
    Truncated {
        offset: u64,
    },
    /// One of the five sections is absent.
    #[error("MissingSection {offset}")]
    MissingSection {
        offset: u64,
    },
    /// A section has the name of an earlier one.
    #[error("DoubleSection {offset}")]
    DoubleSection {
        offset: u64,
    },
    /// A section's bytes are compressed.
    #[error("Compressed {offset}")]
    Compressed {
        offset: u64,
    },
    /// The format's version is not the one that is read.
    #[error("BadVersion {offset}")]
    BadVersion {
        offset: u64,
    },
    /// A field of a stream is bad.
    #[error("BadStream {offset}")]
    BadStream {
        offset: u64,
    },
    /// Bytes follow the section table.
    #[error("Trailing {offset}")]
    Trailing {
        offset: u64,
    },
    /// The checks find a fault in the module.
    #[error("{0:?}")]
    TypeFault(TypeFault),
    /// The summary that is stored for the function of this number is not the true one.
    #[error("SummaryDiffers {function}")]
    SummaryDiffers {
        function: u32,
        stored: Summary,
        found: Summary,
    },
    /// The symbols that are stored are not those of the module, from this place on.
    #[error("SymbolsDiffer {place}")]
    SymbolsDiffer {
        place: u32,
    },
    /// The file is not laid out as its sections are, or a section is not the form's.
    #[error("BadLayout {offset}")]
    BadLayout {
        offset: u64,
    },
}

/// Why an object is refused.
#[derive(Debug, Drop, PartialEq, Eq, Error)]
pub enum ObjectError {
    /// The object's first fault.
    #[error("{0}")]
    Fault(ObjectFault),
    #[error("out of memory")]
    NoMemory,
}

impl From<AllocError> for ObjectError {
    ghost from_gives = { λ _ e. e ≡ NoMemory };

    fn from(_error: AllocError) -> ObjectError {
        ObjectError::NoMemory
    }
}

impl<T: Drop> From<AllocFailed<T>> for ObjectError {
    ghost from_gives = { λ _ e. e ≡ NoMemory };

    fn from(_error: AllocFailed<T>) -> ObjectError {
        ObjectError::NoMemory
    }
}
