//! Why a file is refused. Faults are looked for in the order of `specs/Reading.antt`: the file's first bytes, its length, its
//! class, its machine, the ends of its table and sections, bytes that follow, compressed sections, and last the layout.
ghost use Rattle.std.specs.Prelude.{◌≡◌};
ghost use Rattle.elf_container.specs.declared.fault.ElfError.TheVariants.{NoMemory};

use std::alloc::{AllocError, AllocFailed};
use thiserror::Error;

/// What is wrong with a file.
#[derive(Clone, Copy, Debug, PartialEq, Eq)]
pub enum ElfKind {
    /// The first four bytes are not those of ELF.
    NotElf,
    /// No file of 64 bits with the low byte first, in the current version.
    WrongClass,
    /// No file to be linked for RISC-V, in the current version.
    WrongMachine,
    /// The file ends before its header, its section table or a section does.
    Truncated,
    /// Bytes follow the section table.
    Trailing,
    /// A section's bytes are compressed.
    Compressed,
    /// The bytes are not the layout of the sections.
    BadLayout,
}

/// A fault and its place, in bytes from the start of the file.
#[derive(Clone, Copy, Debug, PartialEq, Eq)]
pub struct ElfFault {
    pub kind: ElfKind,
    pub offset: u64,
}

/// Why a file is refused.
#[derive(Clone, Copy, Debug, PartialEq, Eq, Error)]
pub enum ElfError {
    /// The file's first fault.
    #[error("{0:?}")]
    Fault(ElfFault),
    #[error("out of memory")]
    NoMemory,
}

impl From<AllocError> for ElfError {
    ghost from_gives = { λ _ e. e ≡ NoMemory };

    fn from(_error: AllocError) -> ElfError {
        ElfError::NoMemory
    }
}

impl<T: Drop> From<AllocFailed<T>> for ElfError {
    ghost from_gives = { λ _ e. e ≡ NoMemory };

    fn from(_error: AllocFailed<T>) -> ElfError {
        ElfError::NoMemory
    }
}
