//! Relocatable ELF-64 files for RISC-V, each with one spelling: how sections are laid out in a file, and how they are read.
//!
//! In specs/, `Format` has the two headers, `Layout` the one layout of a list of sections, `Offsets` where they stand in it,
//! `Container` the lists of sections that a file can have, and `Reading` the first fault of a file. `read_rel` finds what
//! `write_rel` wrote, and nothing else: it lends the sections' bytes from the file, lays the sections out again, and compares.
//! That takes the file's size in memory beside the value, and time in proportion to it.
//!
//! `Relocatable` has the relocatable object of a unit: a container of four sections, `.text`, `.rela.text`, `.symtab` and `.strtab`,
//! whose entries `Entries` spells. `write_object` gives the one file of an object of the form, and `read_object_form` finds the
//! object of a file, as `ObjectReading` says: it parses, tests, writes again and compares.
#![tactic(auto)]

mod entries;
mod fault;
mod form;
mod format;
mod headers;
mod names;
mod object_form;
mod object_reading;
mod placing;
mod reading;
mod relocatable;
mod sections;
mod stands;
mod writing;

pub use fault::{ElfError, ElfFault, ElfKind};
pub use format::{R_RISCV_CALL_PLT, R_RISCV_HI20, R_RISCV_LO12_I, R_RISCV_LO12_S};
pub use object_reading::read_object_form;
pub use reading::read_rel;
pub use relocatable::{FormError, RelSymbol, Reloc, RelocObject, write_object};
pub use sections::{OwnSection, RelView, Section};
pub use stands::sections_stand_in_order;
pub use writing::write_rel;
