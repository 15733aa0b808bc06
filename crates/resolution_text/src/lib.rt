//! The text of a resolution: what a linker answers of each symbol of each file. `specs/Fields.antt` says what the words of a
//! line are, `specs/Reading.antt` which resolution a text spells or which of its lines is the first bad one, and
//! `specs/Printing.antt` what the one printed text of a resolution is.
#![tactic(auto)]

mod fault;
mod fields;
mod printing;
mod reading;
mod resolution;

pub use fault::{ResolutionError, ResolutionKind};
pub use printing::{print_resolution, printed_text_is_read};
pub use reading::read_resolution;
pub use resolution::{Resolution, Resolved, ResolvedFile, Word};
