//! The symbols of a link: which definition of each name prevails, and the merged program of objects under a resolution.
//! `specs/Symbols.antt` has the symbols and what prevails, and `specs/Resolving.antt` the resolution of a link, or its first fault;
//! `specs/LineFaults.antt` and `specs/NameFaults.antt` have the faults of a resolution, `specs/Kept.antt` the definitions that are
//! kept, `specs/Numbers.antt` their numbers, `specs/Merging.antt` the merged program and the whole program that it stands for, and
//! `specs/Laws.antt` that this is well formed.
//!
//! `resolve` goes over the symbols once to learn what each name has, once to look for the first fault, and once to answer for each
//! symbol. `merge` finds the symbols of a name, and the number of a definition, in maps by name. The text of a resolution, and its
//! types, are those of `resolution_text`.
#![tactic(auto)]

mod definitions;
mod few;
mod groups;
mod kept;
mod laws;
mod lines;
mod linking;
mod marks;
mod merging;
mod names;
mod numbers;
mod program;
mod resolving;
mod table;
mod types;

pub use definitions::SymbolPlace;
pub use few::are_few;
pub use laws::merged_programs;
pub use merging::merge;
pub use program::program_of;
pub use resolution_text::{
    Resolution, ResolutionError, ResolutionKind, Resolved, ResolvedFile, Word, print_resolution,
    read_resolution,
};
pub use resolving::resolve;
