//! The summary of a function: what the whole program is decided from, without its body. `specs/Summaries.antt` says what
//! a summary holds, `specs/JumpFunctions.antt` what an argument of a call is, said over the caller's parameters, and
//! `specs/Summarised.antt` when what a link knows of a whole program is true of it.
//!
//! `summarise` goes over the body once for each part of the summary: the operand places, the assignments, the arrays and
//! the calls. Places and assignments are counted in a table of the function's components, so that no part scans the
//! statements for one component or one call.
#![tactic(auto)]

mod arrays;
mod assignments;
mod edges;
mod jumps;
mod layout;
mod places;
mod summaries;

pub use assignments::{Assigned, Assignment};
pub use places::Place;
pub use summaries::summarise;
