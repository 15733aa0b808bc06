//! Which functions and arrays of a merged program take part in a link. `specs/Live.antt` says which functions are live,
//! `specs/Keeping.antt` which arrays are kept.
//!
//! `live` marks the exported functions, and then what each marked function calls, once for each function and call.
//! `kept_arrays` goes once over what the live functions name.
#![tactic(auto)]

mod keeping;
mod marking;

pub use keeping::kept_arrays;
pub use marking::live;
