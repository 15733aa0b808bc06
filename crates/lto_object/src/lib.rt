//! Objects of link-time optimisation: the one file that a module is stored as, and reading it again, up to the first fault.
//!
//! In specs/, `Objects` has the object of a module, with its symbols; `Forms` the sections of an object; `ObjectReading` what reading
//! gives, with its faults in order; `BodyStream`, `SummaryStream` and `SymbolStream` the streams that stand here, each with one
//! spelling and read from left to right up to the first bad field, within the bounds of `Bounds`. `lgen` writes the object of a
//! checked module; `read_object` reads it again, and nothing else.
#![tactic(auto)]

mod bodies;
mod bounds;
mod checks;
mod fault;
mod form;
mod jump_codes;
mod listing;
mod object;
mod reading;
mod sections;
mod streams;
mod summaries;
mod summary_fields;
mod symbol;
mod symbols;
mod writing;

pub use fault::{ObjectError, ObjectFault};
pub use object::Object;
pub use reading::read_object;
pub use symbol::Symbol;
pub use writing::lgen;
