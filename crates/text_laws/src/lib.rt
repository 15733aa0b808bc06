//! Laws of texts: what is printed of a checked module is read as that module, and what is read is a checked module.
//!
//! Both are laws over definitions, each on a function that does nothing. specs/Syntax has the syntax that the canonical text
//! of a module spells, item by item and line by line: the text spells it, and it makes the module.
#![tactic(auto)]

mod checked;
mod printed;

pub use checked::read_is_checked;
pub use printed::printed_is_read;
