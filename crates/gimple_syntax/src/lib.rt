//! A text, read to the module that it spells, or to its first fault with its line.
//!
//! `gimple_grammar` reads the syntax. Here names become numbers, and the module is checked. In specs/, `Numbers` says what
//! number a name has and what value a literal, `Places` what the names in a function stand for, `Statements` which
//! statement a form is, `Items` which module the items make, and `Reading` which fault is the first; `Passes` says what is
//! read of a text item by item, `Table` and `Layouts` what the tables of the lookups hold.
#![tactic(auto)]

mod functions;
mod items;
mod laws;
mod lent;
mod lines;
mod literals;
mod modules;
mod named;
mod outlines;
mod read;
mod scope;
mod statements;
mod table;
mod text;

pub use gimple_ir::NoMemory;
pub use laws::stand_ins_are_ill_typed;
pub use read::read_module;
pub use text::{TextError, TextFault, TextKind};
