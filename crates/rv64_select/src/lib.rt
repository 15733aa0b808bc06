//! Instruction selection: the words of a function in an object, by a fixed table of steps.
//!
//! In specs/, `Templates` has constants and accesses to the frame, `Operations` the instructions that operators and types choose,
//! `Assembly` the step table, by which a function becomes a list of items without addresses, and `Code` the two readings of such a
//! list: at an address, and in an object, where `Selected` has the relocations beside the words. `Versioned` says what is asked
//! of a function, and how long its code may get.
//!
//! The code makes the list, finds where labels stand, and writes words, references and names, each in one pass.
#![tactic(auto)]

pub mod constants;
pub mod item;
pub mod labels;
pub mod names;
pub mod operations;
pub mod references;
pub mod selection;
pub mod slots;
pub mod steps;
pub mod words;

pub use item::{Item, Symbol};
pub use selection::{FunctionCode, code};
