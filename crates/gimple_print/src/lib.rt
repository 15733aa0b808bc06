//! The printer of modules: `print_module` writes the one canonical text.
//!
//! In specs/, `Words` says how types, operators and literals are written, `Places` how variables and components are,
//! `Statements` how statements are, and `Canonical` the text of a whole module.
#![tactic(auto)]

mod canonical;
mod items;
mod places;
mod scope;
mod statements;
mod words;

pub use canonical::print_module;
pub use gimple_ir::NoMemory;
