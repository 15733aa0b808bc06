//! The checks of a module: `check_module` gives the first fault in the order of `Rattle.gimple_ir.specs.Checks`.
#![tactic(auto)]

mod bound;
mod check;
mod counts;
mod items;
mod kinds;
mod labels;
mod names;
mod scope;
mod types;

pub use bound::code_bound;
pub use check::{ModuleError, check_module};
