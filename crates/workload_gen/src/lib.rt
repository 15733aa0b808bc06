//! Generated programs of any size: modules of functions that compute and call each other, from a seed and a count.
//!
//! Each function is drawn by a linear congruence: two operators, a number, and a call to one of the next seven functions.
//! Fifty functions make a module; `main`, in the first one, calls each tenth function. In specs/, `Draws` says which
//! numbers are drawn, `Choices` what they decide, `Functions` the text of a function, and `Modules` where it stands.
#![tactic(auto)]

mod choices;
mod draws;
mod functions;
mod modules;
mod places;

pub use gimple_ir::NoMemory;
pub use modules::generate;
