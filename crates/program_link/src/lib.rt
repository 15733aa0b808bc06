//! The image of a whole program whose summaries are known: one version of each function that is needed, under the plan of these
//! summaries.
//!
//! In specs/, `Versions` has the versions of a plan as the back end takes them, `Objects` the relocatable object of a version, `Linking`
//! the limits of a link and what the image is, and `Laws` what is known of the versions, as the layers above use it.
#![tactic(auto)]

mod copies;
mod fault;
mod laws;
mod limits;
mod linking;
mod members;
mod objects;
mod symbols;

pub use fault::{LimitFault, LinkError, Quantity};
pub use laws::versioned;
pub use limits::first_passed;
pub use linking::link_program;
