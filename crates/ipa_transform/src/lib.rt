//! The body of a version of a function, over components alone: what the back end compiles.
//!
//! In specs/, `Versioned` has the step of each statement and the version of a member, and `Members` what is asked of a member.
#![tactic(auto)]

mod components;
mod layout;
mod members;
mod steps;

pub use members::version_body;
