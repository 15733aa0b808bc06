//! One solver for data-flow equations: the greatest solution of a system over a lattice of finite height.
//!
//! A `System` has unknowns, a lattice of values, and for each unknown a monotone equation that gives its value from
//! those of all. `solve` starts with every unknown at top and keeps a list of the unknowns whose equation may now give
//! less. It takes the first, applies its equation and meets the result with the value that stands. Where the value
//! falls, the unknowns that read it go on the list. When the list is empty, the values are the greatest solution.
//!
//! `specs/Rounds.antt` says that value apart from any list: every equation is applied in whole rounds, `unknowns *
//! height + 1` of them. `specs/Systems.antt` has the laws that a system keeps, and the bound on the work: each
//! equation is applied once, and again for each entry in the list of readers of a value that falls, which it does
//! `height` times at most. `Steps` counts the applications for proofs alone and takes no bytes.
#![tactic(auto)]

mod solving;
mod steps;
mod system;
mod worklist;

pub use solving::solve;
pub use std::alloc::AllocError as NoMemory;
pub use steps::Steps;
pub use system::System;
