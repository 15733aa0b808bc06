//! What the workers of a link share before they compile: the claims, from which each part is drawn once, the fork that
//! runs the workers, and the gate that is told of each compile.
//!
//! `Claims` is one atomic word, the number of draws so far. A seat is a right to draw, and has the numbers that it drew;
//! seats are split off for workers and joined again. `specs/Claims.antt` has what contracts see of them, and
//! `specs/Steps.antt` the rule that holds between any two steps on the word. `fork_workers` runs each work once, by
//! recursive join (`specs/Fork.antt`).
#![tactic(auto)]

mod claims;
mod fork;
mod gate;
mod steps;
mod view;

pub use claims::{ClaimSeat, Claims};
pub use fork::{Work, fork_workers};
pub use gate::{Gate, OpenGate};
pub use gimple_ir::NoMemory;
pub use view::SeatView;
