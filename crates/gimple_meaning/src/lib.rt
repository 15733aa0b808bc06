//! What a program means: the definitions of statements, steps and runs that every later program is compared with, and an
//! interpreter that computes them.
//!
//! In specs/, `Acts` says what one statement does to its frame, `Systems` what acts do to the stack of frames and what a step is,
//! `Source` gives the statements of the source language and `Steps` those of versioned functions, `Run` has the run of at most n
//! steps and what it shows, `Laws` what holds of every run, and `LockStep` when two programs run in lock-step. `Shown` says when what
//! one run shows follows another's, whatever it is that runs, and `Keeping` when a program's run keeps another program's. `Held`,
//! `Moves`, `Stages`, `Tables` and the views are the interpreter's own.
#![tactic(auto)]

mod arrays;
mod cells;
mod frames;
mod interp;
mod laws;
mod layout;
mod moves;
mod outcome;
mod passing;
mod phase;
mod stage;

pub use gimple_ir::NoMemory;
pub use interp::Interp;
pub use laws::{following, keeping, lock_step, run_laws};
pub use outcome::Outcome;
