//! The machine that an image runs on: a hart of RV64IM over two segments of memory, with input and output.
//! `specs/Machine.antt` has the machine, `specs/Arithmetic.antt` its numbers, `specs/Loading.antt` the images that can be loaded,
//! `specs/View.antt` what the program's machine stands for, and `specs/Laws.antt` what holds of every run.
#![tactic(auto)]

mod arithmetic;
mod bytes;
mod effect;
mod event;
mod fault;
mod hart;
mod laws;
mod loading;
mod machine;
mod memory;

pub use event::{Event, MachineState};
pub use fault::{ImageFault, LoadError};
pub use laws::{memory_laws, run_laws};
pub use machine::Machine;
pub use std::alloc::AllocError as NoMemory;
