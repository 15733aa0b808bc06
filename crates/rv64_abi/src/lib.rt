//! What the RISC-V psABI adds to the instructions: names of registers, the two parts of an offset, and the call.
//! `specs/Registers.antt` and `specs/Offsets.antt` have the definitions.
#![tactic(auto)]

mod offset;
mod register;

pub use offset::{lower, upper};
pub use register::{A0, A1, A2, A7, RA, SP, T0, T1, T2, T3};
