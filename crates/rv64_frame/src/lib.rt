//! The frame of a function: where its slots lie from the stack pointer up. `specs/Frames.antt` has the layout.
#![tactic(auto)]

pub mod layout;

pub use layout::{FrameLayout, frame};
