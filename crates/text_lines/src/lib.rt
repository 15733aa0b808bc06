//! Texts of lines whose words are separated by one space: the lines in order with their numbers, the words of a line,
//! and names among them. `specs/Reading.antt` says what readers of such lines give, and which line is the first bad one;
//! `specs/Words.antt` what the words of a line are, and which of them are names.
#![tactic(auto)]

mod fault;
mod lines;
mod parts;

pub use fault::LineError;
pub use lines::LineReader;
pub use parts::{name, words};
