//! The top call: one command over any files and any sink.
//!
//! `specs/Built.antt` says which commands are built, `specs/Answers.antt` when each status comes and what is printed with it,
//! `specs/Reads.antt` what a command asks of its files, `specs/Judgements.antt` what it comes to by their bytes, `specs/Lines.antt`
//! how that is printed, and `specs/Outputs.antt` what the files hold afterwards.
#![tactic(auto)]

mod attempt;
mod compiling;
mod interpreting;
mod lines;
mod links;
mod objects;
mod reads;
mod refusal;
mod report;
mod resolving;
mod running;
mod top;

pub use top::{FILE_BYTES, plain, whopr};
