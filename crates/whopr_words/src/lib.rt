//! The words of a command, and job files. `specs/Commands.antt` says which words are a command, `specs/Jobs.antt` which jobs
//! a file spells or which of its lines is the first bad one.
#![tactic(auto)]

mod command;
mod fault;
mod fields;
mod job_file;

pub use command::{Command, read_words};
pub use fault::JobError;
pub use job_file::{Job, Jobs, read_jobs};
