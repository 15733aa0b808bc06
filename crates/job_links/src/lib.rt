//! The command that links each job of a job file: all files are read first, then each job is linked alone and its image is written.
//!
//! In specs/, `Reads` has what the files of a job hold, `Alone` what a job comes to by these alone, and `Answers` what a report says
//! and what the files hold afterwards. `link_jobs` does the command; `report_text` and `status` are what it prints and answers.
#![tactic(auto)]

mod distinct;
mod finishing;
mod line;
mod linking;
mod merged;
mod reading;
mod report;
mod top;

pub use line::{JobLine, JobsRefusal, Report};
pub use merged::merged_job;
pub use reading::{JobFiles, ReadsFault};
pub use report::status;
pub use top::{BATCH_BYTES, link_jobs};
