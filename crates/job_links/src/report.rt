//! What a report answers.
ghost use Rattle.std.specs.Prelude.{◌≡◌, ◌<◌, ◌^◌};
ghost use Rattle.job_links.specs.Statuses.{status_of, first_status};

use crate::line::{JobLine, Report};

impl JobLine {
    /// The status of a command that is refused for this; 0 where the job was done.
    pub fn status(&self) -> u8
        ensures { result ≡ status_of self.now }
    {
        match self {
            JobLine::Done { .. } => 0,
            JobLine::Object { .. } => 3,
            JobLine::TooLong | JobLine::Limit(_) => 4,
            JobLine::Read { .. } => 5,
            JobLine::Write => 6,
            JobLine::Memory => 7,
            JobLine::Unresolved(_) => 8,
        }
    }
}

/// The status of the first job that is refused, or 0.
pub fn status(report: &Report) -> u8
    ensures { result ≡ first_status report.now.lines }
{
    for line in report.lines.as_slice() {
        let status = line.status();
        if status != 0 {
            return status;
        }
    }
    0
}
