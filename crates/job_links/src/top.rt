//! The command that links the jobs of a job file.
ghost use Rattle.std.specs.Prelude.{◌≡◌, ◌≤◌, ◌^◌, ◌-◌, All, IfErr, IfOk, IfSome, IsErr, IsErrOf, length, sum_by};
ghost use Rattle.outer_files.specs.Outside.{WhereTold, Rose, RoseBy};
ghost use Rattle.job_links.specs.Reads.{batch_of};
ghost use Rattle.job_links.specs.Answers.{AreAnswered, AreJobs, IsCause, IsComplete, WasRead, batch_told, failures_in};

use crate::distinct::jobs_are_distinct;
use crate::finishing::finish_each;
use crate::line::{JobsRefusal, Report};
use crate::reading::read_each;
use outer_files::{FileStore, ReadFault};
use std::alloc::Global;
use whopr_words::{JobError, read_jobs};

/// The most bytes that the objects and resolutions of a command have together: 256 MiB.
pub const BATCH_BYTES: u64 = 1 << 28;

// What `link_jobs` does.
fn link_all<F: FileStore>(
    alloc: Global,
    jobs: &str,
    limit: u64,
    files: &mut F,
) -> Result<Report, JobsRefusal>
    requires short { limit ≤ 2 ^ 32 - 2 }
    ensures spelled { IfOk result (λ report. IfSome (F.held files.old) (λ held. AreJobs limit held jobs.now report.jobs)) }
    ensures answered { IfOk result (λ report. WhereTold (F.held files.old) (F.held files.new) (AreAnswered limit report.jobs.links report.lines)) }
    ensures count { IfOk result (λ report. length report.lines ≡ length report.jobs.links) }
    ensures counted { IfOk result (λ report. RoseBy (sum_by failures_in report.lines) (F.faults files.old) (F.faults files.new)) }
    ensures read { IfOk result (λ report. IfSome (F.held files.old) (λ held. batch_told limit held report.jobs.links report.lines ≤ 2 ^ 28)) }
    ensures cause { IfErr result (λ refusal. IfSome (F.held files.old) (λ held. IsCause limit held jobs.now refusal)) }
    ensures failed { IsErrOf result JobsRefusal.Read → Rose (F.faults files.old) (F.faults files.new) }
    ensures refused { IsErr result → F.held files.new ≡ F.held files.old }
    ensures never_falls { F.faults files.old ≤ F.faults files.new }
{
    let text = match files.read_all(alloc, jobs, limit) {
        Ok(text) => text,
        Err(ReadFault::Failed) => return Err(JobsRefusal::Read),
        Err(ReadFault::TooLong) => return Err(JobsRefusal::TooLong),
        Err(ReadFault::NoMemory) => return Err(JobsRefusal::Memory),
    };
    let jobs = match read_jobs(alloc, &text) {
        Ok(jobs) => jobs,
        Err(JobError::Fault { line }) => return Err(JobsRefusal::Jobs { line }),
        Err(JobError::NoMemory) => return Err(JobsRefusal::Memory),
    };
    jobs_are_distinct();
    let links = jobs.links.as_slice();
    let mut total = 0;
    let Ok(readings) = read_each(alloc, links, limit, &mut total, files) else {
        return Err(JobsRefusal::Memory);
    };
    if total > BATCH_BYTES {
        return Err(JobsRefusal::BatchBytes);
    }
    match finish_each(alloc, links, readings.as_slice(), limit, files) {
        Ok(lines) => Ok(Report { jobs, lines }),
        Err(_) => Err(JobsRefusal::Memory),
    }
}

/// Links the jobs that a file spells, each alone, and writes their images. All files are read first: for each job its objects in
/// order and then its resolution, each of at most `limit` bytes. A job that is refused leaves the others as they are.
pub fn link_jobs<F: FileStore>(
    alloc: Global,
    jobs: &str,
    limit: u64,
    files: &mut F,
) -> Result<Report, JobsRefusal>
    requires short { limit ≤ 2 ^ 32 - 2 }

    // The jobs are those that the file spells.
    ensures spelled { IfOk result (λ report. IfSome (F.held files.old) (λ held. AreJobs limit held jobs.now report.jobs)) }

    // Each has the line and the image that it has alone; but that a read or a write may fail, and memory may run out. Every other file
    // stands.
    ensures answered { IfOk result (λ report. WhereTold (F.held files.old) (F.held files.new) (AreAnswered limit report.jobs.links report.lines)) }
    ensures count { IfOk result (λ report. length report.lines ≡ length report.jobs.links) }

    // There are no more lines of files that could not be read or written than the store's count of faults rose.
    ensures counted { IfOk result (λ report. RoseBy (sum_by failures_in report.lines) (F.faults files.old) (F.faults files.new)) }

    // What was read, as the lines tell, is not too large together; nor are all files, where each could be read.
    ensures read { IfOk result (λ report. IfSome (F.held files.old) (λ held. batch_told limit held report.jobs.links report.lines ≤ 2 ^ 28)) }
    ensures small { IfOk result (λ report. IfSome (F.held files.old) (λ held. All WasRead report.lines → batch_of limit held report.jobs.links ≤ 2 ^ 28)) }

    // The whole command is refused for a cause, and leaves the files as they were.
    ensures cause { IfErr result (λ refusal. IfSome (F.held files.old) (λ held. IsCause limit held jobs.now refusal)) }
    ensures failed { IsErrOf result JobsRefusal.Read → Rose (F.faults files.old) (F.faults files.new) }
    ensures refused { IsErr result → F.held files.new ≡ F.held files.old }
    ensures never_falls { F.faults files.old ≤ F.faults files.new }

    // Where no count of faults rises, each job has the line that it has alone, and only want of memory keeps a valid command from being
    // done.
    ensures complete { ¬ Rose (F.faults files.old) (F.faults files.new) → IfSome (F.held files.old) (λ held. IsComplete limit held jobs.now result) }
{
    link_all(alloc, jobs, limit, files)
}
