// The command that links the jobs of a file, and its report.
ghost use Rattle.std.specs.Prelude.{◌≡◌, ◌≢◌, ◌⊎◌, ◌++◌, IfOk, OnOk, IsTrue, length, string_bytes};
ghost use Rattle.job_links.specs.Statuses.{first_status};
ghost use Rattle.whopr_top.specs.Answers.{is_status, after_fault};
ghost use Rattle.whopr_top.specs.Links.{name_at, unresolved_line, said_of, job_line, report_of, jobs_status, jobs_refusal_line, Links};
ghost use Rattle.whopr_top.specs.Refusal.{status_of, refusal_line, Reports};

use crate::lines::{limit_line, object_line, resolution_at_line, resolution_at_name};
use crate::refusal::{Refusal, read_line};
use crate::report::{print, report};
use crate::top::FILE_BYTES;
use gimple_ir::Name;
use job_links::{JobLine, JobsRefusal, Report, link_jobs, status};
use outer_files::{FileStore, Sink};
use std::alloc::{AllocError, Global};
use symbol_resolution::ResolutionError;
use whopr_words::Job;

// The name of the file at a place among those that a job reads: its objects and then its resolution.
fn name_at(job: &Job, place: usize) -> &Name
    ensures { result.now ≡ name_at job.now place }
{
    if place < job.objects.len() {
        job.objects.get(place)
    } else {
        &job.resolution
    }
}

// The line of a fault of a resolution or of merging.
fn unresolved_line(alloc: Global, fault: &ResolutionError) -> Result<String, AllocError>
    ensures { IfOk result (λ line. string_bytes line ≡ unresolved_line fault.now) }
{
    match fault {
        ResolutionError::AtLine { kind, line } => resolution_at_line(alloc, *kind, *line),
        ResolutionError::AtName { kind, name } => resolution_at_name(alloc, *kind, name),
        ResolutionError::NoMemory => format!(in alloc; "7 memory\n"),
    }
}

// How a job went, as it is printed behind the name of its file.
fn said(alloc: Global, job: &Job, line: &JobLine) -> Result<String, AllocError>
    ensures { IfOk result (λ text. string_bytes text ≡ said_of job.now line.now) }
{
    match line {
        JobLine::Done { bytes } => format!(in alloc; "ok {bytes}\n"),
        JobLine::Object { number, fault } => object_line(alloc, *number, fault),
        JobLine::TooLong => format!(in alloc; "4 limit FileBytes 16777217 16777216\n"),
        JobLine::Limit(passed) => limit_line(alloc, *passed),
        JobLine::Read { place } => read_line(alloc, name_at(job, *place).as_str()),
        JobLine::Write => {
            let out = job.out.as_str();
            format!(in alloc; "6 write {out}\n")
        }
        JobLine::Memory => format!(in alloc; "7 memory\n"),
        JobLine::Unresolved(fault) => unresolved_line(alloc, fault),
    }
}

// Appends the line of a job.
fn push_job(alloc: Global, text: &mut String, job: &Job, line: &JobLine) -> Result<(), AllocError>
    ensures { OnOk result (string_bytes text.new ≡ string_bytes text.old ++ job_line job.now line.now) }
{
    let said = said(alloc, job, line)?;
    text.push_str(job.out.as_str())?;
    text.push_str(" ")?;
    text.push_str(said.as_str())
}

// A line for each job.
fn report_text(alloc: Global, jobs: &[Job], lines: &[JobLine]) -> Result<String, AllocError>
    requires { length lines.now ≡ length jobs.now }
    ensures { IfOk result (λ text. string_bytes text ≡ report_of jobs.now lines.now) }
{
    let mut text = String::from_str(alloc, "")?;
    for (place, job) in jobs.iter().enumerate() {
        push_job(alloc, &mut text, job, &lines[place])?;
    }
    Ok(text)
}

// Prints the report, and answers the status of the first job that is refused, or 0.
fn tell_report<K: Sink>(alloc: Global, report: &Report, out: &mut K) -> u8
    requires { length report.now.lines ≡ length report.now.jobs.links }
    ensures status { (result ≡ first_status report.now.lines) ⊎ (result ≡ after_fault (first_status report.now.lines)) ⊎ (result ≡ 7) }
    ensures printed { Reports (report_of report.now.jobs.links report.now.lines) (first_status report.now.lines) result (K.known out.old) (K.known out.new) }
{
    match report_text(alloc, report.jobs.links.as_slice(), report.lines.as_slice()) {
        Ok(text) => print(text.as_bytes(), status(report), out),
        Err(_) => print(b"7 memory\n", 7, out),
    }
}

// Why a command over jobs is refused as a whole.
fn refusal_of<'a>(jobs: &'a str, refused: JobsRefusal) -> Refusal<'a>
    ensures status { status_of result ≡ jobs_status refused }
    ensures line { refusal_line result ≡ jobs_refusal_line jobs.now refused }
{
    match refused {
        JobsRefusal::Read => Refusal::Read(jobs),
        JobsRefusal::TooLong => Refusal::TooLong,
        JobsRefusal::Jobs { line } => Refusal::Jobs(line),
        JobsRefusal::BatchBytes => Refusal::TooMuch,
        JobsRefusal::Memory => Refusal::Memory,
    }
}

/// Links the jobs of a file, each alone, and prints a report; or why the jobs are refused together.
pub fn link<F: FileStore, K: Sink>(alloc: Global, jobs: &str, files: &mut F, out: &mut K) -> u8
    ensures answers { IsTrue (is_status result) }
    ensures words { result ≢ 2 }
    ensures links { Links FILE_BYTES jobs.now (F.held files.old) (F.held files.new) (F.faults files.old) (F.faults files.new) result (K.known out.old) (K.known out.new) }
{
    match link_jobs(alloc, jobs, FILE_BYTES, files) {
        Ok(linked) => tell_report(alloc, &linked, out),
        Err(refused) => report(alloc, refusal_of(jobs, refused), out),
    }
}
