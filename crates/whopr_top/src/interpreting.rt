// The run of the program of a job file's only job.
ghost use Rattle.std.specs.Prelude.{◌≡◌, ◌≢◌, ◌<◌, ◌≤◌, ◌+◌, ◌^◌, ℕ, [], ◌∷◌, All, IfOk, IfErr, IfSome, List, Some, MatchOption, length, vec_len};
ghost use Rattle.gimple_ir.specs.Programs.{IsProgram};
ghost use Rattle.gimple_meaning.specs.Run.{src, outcome_of, output_of};
ghost use Rattle.lto_object.specs.Objects.{IsObject};
ghost use Rattle.resolution_text.specs.Reading.{resolution_in};
ghost use Rattle.whopr_words.specs.Commands.{Interp as InterpOf};
ghost use Rattle.job_links.specs.Reads.{reads_of as job_files};
ghost use Rattle.whopr_top.specs.Judgements.{Gives, Refuses, Judges, JudgesJob, only_of, job_program, program_under};
ghost use Rattle.whopr_top.specs.Lines.{standing_line, jobs_line};
ghost use Rattle.whopr_top.specs.Reads.{contents_of, job_reads, reads_of};
ghost use Rattle.whopr_top.specs.Interpreting.{of_resolution, Answers, ComesTo, IsStop};
ghost use Rattle.whopr_top.specs.Answers.{IsQuiet};
ghost use Rattle.whopr_top.specs.Attempts.{Attempt, Counted, Lined, Judged};
ghost use Rattle.whopr_top.specs.Refusal.{answer_of, text_of};

use crate::lines::standing_line;
use crate::reads::{ReadsFault, read_files};
use crate::refusal::{Refusal, ResolutionPlace};
use crate::resolving::{ObjectsFault, is_within_batch, objects_of};
use crate::top::FILE_BYTES;
use gimple_ir::{Name, NoMemory, Program};
use gimple_meaning::Interp;
use lto_object::Object;
use outer_files::{FileStore, ReadFault, WriteFault};
use program_link::first_passed;
use std::alloc::Global;
use symbol_resolution::{
    ResolutionError, are_few, merge, merged_programs, program_of, read_resolution,
};
use whopr_words::{Job, JobError, Jobs, read_jobs};

// ---- the program

// Objects that have no resolution, or that do not merge under it.
fn unresolved<'a>(fault: ResolutionError) -> Refusal<'a>
    ensures { result ≡ of_resolution fault }
{
    match fault {
        ResolutionError::AtLine { kind, line } => {
            Refusal::Resolution(kind, ResolutionPlace::AtLine(line))
        }
        ResolutionError::AtName { kind, name } => {
            Refusal::Resolution(kind, ResolutionPlace::AtName(name))
        }
        ResolutionError::NoMemory => Refusal::Memory,
    }
}

// The program of objects whose files have these names, under the resolution that a text spells.
fn program_of_objects<'a>(
    alloc: Global,
    names: &[Name],
    objects: &[Object<'_>],
    text: &[u8],
) -> Result<Program, Refusal<'a>>
    requires names { length names.now ≡ length objects.now }
    requires objects { All IsObject objects.now }
    requires short { length text.now + 1 < 2 ^ 32 }
    ensures exact { Answers result (program_under names.now objects.now (resolution_in text.now)) }
    ensures sound { IfOk result IsProgram }
{
    let resolution = match read_resolution(alloc, text) {
        Ok(resolution) => resolution,
        Err(fault) => return Err(unresolved(fault)),
    };
    if !are_few(objects) {
        return Err(Refusal::Memory);
    }
    let merged = match merge(alloc, objects, names, &resolution) {
        Ok(merged) => merged,
        Err(fault) => return Err(unresolved(fault)),
    };
    merged_programs();
    if let Some(passed) = first_passed(&merged) {
        return Err(Refusal::Limit(passed));
    }
    match program_of(alloc, objects, &merged) {
        Ok(program) => Ok(program),
        Err(_) => Err(Refusal::Memory),
    }
}

// The program of a job by the bytes of its files: its objects in order, and then its resolution.
fn program_of_job<'a>(
    alloc: Global,
    job: &Job,
    contents: &[Vec<u8>],
) -> Result<Program, Refusal<'a>>
    requires count { length contents.now ≡ length job.now.objects + 1 }
    requires within { All (λ bytes. vec_len bytes ≤ FILE_BYTES) contents.now }
    ensures exact { Answers result (job_program job.now (contents_of contents.now)) }
    ensures sound { IfOk result IsProgram }
{
    if !is_within_batch(contents) {
        return Err(Refusal::TooMuch);
    }
    let count = job.objects.len();
    let objects = match objects_of(alloc, &contents[..count]) {
        Ok(objects) => objects,
        Err(ObjectsFault::Object(number, fault)) => return Err(Refusal::Object(number, fault)),
        Err(ObjectsFault::NoMemory) => return Err(Refusal::Memory),
    };
    program_of_objects(alloc, job.objects.as_slice(), &objects, &contents[count])
}

// How a program stands after at most so many steps, as a line, and what it has written.
fn run_program(
    alloc: Global,
    program: &Program,
    given: Vec<u8>,
    steps: u64,
) -> Result<(Vec<u8>, Vec<u8>), NoMemory>
    requires { IsProgram program.now }
    ensures line { IfOk result (λ r. r.0.items ≡ standing_line (outcome_of (src program.now given.items steps))) }
    ensures output { IfOk result (λ r. r.1.items ≡ output_of (src program.now given.items steps)) }
{
    let mut interp = Interp::start(alloc, program, given)?;
    interp.run(steps)?;
    let output = Vec::from_slice(alloc, interp.output())?;
    let line = standing_line(alloc, interp.outcome())?;
    Ok((line.into_bytes(), output))
}

// ---- the job

// The names of the files of a job: its objects in order, and then its resolution.
fn files_of(alloc: Global, job: &Job) -> Result<Vec<Name>, NoMemory>
    ensures { IfOk result (λ names. names.items ≡ job_files job.now) }
{
    let mut names = Vec::new(alloc);
    for name in job.objects.as_slice() {
        names.push(name.copy()?)?;
    }
    names.push(job.resolution.copy()?)?;
    Ok(names)
}

// The only one of jobs.
fn only_job(jobs: &Jobs) -> Option<&Job>
    ensures { MatchOption result (only_of jobs.now.links ≡ Err (Refuses 10 (jobs_line 1))) (λ job. only_of jobs.now.links ≡ Ok job.now) }
{
    if jobs.links.len() != 1 {
        return None;
    }
    Some(jobs.links.get(0))
}

// How the program of a job stands after at most so many steps, as a line, and what it has written. The job's files are read, and then
// the input, if there is a program.
fn run_job<'a, F: FileStore>(
    alloc: Global,
    job: &Job,
    steps: u64,
    input: &'a str,
    files: &mut F,
) -> Result<(Vec<u8>, Vec<u8>), Refusal<'a>>
    ensures unchanged { F.held files.new ≡ F.held files.old }
    ensures never_falls { F.faults files.old ≤ F.faults files.new }
    ensures stands { IfOk result (λ r. (output : List ℕ) → IfSome (F.held files.old) (λ held. ComesTo FILE_BYTES held (job_reads held input.now job.now) (JudgesJob output steps job.now) (Gives ((output, r.1.items) ∷ []) r.0.items))) }
    ensures printed { IfOk result (λ r. r.0.items ≢ []) }
    ensures refused { IfErr result (λ refusal. (output : List ℕ) → IsStop FILE_BYTES (λ held. job_reads held input.now job.now) (JudgesJob output steps job.now) (F.held files.old) (F.faults files.old) (F.faults files.new) refusal) }
{
    let Ok(names) = files_of(alloc, job) else {
        return Err(Refusal::Memory);
    };
    let contents = match read_files(alloc, &names, files) {
        Ok(contents) => contents,
        Err(ReadsFault::Failed(name)) => return Err(Refusal::ReadOf(name)),
        Err(ReadsFault::TooLong) => return Err(Refusal::TooLong),
        Err(ReadsFault::NoMemory) => return Err(Refusal::Memory),
    };
    let program = match program_of_job(alloc, job, &contents) {
        Ok(program) => program,
        Err(refusal) => return Err(refusal),
    };
    let given = match files.read_all(alloc, input, FILE_BYTES) {
        Ok(given) => given,
        Err(ReadFault::Failed) => return Err(Refusal::Read(input)),
        Err(ReadFault::TooLong) => return Err(Refusal::TooLong),
        Err(ReadFault::NoMemory) => return Err(Refusal::Memory),
    };
    match run_program(alloc, &program, given, steps) {
        Ok(stood) => Ok(stood),
        Err(_) => Err(Refusal::Memory),
    }
}

// The same of the only job of a job file, which is read first.
fn run_only_job<'a, F: FileStore>(
    alloc: Global,
    jobs: &'a str,
    steps: u64,
    input: &'a str,
    files: &mut F,
) -> Result<(Vec<u8>, Vec<u8>), Refusal<'a>>
    ensures unchanged { F.held files.new ≡ F.held files.old }
    ensures never_falls { F.faults files.old ≤ F.faults files.new }
    ensures stands { IfOk result (λ r. (output : List ℕ) → IfSome (F.held files.old) (λ held. ComesTo FILE_BYTES held (reads_of held (InterpOf jobs.now steps input.now output)) (Judges (InterpOf jobs.now steps input.now output)) (Gives ((output, r.1.items) ∷ []) r.0.items))) }
    ensures printed { IfOk result (λ r. r.0.items ≢ []) }
    ensures refused { IfErr result (λ refusal. (output : List ℕ) → IsStop FILE_BYTES (λ held. reads_of held (InterpOf jobs.now steps input.now output)) (Judges (InterpOf jobs.now steps input.now output)) (F.held files.old) (F.faults files.old) (F.faults files.new) refusal) }
{
    let text = match files.read_all(alloc, jobs, FILE_BYTES) {
        Ok(text) => text,
        Err(ReadFault::Failed) => return Err(Refusal::Read(jobs)),
        Err(ReadFault::TooLong) => return Err(Refusal::TooLong),
        Err(ReadFault::NoMemory) => return Err(Refusal::Memory),
    };
    let spelled = match read_jobs(alloc, &text) {
        Ok(spelled) => spelled,
        Err(JobError::Fault { line }) => return Err(Refusal::Jobs(line)),
        Err(JobError::NoMemory) => return Err(Refusal::Memory),
    };
    let Some(job) = only_job(&spelled) else {
        return Err(Refusal::Jobs(1));
    };
    run_job(alloc, job, steps, input, files)
}

/// Runs the program of a job file's only job, and gives the line that says how it stands.
pub fn interp<'a, F: FileStore>(
    alloc: Global,
    jobs: &'a str,
    steps: u64,
    input: &'a str,
    out: &'a str,
    files: &mut F,
) -> Result<Vec<u8>, Refusal<'a>>
    ensures quiet { IfOk result (λ text. IsQuiet (Some (InterpOf jobs.now steps input.now out.now)) → text.items ≡ []) }
    ensures attempt { Attempt FILE_BYTES (Some (InterpOf jobs.now steps input.now out.now)) (F.held files.old) (F.held files.new) (answer_of result) }
    ensures counted { Counted (F.faults files.old) (F.faults files.new) (answer_of result) }
    ensures lined { Lined FILE_BYTES (Some (InterpOf jobs.now steps input.now out.now)) (F.held files.old) (answer_of result) (text_of result) }
    ensures judged { Judged FILE_BYTES (Some (InterpOf jobs.now steps input.now out.now)) (F.held files.old) (F.held files.new) (F.faults files.old) (F.faults files.new) (answer_of result) (text_of result) }
{
    let (line, output) = match run_only_job(alloc, jobs, steps, input, files) {
        Ok(stood) => stood,
        Err(refusal) => return Err(refusal),
    };
    match files.write_all(out, &output) {
        Ok(()) => Ok(line),
        Err(WriteFault::Failed) => Err(Refusal::Write(out)),
        Err(WriteFault::NoMemory) => Err(Refusal::Memory),
    }
}
