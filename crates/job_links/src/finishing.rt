//! Linking each job alone, and writing its image.
ghost use Rattle.std.specs.Prelude.{◌≡◌, ◌≤◌, ◌+◌, ◌^◌, ◌-◌, IfErr, IfOk, IsErr, IsOk, length, sum_by, true};
ghost use Rattle.std.specs.List.{AllZip};
ghost use Rattle.outer_files.specs.Outside.{Contents, WhereTold, OthersStand, RoseBy};
ghost use Rattle.job_links.specs.Reads.{GivesFiles, IsSuited, failures};
ghost use Rattle.job_links.specs.Answers.{IsAnswered, AreAnswered, AreDistinct, failures_in};
ghost use Rattle.job_links.specs.Linking.{IsOutcome, IsFinished, IsCounted, Tells, is_refusal};

use crate::line::JobLine;
use crate::linking::link_files;
use crate::reading::{JobFiles, ReadsFault};
use gimple_ir::{List, Name, NoMemory};
use outer_files::{FileStore, WriteFault};
use std::alloc::Global;
use whopr_words::Job;

// The image of a job whose files were read, or why it has none.
fn link_job(
    alloc: Global,
    job: &Job,
    reading: &Result<JobFiles, ReadsFault>,
    limit: u64,
) -> Result<Vec<u8>, JobLine>
    requires short { limit ≤ 2 ^ 32 - 2 }
    requires suited { IsSuited limit job.now reading.now }
    ensures outcome { (held : Contents) → GivesFiles limit held job.now reading.now → IsOutcome limit held job.now result }
    ensures counted { IfErr result (λ line. failures_in line ≡ failures reading.now) }
    ensures fewer { IfOk result (λ image. failures reading.now ≡ 0) }
    ensures refusal { IfErr result (λ line. is_refusal line ≡ true) }
    ensures told { IfErr result (λ line. Tells reading.now line) }
    ensures read { IfOk result (λ image. IsOk reading.now) }
{
    match reading {
        Ok(files) => link_files(alloc, job.objects.as_slice(), files),
        Err(ReadsFault::Failed { place }) => Err(JobLine::Read { place: *place }),
        Err(ReadsFault::TooLong) => Err(JobLine::TooLong),
        Err(ReadsFault::NoMemory) => Err(JobLine::Memory),
    }
}

// Links a job whose files were read, and writes its image.
fn finish<F: FileStore>(
    alloc: Global,
    job: &Job,
    reading: &Result<JobFiles, ReadsFault>,
    limit: u64,
    files: &mut F,
) -> JobLine
    requires short { limit ≤ 2 ^ 32 - 2 }
    requires suited { IsSuited limit job.now reading.now }
    ensures others { WhereTold (F.held files.old) (F.held files.new) (OthersStand job.now.out) }
    ensures answered { WhereTold (F.held files.old) (F.held files.new) (IsFinished limit job.now reading.now result) }
    ensures never_falls { F.faults files.old ≤ F.faults files.new }
    ensures counted { IsCounted (failures reading.now) (failures_in result) (F.faults files.old) (F.faults files.new) }
    ensures told { Tells reading.now result }
{
    let image = match link_job(alloc, job, reading, limit) {
        Ok(image) => image,
        Err(line) => return line,
    };
    let bytes = image.len() as u64;
    match files.write_all(job.out.as_str(), &image) {
        Ok(()) => JobLine::Done { bytes },
        Err(WriteFault::Failed) => JobLine::Write,
        Err(WriteFault::NoMemory) => JobLine::Memory,
    }
}

/// Links each job whose files were read, in order, and writes its image. There is want of memory only before the first write.
pub fn finish_each<F: FileStore>(
    alloc: Global,
    jobs: &[Job],
    readings: &[Result<JobFiles, ReadsFault>],
    limit: u64,
    files: &mut F,
) -> Result<List<JobLine>, NoMemory>
    requires short { limit ≤ 2 ^ 32 - 2 }
    requires distinct { AreDistinct jobs.now }
    requires suited { AllZip (IsSuited limit) jobs.now readings.now }
    ensures unchanged { IsErr result → (F.held files.new ≡ F.held files.old) × (F.faults files.new ≡ F.faults files.old) }
    ensures answered { IfOk result (λ lines. WhereTold (F.held files.old) (F.held files.new) (λ old new. AllZip (GivesFiles limit old) jobs.now readings.now → AreAnswered limit jobs.now lines old new)) }
    ensures count { IfOk result (λ lines. length lines ≡ length jobs.now) }
    ensures never_falls { F.faults files.old ≤ F.faults files.new }
    ensures counted { IfOk result (λ lines. IsCounted (sum_by failures readings.now) (sum_by failures_in lines) (F.faults files.old) (F.faults files.new)) }
    ensures told { IfOk result (λ lines. AllZip Tells readings.now lines) }
{
    let mut lines = Vec::with_capacity(alloc, jobs.len())?;
    for (place, job) in jobs.iter().enumerate() {
        let line = finish(alloc, job, &readings[place], limit, files);
        if lines.push(line).is_err() {
            unreachable!();
        }
    }
    Ok(List::from_vec(lines))
}
