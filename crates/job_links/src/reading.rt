//! Reading the files of jobs, one after the other.
ghost use Rattle.std.specs.Prelude.{◌≡◌, ◌≤◌, ◌+◌, All, IfOk, IfSome, length, sum_by};
ghost use Rattle.std.specs.List.{AllZip};
ghost use Rattle.outer_files.specs.Outside.{RoseBy};
ghost use Rattle.job_links.specs.Reads.{GivesFile, GivesContents, GivesFiles, IsSuited, failures, size_by, size_of, sizes_of, batch_of, size_read, size_given, batch_given, reads_of};

use gimple_ir::{List, Name, NoMemory};
use outer_files::{FileStore, ReadFault};
use std::alloc::Global;
use whopr_words::Job;

/// The bytes of a job's files.
#[derive(Drop)]
pub struct JobFiles {
    /// Of its objects, in order.
    pub objects: List<List<u8>>,
    pub resolution: List<u8>,
}

/// Why the files of a job could not be read.
#[derive(Clone, Copy, Debug, PartialEq, Eq)]
pub enum ReadsFault {
    /// The file with this number could not be read.
    Failed { place: usize },
    /// A file is too long.
    TooLong,
    NoMemory,
}

// The bytes of one file, which has a number among those of its job. What is read is counted.
fn read_file<F: FileStore>(
    alloc: Global,
    place: usize,
    name: &Name,
    limit: u64,
    total: &mut u64,
    files: &mut F,
) -> Result<List<u8>, ReadsFault>
    ensures unchanged { F.held files.new ≡ F.held files.old }
    ensures gives { IfSome (F.held files.old) (λ held. GivesFile place limit (held name.now) result) }
    ensures within { IfOk result (λ bytes. length bytes ≤ limit) }
    ensures never_falls { F.faults files.old ≤ F.faults files.new }
    ensures counted { RoseBy (failures result) (F.faults files.old) (F.faults files.new) }
    ensures size { IfSome (F.held files.old) (λ held. total.new ≤ total.old + size_by limit (held name.now) 0) }
    ensures least { RoseBy (size_read result) total.old total.new }
{
    match files.read_all(alloc, name.as_str(), limit) {
        Ok(bytes) => {
            *total = total.saturating_add(bytes.len() as u64);
            Ok(List::from_vec(bytes))
        }
        Err(ReadFault::Failed) => Err(ReadsFault::Failed { place }),
        Err(ReadFault::TooLong) => Err(ReadsFault::TooLong),
        Err(ReadFault::NoMemory) => Err(ReadsFault::NoMemory),
    }
}

// The bytes of the objects of a job, up to the first file that can't be read.
fn read_objects<F: FileStore>(
    alloc: Global,
    names: &[Name],
    limit: u64,
    total: &mut u64,
    files: &mut F,
) -> Result<List<List<u8>>, ReadsFault>
    ensures unchanged { F.held files.new ≡ F.held files.old }
    ensures gives { IfSome (F.held files.old) (λ held. GivesContents limit held names.now result) }
    ensures count { IfOk result (λ contents. length contents ≡ length names.now) }
    ensures within { IfOk result (λ contents. All (λ bytes. length bytes ≤ limit) contents) }
    ensures never_falls { F.faults files.old ≤ F.faults files.new }
    ensures counted { RoseBy (failures result) (F.faults files.old) (F.faults files.new) }
    ensures size { IfSome (F.held files.old) (λ held. total.new ≤ total.old + size_of limit held names.now) }
    ensures least { IfSome (F.held files.old) (λ held. RoseBy (size_given limit held names.now result) total.old total.new) }
{
    let mut contents: List<List<u8>> = List::new(alloc);
    for (place, name) in names.iter().enumerate() {
        let bytes = read_file(alloc, place, name, limit, total, files)?;
        if contents.push(bytes).is_err() {
            return Err(ReadsFault::NoMemory);
        }
    }
    Ok(contents)
}

// The bytes of the files of a job: its objects in order, and then its resolution.
fn read_job<F: FileStore>(
    alloc: Global,
    job: &Job,
    limit: u64,
    total: &mut u64,
    files: &mut F,
) -> Result<JobFiles, ReadsFault>
    ensures unchanged { F.held files.new ≡ F.held files.old }
    ensures gives { IfSome (F.held files.old) (λ held. GivesFiles limit held job.now result) }
    ensures suited { IsSuited limit job.now result }
    ensures never_falls { F.faults files.old ≤ F.faults files.new }
    ensures counted { RoseBy (failures result) (F.faults files.old) (F.faults files.new) }
    ensures size { IfSome (F.held files.old) (λ held. total.new ≤ total.old + sizes_of limit held job.now) }
    ensures least { IfSome (F.held files.old) (λ held. RoseBy (size_given limit held (reads_of job.now) result) total.old total.new) }
{
    let objects = match read_objects(alloc, job.objects.as_slice(), limit, total, files) {
        Ok(objects) => objects,
        Err(fault) => return Err(fault),
    };
    let place = job.objects.len();
    match read_file(alloc, place, &job.resolution, limit, total, files) {
        Ok(resolution) => Ok(JobFiles {
            objects,
            resolution,
        }),
        Err(fault) => Err(fault),
    }
}

/// The files of each job. A job of which one can't be read has no further reads. The bytes that are read are counted.
pub fn read_each<F: FileStore>(
    alloc: Global,
    jobs: &[Job],
    limit: u64,
    total: &mut u64,
    files: &mut F,
) -> Result<List<Result<JobFiles, ReadsFault>>, NoMemory>
    ensures unchanged { F.held files.new ≡ F.held files.old }
    ensures gives { IfOk result (λ readings. IfSome (F.held files.old) (λ held. AllZip (GivesFiles limit held) jobs.now readings)) }
    ensures suited { IfOk result (λ readings. AllZip (IsSuited limit) jobs.now readings) }
    ensures never_falls { F.faults files.old ≤ F.faults files.new }
    ensures counted { IfOk result (λ readings. RoseBy (sum_by failures readings) (F.faults files.old) (F.faults files.new)) }
    ensures size { IfSome (F.held files.old) (λ held. total.new ≤ total.old + batch_of limit held jobs.now) }
    ensures least { IfOk result (λ readings. IfSome (F.held files.old) (λ held. RoseBy (batch_given limit held jobs.now readings) total.old total.new)) }
{
    let mut readings: List<Result<JobFiles, ReadsFault>> = List::new(alloc);
    for job in jobs {
        let reading = read_job(alloc, job, limit, total, files);
        readings.push(reading)?;
    }
    Ok(readings)
}
