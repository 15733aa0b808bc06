//! Job files: the links of a command, each with its choices and the names of its files.
ghost use Rattle.std.specs.Prelude.{◌≡◌, ◌+◌, ◌≤◌, ◌<◌, ◌^◌, ◌-◌, [], IfOk, IfSome, IsTrue, length, sum_by};
ghost use Rattle.std.specs.List.{list_any};
ghost use Rattle.std.specs.Str.{bytes_eq};
ghost use Rattle.text_lines.specs.Reading.{Gives, GivesAll, line_by, counted};
ghost use Rattle.whopr_words.specs.Jobs.{Answers, is_allowed, stands_before, workers_of, options_by, link_at, link_by, batch_at, object_at, job_by, links_after, jobs_by, jobs_in};
ghost use Rattle.whopr_words.specs.WordReading.{Finds};

use crate::fault::JobError;
use crate::fields::Words;
use gimple_ir::{List, Name, NoMemory, Options};
use std::alloc::Global;
use text_lines::{LineError, LineReader, name};

/// The links of a job file, in order, and the most objects that their cache holds.
#[derive(Drop)]
pub struct Jobs {
    pub cache: u32,
    pub links: List<Job>,
}

/// A link.
#[derive(Drop)]
pub struct Job {
    /// The number of its `link` line, counted from 1.
    pub line: u32,
    /// The image that is written.
    pub out: Name,
    pub resolution: Name,
    pub options: Options,
    /// The objects, in the order of the link.
    pub objects: List<Name>,
}

/// What a `link` line says.
#[derive(Drop)]
struct Link {
    out: Name,
    resolution: Name,
    options: Options,
    /// How many lines with objects follow.
    objects: u32,
}

/// `partitions N workers W growth G versions V`.
#[tactic(auto, unfolding(crate::specs::Jobs::options_by))]
fn options(words: &mut Words<'_>) -> Option<Options>
    ensures { Finds result words.new (options_by words.old) }
{
    let partitions = words.number("partitions", 1, 128)?;
    let workers = words.number("workers", 1, 64)?;
    let growth = words.number("growth", 0, 100)?;
    let versions = words.number("versions", 1, 8)?;
    Some(Options {
        partitions,
        workers,
        growth,
        versions,
        code: 1,
    })
}

fn stands_before(before: &[Job], out: &Name) -> bool
    ensures { result ≡ stands_before before.now out.now }
{
    before
        .iter()
        .any(|job| job.out.as_slice() == out.as_slice())
}

/// How many workers the links have together, which are at most 256.
fn workers_of(before: &[Job]) -> u32
    requires { workers_of before.now ≤ 256 }
    ensures { result ≡ workers_of before.now }
{
    before.iter().map(|job| job.options.workers).sum()
}

/// Whether a link may write this image and have so many workers behind these links.
fn is_allowed(before: &[Job], out: &Name, workers: u32) -> bool
    requires { workers_of before.now ≤ 256 }
    ensures value { result ≡ is_allowed before.now out.now workers }
    ensures few { IsTrue result → workers_of before.now + workers ≤ 256 }
{
    !stands_before(before, out) && workers <= 256 - workers_of(before)
}

/// The line `link OUT RES partitions N workers W growth G versions V objects K`.
#[tactic(auto, unfolding(crate::specs::Jobs::link_of))]
fn link_line(alloc: Global, before: &[Job], line: &[u8]) -> Result<Option<Link>, NoMemory>
    requires { workers_of before.now ≤ 256 }
    ensures value { IfOk result (λ found. found ≡ link_at before.now line.now) }
    ensures few { IfOk result (λ found. IfSome found (λ link. workers_of before.now + link.options.workers ≤ 256)) }
{
    let mut words = Words::new(alloc, line)?;
    if !words.keyword("link") {
        return Ok(None);
    }
    let Some(out) = words.name(alloc)? else {
        return Ok(None);
    };
    let Some(resolution) = words.name(alloc)? else {
        return Ok(None);
    };
    let Some(options) = options(&mut words) else {
        return Ok(None);
    };
    let Some(objects) = words.number("objects", 1, 256) else {
        return Ok(None);
    };
    if !words.is_at_end() || !is_allowed(before, &out, options.workers) {
        return Ok(None);
    }
    Ok(Some(Link {
        out,
        resolution,
        options,
        objects,
    }))
}

fn one_link(alloc: Global, before: &[Job], lines: &mut LineReader<'_>) -> Result<Link, LineError>
    requires { workers_of before.now ≤ 256 }
    ensures value { Gives result lines.new (link_by before.now lines.old) }
    ensures few { IfOk result (λ link. workers_of before.now + link.options.workers ≤ 256) }
{
    let number = lines.number();
    let Some(line) = lines.line() else {
        return Err(LineError::BadLine { line: number });
    };
    match link_line(alloc, before, line)? {
        Some(link) => Ok(link),
        None => Err(LineError::BadLine { line: number }),
    }
}

fn one_object(alloc: Global, lines: &mut LineReader<'_>) -> Result<Name, LineError>
    ensures { Gives result lines.new (object_at 0 lines.old) }
{
    let number = lines.number();
    let Some(line) = lines.line() else {
        return Err(LineError::BadLine { line: number });
    };
    match name(alloc, line)? {
        Some(name) => Ok(name),
        None => Err(LineError::BadLine { line: number }),
    }
}

fn objects(alloc: Global, count: u32, lines: &mut LineReader<'_>) -> Result<List<Name>, LineError>
    ensures { Gives result lines.new (counted object_at count 0 lines.old) }
{
    let mut objects: List<Name> = List::new(alloc);
    for done in 0..count {
        let object = one_object(alloc, lines)?;
        objects.push(object)?;
    }
    Ok(objects)
}

fn one_job(alloc: Global, before: &[Job], lines: &mut LineReader<'_>) -> Result<Job, LineError>
    requires { workers_of before.now ≤ 256 }
    ensures value { Gives result lines.new (job_by before.now lines.old) }
    ensures few { IfOk result (λ job. workers_of before.now + job.options.workers ≤ 256) }
{
    let line = lines.number();
    let link = one_link(alloc, before, lines)?;
    let objects = objects(alloc, link.objects, lines)?;
    Ok(Job {
        line,
        out: link.out,
        resolution: link.resolution,
        options: link.options,
        objects,
    })
}

fn links(alloc: Global, count: u32, lines: &mut LineReader<'_>) -> Result<List<Job>, LineError>
    ensures { Gives result lines.new (links_after count [] lines.old) }
{
    let mut links: List<Job> = List::new(alloc);
    for done in 0..count {
        let job = one_job(alloc, links.as_slice(), lines)?;
        links.push(job)?;
    }
    Ok(links)
}

/// The words of the line `batch J cache C`: how many links there are, and the capacity.
#[tactic(auto, unfolding(crate::specs::Jobs::batch_of))]
fn batch_line(alloc: Global, line: &[u8]) -> Result<Option<(u32, u32)>, NoMemory>
    ensures { IfOk result (λ found. found ≡ batch_at line.now) }
{
    let mut words = Words::new(alloc, line)?;
    let Some(count) = words.number("batch", 1, 64) else {
        return Ok(None);
    };
    let Some(cache) = words.number("cache", 1, 4096) else {
        return Ok(None);
    };
    if words.is_at_end() {
        Ok(Some((count, cache)))
    } else {
        Ok(None)
    }
}

fn one_batch(alloc: Global, lines: &mut LineReader<'_>) -> Result<(u32, u32), LineError>
    ensures { Gives result lines.new (line_by batch_at lines.old) }
{
    let number = lines.number();
    let Some(line) = lines.line() else {
        return Err(LineError::BadLine { line: number });
    };
    match batch_line(alloc, line)? {
        Some(batch) => Ok(batch),
        None => Err(LineError::BadLine { line: number }),
    }
}

fn all_jobs(alloc: Global, lines: &mut LineReader<'_>) -> Result<Jobs, LineError>
    ensures { GivesAll result (jobs_by lines.old) }
{
    let (count, cache) = one_batch(alloc, lines)?;
    let links = links(alloc, count, lines)?;
    lines.end()?;
    Ok(Jobs { cache, links })
}

/// The jobs that a text of at most 2^32 - 2 bytes spells, or its first bad line. A line that is missing is the one behind
/// the last.
pub fn read_jobs(alloc: Global, text: &[u8]) -> Result<Jobs, JobError>
    requires { length text.now + 1 < 2 ^ 32 }
    ensures { Answers result (jobs_in text.now) }
{
    let mut lines = LineReader::new(text);
    match all_jobs(alloc, &mut lines) {
        Ok(jobs) => Ok(jobs),
        Err(LineError::BadLine { line }) => Err(JobError::Fault { line }),
        Err(LineError::NoMemory) => Err(JobError::NoMemory),
    }
}
