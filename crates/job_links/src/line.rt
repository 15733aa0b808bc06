//! What is said of a job, and of all jobs together.
use gimple_ir::List;
use lto_object::ObjectFault;
use program_link::LimitFault;
use symbol_resolution::ResolutionError;
use whopr_words::Jobs;

/// What a report says of a job.
#[derive(Debug, Drop)]
pub enum JobLine {
    /// The image was written, with so many bytes.
    Done { bytes: u64 },
    /// 3: the object with this number among those of the job is the first that has a fault; its first.
    Object { number: usize, fault: ObjectFault },
    /// 4: a file that is read is too long.
    TooLong,
    /// 4: the program passes a limit; the first.
    Limit(LimitFault),
    /// 5: the file with this number, of the objects in order and then the resolution, could not be read.
    Read { place: usize },
    /// 6: the image could not be written.
    Write,
    /// 7: there was no memory.
    Memory,
    /// 8: the resolution has a fault, or the objects do not merge under it; the first fault.
    Unresolved(ResolutionError),
}

/// What is said of each job, in their order.
#[derive(Drop)]
pub struct Report {
    pub jobs: Jobs,
    pub lines: List<JobLine>,
}

/// Why nothing is said of any job. The files are as before.
#[derive(Clone, Copy, Debug, PartialEq, Eq)]
pub enum JobsRefusal {
    /// 5: the job file could not be read.
    Read,
    /// 4: the job file is too long.
    TooLong,
    /// 10: the job file has another form; its first bad line.
    Jobs { line: u32 },
    /// 4: the objects and resolutions that were read have more than 256 MiB together.
    BatchBytes,
    /// 7: there was no memory.
    Memory,
}
