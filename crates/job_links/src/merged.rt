//! The merged program of one job.
ghost use Rattle.std.specs.Prelude.{◌≡◌, IfErr, length, true};
ghost use Rattle.job_links.specs.Linking.{IsShort, is_own};
ghost use Rattle.job_links.specs.MergedJobs.{GivesMerged};

use crate::line::JobLine;
use crate::linking::{objects_of, resolution_of};
use crate::reading::JobFiles;
use gimple_ir::{Merged, Name, Program};
use std::alloc::Global;
use symbol_resolution::{ResolutionError, are_few, merge, merged_programs, program_of};

/// The whole program of a job's files, whose objects have these names, and the merged program that is true of it. No limit is looked at.
pub fn merged_job(
    alloc: Global,
    names: &[Name],
    files: &JobFiles,
) -> Result<(Program, Merged), JobLine>
    requires count { length files.now.objects ≡ length names.now }
    requires short { IsShort files.now }
    ensures exact { GivesMerged names.now files.now result }
    ensures own { IfErr result (λ line. is_own line ≡ true) }
{
    let objects = objects_of(alloc, files.objects.as_slice())?;
    let resolution = resolution_of(alloc, files.resolution.as_slice())?;
    if !are_few(&objects) {
        return Err(JobLine::Memory);
    }
    merged_programs();
    let merged = match merge(alloc, &objects, names, &resolution) {
        Ok(merged) => merged,
        Err(ResolutionError::NoMemory) => return Err(JobLine::Memory),
        Err(fault) => return Err(JobLine::Unresolved(fault)),
    };
    match program_of(alloc, &objects, &merged) {
        Ok(program) => Ok((program, merged)),
        Err(_) => Err(JobLine::Memory),
    }
}
