//! Linking one job from the bytes of its files.
ghost use Rattle.std.specs.Prelude.{◌≡◌, ◌≤◌, ◌^◌, ◌-◌, All, IfErr, IfOk, length, true};
ghost use Rattle.lto_object.specs.Objects.{IsObject};
ghost use Rattle.resolution_text.specs.Reading.{resolution_in};
ghost use Rattle.job_links.specs.Alone.{objects_from};
ghost use Rattle.job_links.specs.Linking.{GivesObjects, GivesResolution, GivesImageOf, IsShort, is_own};

use crate::line::JobLine;
use crate::reading::JobFiles;
use gimple_ir::{List, Name};
use link_laws::linked_image_follows;
use lto_object::{Object, ObjectError, read_object};
use plain_link::{LinkError, link_one};
use std::alloc::Global;
use symbol_resolution::{Resolution, ResolutionError, are_few, merged_programs, read_resolution};

/// The objects that files are.
pub fn objects_of(alloc: Global, contents: &[List<u8>]) -> Result<Vec<Object<'_>>, JobLine>
    requires { All (λ bytes. length bytes ≤ 2 ^ 32 - 2) contents.now }
    ensures exact { GivesObjects result (objects_from 0 contents.now) }
    ensures count { IfOk result (λ objects. length objects.items ≡ length contents.now) }
    ensures objects { IfOk result (λ objects. All IsObject objects.items) }
    ensures own { IfErr result (λ line. is_own line ≡ true) }
{
    let mut objects = Vec::new(alloc);
    for (number, bytes) in contents.iter().enumerate() {
        let object = match read_object(alloc, bytes.as_slice()) {
            Ok(object) => object,
            Err(ObjectError::Fault(fault)) => return Err(JobLine::Object { number, fault }),
            Err(ObjectError::NoMemory) => return Err(JobLine::Memory),
        };
        if objects.push(object).is_err() {
            return Err(JobLine::Memory);
        }
    }
    Ok(objects)
}

/// The resolution that a text spells.
pub fn resolution_of(alloc: Global, text: &[u8]) -> Result<Resolution, JobLine>
    requires { length text.now ≤ 2 ^ 32 - 2 }
    ensures exact { GivesResolution result (resolution_in text.now) }
    ensures own { IfErr result (λ line. is_own line ≡ true) }
{
    match read_resolution(alloc, text) {
        Ok(resolution) => Ok(resolution),
        Err(ResolutionError::NoMemory) => Err(JobLine::Memory),
        Err(fault) => Err(JobLine::Unresolved(fault)),
    }
}

/// The image of a job's files, whose objects have these names.
pub fn link_files(alloc: Global, names: &[Name], files: &JobFiles) -> Result<Vec<u8>, JobLine>
    requires count { length files.now.objects ≡ length names.now }
    requires short { IsShort files.now }
    ensures exact { GivesImageOf names.now files.now result }
    ensures own { IfErr result (λ line. is_own line ≡ true) }
{
    let objects = objects_of(alloc, files.objects.as_slice())?;
    let resolution = resolution_of(alloc, files.resolution.as_slice())?;
    if !are_few(&objects) {
        return Err(JobLine::Memory);
    }
    merged_programs();
    linked_image_follows();
    match link_one(alloc, &objects, names, &resolution) {
        Ok(image) => Ok(image),
        Err(LinkError::Resolution(ResolutionError::NoMemory)) => Err(JobLine::Memory),
        Err(LinkError::Resolution(fault)) => Err(JobLine::Unresolved(fault)),
        Err(LinkError::Limit(passed)) => Err(JobLine::Limit(passed)),
        Err(LinkError::NoMemory) => Err(JobLine::Memory),
    }
}
