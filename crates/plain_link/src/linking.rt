//! From objects to an image.
ghost use Rattle.std.specs.Prelude.{◌≡◌, length, All};
ghost use Rattle.lto_object.specs.Objects.{IsObject};
ghost use Rattle.plain_link.specs.Linking.{LinksObjects};

use crate::fault::LinkError;
use gimple_ir::Name;
use lto_object::Object;
use program_link::link_program;
use std::alloc::Global;
use symbol_resolution::{Resolution, are_few, merge, merged_programs, program_of};

// Each is the object of a checked module.
fn all_are_objects(objects: &[Object<'_>])
    ensures { All IsObject objects.now }
{
    for object in objects {
        object.module();
    }
}

/// The image of objects whose files have these names, under a resolution: they are merged to a whole program, and this is linked. It
/// takes time and memory linear in the objects and the image, but for maps of names. More than 256 objects, or ones with 2^26 functions or
/// 2^31 arrays, are too many to be numbered, and are answered as want of memory.
///
/// | Fault | Comes |
/// |---|---|
/// | `Resolution` | the objects do not merge under the resolution; the first fault of its lines, then of the names, then of `main` |
/// | `Limit` | the program has too many functions, too much code or too large arrays; all count, and these are looked for in this order |
pub fn link_one(
    alloc: Global,
    objects: &[Object<'_>],
    names: &[Name],
    resolution: &Resolution,
) -> Result<Vec<u8>, LinkError>
    requires names { length names.now ≡ length objects.now }
    ensures { LinksObjects objects.now names.now resolution.now result }
{
    if !are_few(objects) {
        return Err(LinkError::NoMemory);
    }
    let merged = merge(alloc, objects, names, resolution)?;
    let program = program_of(alloc, objects, &merged)?;
    all_are_objects(objects);
    merged_programs();
    Ok(link_program(alloc, &program, &merged)?)
}
