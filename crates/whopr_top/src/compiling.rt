// The image of a text: its object is linked alone, under the text's name.
ghost use Rattle.std.specs.Prelude.{◌≡◌, ◌<◌, ◌-◌, ◌^◌, [], ◌∷◌, All, length, true};
ghost use Rattle.gimple_ir.specs.Programs.{IsChecked};
ghost use Rattle.gimple_syntax.specs.Reading.{SpellsModule};
ghost use Rattle.lto_object.specs.Objects.{IsObject};
ghost use Rattle.whopr_words.specs.Commands.{is_file_name};
ghost use Rattle.whopr_top.specs.declared.compiling.ImageFault.TheVariants.{NoMemory as WithoutMemory};
ghost use Rattle.whopr_top.specs.Judgements.{data_of};
ghost use Rattle.whopr_top.specs.Compiling.{of_resolution, of_link, GivesImage};

use crate::refusal::ResolutionPlace;
use crate::resolving::name_of;
use gimple_ir::{Module, Name, NoMemory};
use lto_object::{Object, ObjectError, lgen, read_object};
use plain_link::{LinkError, link_one};
use program_link::LimitFault;
use std::alloc::{AllocFailed, Global};
use symbol_resolution::{ResolutionError, ResolutionKind, are_few, merged_programs, resolve};
use text_laws::read_is_checked;

/// Why objects have no image.
#[derive(Drop)]
pub enum ImageFault {
    /// They have no resolution, or do not merge under it; the first fault.
    Resolution(ResolutionKind, ResolutionPlace),
    /// Their program passes a limit; the first.
    Limit(LimitFault),
    NoMemory,
}

impl From<ResolutionError> for ImageFault {
    ghost from_gives = { λ e x. x ≡ of_resolution e };

    fn from(error: ResolutionError) -> ImageFault {
        match error {
            ResolutionError::AtLine { kind, line } => {
                ImageFault::Resolution(kind, ResolutionPlace::AtLine(line))
            }
            ResolutionError::AtName { kind, name } => {
                ImageFault::Resolution(kind, ResolutionPlace::AtName(name))
            }
            ResolutionError::NoMemory => ImageFault::NoMemory,
        }
    }
}

impl From<LinkError> for ImageFault {
    ghost from_gives = { λ e x. x ≡ of_link e };

    fn from(error: LinkError) -> ImageFault {
        match error {
            LinkError::Resolution(fault) => ImageFault::from(fault),
            LinkError::Limit(passed) => ImageFault::Limit(passed),
            LinkError::NoMemory => ImageFault::NoMemory,
        }
    }
}

impl From<NoMemory> for ImageFault {
    ghost from_gives = { λ _ e. e ≡ WithoutMemory };

    fn from(_error: NoMemory) -> ImageFault {
        ImageFault::NoMemory
    }
}

impl<T: Drop> From<AllocFailed<T>> for ImageFault {
    ghost from_gives = { λ _ e. e ≡ WithoutMemory };

    fn from(_error: AllocFailed<T>) -> ImageFault {
        ImageFault::NoMemory
    }
}

// The image of objects whose files have these names, under their own resolution.
fn linked(alloc: Global, objects: &[Object<'_>], names: &[Name]) -> Result<Vec<u8>, ImageFault>
    requires names { length names.now ≡ length objects.now }
    requires objects { All IsObject objects.now }
    ensures { GivesImage objects.now names.now result }
{
    if !are_few(objects) {
        return Err(ImageFault::NoMemory);
    }
    let resolution = resolve(alloc, objects, names)?;
    let image = link_one(alloc, objects, names, &resolution)?;
    merged_programs();
    Ok(image)
}

// The most bytes of an object that can be read.
const OBJECT_BYTES: usize = (1 << 32) - 2;

// The image of the object of a checked module. One of 2^32 - 1 bytes or more cannot be read, and is answered as want of memory.
fn image_by_object(alloc: Global, name: &str, source: &Module) -> Result<Vec<u8>, ImageFault>
    requires named { is_file_name name.now ≡ true }
    requires checked { IsChecked source.now }
    ensures { GivesImage (data_of source.now ∷ []) (name.now ∷ []) result }
{
    let bytes = lgen(alloc, source)?;
    if bytes.len() > OBJECT_BYTES {
        return Err(ImageFault::NoMemory);
    }
    let object = match read_object(alloc, &bytes) {
        Ok(object) => object,
        Err(ObjectError::Fault(_)) => unreachable!(),
        Err(ObjectError::NoMemory) => return Err(ImageFault::NoMemory),
    };
    let objects = vec![in alloc; object]?;
    let names = vec![in alloc; name_of(alloc, name)?]?;
    linked(alloc, objects.as_slice(), names.as_slice())
}

/// The image of the object of a module that a text spells, which is linked alone, under this name.
pub fn image_of(
    alloc: Global,
    name: &str,
    text: &[u8],
    source: &Module,
) -> Result<Vec<u8>, ImageFault>
    requires named { is_file_name name.now ≡ true }
    requires short { length text.now < 2 ^ 32 - 1 }
    requires spelled { SpellsModule text.now source.now }
    ensures { GivesImage (data_of source.now ∷ []) (name.now ∷ []) result }
{
    read_is_checked();
    image_by_object(alloc, name, source)
}
