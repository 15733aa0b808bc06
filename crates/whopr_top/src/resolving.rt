// The resolution of objects.
ghost use Rattle.std.specs.Prelude.{◌≡◌, ◌≤◌, All, IfOk, [], Some, true, length, vec_len, nat_le, sum_by, ◌^◌};
ghost use Rattle.std.specs.List.{list_all};
ghost use Rattle.lto_object.specs.Objects.{IsObject};
ghost use Rattle.whopr_words.specs.Commands.{Resolve, words_of, is_file_name, are_objects};
ghost use Rattle.whopr_top.specs.Reads.{contents_of};
ghost use Rattle.whopr_top.specs.Judgements.{objects_from};
ghost use Rattle.whopr_top.specs.ReadFaults.{GivesObjects, GivesResolution};
ghost use Rattle.whopr_top.specs.Answers.{IsQuiet};
ghost use Rattle.whopr_top.specs.Attempts.{Attempt, Counted, Lined, Judged};
ghost use Rattle.whopr_top.specs.Refusal.{answer_of, text_of};

use crate::reads::{ReadsFault, read_files};
use crate::refusal::{Refusal, ResolutionPlace};
use crate::top::FILE_BYTES;
use gimple_ir::{Name, NoMemory};
use lto_object::{Object, ObjectError, ObjectFault, read_object};
use outer_files::{FileStore, WriteFault};
use std::alloc::Global;
use symbol_resolution::{ResolutionError, ResolutionKind, print_resolution};

/// Why files are no objects.
#[derive(Drop)]
pub enum ObjectsFault {
    /// The file with this number is the first that has a fault; its first.
    Object(usize, ObjectFault),
    NoMemory,
}

/// Why files have no resolution.
#[derive(Drop)]
pub enum ResolveFault {
    /// The file with this number is the first that is no object; its first fault.
    Object(usize, ObjectFault),
    /// The first fault of the resolution.
    Resolution(ResolutionKind, ResolutionPlace),
    NoMemory,
}

/// The objects that files are.
pub fn objects_of(alloc: Global, contents: &[Vec<u8>]) -> Result<Vec<Object<'_>>, ObjectsFault>
    requires { All (λ bytes. vec_len bytes ≤ FILE_BYTES) contents.now }
    ensures exact { GivesObjects result (objects_from 0 (contents_of contents.now)) }
    ensures count { IfOk result (λ objects. vec_len objects ≡ length contents.now) }
    ensures objects { IfOk result (λ objects. All IsObject objects.items) }
{
    let mut objects = Vec::new(alloc);
    for (number, bytes) in contents.iter().enumerate() {
        let object = match read_object(alloc, bytes) {
            Ok(object) => object,
            Err(ObjectError::Fault(fault)) => return Err(ObjectsFault::Object(number, fault)),
            Err(ObjectError::NoMemory) => return Err(ObjectsFault::NoMemory),
        };
        if objects.push(object).is_err() {
            return Err(ObjectsFault::NoMemory);
        }
    }
    Ok(objects)
}

// The most bytes of all objects of a command: 256 MiB.
const BATCH_BYTES: usize = 256 << 20;

/// Whether files have at most 256 MiB together.
pub fn is_within_batch(contents: &[Vec<u8>]) -> bool
    ensures { result ≡ nat_le (sum_by length (contents_of contents.now)) (2 ^ 28) }
{
    let mut left = BATCH_BYTES;
    for bytes in contents {
        if bytes.len() > left {
            return false;
        }
        left -= bytes.len();
    }
    true
}

/// The name that a word of a command is.
pub fn name_of(alloc: Global, word: &str) -> Result<Name, NoMemory>
    requires { is_file_name word.now ≡ true }
    ensures { IfOk result (λ name. name ≡ word.now) }
{
    match Name::read(alloc, word.as_bytes())? {
        Some(name) => Ok(name),
        None => unreachable!(),
    }
}

/// The names that the words of a command are.
pub fn names_of(alloc: Global, words: &[String]) -> Result<Vec<Name>, NoMemory>
    requires { list_all is_file_name (words_of words.now) ≡ true }
    ensures { IfOk result (λ names. names.items ≡ words_of words.now) }
{
    let mut names = Vec::new(alloc);
    for word in words {
        names.push(name_of(alloc, word.as_str())?)?;
    }
    Ok(names)
}

// The text of the resolution of objects, under the names of their files.
fn resolution_of(
    alloc: Global,
    names: &[Name],
    contents: &[Vec<u8>],
) -> Result<Vec<u8>, ResolveFault>
    requires count { length names.now ≡ length contents.now }
    requires within { All (λ bytes. vec_len bytes ≤ FILE_BYTES) contents.now }
    ensures { GivesResolution result names.now (objects_from 0 (contents_of contents.now)) }
{
    let objects = match objects_of(alloc, contents) {
        Ok(objects) => objects,
        Err(ObjectsFault::Object(number, fault)) => {
            return Err(ResolveFault::Object(number, fault));
        }
        Err(ObjectsFault::NoMemory) => return Err(ResolveFault::NoMemory),
    };
    let resolution = match symbol_resolution::resolve(alloc, &objects, names) {
        Ok(resolution) => resolution,
        Err(ResolutionError::AtLine { kind, line }) => {
            return Err(ResolveFault::Resolution(kind, ResolutionPlace::AtLine(line)));
        }
        Err(ResolutionError::AtName { kind, name }) => {
            return Err(ResolveFault::Resolution(kind, ResolutionPlace::AtName(name)));
        }
        Err(ResolutionError::NoMemory) => return Err(ResolveFault::NoMemory),
    };
    match print_resolution(alloc, &resolution) {
        Ok(text) => Ok(text),
        Err(_) => Err(ResolveFault::NoMemory),
    }
}

/// Writes the resolution of objects.
pub fn resolve<'a, F: FileStore>(
    alloc: Global,
    out: &'a str,
    objects: &'a [String],
    files: &mut F,
) -> Result<Vec<u8>, Refusal<'a>>
    requires { are_objects (words_of objects.now) ≡ true }
    ensures quiet { IfOk result (λ text. IsQuiet (Some (Resolve out.now (words_of objects.now))) → text.items ≡ []) }
    ensures attempt { Attempt FILE_BYTES (Some (Resolve out.now (words_of objects.now))) (F.held files.old) (F.held files.new) (answer_of result) }
    ensures counted { Counted (F.faults files.old) (F.faults files.new) (answer_of result) }
    ensures lined { Lined FILE_BYTES (Some (Resolve out.now (words_of objects.now))) (F.held files.old) (answer_of result) (text_of result) }
    ensures judged { Judged FILE_BYTES (Some (Resolve out.now (words_of objects.now))) (F.held files.old) (F.held files.new) (F.faults files.old) (F.faults files.new) (answer_of result) (text_of result) }
{
    let Ok(names) = names_of(alloc, objects) else {
        return Err(Refusal::Memory);
    };
    let contents = match read_files(alloc, &names, files) {
        Ok(contents) => contents,
        Err(ReadsFault::Failed(name)) => return Err(Refusal::ReadOf(name)),
        Err(ReadsFault::TooLong) => return Err(Refusal::TooLong),
        Err(ReadsFault::NoMemory) => return Err(Refusal::Memory),
    };
    if !is_within_batch(&contents) {
        return Err(Refusal::TooMuch);
    }
    let text = match resolution_of(alloc, &names, &contents) {
        Ok(text) => text,
        Err(ResolveFault::Object(number, fault)) => return Err(Refusal::Object(number, fault)),
        Err(ResolveFault::Resolution(kind, place)) => return Err(Refusal::Resolution(kind, place)),
        Err(ResolveFault::NoMemory) => return Err(Refusal::Memory),
    };
    match files.write_all(out, &text) {
        Ok(()) => Ok(Vec::new(alloc)),
        Err(WriteFault::Failed) => Err(Refusal::Write(out)),
        Err(WriteFault::NoMemory) => Err(Refusal::Memory),
    }
}
