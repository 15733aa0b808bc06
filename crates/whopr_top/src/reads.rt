// Reading files one after the other.
ghost use Rattle.std.specs.Prelude.{◌≡◌, ◌≤◌, All, IfOk, IfErr, IfSome, length, vec_len};
ghost use Rattle.whopr_top.specs.Reads.{AreHeld, contents_of};
ghost use Rattle.whopr_top.specs.ReadFaults.{IsReadsFault, IsFailureAt};

use crate::top::FILE_BYTES;
use gimple_ir::Name;
use outer_files::{FileStore, ReadFault};
use std::alloc::Global;

/// Why files could not be read.
#[derive(Drop)]
pub enum ReadsFault {
    /// This file could not be read.
    Failed(Name),
    /// A file is longer than 16 MiB.
    TooLong,
    NoMemory,
}

// This file could not be read.
fn failure_at(name: &Name) -> ReadsFault
    ensures { IsFailureAt name.now result }
{
    match name.copy() {
        Ok(name) => ReadsFault::Failed(name),
        Err(_) => ReadsFault::NoMemory,
    }
}

/// The bytes of the files. They are read in order, up to the first that can't be.
pub fn read_files<F: FileStore>(
    alloc: Global,
    names: &[Name],
    files: &mut F,
) -> Result<Vec<Vec<u8>>, ReadsFault>
    ensures unchanged { F.held files.new ≡ F.held files.old }
    ensures held { IfOk result (λ contents. IfSome (F.held files.old) (λ held. AreHeld FILE_BYTES held names.now (contents_of contents.items))) }
    ensures count { IfOk result (λ contents. vec_len contents ≡ length names.now) }
    ensures within { IfOk result (λ contents. All (λ bytes. vec_len bytes ≤ FILE_BYTES) contents.items) }
    ensures never_falls { F.faults files.old ≤ F.faults files.new }
    ensures refused { IfErr result (λ fault. IsReadsFault FILE_BYTES names.now (F.held files.old) (F.faults files.old) (F.faults files.new) fault) }
{
    let mut contents = Vec::new(alloc);
    for name in names {
        let bytes = match files.read_all(alloc, name.as_str(), FILE_BYTES) {
            Ok(bytes) => bytes,
            Err(ReadFault::Failed) => return Err(failure_at(name)),
            Err(ReadFault::TooLong) => return Err(ReadsFault::TooLong),
            Err(ReadFault::NoMemory) => return Err(ReadsFault::NoMemory),
        };
        if contents.push(bytes).is_err() {
            return Err(ReadsFault::NoMemory);
        }
    }
    Ok(contents)
}
