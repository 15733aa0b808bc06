// Files in memory, which fail at the calls that they are told to fail at.
ghost use Rattle.std.specs.Prelude.{◌↔◌, ◌||◌, is_none, ℕ, List, ◌≡◌, ◌≤◌, ◌<◌, ◌==◌, ◌++◌, [], ◌∷◌, if◌then◌else◌, length, position, string_bytes, vec_len, option_copied, Some, None, IfSome, IfOk, OnOk, OnErr, IsErrOf, IsTrue, is_some};
ghost use Rattle.std.specs.Str.{bytes_eq};
ghost use Rattle.outer_files.specs.Outside.{WhereTold, Writes, WritesPrefix, IsLonger, Rose, one_more};
ghost use Rattle.outer_files.specs.Memory.{files_of, held_in, fails_at, Empties};

use crate::failing::fails;
use crate::{FileStore, ReadFault, WriteFault};
use std::alloc::{AllocError, Global};
use std::marker::Model;

type Files = Vec<(String, Vec<u8>)>;

/// Files in memory. They tell what they hold.
#[derive(Drop)]
pub struct MemoryFiles {
    files: Files,
    fail: Vec<u64>,
    calls: u64,
    faults: u64,
}

impl Model for MemoryFiles {
    ghost use Rattle.outer_files.specs.Memory.{StoreState, files_of};

    ghost Value = { StoreState };

    ghost view = { λ s. record { files = files_of s.files.items; fail = s.fail.items; calls = s.calls; faults = s.faults } };
}

impl MemoryFiles {
    /// A store of these files; of two with one name the first counts. The calls with the numbers in `fail`, counted from 0
    /// over reads and writes, will fail. What is written is kept with the allocator of `files`.
    pub fn new(files: Vec<(String, Vec<u8>)>, fail: Vec<u64>) -> MemoryFiles
        ensures { result ≡ record { files = files_of files.items; fail = fail.items; calls = 0; faults = 0 } }
    {
        MemoryFiles {
            files,
            fail,
            calls: 0,
            faults: 0,
        }
    }

    /// The bytes of a file, or `None` where the name is not held.
    pub fn held(&self, name: &str) -> Option<&[u8]>
        ensures { option_copied result ≡ held_in self.now.files name.now }
    {
        bytes_of(&self.files, name)
    }
}

impl FileStore for MemoryFiles {
    ghost held = { λ s. Some (held_in s.files) };

    ghost faults = { λ s. s.faults };

    fn read_all(&mut self, alloc: Global, name: &str, limit: u64) -> Result<Vec<u8>, ReadFault>
        ensures unchanged { Some (held_in self.new.files) ≡ Some (held_in self.old.files) }
        ensures bytes { IfOk result (λ bytes. held_in self.old.files name.now ≡ Some bytes.items) }
        ensures within { IfOk result (λ bytes. vec_len bytes ≤ limit) }
        ensures too_long { IsErrOf result ReadFault.TooLong → IsLonger limit (held_in self.old.files name.now) }
        ensures never_falls { self.old.faults ≤ self.new.faults }
        ensures failed { IsErrOf result ReadFault.Failed → Rose self.old.faults self.new.faults }
        ensures memory { IsErrOf result ReadFault.NoMemory → self.new.faults ≡ self.old.faults }

        // It fails exactly at the calls that it was told to fail at and at a name that is not held, and its count rises
        // there alone.
        ensures fails { IsErrOf result ReadFault.Failed ↔ IsTrue (fails_at self.old.fail self.old.calls || is_none (held_in self.old.files name.now)) }
        ensures rises { self.new.faults ≡ (if fails_at self.old.fail self.old.calls || is_none (held_in self.old.files name.now) then one_more self.old.faults else self.old.faults) }
        ensures calls { self.new.calls ≡ one_more self.old.calls }
        ensures fail { self.new.fail ≡ self.old.fail }
    {
        let call = self.calls;
        self.calls = self.calls.saturating_add(1);
        if fails(&self.fail, call) {
            self.faults = self.faults.saturating_add(1);
            return Err(ReadFault::Failed);
        }
        let Some(bytes) = bytes_of(&self.files, name) else {
            self.faults = self.faults.saturating_add(1);
            return Err(ReadFault::Failed);
        };
        if bytes.len() as u64 > limit {
            return Err(ReadFault::TooLong);
        }
        Vec::from_slice(alloc, bytes).map_err(|_| ReadFault::NoMemory)
    }

    fn write_all(&mut self, name: &str, bytes: &[u8]) -> Result<(), WriteFault>
        ensures written { OnOk result (WhereTold (Some (held_in self.old.files)) (Some (held_in self.new.files)) (Writes name.now bytes.now)) }
        ensures cut_short { IsErrOf result WriteFault.Failed → WhereTold (Some (held_in self.old.files)) (Some (held_in self.new.files)) (WritesPrefix name.now bytes.now) }
        ensures unchanged { IsErrOf result WriteFault.NoMemory → Some (held_in self.new.files) ≡ Some (held_in self.old.files) }
        ensures never_falls { self.old.faults ≤ self.new.faults }
        ensures failed { IsErrOf result WriteFault.Failed → Rose self.old.faults self.new.faults }
        ensures memory { IsErrOf result WriteFault.NoMemory → self.new.faults ≡ self.old.faults }

        // It fails exactly at the calls that it was told to fail at, leaves no bytes then, and its count rises there alone.
        ensures fails { IsErrOf result WriteFault.Failed ↔ IsTrue (fails_at self.old.fail self.old.calls) }
        ensures emptied { IsErrOf result WriteFault.Failed → Empties name.now (held_in self.old.files) (held_in self.new.files) }
        ensures rises { self.new.faults ≡ (if fails_at self.old.fail self.old.calls then one_more self.old.faults else self.old.faults) }
        ensures calls { self.new.calls ≡ one_more self.old.calls }
        ensures fail { self.new.fail ≡ self.old.fail }
    {
        let call = self.calls;
        self.calls = self.calls.saturating_add(1);
        if fails(&self.fail, call) {
            self.faults = self.faults.saturating_add(1);
            empty_out(&mut self.files, name);
            return Err(WriteFault::Failed);
        }
        put_bytes(&mut self.files, name, bytes).map_err(|_| WriteFault::NoMemory)
    }
}

// The place of the first file of this name.
fn place_of(files: &[(String, Vec<u8>)], name: &str) -> Option<usize>
    ensures { result ≡ position (λ e. bytes_eq (string_bytes e.0) name.now) files.now }
{
    files.iter().position(|file| file.0.as_str() == name)
}

// The bytes of the first file of this name.
fn bytes_of<'a>(files: &'a [(String, Vec<u8>)], name: &str) -> Option<&'a [u8]>
    ensures { option_copied result ≡ held_in (files_of files.now) name.now }
{
    let place = place_of(files, name)?;
    Some(files[place].1.as_slice())
}

// Puts these bytes in the place of the file's.
fn put_bytes(files: &mut Files, name: &str, bytes: &[u8]) -> Result<(), AllocError>
    ensures written { OnOk result (Writes name.now bytes.now (held_in (files_of files.old.items)) (held_in (files_of files.new.items))) }
    ensures unchanged { OnErr result (files.new.items ≡ files.old.items) }
{
    let alloc = *files.allocator();
    let fresh = Vec::from_slice(alloc, bytes)?;
    match place_of(files, name) {
        Some(place) => files[place].1 = fresh,
        None => {
            let name = String::from_str(alloc, name)?;
            files.push((name, fresh))?;
        }
    }
    Ok(())
}

// Leaves the file with no bytes, if it is held.
fn empty_out(files: &mut Files, name: &str)
    ensures { Empties name.now (held_in (files_of files.old.items)) (held_in (files_of files.new.items)) }
{
    if let Some(place) = place_of(files, name) {
        files[place].1.clear();
    }
}
