//! Names in the bytes of `.shstrtab`.
ghost use Rattle.std.specs.Prelude.{◌≡◌, take, drop, option_copied, option_and_then, IfOk, IfSome};
ghost use Rattle.gimple_ir.specs.Names.{IsName};
ghost use Rattle.elf_container.specs.Reading.{text, name_at, named};

use gimple_ir::{Name, NoMemory};
use std::alloc::Global;

/// The most bytes of a name and the zero behind it.
const MOST: usize = 301;

/// The bytes up to the first zero.
fn text(bytes: &[u8]) -> Option<&[u8]>
    ensures { option_copied result ≡ text bytes.now }
{
    for (place, byte) in bytes.iter().enumerate() {
        if *byte == 0 {
            return Some(bytes.split_at(place).0);
        }
    }
    None
}

/// The bytes from a place on, as many as a name and its zero can have.
fn window(names: &[u8], at: usize) -> &[u8]
    ensures { result.now ≡ take 301 (drop at names.now) }
{
    if names.len() < at {
        return &[];
    }
    let (_, back) = names.split_at(at);
    if back.len() < MOST {
        return back;
    }
    back.split_at(MOST).0
}

/// The name that the bytes are.
fn named(alloc: Global, bytes: &[u8]) -> Result<Option<Name>, NoMemory>
    ensures { IfOk result (λ found. found ≡ named bytes.now) }
{
    Name::read(alloc, bytes)
}

/// The name that the bytes before the first zero are.
fn name_in(alloc: Global, bytes: &[u8]) -> Result<Option<Name>, NoMemory>
    ensures { IfOk result (λ found. found ≡ option_and_then named (text bytes.now)) }
{
    match text(bytes) {
        None => Ok(None),
        Some(name) => named(alloc, name),
    }
}

/// The name that begins at a place. No more bytes are looked at than a name can have, so reading is linear in the file even
/// where many headers name the same place.
pub fn name_at(alloc: Global, names: &[u8], at: usize) -> Result<Option<Name>, NoMemory>
    ensures value { IfOk result (λ found. found ≡ name_at at names.now) }
    ensures name { IfOk result (λ found. IfSome found IsName) }
{
    name_in(alloc, window(names, at))
}
