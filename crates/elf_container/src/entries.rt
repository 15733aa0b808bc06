//! Entries of tables: words, symbols and relocations, written one behind the other and read again.
ghost use Rattle.std.specs.Prelude.{◌≡◌, ◌≤◌, ◌+◌, ◌*◌, ◌++◌, [], ◌∷◌, ◌%◌, ◌^◌, ◌<◌, List, ℕ, length, OnOk, IfOk};
ghost use Rattle.std.specs.List.{flat_map};
ghost use Rattle.cursors.specs.Fixed.{le16, le32, le64};
ghost use Rattle.elf_container.specs.Entries.{entries, word_in, sym_bytes, sym_in, reloc_bytes, reloc_in};
ghost use Rattle.elf_container.specs.Relocatable.{name_bytes};

use crate::headers::{number16, number32, number64};
use crate::relocatable::{RelSymbol, Reloc};
use cursors::{put_le16, put_le32, put_le64};
use gimple_ir::NoMemory;
use std::alloc::Global;

/// An entry of a symbol table (`Elf64_Sym`): where the name begins in `.strtab`, the info byte, the section's number, the value
/// and the size in bytes.
#[derive(Clone, Copy)]
pub struct Sym {
    pub name: u32,
    pub info: u8,
    pub section: u16,
    pub value: u64,
    pub size: u64,
}

/// What is written as bytes.
pub trait Spelled {
    ghost spell: { Self → List ℕ };

    fn put(&self, out: &mut Vec<u8>) -> Result<(), NoMemory>
        ensures { OnOk result (out.new.items ≡ out.old.items ++ spell self.now) };
}

impl Spelled for u16 {
    ghost spell = { le16 };

    fn put(&self, out: &mut Vec<u8>) -> Result<(), NoMemory> {
        put_le16(out, *self)
    }
}

impl Spelled for u32 {
    ghost spell = { le32 };

    fn put(&self, out: &mut Vec<u8>) -> Result<(), NoMemory> {
        put_le32(out, *self)
    }
}

impl Spelled for u64 {
    ghost spell = { le64 };

    fn put(&self, out: &mut Vec<u8>) -> Result<(), NoMemory> {
        put_le64(out, *self)
    }
}

impl Spelled for Sym {
    ghost spell = { sym_bytes };

    #[tactic(auto, unfolding(crate::specs::Entries::sym_bytes))]
    fn put(&self, out: &mut Vec<u8>) -> Result<(), NoMemory> {
        put_le32(out, self.name)?;
        out.push(self.info)?;
        out.push(0)?;
        put_le16(out, self.section)?;
        put_le64(out, self.value)?;
        put_le64(out, self.size)
    }
}

impl Spelled for Reloc {
    ghost spell = { reloc_bytes };

    #[tactic(auto, unfolding(crate::specs::Entries::reloc_bytes))]
    fn put(&self, out: &mut Vec<u8>) -> Result<(), NoMemory> {
        put_le64(out, self.offset)?;
        put_le32(out, self.kind)?;
        put_le32(out, self.symbol.wrapping_add(1))?;
        put_le64(out, 0)
    }
}

impl Spelled for RelSymbol {
    ghost spell = { name_bytes };

    fn put(&self, out: &mut Vec<u8>) -> Result<(), NoMemory> {
        put_name(out, self.name.as_slice())
    }
}

/// Writes a name, and the zero behind it.
pub fn put_name(out: &mut Vec<u8>, name: &[u8]) -> Result<(), NoMemory>
    ensures { OnOk result (out.new.items ≡ (out.old.items ++ name.now) ++ 0 ∷ []) }
{
    out.extend_from_slice(name)?;
    out.push(0)?;
    Ok(())
}

/// Writes the items at the end.
pub fn put_all<S: Spelled>(out: &mut Vec<u8>, items: &[S]) -> Result<(), NoMemory>
    ensures { OnOk result (out.new.items ≡ out.old.items ++ flat_map S.spell items.now) }
{
    for item in items {
        item.put(out)?;
    }
    Ok(())
}

/// What is read from the first bytes of a slice, so many that they are known beforehand.
pub trait Entry {
    ghost size: { ℕ };

    ghost read_in: { List ℕ → Self };

    fn size() -> usize
        ensures { result ≡ size };

    fn read(bytes: &[u8]) -> Self
        requires { size ≤ length bytes.now }
        ensures { result ≡ read_in bytes.now };
}

impl Entry for u32 {
    ghost size = { 4 };

    ghost read_in = { word_in };

    fn size() -> usize {
        4
    }

    fn read(bytes: &[u8]) -> u32 {
        number32(bytes, 0)
    }
}

impl Entry for Sym {
    ghost size = { 24 };

    ghost read_in = { sym_in };

    fn size() -> usize {
        24
    }

    #[tactic(auto, unfolding(crate::specs::Entries::sym_in))]
    fn read(bytes: &[u8]) -> Sym {
        Sym {
            name: number32(bytes, 0),
            info: bytes[4],
            section: number16(bytes, 6),
            value: number64(bytes, 8),
            size: number64(bytes, 16),
        }
    }
}

impl Entry for Reloc {
    ghost size = { 24 };

    ghost read_in = { reloc_in };

    fn size() -> usize {
        24
    }

    #[tactic(auto, unfolding(crate::specs::Entries::reloc_in))]
    fn read(bytes: &[u8]) -> Reloc {
        Reloc {
            offset: number64(bytes, 0),
            kind: number32(bytes, 8),
            symbol: number32(bytes, 12).saturating_sub(1),
        }
    }
}

/// So many entries, one behind the other.
pub fn entries<E: Entry + Drop>(
    alloc: Global,
    bytes: &[u8],
    count: usize,
) -> Result<Vec<E>, NoMemory>
    requires { E.size * count ≤ length bytes.now }
    ensures { IfOk result (λ found. found.items ≡ entries E.size E.read_in count bytes.now) }
{
    let mut found = Vec::new(alloc);
    let mut rest = bytes;
    for _ in 0..count {
        found.push(E::read(rest))?;
        rest = rest.split_at(E::size()).1;
    }
    Ok(found)
}
