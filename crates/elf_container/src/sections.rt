//! Sections: with bytes that are lent, or with bytes of their own.
ghost use Rattle.std.specs.Prelude.{◌≡◌, ◌+◌, ◌<◌, ◌≤◌, ◌^◌, length, map, take};
ghost use Rattle.elf_container.specs.Container.{FieldsFit};
ghost use Rattle.elf_container.specs.Offsets.{aligned, end_of, offset_of, names_size, table_of, header_of, size_of};
ghost use Rattle.elf_container.specs.Views.{owned};

use gimple_ir::{Bytes, List, Name};
use std::marker::Model;

/// A section that lends its bytes from a file.
#[derive(Drop)]
pub struct Section<'a> {
    pub name: Name,
    /// The section's type, 1 to 4: `SHT_PROGBITS`, `SHT_SYMTAB`, `SHT_STRTAB` or `SHT_RELA`.
    pub kind: u32,
    pub flags: u64,
    pub link: u32,
    pub info: u32,
    pub entry_size: u64,
    pub bytes: &'a [u8],
}

/// A section with bytes of its own.
#[derive(Drop)]
pub struct OwnSection {
    pub name: Name,
    /// The section's type, 1 to 4: `SHT_PROGBITS`, `SHT_SYMTAB`, `SHT_STRTAB` or `SHT_RELA`.
    pub kind: u32,
    pub flags: u64,
    pub link: u32,
    pub info: u32,
    pub entry_size: u64,
    pub bytes: Bytes,
}

/// What a section's header tells beside its name and its bytes.
#[derive(Clone, Copy)]
pub struct Fields {
    pub kind: u32,
    pub flags: u64,
    pub link: u32,
    pub info: u32,
    pub entry_size: u64,
}

impl Fields {
    /// The fields of these numbers, which fit.
    pub fn new(kind: u32, flags: u64, link: u32, info: u32, entry_size: u64) -> Fields
        ensures value { result ≡ record { kind = kind; flags = flags; link = link; info = info; entry_size = entry_size } }
        ensures fit { FieldsFit result }
    {
        Fields {
            kind,
            flags,
            link,
            info,
            entry_size,
        }
    }
}

/// The least multiple of 8 that is not below the number.
fn aligned(number: u64) -> u64
    requires { aligned number < 2 ^ 64 }
    ensures { result ≡ aligned number }
{
    number + (8 - number % 8) % 8
}

/// The end of the last of the sections, of which the first begins at 64.
fn end_of(sections: &[Section<'_>]) -> u64
    requires { end_of (map owned sections.now) < 2 ^ 64 }
    ensures { result ≡ end_of (map owned sections.now) }
{
    let mut end = 64u64;
    for section in sections {
        end = aligned(end) + section.bytes.len() as u64;
    }
    end
}

/// The number of bytes of `.shstrtab`.
fn names_size(sections: &[Section<'_>]) -> u64
    requires { names_size (map owned sections.now) < 2 ^ 64 }
    ensures { result ≡ names_size (map owned sections.now) }
{
    let mut size = 11u64;
    for section in sections {
        size += section.name.len() as u64 + 1;
    }
    size
}

/// The sections of a file, in order, but for `.shstrtab`. Contracts see the list of them, with the bytes that they lend.
#[derive(Drop)]
pub struct RelView<'a> {
    sections: List<Section<'a>>,
}

impl<'a> Model for RelView<'a> {
    ghost use Rattle.std.specs.Prelude.{List as Seq, map};
    ghost use Rattle.elf_container.specs.declared.sections.OwnSection.{OwnSection};
    ghost use Rattle.std.specs.Prelude.{◌<◌, ◌^◌};
    ghost use Rattle.elf_container.specs.Offsets.{size_of};
    ghost use Rattle.elf_container.specs.Views.{owned};

    ghost Value = { Seq OwnSection };

    ghost view = { λ v. map owned v.sections };

    ghost invariant = { λ v. size_of (map owned v.sections) < 2 ^ 64 };
}

impl<'a> RelView<'a> {
    pub(crate) fn new(sections: List<Section<'a>>) -> RelView<'a>
        requires { size_of (map owned sections) < 2 ^ 64 }
        ensures { result ≡ map owned sections.entry }
    {
        RelView { sections }
    }

    /// The sections, which lend their bytes from the file.
    pub fn sections(&self) -> &List<Section<'a>>
        ensures { map owned result.now ≡ self.now }
    {
        &self.sections
    }

    /// The offset in the file of the bytes of the section at a place, of `.shstrtab` at the place behind the last.
    pub fn offset_of(&self, place: usize) -> u64
        requires { place ≤ length self.now }
        ensures { result ≡ offset_of self.now place }
    {
        aligned(end_of(&self.sections.as_slice()[..place]))
    }

    /// The offset in the file of the table of section headers.
    pub fn table(&self) -> u64
        ensures value { result ≡ table_of self.now }
        ensures within { size_of self.now < 2 ^ 64 }
    {
        let sections = self.sections.as_slice();
        aligned(self.offset_of(sections.len()) + names_size(sections))
    }

    /// The offset in the file of the header of the section at a place, of `.shstrtab` at the place behind the last.
    pub fn header_of(&self, place: usize) -> u64
        requires { place ≤ length self.now }
        ensures { result ≡ header_of self.now place }
    {
        self.table() + 64 * (place as u64 + 1)
    }
}
