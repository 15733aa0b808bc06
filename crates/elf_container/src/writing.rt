//! Laying out a file: sections are placed one after the other behind room for the file's header, which is written last.
ghost use Rattle.std.specs.Prelude.{◌≡◌, ◌≤◌, ◌<◌, ◌^◌, ◌+◌, ◌++◌, length, drop, map, All, OnOk, IfOk};
ghost use Rattle.elf_container.specs.Format.{file_header, section_header};
ghost use Rattle.elf_container.specs.Layout.{zeros, padded, start, placed, placed_as, shstrtab_of, layout_of, file_of};
ghost use Rattle.elf_container.specs.Container.{IsPlain, IsWritable, IsContainer};
ghost use Rattle.elf_container.specs.Views.{owned};

use crate::entries::{put_all, put_name};
use crate::format::{
    ELFCLASS64, ELFDATA2LSB, ELFMAG0, ELFMAG1, ELFMAG2, ELFMAG3, EM_RISCV, ET_REL, EV_CURRENT,
    SHT_STRTAB,
};
use crate::placing::Placed;
use crate::sections::{Fields, OwnSection, Section};
use cursors::put_le32;
use gimple_ir::{List, NoMemory};
use std::alloc::Global;
use std::marker::Model;

/// What is laid out so far: the names, the file with room for its header, and the table of section headers.
#[derive(Drop)]
struct Laid {
    names: Vec<u8>,
    file: Vec<u8>,
    table: Vec<u8>,
}

impl Model for Laid {
    ghost use Rattle.elf_container.specs.Layout.{Parts};

    ghost Value = { Parts };

    ghost view = { λ l. record { names = l.names.items; file = l.file.items; table = l.table.items } };
}

/// Fills up with zeros to a multiple of 8.
#[tactic(auto, unfolding(crate::specs::Layout::padded))]
fn pad(out: &mut Vec<u8>) -> Result<(), NoMemory>
    ensures padded { OnOk result (out.new.items ≡ padded out.old.items) }
    ensures longer { OnOk result (length out.old.items ≤ length out.new.items) }
{
    let gap = (8 - out.len() % 8) % 8;
    put_zeros(out, gap)
}

#[tactic(auto, unfolding(crate::specs::Layout::zeros))]
pub fn put_zeros(out: &mut Vec<u8>, count: usize) -> Result<(), NoMemory>
    requires { length out.old.items + count < 2 ^ 64 }
    ensures { OnOk result (out.new.items ≡ out.old.items ++ zeros count) }
{
    out.resize(out.len() + count, 0)
}

#[tactic(auto, unfolding(crate::specs::Format::section_header))]
fn put_section_header(
    out: &mut Vec<u8>,
    name: u32,
    offset: u64,
    fields: Fields,
    size: u64,
) -> Result<(), NoMemory>
    ensures { OnOk result (out.new.items ≡ out.old.items ++ section_header name offset fields size) }
{
    put_all(out, &[name, fields.kind])?;
    put_all(out, &[fields.flags, 0, offset, size])?;
    put_all(out, &[fields.link, fields.info])?;
    put_all(out, &[8, fields.entry_size])
}

#[tactic(auto, unfolding(crate::specs::Format::file_header))]
fn put_file_header(out: &mut Vec<u8>, shoff: u64, shnum: u16) -> Result<(), NoMemory>
    requires { 1 ≤ shnum }
    ensures { OnOk result (out.new.items ≡ out.old.items ++ file_header shoff shnum) }
{
    out.extend_from_slice(&[
        ELFMAG0,
        ELFMAG1,
        ELFMAG2,
        ELFMAG3,
        ELFCLASS64,
        ELFDATA2LSB,
        EV_CURRENT,
        0,
        0,
        0,
        0,
        0,
        0,
        0,
        0,
        0,
    ])?;
    put_all(out, &[ET_REL, EM_RISCV])?;
    put_le32(out, EV_CURRENT as u32)?;
    put_all(out, &[0, 0, shoff])?;
    put_le32(out, 0)?;
    put_all(out, &[64, 0, 0, 64, shnum, shnum - 1])
}

/// Writes the header over the first bytes of the file.
fn overwrite(file: &mut [u8], header: &[u8])
    requires { length header.now ≤ length file.old }
    ensures { file.new ≡ header.now ++ drop (length header.now) file.old }
{
    file[..header.len()].copy_from_slice(header);
}

/// The header of a file whose table begins at an offset.
fn header_of(alloc: Global, shoff: u64, shnum: u16) -> Result<Vec<u8>, NoMemory>
    requires { 1 ≤ shnum }
    ensures value { IfOk result (λ header. header.items ≡ file_header shoff shnum) }
    ensures len { IfOk result (λ header. length header.items ≡ 64) }
{
    let mut header = Vec::with_capacity(alloc, 64)?;
    put_file_header(&mut header, shoff, shnum)?;
    Ok(header)
}

/// Puts the table behind the sections, and the header into its room.
fn close(alloc: Global, mut file: Vec<u8>, table: &[u8], shnum: u16) -> Result<Vec<u8>, NoMemory>
    requires count { 1 ≤ shnum }
    requires room { 64 ≤ length file.items }
    ensures { IfOk result (λ bytes. bytes.items ≡ (file_header (length (padded file.items)) shnum ++ drop 64 (padded file.items)) ++ table.now) }
{
    pad(&mut file)?;
    let header = header_of(alloc, file.len() as u64, shnum)?;
    overwrite(file.as_mut_slice(), header.as_slice());
    file.extend_from_slice(table)?;
    Ok(file)
}

/// `.shstrtab`
const SHSTRTAB: &[u8] = b".shstrtab";

impl Laid {
    /// No section yet, with memory for a file of so many bytes.
    fn new(alloc: Global, room: usize) -> Result<Laid, NoMemory>
        ensures { IfOk result (λ laid. laid ≡ start) }
    {
        let names = vec![in alloc; 0u8]?;
        let mut file = Vec::with_capacity(alloc, room)?;
        put_zeros(&mut file, 64)?;
        let mut table = Vec::new(alloc);
        put_zeros(&mut table, 64)?;
        Ok(Laid { names, file, table })
    }

    /// Places a section of this name.
    fn place(&mut self, name: &[u8], fields: Fields, bytes: &[u8]) -> Result<(), NoMemory>
        requires { length self.old.names < 2 ^ 32 }
        ensures placed { OnOk result (self.new ≡ placed_as self.old name.now fields bytes.now) }
        ensures names { OnOk result (length self.new.names ≡ length self.old.names + length name.now + 1) }
        ensures room { OnOk result (length self.old.file ≤ length self.new.file) }
    {
        pad(&mut self.file)?;
        let at = self.names.len() as u32;
        let offset = self.file.len() as u64;
        put_section_header(&mut self.table, at, offset, fields, bytes.len() as u64)?;
        put_name(&mut self.names, name)?;
        self.file.extend_from_slice(bytes)
    }

    /// Places `.shstrtab`, whose bytes are the names so far and its own.
    fn place_names(&mut self, alloc: Global) -> Result<(), NoMemory>
        requires { length self.old.names < 2 ^ 32 }
        ensures placed { OnOk result (self.new ≡ placed self.old (shstrtab_of self.old.names)) }
        ensures room { OnOk result (length self.old.file ≤ length self.new.file) }
    {
        let mut bytes = Vec::from_slice(alloc, self.names.as_slice())?;
        put_name(&mut bytes, SHSTRTAB)?;
        let fields = Fields {
            kind: SHT_STRTAB,
            flags: 0,
            link: 0,
            info: 0,
            entry_size: 0,
        };
        self.place(SHSTRTAB, fields, bytes.as_slice())
    }

    /// The file: its header in its room, the sections, the table.
    fn finish(self, alloc: Global, shnum: u16) -> Result<Vec<u8>, NoMemory>
        requires count { 1 ≤ shnum }
        requires room { 64 ≤ length self.file }
        ensures { IfOk result (λ bytes. bytes.items ≡ file_of self shnum) }
    {
        let Laid {
            names: _,
            file,
            table,
        } = self;
        close(alloc, file, table.as_slice(), shnum)
    }
}

/// The layout of the sections, in memory for a file of so many bytes, which grows where that is too little.
#[tactic(auto, unfolding(crate::specs::Layout::layout_of))]
fn lay_out<S: Placed>(alloc: Global, sections: &[S], room: usize) -> Result<Vec<u8>, NoMemory>
    requires { length sections.now ≤ 65533 }
    ensures value { IfOk result (λ bytes. bytes.items ≡ layout_of (map S.as_own sections.now)) }
    ensures fit { OnOk result (All IsWritable (map S.as_own sections.now)) }
{
    let mut laid = Laid::new(alloc, room)?;
    for section in sections {
        laid.place(section.name().as_slice(), section.fields(), section.bytes())?;
    }
    laid.place_names(alloc)?;
    laid.finish(alloc, sections.len() as u16 + 2)
}

/// How many bytes the file of the sections has at most.
fn room_for(sections: &[OwnSection]) -> usize {
    let mut room = 512usize;
    for section in sections {
        let size = section.bytes.len().saturating_add(section.name.len());
        room = room.saturating_add(size).saturating_add(80);
    }
    room
}

/// The file of the sections and of their names. It asks for at most 65,000 sections, each of type 1 to 4 and not compressed.
pub fn write_rel(alloc: Global, sections: &List<OwnSection>) -> Result<Vec<u8>, NoMemory>
    requires few { length sections.now ≤ 65000 }
    requires plain { All IsPlain sections.now }
    ensures value { IfOk result (λ bytes. bytes.items ≡ layout_of sections.now) }

    // So `read_rel` finds them.
    ensures container { OnOk result (IsContainer sections.now) }
{
    let room = room_for(sections.as_slice());
    lay_out(alloc, sections.as_slice(), room)
}

/// The same file of sections that lend their bytes, where it is expected to have so many bytes.
pub fn lay_out_lent(
    alloc: Global,
    sections: &[Section<'_>],
    room: usize,
) -> Result<Vec<u8>, NoMemory>
    requires { length sections.now ≤ 65533 }
    ensures { IfOk result (λ bytes. bytes.items ≡ layout_of (map owned sections.now)) }
{
    lay_out(alloc, sections, room)
}
