//! The relocatable object of a unit: text, symbols and relocations, with one file for each value.
ghost use Rattle.std.specs.Prelude.{◌≡◌, ◌+◌, ◌++◌, ◌<◌, ◌^◌, length, IfOk};
ghost use Rattle.std.specs.List.{flat_map};
ghost use Rattle.gimple_ir.specs.Names.{IsName};
ghost use Rattle.elf_container.specs.Relocatable.{entries_from, entry_by, text_section, rela_section, symtab_section, strtab_section, sections_of, object_bytes, IsObject};

use crate::entries::{Spelled, Sym, put_all};
use crate::format::{
    SHF_ALLOC, SHF_EXECINSTR, SHT_PROGBITS, SHT_RELA, SHT_STRTAB, SHT_SYMTAB, STB_GLOBAL_STT_FUNC,
    STB_GLOBAL_STT_NOTYPE,
};
use crate::sections::OwnSection;
use crate::writing::{put_zeros, write_rel};
use gimple_ir::{Bytes, List, Name, NoMemory};
use std::alloc::Global;
use thiserror::Error;

/// A symbol: a function of the unit with its place and size in the text, in bytes, or a name that is not defined, with size 0.
#[derive(Debug, Drop)]
pub struct RelSymbol {
    pub name: Name,
    pub start: Option<u64>,
    pub size: u64,
}

/// A relocation at an offset of the text, in bytes. Its kind is the psABI's number, its symbol a place in the list of symbols.
#[derive(Clone, Copy, Debug, PartialEq, Eq)]
pub struct Reloc {
    pub offset: u64,
    pub kind: u32,
    pub symbol: u32,
}

/// The relocatable object of a unit. The fields that relocations fill are 0 in its words.
#[derive(Drop)]
pub struct RelocObject {
    pub symbols: List<RelSymbol>,
    pub words: List<u32>,
    pub relocations: List<Reloc>,
}

/// Why bytes are no relocatable object of a unit.
#[derive(Clone, Copy, Debug, PartialEq, Eq, Error)]
pub enum FormError {
    /// They have not the form. The offset is that of the file's fault, and else 0.
    #[error("no relocatable object, by the byte at {offset}")]
    Bad { offset: u64 },
    #[error("out of memory")]
    NoMemory,
}

/// The entry of a symbol whose name stands at an offset of `.strtab`.
fn entry_of(name: u64, symbol: &RelSymbol) -> Sym
    ensures { result ≡ entry_by name symbol.now.size symbol.now.start }
{
    let name = (name % (1 << 32)) as u32;
    match symbol.start {
        Some(start) => Sym {
            name,
            info: STB_GLOBAL_STT_FUNC,
            section: 1,
            value: start,
            size: symbol.size,
        },
        None => Sym {
            name,
            info: STB_GLOBAL_STT_NOTYPE,
            section: 0,
            value: 0,
            size: symbol.size,
        },
    }
}

/// The entries of the symbols, whose names stand in `.strtab` from offset 1 on.
fn entries_of(alloc: Global, symbols: &[RelSymbol]) -> Result<Vec<Sym>, NoMemory>
    requires { length symbols.now < 2 ^ 32 }
    ensures { IfOk result (λ found. found.items ≡ entries_from 1 symbols.now) }
{
    let mut found = Vec::new(alloc);
    let mut name = 1u64;
    for symbol in symbols {
        found.push(entry_of(name, symbol))?;
        name += symbol.name.len() as u64 + 1;
    }
    Ok(found)
}

/// The bytes of items, one behind the other, after what stands there.
fn bytes_of<S: Spelled>(mut out: Vec<u8>, items: &[S]) -> Result<Bytes, NoMemory>
    ensures { IfOk result (λ bytes. bytes ≡ out.items ++ flat_map S.spell items.now) }
{
    put_all(&mut out, items)?;
    Ok(Bytes::from_vec(out))
}

/// A name of the format.
fn name_of(alloc: Global, name: &[u8]) -> Result<Name, NoMemory>
    requires { IsName name.now }
    ensures { IfOk result (λ found. found ≡ name.now) }
{
    match Name::read(alloc, name)? {
        Some(name) => Ok(name),
        None => unreachable!(),
    }
}

fn text_section(alloc: Global, object: &RelocObject) -> Result<OwnSection, NoMemory>
    ensures { IfOk result (λ section. section ≡ text_section object.now) }
{
    Ok(OwnSection {
        name: name_of(alloc, b".text")?,
        kind: SHT_PROGBITS,
        flags: SHF_ALLOC + SHF_EXECINSTR,
        link: 0,
        info: 0,
        entry_size: 0,
        bytes: bytes_of(Vec::new(alloc), object.words.as_slice())?,
    })
}

fn rela_section(alloc: Global, object: &RelocObject) -> Result<OwnSection, NoMemory>
    ensures { IfOk result (λ section. section ≡ rela_section object.now) }
{
    Ok(OwnSection {
        name: name_of(alloc, b".rela.text")?,
        kind: SHT_RELA,
        flags: 0,
        link: 3,
        info: 1,
        entry_size: 24,
        bytes: bytes_of(Vec::new(alloc), object.relocations.as_slice())?,
    })
}

fn symtab_section(alloc: Global, object: &RelocObject) -> Result<OwnSection, NoMemory>
    requires { length object.now.symbols < 2 ^ 32 }
    ensures { IfOk result (λ section. section ≡ symtab_section object.now) }
{
    let entries = entries_of(alloc, object.symbols.as_slice())?;
    let mut zero = Vec::new(alloc);
    put_zeros(&mut zero, 24)?;
    Ok(OwnSection {
        name: name_of(alloc, b".symtab")?,
        kind: SHT_SYMTAB,
        flags: 0,
        link: 4,
        info: 1,
        entry_size: 24,
        bytes: bytes_of(zero, entries.as_slice())?,
    })
}

fn strtab_section(alloc: Global, object: &RelocObject) -> Result<OwnSection, NoMemory>
    ensures { IfOk result (λ section. section ≡ strtab_section object.now) }
{
    Ok(OwnSection {
        name: name_of(alloc, b".strtab")?,
        kind: SHT_STRTAB,
        flags: 0,
        link: 0,
        info: 0,
        entry_size: 0,
        bytes: bytes_of(vec![in alloc; 0u8]?, object.symbols.as_slice())?,
    })
}

/// The four sections of an object.
#[tactic(auto, unfolding(crate::specs::Relocatable::sections_of))]
fn sections_of(alloc: Global, object: &RelocObject) -> Result<List<OwnSection>, NoMemory>
    requires { length object.now.symbols < 2 ^ 32 }
    ensures value { IfOk result (λ sections. sections ≡ sections_of object.now) }
{
    let mut sections = List::new(alloc);
    sections.push(text_section(alloc, object)?)?;
    sections.push(rela_section(alloc, object)?)?;
    sections.push(symtab_section(alloc, object)?)?;
    sections.push(strtab_section(alloc, object)?)?;
    Ok(sections)
}

/// The one file of an object that fills its text with its members, names each name that it does not define, and has relocations by
/// ascending offsets at the instructions that they fill.
#[tactic(auto, unfolding(crate::specs::Relocatable::object_bytes))]
pub fn write_object(alloc: Global, object: &RelocObject) -> Result<Vec<u8>, NoMemory>
    requires { IsObject object.now }
    ensures { IfOk result (λ bytes. bytes.items ≡ object_bytes object.now) }
{
    let sections = sections_of(alloc, object)?;
    write_rel(alloc, &sections)
}
