//! The sections of an object.
ghost use Rattle.std.specs.Prelude.{◌≡◌, ◌++◌, [], ◌∷◌, codes, IfOk, OnOk};
ghost use Rattle.gimple_ir.specs.Names.{IsName};
ghost use Rattle.lto_object.specs.Objects.{section_of, sections_with};

use elf_container::OwnSection;
use gimple_ir::{Bytes, List, Name, NoMemory};
use std::alloc::Global;

/// The type of a section with bytes of the program's own (System V ABI, chapter 4, "Sections").
pub const SHT_PROGBITS: u32 = 1;
/// The flag of a section that a linker leaves out of what it makes.
pub const SHF_EXCLUDE: u64 = 0x8000_0000;

/// A name of the format.
fn name_of(alloc: Global, name: &str) -> Result<Name, NoMemory>
    requires { IsName name.now }
    ensures { IfOk result (λ found. found ≡ name.now) }
{
    match Name::read(alloc, name.as_bytes())? {
        Some(name) => Ok(name),
        None => unreachable!(),
    }
}

fn section(alloc: Global, name: &str, bytes: Vec<u8>) -> Result<OwnSection, NoMemory>
    requires { IsName name.now }
    ensures { IfOk result (λ section. section ≡ section_of name.now bytes.items) }
{
    Ok(OwnSection {
        name: name_of(alloc, name)?,
        kind: SHT_PROGBITS,
        flags: SHF_EXCLUDE,
        link: 0,
        info: 0,
        entry_size: 0,
        bytes: Bytes::from_vec(bytes),
    })
}

/// Adds a section at the end.
fn add(
    sections: &mut List<OwnSection>,
    alloc: Global,
    name: &str,
    bytes: Vec<u8>,
) -> Result<(), NoMemory>
    requires { IsName name.now }
    ensures { OnOk result (sections.new ≡ sections.old ++ section_of name.now bytes.items ∷ []) }
{
    let added = section(alloc, name, bytes)?;
    sections.push(added)?;
    Ok(())
}

/// The section of the version alone.
fn version(alloc: Global) -> Result<List<OwnSection>, NoMemory>
    ensures { IfOk result (λ sections. sections ≡ section_of (codes ".gnu.lto_.version") (1 ∷ []) ∷ []) }
{
    let mut sections = List::new(alloc);
    add(
        &mut sections,
        alloc,
        ".gnu.lto_.version",
        vec![in alloc; 1u8]?,
    )?;
    Ok(sections)
}

/// The five sections with these bytes, and the version.
pub fn sections(
    alloc: Global,
    decls: Vec<u8>,
    bodies: Vec<u8>,
    summaries: Vec<u8>,
    symbols: Vec<u8>,
) -> Result<List<OwnSection>, NoMemory>
    ensures { IfOk result (λ sections. sections ≡ sections_with (1 ∷ []) decls.items bodies.items summaries.items symbols.items) }
{
    let mut sections = version(alloc)?;
    add(&mut sections, alloc, ".gnu.lto_.decls", decls)?;
    add(&mut sections, alloc, ".gnu.lto_.bodies", bodies)?;
    add(&mut sections, alloc, ".gnu.lto_.summaries", summaries)?;
    add(&mut sections, alloc, ".gnu.lto_.symbols", symbols)?;
    Ok(sections)
}
