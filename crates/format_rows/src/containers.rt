//! Containers that are written, and read.
ghost use Rattle.std.specs.Prelude.{◌≡◌, ◌≤◌, All, IfOk, length, bit_and};
ghost use Rattle.elf_container.specs.Container.{IsPlain};

use crate::parts::spelled;
use anyhow::{Result, bail};
use elf_container::{ElfError, OwnSection, read_rel, write_rel};
use gimple_ir::{Bytes, List, Name};
use std::alloc::Global;

/// The section of a line: name, type, flags, link, info, size of an entry, bytes.
fn section(alloc: Global, line: &str) -> Result<OwnSection>
    ensures { IfOk result (λ section. IsPlain section) }
{
    let words = line.split(' ').collect::<Vec<&str>>(alloc)?;
    let [name, kind, flags, link, info, entry_size, text] = words.as_slice() else {
        bail!("no section: {line}");
    };
    let Some(name) = Name::read(alloc, name.as_bytes())? else {
        bail!("no name: {name}");
    };
    let kind = kind.parse::<u32>()?;
    if kind < 1 || 4 < kind {
        bail!("no type of a plain section: {kind}");
    }
    Ok(OwnSection {
        name,
        kind,
        flags: if *flags == "6" { 6 } else { 0 },
        link: link.parse::<u32>()?,
        info: info.parse::<u32>()?,
        entry_size: entry_size.parse::<u64>()?,
        bytes: Bytes::from_vec(spelled(alloc, text)?),
    })
}

/// The sections of lines.
fn all_sections(alloc: Global, lines: &[String]) -> Result<List<OwnSection>>
    ensures { IfOk result (λ sections. All IsPlain sections) }
{
    let mut sections = Vec::new(alloc);
    for line in lines {
        sections.push(section(alloc, line.as_str())?)?;
    }
    Ok(List::from_vec(sections))
}

/// The container of the sections of these lines.
pub fn written(alloc: Global, lines: &[String]) -> Result<Vec<u8>> {
    let sections = all_sections(alloc, lines)?;
    if sections.len() > 65000 {
        bail!("too many sections");
    }
    Ok(write_rel(alloc, &sections)?)
}

/// `read`, or the fault of a container and its offset.
pub fn container_fault(alloc: Global, bytes: &[u8]) -> Result<String> {
    match read_rel(alloc, bytes) {
        Ok(_) => Ok(String::from_str(alloc, "read")?),
        Err(ElfError::Fault(fault)) => {
            let kind = fault.kind;
            let offset = fault.offset;
            Ok(format!(in alloc; "{kind:?} {offset}")?)
        }
        Err(ElfError::NoMemory) => bail!("out of memory"),
    }
}

/// The sections of a container.
pub fn sections(alloc: Global, bytes: &[u8]) -> Result<String> {
    let view = read_rel(alloc, bytes)?;
    let mut text = String::new(alloc);
    for section in view.sections().as_slice() {
        let name = section.name.as_str();
        let kind = section.kind;
        let flags = section.flags;
        let link = section.link;
        let info = section.info;
        let size = section.entry_size;
        let bytes = section.bytes.escape_ascii();
        let line = format!(in alloc; "{name} {kind} {flags} {link} {info} {size} {bytes};")?;
        text.push_str(line.as_str())?;
    }
    Ok(text)
}
