//! `containers HOW SECTIONS SIZE` makes SECTIONS sections of SIZE bytes each, at most 65,000 sections: `make` does nothing
//! more, `write` lays them out by `write_rel`, `read` reads that file by `read_rel` too. The time of `write` less that of `make`
//! is the time of laying out, and so on.
ghost use Rattle.std.specs.Prelude.{◌≤◌, All, IfOk, length};
ghost use Rattle.elf_container.specs.Container.{IsPlain};

use crate::words::Words;
use anyhow::{Result, bail};
use elf_container::{OwnSection, read_rel, write_rel};
use gimple_ir::{Bytes, List, Name};
use std::alloc::Global;

/// The most sections that a run has.
const MOST_SECTIONS: u32 = 65_000;

pub fn measure(rt: &HostRuntime, words: &mut Words) -> Result<()> {
    let how = words.text()?;
    let count = words.count()?.min(MOST_SECTIONS);
    let size = words.count()?;
    let made = sections(rt.alloc(), count, size as usize)?;
    let (bytes, found) = gone_over(rt.alloc(), how.as_str(), &made)?;
    println!(rt; "{} sections, {bytes} bytes, {found} found", made.len())?;
    Ok(())
}

/// Sections named `.section`, each with bytes that are all alike.
fn sections(alloc: Global, count: u32, size: usize) -> Result<List<OwnSection>>
    requires { count ≤ 65000 }
    ensures { IfOk result (λ made. (length made ≤ 65000) × All IsPlain made) }
{
    let mut sections = List::new(alloc);
    for place in 0..count {
        let Some(name) = Name::read(alloc, b".section")? else {
            bail!("no name");
        };
        sections.push(section(name, vec![in alloc; (place % 251) as u8; size]?))?;
    }
    Ok(sections)
}

fn section(name: Name, bytes: Vec<u8>) -> OwnSection
    ensures { IsPlain result }
{
    OwnSection {
        name,
        kind: 1,
        flags: 0,
        link: 0,
        info: 0,
        entry_size: 0,
        bytes: Bytes::from_vec(bytes),
    }
}

/// The file's bytes, where there is one, and how many sections were found in it, where it is read.
fn gone_over(alloc: Global, how: &str, sections: &List<OwnSection>) -> Result<(usize, usize)>
    requires few { length sections.now ≤ 65000 }
    requires plain { All IsPlain sections.now }
{
    if how == "make" {
        return Ok((0, 0));
    }
    let file = write_rel(alloc, sections)?;
    let found = if how == "read" {
        found_in(alloc, &file)?
    } else {
        0
    };
    Ok((file.len(), found))
}

/// How many sections are found in a file.
fn found_in(alloc: Global, file: &[u8]) -> Result<usize> {
    let view = read_rel(alloc, file)?;
    Ok(view.sections().len())
}
