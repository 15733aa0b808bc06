//! The final addresses of symbols.
ghost use Rattle.std.specs.Prelude.{◌≡◌, ◌<◌, ◌≤◌, ◌+◌, ◌^◌, ◌++◌, IfOk, OnOk};
ghost use Rattle.final_link.specs.Stubs.{functions_address};
ghost use Rattle.final_link.specs.Names.{named};
ghost use Rattle.final_link.specs.Symbols.{code_end, stub_symbols, version_symbols};

use crate::arrays::ArraySymbol;
use crate::image::FUNCTIONS;
use crate::members::{Member, member_in};
use crate::names::NameTable;
use crate::stubs::{GETCHAR, PUTCHAR};
use gimple_ir::{NoMemory, Version};
use std::alloc::Global;

type Entries<'a> = Vec<(&'a str, u32)>;

/// Where the text ends.
pub fn code_end(members: &NameTable<'_, Member>, versions: &[Version]) -> u32
    requires { code_end members.now versions.now < 2 ^ 32 }
    ensures { result ≡ code_end members.now versions.now }
{
    let mut end = FUNCTIONS;
    for version in versions {
        end += member_in(members, &version.symbol).size as u32;
    }
    end
}

fn push_stubs(entries: &mut Entries<'_>) -> Result<(), NoMemory>
    ensures { OnOk result (named entries.new.items ≡ named entries.old.items ++ stub_symbols) }
{
    entries.push(("__builtin_putchar", PUTCHAR))?;
    entries.push(("__builtin_getchar", GETCHAR))?;
    Ok(())
}

fn push_versions<'a>(
    entries: &mut Entries<'a>,
    members: &NameTable<'_, Member>,
    versions: &'a [Version],
) -> Result<(), NoMemory>
    requires { code_end members.now versions.now < 2 ^ 32 }
    ensures { OnOk result (named entries.new.items ≡ named entries.old.items ++ version_symbols members.now versions.now) }
{
    let mut at = FUNCTIONS;
    for version in versions {
        entries.push((version.symbol.as_str(), at))?;
        at += member_in(members, &version.symbol).size as u32;
    }
    Ok(())
}

fn push_arrays<'a>(entries: &mut Entries<'a>, arrays: &'a [ArraySymbol]) -> Result<(), NoMemory>
    ensures { OnOk result (named entries.new.items ≡ named entries.old.items ++ arrays.now) }
{
    for array in arrays {
        entries.push((array.name(), array.address()))?;
    }
    Ok(())
}

/// The stubs, the versions and the arrays, each with its address.
pub fn symbols_of<'a>(
    alloc: Global,
    members: &NameTable<'_, Member>,
    versions: &'a [Version],
    arrays: &'a [ArraySymbol],
) -> Result<NameTable<'a, u32>, NoMemory>
    requires { code_end members.now versions.now < 2 ^ 32 }
    ensures { IfOk result (λ symbols. symbols ≡ stub_symbols ++ (version_symbols members.now versions.now ++ arrays.now)) }
{
    let mut entries: Entries<'a> = Vec::new(alloc);
    push_stubs(&mut entries)?;
    push_versions(&mut entries, members, versions)?;
    push_arrays(&mut entries, arrays)?;
    NameTable::new(alloc, entries)
}
