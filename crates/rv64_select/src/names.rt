//! The names of references, each once, and the relocations that cite them by their places.
ghost use Rattle.std.specs.Prelude.{◌≡◌, ◌-◌, ◌≤◌, ◌<◌, ◌^◌, ℕ, List, length, map, position, OnOk, IfOk};
ghost use Rattle.std.specs.List.{AllByRecursion};
ghost use Rattle.std.specs.Str.{bytes_eq};
ghost use Rattle.gimple_ir.specs.Names.{IsName};
ghost use Rattle.rv64_select.specs.Code.{symbol_name};
ghost use Rattle.rv64_select.specs.Items.{SymbolFits};
ghost use Rattle.rv64_select.specs.Selected.{with_name, names_of, place_of, relocation_of};
ghost use Rattle.rv64_select.specs.Placed.{IsPlaced};

use crate::item::Symbol;
use crate::references::Reference;
use elf_container::Reloc;
use gimple_ir::{List, Name, NoMemory, VersionedFunction};
use std::alloc::Global;
use std::collections::BTreeMap;

/// Names, and the relocations that cite them.
#[derive(Drop)]
pub struct NamedRelocations {
    pub names: List<Name>,
    pub relocations: List<Reloc>,
}

/// The place of each name.
type Places<'a> = BTreeMap<&'a str, u32>;

fn symbol_name(function: &VersionedFunction, symbol: Symbol) -> &str
    requires { SymbolFits function.now symbol }
    ensures value { result.now ≡ symbol_name function.now symbol }
    ensures name { IsName result.now }
{
    match symbol {
        Symbol::Putchar => "__builtin_putchar",
        Symbol::Getchar => "__builtin_getchar",
        Symbol::Target(call) => function.calls.get(call as usize).as_str(),
        Symbol::Array(array) => function.arrays.get(array as usize).symbol.as_str(),
    }
}

fn owned(alloc: Global, name: &str) -> Result<Name, NoMemory>
    requires { IsName name.now }
    ensures { IfOk result (λ found. found ≡ name.now) }
{
    match Name::read(alloc, name.as_bytes())? {
        Some(name) => Ok(name),
        None => unreachable!(),
    }
}

// The place of a name, which comes behind the others if it is new.
fn place<'a>(
    alloc: Global,
    places: &mut Places<'a>,
    names: &mut List<Name>,
    name: &'a str,
) -> Result<u32, NoMemory>
    requires name { IsName name.now }
    requires placed { IsPlaced places.old names.old }
    requires few { length names.old < 2 ^ 32 - 1 }
    ensures names { OnOk result (names.new ≡ with_name names.old name.now) }
    ensures place { IfOk result (λ place. place ≡ place_of names.new name.now) }
    ensures placed { OnOk result (IsPlaced places.new names.new) }
{
    if let Some(place) = places.get(name) {
        return Ok(*place);
    }
    let place = names.len() as u32;
    places.insert(name, place)?;
    names.push(owned(alloc, name)?)?;
    Ok(place)
}

/// The relocations of references, and the names that they cite, in the order of their first relocation.
pub fn named(
    alloc: Global,
    function: &VersionedFunction,
    references: &[Reference],
) -> Result<NamedRelocations, NoMemory>
    requires few { length references.now < 2 ^ 32 - 1 }
    requires fits { AllByRecursion (λ r. SymbolFits function.now r.symbol) references.now }
    ensures names { IfOk result (λ named. named.names ≡ names_of function.now references.now) }
    ensures relocations { IfOk result (λ named. named.relocations ≡ map (relocation_of function.now (names_of function.now references.now)) references.now) }
{
    let mut places = BTreeMap::new(alloc);
    let mut names = List::new(alloc);
    let mut relocations = List::new(alloc);
    for reference in references {
        let name = symbol_name(function, reference.symbol);
        let symbol = place(alloc, &mut places, &mut names, name)?;
        relocations.push(Reloc {
            offset: reference.offset,
            kind: reference.kind,
            symbol,
        })?;
    }
    Ok(NamedRelocations { names, relocations })
}
