//! The relocatable object of one version.
ghost use Rattle.std.specs.Prelude.{◌≡◌, ◌<◌, ◌-◌, ◌*◌, ◌≤◌, ◌^◌, length, map, All, IfOk, true, false, ◌∷◌};
ghost use Rattle.std.specs.List.{AllByRecursion};
ghost use Rattle.gimple_ir.specs.Names.{repeats};
ghost use Rattle.ipa_transform.specs.Versioned.{versioned_of};
ghost use Rattle.ipa_transform.specs.Members.{IsMember};
ghost use Rattle.elf_container.specs.Relocatable.{SymbolFits, relocs_from, named_in_order};
ghost use Rattle.gimple_meaning.specs.Versioned.{IsVersioned, bound_of};
ghost use Rattle.rv64_select.specs.Selected.{words_of_code, names_of_code, relocations_of_code, place_of};
ghost use Rattle.program_link.specs.Known.{IsPart};
ghost use Rattle.program_link.specs.Objects.{defined_symbol, other_symbol, others, object_place, placed, object_of};

use elf_container::{RelSymbol, Reloc, RelocObject};
use gimple_ir::{List, Member, Name, NoMemory, VersionedFunction};
use ipa_transform::version_body;
use rv64_frame::frame;
use rv64_select::{FunctionCode, code};
use std::alloc::Global;

// The place of a version's own symbol among the names of its code, or their count.
fn own_place(own: &Name, names: &[Name]) -> u32
    requires { length names.now < 2 ^ 32 }
    ensures { result ≡ place_of names.now own.now }
{
    let mut place = 0;
    for name in names {
        if own == name {
            return place;
        }
        place += 1;
    }
    place
}

// The place in the object's symbols, of which the version's own is the first, of one of the code's names.
fn symbol_place(own: u32, name: u32) -> u32
    requires { name < 2 ^ 32 - 1 }
    ensures { result ≡ object_place own name }
{
    if name == own {
        return 0;
    }
    if name < own { name + 1 } else { name }
}

fn defined(own: &Name, size: u64) -> Result<RelSymbol, NoMemory>
    ensures value { IfOk result (λ symbol. symbol ≡ defined_symbol own.now size) }
    ensures fits { IfOk result SymbolFits }
{
    Ok(RelSymbol {
        name: own.copy()?,
        start: Some(0),
        size,
    })
}

fn undefined(name: &Name) -> Result<RelSymbol, NoMemory>
    ensures value { IfOk result (λ symbol. symbol ≡ other_symbol name.now) }
    ensures fits { IfOk result SymbolFits }
{
    Ok(RelSymbol {
        name: name.copy()?,
        start: None,
        size: 0,
    })
}

// The number of bytes of words.
fn byte_count(words: &[u32]) -> u64
    requires { length words.now < 2 ^ 32 }
    ensures value { result ≡ 4 * length words.now }
    ensures fits { AllByRecursion (λ word. word < 2 ^ 32) words.now }
{
    4 * words.len() as u64
}

fn symbols_of(
    alloc: Global,
    own: &Name,
    size: u64,
    names: &[Name],
) -> Result<List<RelSymbol>, NoMemory>
    ensures value { IfOk result (λ symbols. symbols ≡ defined_symbol own.now size ∷ map other_symbol (others own.now names.now)) }
    ensures fits { IfOk result (AllByRecursion SymbolFits) }
{
    let mut symbols = Vec::new(alloc);
    symbols.push(defined(own, size)?)?;
    for name in names {
        if own == name {
            continue;
        }
        symbols.push(undefined(name)?)?;
    }
    Ok(List::from_vec(symbols))
}

fn relocations_of(alloc: Global, own: u32, relocations: &[Reloc]) -> Result<List<Reloc>, NoMemory>
    requires { All (λ r. r.symbol < 2 ^ 32 - 1) relocations.now }
    ensures { IfOk result (λ found. found ≡ map (placed own) relocations.now) }
{
    let mut found = Vec::new(alloc);
    for reloc in relocations {
        found.push(Reloc {
            offset: reloc.offset,
            kind: reloc.kind,
            symbol: symbol_place(own, reloc.symbol),
        })?;
    }
    Ok(List::from_vec(found))
}

// The object of a version whose code is given.
fn object(
    alloc: Global,
    version: &VersionedFunction,
    code: FunctionCode,
) -> Result<RelocObject, NoMemory>
    requires versioned { IsVersioned version.now }
    requires words { code.words ≡ words_of_code version.now }
    requires names { code.names ≡ names_of_code version.now }
    requires relocations { code.relocations ≡ relocations_of_code version.now }
    requires bound { 4 * length code.words ≤ bound_of version.now }
    requires fills { relocs_from 0 code.words code.relocations ≡ true }
    requires named { named_in_order 0 (length code.names) code.relocations ≡ true }
    requires once { repeats code.names ≡ false }
    ensures value { IfOk result (λ object. object ≡ object_of version.now) }
    ensures part { IfOk result IsPart }
{
    let names = code.names.as_slice();
    let own = own_place(&version.symbol, names);
    let words = code.words.as_slice();
    let symbols = symbols_of(alloc, &version.symbol, byte_count(words), names)?;
    let relocations = relocations_of(alloc, own, code.relocations.as_slice())?;
    Ok(RelocObject {
        symbols,
        words: code.words,
        relocations,
    })
}

/// The object of the version that a member describes.
pub fn compile(alloc: Global, member: &Member) -> Result<RelocObject, NoMemory>
    requires member { IsMember member.now }
    requires versioned { IsVersioned (versioned_of member.now) }
    ensures value { IfOk result (λ object. object ≡ object_of (versioned_of member.now)) }
    ensures part { IfOk result IsPart }
{
    let version = version_body(alloc, member)?;
    let layout = frame(&version);
    let code = code(alloc, &version, &layout)?;
    object(alloc, &version, code)
}
