//! Whether a value has the form of a unit's relocatable object.
ghost use Rattle.std.specs.Prelude.{◌≡◌, ◌==◌, ◌-◌, ◌/◌, ◌%◌, nat_le, Some, None, ◌<◌, ◌+◌, ◌*◌, ◌^◌, ◌≤◌, ◌||◌, ◌&&◌, ℕ, List, map, length, not, count_by, option_copied, IfOk, OnOk, nat_lt};
ghost use Rattle.std.specs.List.{list_all};
ghost use Rattle.std.specs.Str.{bytes_eq};
ghost use Rattle.gimple_ir.specs.Names.{repeats};
ghost use Rattle.elf_container.specs.SeenNames.{holds};
ghost use Rattle.elf_container.specs.Relocatable.{is_auipc, is_jalr, is_lui, is_load, is_store, next_is_jalr, fills_by, fills, reach, relocs_from, after, named_in_order, is_undefined, is_defined, stands, fill_from};
ghost use Rattle.elf_container.specs.ObjectReading.{is_object};

use crate::format::{R_RISCV_CALL_PLT, R_RISCV_HI20, R_RISCV_LO12_I, R_RISCV_LO12_S};
use crate::relocatable::{RelSymbol, Reloc, RelocObject};
use gimple_ir::{Name, NoMemory};
use std::alloc::Global;
use std::collections::BTreeMap;

fn is_auipc(word: u32) -> bool
    ensures { result ≡ is_auipc word }
{
    word % 128 == 0x17 && word / 4096 == 0
}

fn is_jalr(word: u32) -> bool
    ensures { result ≡ is_jalr word }
{
    word % 128 == 0x67 && word / 4096 % 8 == 0 && word / 1_048_576 == 0
}

fn is_lui(word: u32) -> bool
    ensures { result ≡ is_lui word }
{
    word % 128 == 0x37 && word / 4096 == 0
}

fn is_load(word: u32) -> bool
    ensures { result ≡ is_load word }
{
    let funct3 = word / 4096 % 8;
    word % 128 == 0x03 && (funct3 == 4 || funct3 == 2 || funct3 == 3) && word / 1_048_576 == 0
}

fn is_store(word: u32) -> bool
    ensures { result ≡ is_store word }
{
    let funct3 = word / 4096 % 8;
    word % 128 == 0x23
        && (funct3 == 0 || funct3 == 2 || funct3 == 3)
        && word / 33_554_432 == 0
        && word / 128 % 32 == 0
}

fn next_is_jalr(next: Option<&u32>) -> bool
    ensures { result ≡ next_is_jalr (option_copied next.entry) }
{
    match next {
        None => false,
        Some(word) => is_jalr(*word),
    }
}

fn is_call(word: u32, next: Option<&u32>) -> bool
    ensures { result ≡ (is_auipc word && next_is_jalr (option_copied next.entry)) }
{
    is_auipc(word) && next_is_jalr(next)
}

/// Whether a word, before the next one, is what a relocation of the kind fills.
fn is_filled(kind: u32, word: u32, next: Option<&u32>) -> bool
    ensures { result ≡ fills_by kind (Some word) (option_copied next.entry) }
{
    match kind {
        R_RISCV_CALL_PLT => is_call(word, next),
        R_RISCV_HI20 => is_lui(word),
        R_RISCV_LO12_I => is_load(word),
        R_RISCV_LO12_S => is_store(word),
        _ => false,
    }
}

/// Whether the words at a place are what a relocation of the kind fills.
#[tactic(auto, unfolding(crate::specs::Relocatable::fills))]
fn fills(kind: u32, place: usize, words: &[u32]) -> bool
    ensures { result ≡ fills kind place words.now }
{
    match words.get(place) {
        None => false,
        Some(word) => is_filled(kind, *word, words.get(place + 1)),
    }
}

fn reach(kind: u32) -> u128
    ensures { result ≡ reach kind }
{
    if kind == R_RISCV_CALL_PLT { 8 } else { 4 }
}

/// Whether a relocation stands at such an offset or behind it, at what it fills.
fn is_placed(least: u128, words: &[u32], reloc: &Reloc) -> bool
    ensures { result ≡ (nat_le least reloc.now.offset && reloc.now.offset % 4 == 0 && fills reloc.now.kind (reloc.now.offset / 4) words.now) }
{
    least <= u128::from(reloc.offset)
        && reloc.offset % 4 == 0
        && fills(reloc.kind, (reloc.offset / 4) as usize, words)
}

fn relocs_from(words: &[u32], relocations: &[Reloc]) -> bool
    ensures { result ≡ relocs_from 0 words.now relocations.now }
{
    let mut least = 0u128;
    for reloc in relocations {
        if !is_placed(least, words, reloc) {
            return false;
        }
        least = u128::from(reloc.offset) + reach(reloc.kind);
    }
    true
}

/// The first symbol that is not named yet, after a relocation that names a symbol; none where it names a later one.
fn after(next: u64, symbol: u32) -> Option<u64>
    ensures { result ≡ after next symbol }
{
    let symbol = u64::from(symbol);
    if symbol < next {
        return Some(next);
    }
    if symbol == next { Some(next + 1) } else { None }
}

fn named_in_order(first: u64, count: u64, relocations: &[Reloc]) -> bool
    ensures { result ≡ named_in_order first count relocations.now }
{
    let mut next = first;
    for reloc in relocations {
        let Some(later) = after(next, reloc.symbol) else {
            return false;
        };
        next = later;
    }
    next == count
}

fn is_undefined(symbol: &RelSymbol) -> bool
    ensures { result ≡ is_undefined symbol.now }
{
    symbol.start.is_none() && symbol.size == 0
}

fn all_undefined(symbols: &[RelSymbol]) -> bool
    ensures { result ≡ list_all is_undefined symbols.now }
{
    symbols.iter().all(|symbol| is_undefined(symbol))
}

/// Whether a member stands at a place in the text and ends in it.
fn stands(symbol: &RelSymbol, start: u64, at: u64, end: u64) -> bool
    requires { at ≤ end }
    ensures { result ≡ (start == at && symbol.now.size % 4 == 0 && nat_le symbol.now.size (end - at)) }
{
    start == at && symbol.size % 4 == 0 && symbol.size <= end - at
}

fn fill_from(end: u64, symbols: &[RelSymbol]) -> bool
    ensures { result ≡ fill_from 0 end symbols.now }
{
    let mut at = 0u64;
    for (place, symbol) in symbols.iter().enumerate() {
        let Some(start) = symbol.start else {
            return at == end && all_undefined(symbols.split_at(place).1);
        };
        if !stands(symbol, start, at, end) {
            return false;
        }
        at += symbol.size;
    }
    at == end
}

fn members(symbols: &[RelSymbol]) -> usize
    ensures { result ≡ count_by is_defined symbols.now }
{
    symbols
        .iter()
        .filter(|symbol| symbol.start.is_some())
        .count()
}

/// The names that were seen so far.
type Seen<'a> = BTreeMap<&'a str, ()>;

/// Adds a name, and tells whether it had been seen.
fn add<'a>(seen: &mut Seen<'a>, name: &'a Name) -> Result<bool, NoMemory>
    ensures found { IfOk result (λ found. found ≡ holds seen.old name.now) }
    ensures added { OnOk result ((q : List ℕ) → holds seen.new q ≡ (bytes_eq q name.now || holds seen.old q)) }
{
    let old = seen.insert(name.as_str(), ())?;
    Ok(old.is_some())
}

/// Whether a name stands twice.
fn repeats(alloc: Global, symbols: &[RelSymbol]) -> Result<bool, NoMemory>
    ensures { IfOk result (λ found. found ≡ repeats (map (λ s. s.name) symbols.now)) }
{
    let mut seen = BTreeMap::new(alloc);
    for symbol in symbols {
        if add(&mut seen, &symbol.name)? {
            return Ok(true);
        }
    }
    Ok(false)
}

/// Whether all parts of the form are met, with fewer than 2^32 symbols.
fn all_met(count: u64, double: bool, filled: bool, placed: bool, named: bool) -> bool
    ensures { result ≡ (nat_lt count (2 ^ 32) && not double && filled && placed && named) }
{
    count < 1 << 32 && !double && filled && placed && named
}

/// Whether the value has a spelling.
pub fn is_object(alloc: Global, object: &RelocObject) -> Result<bool, NoMemory>
    ensures { IfOk result (λ is. is ≡ is_object object.now) }
{
    let symbols = object.symbols.as_slice();
    let words = object.words.as_slice();
    let relocations = object.relocations.as_slice();
    let count = symbols.len() as u64;
    let filled = fill_from(4 * words.len() as u64, symbols);
    let placed = relocs_from(words, relocations);
    let named = named_in_order(members(symbols) as u64, count, relocations);
    let double = repeats(alloc, symbols)?;
    Ok(all_met(count, double, filled, placed, named))
}
