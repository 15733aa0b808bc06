//! The words of a member with its relocated fields filled.
ghost use Rattle.std.specs.Prelude.{◌≡◌, ◌<◌, ◌≤◌, ◌+◌, ◌-◌, ◌/◌, ◌^◌, pos, ◌-ℤ◌, ◌<ℤ◌, ℕ, List, length, map, slice_get, All};
ghost use Rattle.std.specs.Option.{option_map_or};
ghost use Rattle.final_link.specs.Filling.{upper_field, lower_field, with_upper, with_lower, with_store_lower, changed_at, filled_by, filled};
ghost use Rattle.final_link.specs.Members.{counted_from};
ghost use Rattle.final_link.specs.Symbols.{address_in};

use crate::names::NameTable;
use elf_container::{
    R_RISCV_CALL_PLT, R_RISCV_HI20, R_RISCV_LO12_I, R_RISCV_LO12_S, RelSymbol, Reloc,
};
use rv64_abi::{lower, upper};

// The 20 bits of the upper part of an offset.
fn upper_field(offset: i64) -> u32
    requires { offset <ℤ pos (2 ^ 32) }
    ensures value { result ≡ upper_field offset }
    ensures field { result < 2 ^ 20 }
{
    upper(offset).unsigned_abs()
}

// The 12 bits of the lower part.
fn lower_field(offset: i64) -> u32
    requires { offset <ℤ pos (2 ^ 32) }
    ensures value { result ≡ lower_field offset }
    ensures field { result < 2 ^ 12 }
{
    lower(offset).rem_euclid(4096).unsigned_abs()
}

fn with_upper(offset: i64, word: u32) -> u32
    requires { offset <ℤ pos (2 ^ 32) }
    ensures { result ≡ with_upper offset word }
{
    word % 4096 + upper_field(offset) * 4096
}

fn with_lower(offset: i64, word: u32) -> u32
    requires { offset <ℤ pos (2 ^ 32) }
    ensures { result ≡ with_lower offset word }
{
    word % 1_048_576 + lower_field(offset) * 1_048_576
}

fn with_store_lower(offset: i64, word: u32) -> u32
    requires { offset <ℤ pos (2 ^ 32) }
    ensures { result ≡ with_store_lower offset word }
{
    let field = lower_field(offset);
    word % 128 + field % 32 * 128 + word / 4096 % 8192 * 4096 + field / 32 * 33_554_432
}

fn fill_upper(words: &mut Vec<u32>, place: usize, offset: i64)
    requires { offset <ℤ pos (2 ^ 32) }
    ensures { words.new.items ≡ changed_at place (with_upper offset) words.old.items }
{
    if place < words.len() {
        words[place] = with_upper(offset, words[place]);
    }
}

fn fill_lower(words: &mut Vec<u32>, place: usize, offset: i64)
    requires { offset <ℤ pos (2 ^ 32) }
    ensures { words.new.items ≡ changed_at place (with_lower offset) words.old.items }
{
    if place < words.len() {
        words[place] = with_lower(offset, words[place]);
    }
}

fn fill_store(words: &mut Vec<u32>, place: usize, offset: i64)
    requires { offset <ℤ pos (2 ^ 32) }
    ensures { words.new.items ≡ changed_at place (with_store_lower offset) words.old.items }
{
    if place < words.len() {
        words[place] = with_store_lower(offset, words[place]);
    }
}

// What one relocation at a place fills, from this address to that one.
#[tactic(auto, unfolding(crate::specs::Filling::filled_by))]
fn fill_by(words: &mut Vec<u32>, kind: u32, place: usize, from: u32, to: u32)
    requires { place < 2 ^ 62 }
    ensures { words.new.items ≡ filled_by kind place from to words.old.items }
{
    if kind == R_RISCV_CALL_PLT {
        let distance = i64::from(to) - i64::from(from);
        fill_upper(words, place, distance);
        fill_lower(words, place + 1, distance);
    } else if kind == R_RISCV_HI20 {
        fill_upper(words, place, i64::from(to));
    } else if kind == R_RISCV_LO12_I {
        fill_lower(words, place, i64::from(to));
    } else if kind == R_RISCV_LO12_S {
        fill_store(words, place, i64::from(to));
    }
}

// The address of a symbol of a part, by its number there.
fn address_of(symbols: &NameTable<'_, u32>, of_part: &[RelSymbol], number: u32) -> u32
    ensures { result ≡ address_in symbols.now of_part.now number }
{
    match of_part.get(number as usize) {
        Some(symbol) => symbols.value(symbol.name.as_str(), 0),
        None => 0,
    }
}

/// Fills the words of a member at an address by relocations of its part. The member begins at an offset there.
pub fn fill(
    words: &mut Vec<u32>,
    at: u32,
    start: u64,
    relocations: &[Reloc],
    symbols: &NameTable<'_, u32>,
    of_part: &[RelSymbol],
)
    requires near { at < 2 ^ 31 }
    requires inside { All (λ r. (start ≤ r.offset) × (r.offset < start + 2 ^ 31)) relocations.now }
    ensures { words.new.items ≡ filled (map (counted_from start) relocations.now) (address_in symbols.now of_part.now) at words.old.items }
{
    for reloc in relocations {
        let offset = reloc.offset - start;
        let to = address_of(symbols, of_part, reloc.symbol);
        fill_by(
            words,
            reloc.kind,
            (offset / 4) as usize,
            at + offset as u32,
            to,
        );
    }
}
