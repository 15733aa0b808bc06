//! The arrays of the data segment. An array is named by its number in the merged program.
ghost use Rattle.std.specs.Prelude.{◌≡◌, ◌<◌, ◌≤◌, ◌+◌, ◌*◌, ◌^◌, ◌++◌, ℕ, filter, not, length, vec_len, string_bytes, All, IfOk, OnOk};
ghost use Rattle.std.specs.List.{flat_map};
ghost use Rattle.gimple_ir.specs.Programs.{IsProgramArray};
ghost use Rattle.final_link.specs.Arrays.{element_size, element_bytes, low_bits, array_size, array_bytes, is_all_zero, size_of, bytes_of, is_zeroed, array_symbol, stored_arrays, zeroed_arrays};
ghost use Rattle.final_link.specs.Symbols.{end_of, places_of, arrays_in_order, array_symbols};

use crate::bytes::{put_word, put_xword};
use gimple_ir::{Array, ElementType, Merged, NoMemory, ScalarType};
use std::alloc::Global;
use std::marker::Model;

// ---- one array

fn element_size(element: ElementType) -> u64
    ensures { result ≡ element_size element }
{
    match element {
        ElementType::UnsignedChar => 1,
        ElementType::Scalar(ScalarType::Int | ScalarType::UnsignedInt) => 4,
        ElementType::Scalar(ScalarType::LongInt | ScalarType::LongUnsignedInt) => 8,
    }
}

fn array_size(array: &Array) -> u64
    ensures value { result ≡ array_size array.now }
    ensures bound { result < 2 ^ 36 }
{
    (u64::from(array.length) * element_size(array.element) + 7) / 8 * 8
}

fn low_byte(value: i128) -> u8
    ensures { result ≡ low_bits 8 value }
{
    value.rem_euclid(1 << 8).unsigned_abs() as u8
}

fn low_word(value: i128) -> u32
    ensures { result ≡ low_bits 32 value }
{
    value.rem_euclid(1 << 32).unsigned_abs() as u32
}

fn low_xword(value: i128) -> u64
    ensures { result ≡ low_bits 64 value }
{
    value.rem_euclid(1 << 64).unsigned_abs() as u64
}

fn put_element(out: &mut Vec<u8>, element: ElementType, value: i128) -> Result<(), NoMemory>
    ensures bytes { OnOk result (out.new.items ≡ out.old.items ++ element_bytes element value) }
    ensures len { OnOk result (vec_len out.new ≡ vec_len out.old + element_size element) }
{
    match element {
        ElementType::UnsignedChar => {
            out.push(low_byte(value))?;
            Ok(())
        }
        ElementType::Scalar(ScalarType::Int | ScalarType::UnsignedInt) => {
            put_word(out, low_word(value))
        }
        ElementType::Scalar(ScalarType::LongInt | ScalarType::LongUnsignedInt) => {
            put_xword(out, low_xword(value))
        }
    }
}

fn put_elements(out: &mut Vec<u8>, element: ElementType, values: &[i128]) -> Result<(), NoMemory>
    ensures bytes { OnOk result (out.new.items ≡ out.old.items ++ flat_map (element_bytes element) values.now) }
    ensures len { OnOk result (vec_len out.new ≡ vec_len out.old + length values.now * element_size element) }
{
    for value in values {
        put_element(out, element, *value)?;
    }
    Ok(())
}

// The elements, and zeros up to the array's size.
fn put_array(out: &mut Vec<u8>, array: &Array) -> Result<(), NoMemory>
    requires { length array.now.initial ≤ array.now.length }
    ensures bytes { OnOk result (out.new.items ≡ out.old.items ++ array_bytes array.now) }
    ensures len { OnOk result (vec_len out.new ≡ vec_len out.old + array_size array.now) }
{
    let end = out.len() as u64 + array_size(array);
    put_elements(out, array.element, array.initial.as_slice())?;
    out.resize(end as usize, 0)
}

fn is_all_zero(array: &Array) -> bool
    ensures { result ≡ is_all_zero array.now }
{
    array.initial.as_slice().iter().all(|value| *value == 0)
}

// ---- by number

// The size of an array in the data segment, in bytes.
fn size_of(merged: &Merged, number: u32) -> u64
    ensures value { result ≡ size_of merged.now number }
    ensures bound { result < 2 ^ 36 }
{
    match merged.arrays.as_slice().get(number as usize) {
        Some(array) => array_size(&array.item),
        None => 0,
    }
}

fn is_zeroed(merged: &Merged, number: u32) -> bool
    ensures { result ≡ is_zeroed merged.now number }
{
    match merged.arrays.as_slice().get(number as usize) {
        Some(array) => is_all_zero(&array.item),
        None => true,
    }
}

fn put_bytes_of(out: &mut Vec<u8>, merged: &Merged, number: u32) -> Result<(), NoMemory>
    requires { All (λ a. IsProgramArray a.item) merged.now.arrays }
    ensures bytes { OnOk result (out.new.items ≡ out.old.items ++ bytes_of merged.now number) }
    ensures len { OnOk result (vec_len out.new ≡ vec_len out.old + size_of merged.now number) }
{
    match merged.arrays.as_slice().get(number as usize) {
        Some(array) => put_array(out, &array.item),
        None => Ok(()),
    }
}

// NAME, `.a` and the number.
fn array_symbol(alloc: Global, merged: &Merged, number: u32) -> Result<String, NoMemory>
    ensures { IfOk result (λ symbol. string_bytes symbol ≡ array_symbol merged.now number) }
{
    let mut symbol = String::new(alloc);
    if let Some(array) = merged.arrays.as_slice().get(number as usize) {
        symbol.push_str(array.name.as_str())?;
    }
    let ending = format!(in alloc; ".a{number}")?;
    symbol.push_str(ending.as_str())?;
    Ok(symbol)
}

// ---- in order

// The kept arrays with an element other than 0.
fn stored_arrays(alloc: Global, merged: &Merged, kept: &[u32]) -> Result<Vec<u32>, NoMemory>
    ensures { IfOk result (λ stored. stored.items ≡ stored_arrays merged.now kept.now) }
{
    let mut stored = Vec::new(alloc);
    for number in kept {
        if !is_zeroed(merged, *number) {
            stored.push(*number)?;
        }
    }
    Ok(stored)
}

// The kept arrays that are all zero.
fn zeroed_arrays(alloc: Global, merged: &Merged, kept: &[u32]) -> Result<Vec<u32>, NoMemory>
    ensures { IfOk result (λ zeroed. zeroed.items ≡ zeroed_arrays merged.now kept.now) }
{
    let mut zeroed = Vec::new(alloc);
    for number in kept {
        if is_zeroed(merged, *number) {
            zeroed.push(*number)?;
        }
    }
    Ok(zeroed)
}

// The bytes of arrays, one behind the other.
fn bytes_of(alloc: Global, merged: &Merged, numbers: &[u32]) -> Result<Vec<u8>, NoMemory>
    requires { All (λ a. IsProgramArray a.item) merged.now.arrays }
    ensures bytes { IfOk result (λ bytes. bytes.items ≡ flat_map (bytes_of merged.now) numbers.now) }
    ensures len { IfOk result (λ bytes. vec_len bytes ≡ end_of (size_of merged.now) 0 numbers.now) }
{
    let mut bytes = Vec::new(alloc);
    for number in numbers {
        put_bytes_of(&mut bytes, merged, *number)?;
    }
    Ok(bytes)
}

// The size of arrays, one behind the other, in bytes.
fn sizes_of(merged: &Merged, numbers: &[u32]) -> u64
    requires { end_of (size_of merged.now) 0 numbers.now < 2 ^ 32 }
    ensures { result ≡ end_of (size_of merged.now) 0 numbers.now }
{
    let mut end = 0;
    for number in numbers {
        end += size_of(merged, *number);
    }
    end
}

/// An array's symbol and its final address.
#[derive(Drop)]
pub struct ArraySymbol {
    name: String,
    address: u32,
}

impl Model for ArraySymbol {
    ghost use Rattle.std.specs.Prelude.{List, ℕ, string_bytes};

    ghost Value = { List ℕ × ℕ };

    ghost view = { λ symbol. (string_bytes symbol.name, symbol.address) };
}

impl ArraySymbol {
    /// The array's name.
    pub fn name(&self) -> &str
        ensures { result.now ≡ self.now.0 }
    {
        self.name.as_str()
    }

    /// Where it begins.
    pub fn address(&self) -> u32
        ensures { result ≡ self.now.1 }
    {
        self.address
    }
}

// The symbols of arrays that stand without gaps from an address on.
fn symbols_from(
    alloc: Global,
    merged: &Merged,
    numbers: &[u32],
    at: u32,
) -> Result<Vec<ArraySymbol>, NoMemory>
    requires { end_of (size_of merged.now) at numbers.now < 2 ^ 32 }
    ensures { IfOk result (λ symbols. symbols.items ≡ places_of (array_symbol merged.now) (size_of merged.now) at numbers.now) }
{
    let mut symbols = Vec::new(alloc);
    let mut address = at;
    for number in numbers {
        let name = array_symbol(alloc, merged, *number)?;
        let size = size_of(merged, *number);
        symbols.push(ArraySymbol { name, address })?;
        address += size as u32;
    }
    Ok(symbols)
}

fn arrays_in_order(alloc: Global, merged: &Merged, kept: &[u32]) -> Result<Vec<u32>, NoMemory>
    ensures { IfOk result (λ numbers. numbers.items ≡ arrays_in_order merged.now kept.now) }
{
    let mut numbers = stored_arrays(alloc, merged, kept)?;
    let zeroed = zeroed_arrays(alloc, merged, kept)?;
    numbers.extend_from_slice(zeroed.as_slice())?;
    Ok(numbers)
}

/// The symbols of the kept arrays, from the page behind the text on.
pub fn array_symbols(
    alloc: Global,
    merged: &Merged,
    kept: &[u32],
    text_end: u32,
) -> Result<Vec<ArraySymbol>, NoMemory>
    requires text { text_end ≤ 2 ^ 28 }
    requires size { end_of (size_of merged.now) 0 (stored_arrays merged.now kept.now) + end_of (size_of merged.now) 0 (zeroed_arrays merged.now kept.now) ≤ 2 ^ 26 }
    ensures { IfOk result (λ symbols. symbols.items ≡ array_symbols merged.now kept.now text_end) }
{
    let numbers = arrays_in_order(alloc, merged, kept)?;
    let at = (text_end + 4095) / 4096 * 4096;
    symbols_from(alloc, merged, numbers.as_slice(), at)
}

/// The bytes of the kept arrays with an element other than 0.
pub fn stored_bytes(alloc: Global, merged: &Merged, kept: &[u32]) -> Result<Vec<u8>, NoMemory>
    requires { All (λ a. IsProgramArray a.item) merged.now.arrays }
    ensures bytes { IfOk result (λ bytes. bytes.items ≡ flat_map (bytes_of merged.now) (stored_arrays merged.now kept.now)) }
    ensures len { IfOk result (λ bytes. vec_len bytes ≡ end_of (size_of merged.now) 0 (stored_arrays merged.now kept.now)) }
{
    let stored = stored_arrays(alloc, merged, kept)?;
    bytes_of(alloc, merged, stored.as_slice())
}

/// The size of the kept arrays that are all zero, in bytes.
pub fn zeroed_size(alloc: Global, merged: &Merged, kept: &[u32]) -> Result<u32, NoMemory>
    requires { end_of (size_of merged.now) 0 (zeroed_arrays merged.now kept.now) < 2 ^ 32 }
    ensures { IfOk result (λ size. size ≡ end_of (size_of merged.now) 0 (zeroed_arrays merged.now kept.now)) }
{
    let zeroed = zeroed_arrays(alloc, merged, kept)?;
    let size = sizes_of(merged, zeroed.as_slice());
    Ok(size as u32)
}
