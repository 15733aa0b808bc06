//! The numbers of names: a name has the number of its first place.
ghost use Rattle.std.specs.Prelude.{◌≡◌, ℕ, List, Some, None, IfOk, OnOk, map, min, length, if◌then◌else◌};
ghost use Rattle.std.specs.Str.{bytes_eq};
ghost use Rattle.gimple_syntax.specs.Numbers.{nothing, number_of};
ghost use Rattle.gimple_syntax.specs.Table.{number_in, first_number, or_else, Finds};

use gimple_ir::NoMemory;
use std::alloc::Global;
use std::collections::HashMap;
use std::marker::Model;

type Numbers<'a> = HashMap<&'a [u8], u32>;

/// Names in order, with the number of each: that of the first place at which it stands.
#[derive(Drop)]
pub struct NameTable<'a> {
    names: Vec<&'a [u8]>,
    numbers: Numbers<'a>,
}

impl<'a> Model for NameTable<'a> {
    ghost use Rattle.std.specs.Prelude.{List, ℕ, map};
    ghost use Rattle.gimple_syntax.specs.Table.{Finds};

    ghost Value = { List (List ℕ) };

    ghost view = { λ table. map (λ name. name.now) table.names.items };

    ghost invariant = { λ table. Finds (map (λ name. name.now) table.names.items) table.numbers };
}

/// The count as a number of names, which stops at the one that names nothing.
pub fn capped(count: usize) -> u32
    ensures { result ≡ min count nothing }
{
    if count < 0xffff_ffff {
        count as u32
    } else {
        0xffff_ffff
    }
}

/// Gives a name its number, unless it has one.
fn number_name<'a>(numbers: &mut Numbers<'a>, name: &'a [u8], number: u32) -> Result<(), NoMemory>
    ensures { OnOk result ((q : List ℕ) → number_in numbers.new q ≡ or_else (number_in numbers.old q) (if bytes_eq q name.now then Some number else None)) }
{
    if !numbers.contains_key(name) {
        numbers.insert(name, number)?;
    }
    Ok(())
}

fn number_names<'a>(alloc: Global, names: &[&'a [u8]]) -> Result<Numbers<'a>, NoMemory>
    ensures { IfOk result (λ numbers. Finds (map (λ name. name.now) names.now) numbers) }
{
    let mut numbers = HashMap::new(alloc);
    for place in 0..names.len() {
        number_name(&mut numbers, names[place], capped(place))?;
    }
    Ok(numbers)
}

impl<'a> NameTable<'a> {
    /// The table of these names.
    pub fn new(alloc: Global, names: Vec<&'a [u8]>) -> Result<NameTable<'a>, NoMemory>
        ensures { IfOk result (λ table. table ≡ map (λ name. name.now) names.entry.items) }
    {
        let numbers = number_names(alloc, names.as_slice())?;
        Ok(NameTable { names, numbers })
    }

    /// The number of the name, or 2^32 - 1 where it is none of the names.
    pub fn number(&self, name: &[u8]) -> u32
        ensures { result ≡ number_of self.now name.now }
    {
        match self.numbers.get(name) {
            Some(number) => *number,
            None => 0xffff_ffff,
        }
    }
}
