//! The numbers that definitions have in a merged program.
ghost use Rattle.std.specs.Prelude.{◌≡◌};
ghost use Rattle.std.specs.List.{find};
ghost use Rattle.symbol_resolution.specs.Numbers.{is_static as static_linkage, with_number as numbered_with, stands_for, number_of, function_number, array_number, main_number};

use crate::groups::NameGroups;
use gimple_ir::{Linkage, Module};

/// The number of a definition in the merged program, and where the definition stands.
#[derive(Clone, Copy)]
pub struct Numbered {
    pub number: u32,
    pub object: usize,
    /// The number in the object's module.
    pub place: u32,
    /// Whether only the object itself sees the name.
    pub local: bool,
}

pub fn with_number(number: u32, object: usize, place: u32, local: bool) -> Numbered
    ensures { result ≡ numbered_with number object place local }
{
    Numbered {
        number,
        object,
        place,
        local,
    }
}

pub fn is_static(linkage: Linkage) -> bool
    ensures { result ≡ static_linkage linkage }
{
    matches!(linkage, Linkage::Static)
}

fn stands_for(object: usize, place: u32, linkage: Linkage, found: &Numbered) -> bool
    ensures { result ≡ stands_for object place linkage found.now }
{
    if is_static(linkage) {
        found.local && found.object == object && found.place == place
    } else {
        !found.local
    }
}

fn found(group: &[Numbered], object: usize, place: u32, linkage: Linkage) -> Option<Numbered>
    ensures { result ≡ find (stands_for object place linkage) group.now }
{
    group
        .iter()
        .copied()
        .find(|numbered| stands_for(object, place, linkage, numbered))
}

/// The number of what a name of an object stands for.
fn number_of(
    numbers: &NameGroups<'_, Numbered>,
    object: usize,
    place: u32,
    linkage: Linkage,
    name: &str,
) -> u32
    ensures { result ≡ number_of numbers.now object place linkage name.now }
{
    match found(numbers.group(name), object, place, linkage) {
        Some(numbered) => numbered.number,
        None => 0,
    }
}

/// The number of what an object's function of this place stands for.
pub fn function_number(
    numbers: &NameGroups<'_, Numbered>,
    object: usize,
    source: &Module,
    place: u32,
) -> u32
    ensures { result ≡ function_number numbers.now object source.now place }
{
    match source.functions.as_slice().get(place as usize) {
        Some(function) => number_of(
            numbers,
            object,
            place,
            function.linkage,
            function.name.as_str(),
        ),
        None => 0,
    }
}

/// The number of what an object's array of this place stands for.
pub fn array_number(
    numbers: &NameGroups<'_, Numbered>,
    object: usize,
    source: &Module,
    place: u32,
) -> u32
    ensures { result ≡ array_number numbers.now object source.now place }
{
    match source.arrays.as_slice().get(place as usize) {
        Some(array) => number_of(numbers, object, place, array.linkage, array.name.as_str()),
        None => 0,
    }
}

/// The number of `main`.
pub fn main_number(functions: &NameGroups<'_, Numbered>) -> u32
    ensures { result ≡ main_number functions.now }
{
    number_of(functions, 0, 0, Linkage::Strong, "main")
}
