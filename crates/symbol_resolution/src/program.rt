//! The whole program that a merged program stands for.
ghost use Rattle.std.specs.Prelude.{◌≡◌, ◌<◌, ◌^◌, IfOk, length, map, slice_get};
ghost use Rattle.std.specs.List.{filter_map};
ghost use Rattle.std.specs.Option.{option_map};
ghost use Rattle.symbol_resolution.specs.Numbers.{is_local_function, merged_function_numbers, merged_array_numbers};
ghost use Rattle.symbol_resolution.specs.Linking.{linked_function};
ghost use Rattle.symbol_resolution.specs.Merging.{program_function, program_functions, program_of, IsMergedOf, AreFew};

use crate::groups::NameGroups;
use crate::linking::{array_copy, linked_function};
use crate::names::function;
use crate::numbers::{Numbered, is_static, with_number};
use gimple_ir::{
    Array, Function, List, Merged, MergedArray, MergedFunction, Module, NoMemory, Program,
};
use lto_object::Object;
use std::alloc::Global;

// ---- numbers

fn is_local(objects: &[Object<'_>], merged: &MergedFunction) -> bool
    ensures { result ≡ is_local_function objects.now merged.now }
{
    match function(objects, merged.object as usize, merged.place) {
        Some(function) => is_static(function.linkage),
        None => false,
    }
}

fn function_numbers<'a>(
    alloc: Global,
    objects: &[Object<'_>],
    functions: &'a [MergedFunction],
) -> Result<NameGroups<'a, Numbered>, NoMemory>
    requires { length functions.now < 2 ^ 32 }
    ensures { IfOk result (λ numbers. numbers ≡ merged_function_numbers objects.now 0 functions.now) }
{
    let mut numbers: Vec<(&'a str, Numbered)> = Vec::new(alloc);
    for (number, merged) in functions.iter().enumerate() {
        let local = is_local(objects, merged);
        numbers.push((
            merged.name.as_str(),
            with_number(number as u32, merged.object as usize, merged.place, local),
        ))?;
    }
    NameGroups::of(alloc, numbers)
}

fn array_numbers<'a>(
    alloc: Global,
    arrays: &'a [MergedArray],
) -> Result<NameGroups<'a, Numbered>, NoMemory>
    requires { length arrays.now < 2 ^ 32 }
    ensures { IfOk result (λ numbers. numbers ≡ merged_array_numbers 0 arrays.now) }
{
    let mut numbers: Vec<(&'a str, Numbered)> = Vec::new(alloc);
    for (number, merged) in arrays.iter().enumerate() {
        let local = is_static(merged.item.linkage);
        numbers.push((
            merged.name.as_str(),
            with_number(number as u32, merged.object as usize, merged.place, local),
        ))?;
    }
    NameGroups::of(alloc, numbers)
}

// ---- the items

fn program_arrays(alloc: Global, arrays: &[MergedArray]) -> Result<List<Array>, NoMemory>
    ensures { IfOk result (λ items. items ≡ map (λ a. a.item) arrays.now) }
{
    let mut items: List<Array> = List::new(alloc);
    for array in arrays {
        items.push(array_copy(&array.item)?)?;
    }
    Ok(items)
}

// An object's function of this place.
fn function_in(
    alloc: Global,
    functions: &NameGroups<'_, Numbered>,
    arrays: &NameGroups<'_, Numbered>,
    object: usize,
    source: &Module,
    place: u32,
) -> Result<Option<Function>, NoMemory>
    ensures { IfOk result (λ found. found ≡ option_map (linked_function functions.now arrays.now object source.now) (slice_get source.now.functions place)) }
{
    match source.functions.as_slice().get(place as usize) {
        None => Ok(None),
        Some(function) => {
            let linked = linked_function(alloc, functions, arrays, object, source, function)?;
            Ok(Some(linked))
        }
    }
}

/// The function that a merged one stands for.
fn program_function(
    alloc: Global,
    objects: &[Object<'_>],
    functions: &NameGroups<'_, Numbered>,
    arrays: &NameGroups<'_, Numbered>,
    merged: &MergedFunction,
) -> Result<Option<Function>, NoMemory>
    ensures { IfOk result (λ found. found ≡ program_function objects.now functions.now arrays.now merged.now) }
{
    let object = merged.object as usize;
    match objects.get(object) {
        None => Ok(None),
        Some(item) => function_in(
            alloc,
            functions,
            arrays,
            object,
            item.module(),
            merged.place,
        ),
    }
}

fn linked_functions(
    alloc: Global,
    objects: &[Object<'_>],
    numbers: &NameGroups<'_, Numbered>,
    arrays: &NameGroups<'_, Numbered>,
    merged: &[MergedFunction],
) -> Result<List<Function>, NoMemory>
    ensures { IfOk result (λ functions. functions ≡ filter_map (program_function objects.now numbers.now arrays.now) merged.now) }
{
    let mut functions: List<Function> = List::new(alloc);
    for function in merged {
        match program_function(alloc, objects, numbers, arrays, function)? {
            None => {}
            Some(function) => functions.push(function)?,
        }
    }
    Ok(functions)
}

fn program_functions(
    alloc: Global,
    objects: &[Object<'_>],
    merged: &Merged,
) -> Result<List<Function>, NoMemory>
    requires functions { length merged.now.functions < 2 ^ 32 }
    requires arrays { length merged.now.arrays < 2 ^ 32 }
    ensures { IfOk result (λ functions. functions ≡ program_functions objects.now merged.now) }
{
    let functions = merged.functions.as_slice();
    let numbers = function_numbers(alloc, objects, functions)?;
    let arrays = array_numbers(alloc, merged.arrays.as_slice())?;
    linked_functions(alloc, objects, &numbers, &arrays, functions)
}

/// The whole program that a merged program of these objects stands for: its functions and arrays in their order, with their numbers.
#[tactic(auto, unfolding(crate::specs::Merging::program_of))]
pub fn program_of(
    alloc: Global,
    objects: &[Object<'_>],
    merged: &Merged,
) -> Result<Program, NoMemory>
    requires few { AreFew objects.now }
    requires merged { IsMergedOf objects.now merged.now }
    ensures exact { IfOk result (λ program. program ≡ program_of objects.now merged.now) }
{
    Ok(Program {
        arrays: program_arrays(alloc, merged.arrays.as_slice())?,
        functions: program_functions(alloc, objects, merged)?,
        main: merged.main,
    })
}
