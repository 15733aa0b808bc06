//! The merged program of objects under a resolution.
ghost use Rattle.std.specs.Prelude.{◌≡◌, ◌++◌, ◌+◌, ◌<◌, ◌^◌, false, IfOk, OnOk, Some, length, map, slice_get};
ghost use Rattle.gimple_ir.specs.Checks.{is_extern};
ghost use Rattle.func_summary.specs.Summarised.{parameter_types_of};
ghost use Rattle.resolution_text.specs.Answers.{Answers};
ghost use Rattle.symbol_resolution.specs.Kept.{kept_function, kept_array, kept_functions_in, kept_functions, kept_arrays_in, kept_arrays};
ghost use Rattle.symbol_resolution.specs.Merging.{merged_function, merged_array, merged_by, merged_of, IsMergedOf, AreFew};

use crate::groups::NameGroups;
use crate::kept::{arrays as kept_arrays, functions as kept_functions, kept_as};
use crate::lines::check_lines;
use crate::linking::{array_copy, linked_summary};
use crate::marks::{Mark, marks_of};
use crate::names::{check_main, check_names};
use crate::numbers::{Numbered, main_number};
use crate::types::parameters;
use gimple_ir::{
    Array, Function, List, Merged, MergedArray, MergedFunction, Name, NoMemory, ScalarType,
};
use lto_object::Object;
use resolution_text::{Resolution, ResolutionError};
use std::alloc::Global;

// ---- functions

fn parameter_types(alloc: Global, function: &Function) -> Result<List<ScalarType>, NoMemory>
    ensures { IfOk result (λ types. types ≡ parameter_types_of function.now) }
{
    let mut types: Vec<ScalarType> = Vec::new(alloc);
    for variable in parameters(function) {
        types.extend_from_slice(variable.types.as_slice())?;
    }
    Ok(List::from_vec(types))
}

/// A function that is kept.
fn merged_function(
    alloc: Global,
    functions: &NameGroups<'_, Numbered>,
    arrays: &NameGroups<'_, Numbered>,
    object: usize,
    item: &Object<'_>,
    place: u32,
    function: &Function,
    exported: bool,
) -> Result<MergedFunction, NoMemory>
    requires object { object < 2 ^ 32 }
    requires there { slice_get item.now.source.functions place ≡ Some function.now }
    requires defined { is_extern function.now.linkage ≡ false }
    ensures { IfOk result (λ merged. merged ≡ merged_function functions.now arrays.now (kept_function object item.now.source place function.now exported)) }
{
    let summary = item.summary(place);
    Ok(MergedFunction {
        object: object as u32,
        place,
        name: function.name.copy()?,
        exported,
        result: function.result,
        parameter_types: parameter_types(alloc, function)?,
        summary: linked_summary(alloc, functions, arrays, object, item.module(), summary)?,
    })
}

fn push_functions(
    alloc: Global,
    merged: &mut List<MergedFunction>,
    marks: &NameGroups<'_, Mark>,
    functions: &NameGroups<'_, Numbered>,
    arrays: &NameGroups<'_, Numbered>,
    object: usize,
    item: &Object<'_>,
) -> Result<(), NoMemory>
    requires object { object < 2 ^ 32 }
    requires few { length item.now.source.functions < 2 ^ 32 }
    ensures { OnOk result (merged.new ≡ merged.old ++ map (merged_function functions.now arrays.now) (kept_functions_in marks.now object item.now.source 0 item.now.source.functions)) }
{
    for (place, function) in item.module().functions.as_slice().iter().enumerate() {
        let place = place as u32;
        let name = function.name.as_str();
        match kept_as(marks, true, object, place, function.linkage, name) {
            None => {}
            Some(exported) => {
                merged.push(merged_function(
                    alloc, functions, arrays, object, item, place, function, exported,
                )?)?;
            }
        }
    }
    Ok(())
}

fn merged_functions(
    alloc: Global,
    marks: &NameGroups<'_, Mark>,
    functions: &NameGroups<'_, Numbered>,
    arrays: &NameGroups<'_, Numbered>,
    objects: &[Object<'_>],
) -> Result<List<MergedFunction>, NoMemory>
    requires { AreFew objects.now }
    ensures { IfOk result (λ merged. merged ≡ map (merged_function functions.now arrays.now) (kept_functions marks.now 0 objects.now)) }
{
    let mut merged: List<MergedFunction> = List::new(alloc);
    for (object, item) in objects.iter().enumerate() {
        push_functions(alloc, &mut merged, marks, functions, arrays, object, item)?;
    }
    Ok(merged)
}

// ---- arrays

fn push_arrays(
    merged: &mut List<MergedArray>,
    marks: &NameGroups<'_, Mark>,
    object: usize,
    arrays: &[Array],
) -> Result<(), NoMemory>
    requires object { object < 2 ^ 32 }
    requires few { length arrays.now < 2 ^ 32 }
    ensures { OnOk result (merged.new ≡ merged.old ++ map merged_array (kept_arrays_in marks.now object 0 arrays.now)) }
{
    for (place, array) in arrays.iter().enumerate() {
        let place = place as u32;
        let name = array.name.as_str();
        match kept_as(marks, false, object, place, array.linkage, name) {
            None => {}
            Some(exported) => {
                merged.push(MergedArray {
                    object: object as u32,
                    place,
                    name: array.name.copy()?,
                    exported,
                    item: array_copy(array)?,
                })?;
            }
        }
    }
    Ok(())
}

fn merged_arrays(
    alloc: Global,
    marks: &NameGroups<'_, Mark>,
    objects: &[Object<'_>],
) -> Result<List<MergedArray>, NoMemory>
    requires { AreFew objects.now }
    ensures { IfOk result (λ merged. merged ≡ map merged_array (kept_arrays marks.now 0 objects.now)) }
{
    let mut merged: List<MergedArray> = List::new(alloc);
    for (object, item) in objects.iter().enumerate() {
        push_arrays(&mut merged, marks, object, item.module().arrays.as_slice())?;
    }
    Ok(merged)
}

// ---- the whole

fn merged(
    alloc: Global,
    marks: &NameGroups<'_, Mark>,
    objects: &[Object<'_>],
) -> Result<Merged, NoMemory>
    requires { AreFew objects.now }
    ensures { IfOk result (λ merged. merged ≡ merged_by objects.now marks.now) }
{
    let functions = kept_functions(alloc, marks, objects)?;
    let arrays = kept_arrays(alloc, marks, objects)?;
    Ok(Merged {
        functions: merged_functions(alloc, marks, &functions, &arrays, objects)?,
        arrays: merged_arrays(alloc, marks, objects)?,
        main: main_number(&functions),
    })
}

#[tactic(auto, unfolding(crate::specs::Merging::merged_of))]
fn merged_under(
    alloc: Global,
    objects: &[Object<'_>],
    names: &[Name],
    resolution: &Resolution,
) -> Result<Merged, ResolutionError>
    requires names { length names.now ≡ length objects.now }
    requires few { AreFew objects.now }
    ensures { Answers result (merged_of objects.now names.now resolution.now) }
{
    check_lines(objects, names, resolution)?;
    let files = resolution.files.as_slice();
    let marks = marks_of(alloc, objects, files)?;
    check_names(objects, &marks, files)?;
    check_main(alloc, objects, &marks)?;
    Ok(merged(alloc, &marks, objects)?)
}

/// The merged program of objects under a resolution, whose files have these names. A fault is the first: of the resolution's lines in
/// order, `FileCount`, `FileName`, `SymbolCount`, `SymbolName`, `NativeWord` or `WordKind`; then of the names in the order of their
/// first symbols, `TwoPrevailing`, `NoPrevailing` or `TypeMismatch`; last `NoMain`.
pub fn merge(
    alloc: Global,
    objects: &[Object<'_>],
    names: &[Name],
    resolution: &Resolution,
) -> Result<Merged, ResolutionError>
    requires names { length names.now ≡ length objects.now }
    requires few { AreFew objects.now }
    ensures exact { Answers result (merged_of objects.now names.now resolution.now) }

    // What is answered is a merged program of these objects.
    ensures made { IfOk result (λ merged. IsMergedOf objects.now merged) }
{
    merged_under(alloc, objects, names, resolution)
}
