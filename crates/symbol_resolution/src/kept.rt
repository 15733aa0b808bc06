//! The definitions that a merged program keeps, with their numbers there.
ghost use Rattle.std.specs.Prelude.{◌≡◌, ◌++◌, ◌+◌, ◌<◌, ◌≤◌, ◌^◌, IfOk, OnOk, length};
ghost use Rattle.symbol_resolution.specs.Groups.{named};
ghost use Rattle.symbol_resolution.specs.Kept.{is_exporting as exports, is_exported as exported_under, kept_as, kept_functions_in, kept_functions, kept_arrays_in, kept_arrays};
ghost use Rattle.symbol_resolution.specs.Numbers.{function_numbers, array_numbers};
ghost use Rattle.symbol_resolution.specs.Merging.{AreFew};

use crate::groups::NameGroups;
use crate::marks::{Mark, prevailing};
use crate::names::is_at;
use crate::numbers::{Numbered, is_static, with_number};
use gimple_ir::{Linkage, Module, NoMemory};
use lto_object::Object;
use resolution_text::Word;
use std::alloc::Global;

fn is_exporting(word: Word) -> bool
    ensures { result ≡ exports word }
{
    matches!(word, Word::PrevailingDef | Word::PrevailingDefIronlyExp)
}

fn is_exported(name: &str, word: Word) -> bool
    ensures { result ≡ exported_under name.now word }
{
    is_exporting(word) || name == "main"
}

/// Whether a definition is exported, or None where it is not kept.
pub fn kept_as(
    marks: &NameGroups<'_, Mark>,
    function: bool,
    object: usize,
    place: u32,
    linkage: Linkage,
    name: &str,
) -> Option<bool>
    ensures { result ≡ kept_as marks.now function object place linkage name.now }
{
    match linkage {
        Linkage::Extern => None,
        Linkage::Static => Some(false),
        Linkage::Strong | Linkage::Weak => match prevailing(marks, name) {
            None => None,
            Some(mark) => {
                if is_at(function, object, place, &mark) {
                    Some(is_exported(name, mark.word))
                } else {
                    None
                }
            }
        },
    }
}

fn push_functions<'a>(
    numbers: &mut Vec<(&'a str, Numbered)>,
    marks: &NameGroups<'_, Mark>,
    object: usize,
    source: &'a Module,
) -> Result<(), NoMemory>
    requires { length numbers.old.items + length source.now.functions < 2 ^ 32 }
    ensures added { OnOk result (named numbers.new.items ≡ named numbers.old.items ++ function_numbers (length numbers.old.items) (kept_functions_in marks.now object source.now 0 source.now.functions)) }
    ensures few { OnOk result (length numbers.new.items ≤ length numbers.old.items + length source.now.functions) }
{
    let mut number = numbers.len() as u32;
    for (place, function) in source.functions.as_slice().iter().enumerate() {
        let place = place as u32;
        let name = function.name.as_str();
        match kept_as(marks, true, object, place, function.linkage, name) {
            None => {}
            Some(_) => {
                let local = is_static(function.linkage);
                numbers.push((name, with_number(number, object, place, local)))?;
                number += 1;
            }
        }
    }
    Ok(())
}

fn push_arrays<'a>(
    numbers: &mut Vec<(&'a str, Numbered)>,
    marks: &NameGroups<'_, Mark>,
    object: usize,
    source: &'a Module,
) -> Result<(), NoMemory>
    requires { length numbers.old.items + length source.now.arrays < 2 ^ 32 }
    ensures added { OnOk result (named numbers.new.items ≡ named numbers.old.items ++ array_numbers (length numbers.old.items) (kept_arrays_in marks.now object 0 source.now.arrays)) }
    ensures few { OnOk result (length numbers.new.items ≤ length numbers.old.items + length source.now.arrays) }
{
    let mut number = numbers.len() as u32;
    for (place, array) in source.arrays.as_slice().iter().enumerate() {
        let place = place as u32;
        let name = array.name.as_str();
        match kept_as(marks, false, object, place, array.linkage, name) {
            None => {}
            Some(_) => {
                let local = is_static(array.linkage);
                numbers.push((name, with_number(number, object, place, local)))?;
                number += 1;
            }
        }
    }
    Ok(())
}

/// The numbers of the functions that are kept.
pub fn functions<'a>(
    alloc: Global,
    marks: &NameGroups<'_, Mark>,
    objects: &'a [Object<'_>],
) -> Result<NameGroups<'a, Numbered>, NoMemory>
    requires { AreFew objects.now }
    ensures { IfOk result (λ numbers. numbers ≡ function_numbers 0 (kept_functions marks.now 0 objects.now)) }
{
    let mut numbers: Vec<(&'a str, Numbered)> = Vec::new(alloc);
    for (object, item) in objects.iter().enumerate() {
        push_functions(&mut numbers, marks, object, item.module())?;
    }
    NameGroups::of(alloc, numbers)
}

/// The numbers of the arrays that are kept.
pub fn arrays<'a>(
    alloc: Global,
    marks: &NameGroups<'_, Mark>,
    objects: &'a [Object<'_>],
) -> Result<NameGroups<'a, Numbered>, NoMemory>
    requires { AreFew objects.now }
    ensures { IfOk result (λ numbers. numbers ≡ array_numbers 0 (kept_arrays marks.now 0 objects.now)) }
{
    let mut numbers: Vec<(&'a str, Numbered)> = Vec::new(alloc);
    for (object, item) in objects.iter().enumerate() {
        push_arrays(&mut numbers, marks, object, item.module())?;
    }
    NameGroups::of(alloc, numbers)
}
