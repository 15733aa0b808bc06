//! The fault of the first name of a link that has one, and that of `main`.
ghost use Rattle.std.specs.Prelude.{◌≡◌, count_by, length, not, codes, IfOk};
ghost use Rattle.std.specs.List.{list_any, find};
ghost use Rattle.std.specs.Option.{option_copied};
ghost use Rattle.symbol_resolution.specs.Marks.{prevails as prevails_of, marks_in, marks_from};
ghost use Rattle.symbol_resolution.specs.NameFaults.{function_at, array_at, functions_match, arrays_match, types_match, group_fault, prevailing_fault, same_sort as sorts_equal, is_at, is_first, mark_fault, names_fault, is_int as gives_int, is_main as is_main_function, is_main_at, main_fault};
ghost use Rattle.symbol_resolution.specs.Lines.{HaveWords};
ghost use Rattle.symbol_resolution.specs.Resolving.{GivesFault};

use crate::groups::NameGroups;
use crate::marks::{Mark, first_prevailing, prevailing, prevails};
use crate::types::{same_array, same_function};
use gimple_ir::{Array, Function, Name, NoMemory, ResultType, ScalarType};
use lto_object::{Object, Symbol};
use resolution_text::{ResolutionError, ResolutionKind, Resolved, ResolvedFile};
use std::alloc::Global;

// ---- the items of symbols

/// The function of this number of an object.
pub fn function<'a>(objects: &'a [Object<'_>], object: usize, place: u32) -> Option<&'a Function>
    ensures { option_copied result ≡ function_at objects.now object place }
{
    match objects.get(object) {
        Some(object) => object.module().functions.as_slice().get(place as usize),
        None => None,
    }
}

fn array<'a>(objects: &'a [Object<'_>], object: usize, place: u32) -> Option<&'a Array>
    ensures { option_copied result ≡ array_at objects.now object place }
{
    match objects.get(object) {
        Some(object) => object.module().arrays.as_slice().get(place as usize),
        None => None,
    }
}

fn functions_match(objects: &[Object<'_>], a: &Mark, b: &Mark) -> bool
    ensures { result ≡ functions_match objects.now a.now b.now }
{
    match (
        function(objects, a.object, a.place),
        function(objects, b.object, b.place),
    ) {
        (Some(a), Some(b)) => same_function(a, b),
        _ => false,
    }
}

fn arrays_match(objects: &[Object<'_>], a: &Mark, b: &Mark) -> bool
    ensures { result ≡ arrays_match objects.now a.now b.now }
{
    match (
        array(objects, a.object, a.place),
        array(objects, b.object, b.place),
    ) {
        (Some(a), Some(b)) => same_array(a, b),
        _ => false,
    }
}

fn types_match(objects: &[Object<'_>], a: &Mark, b: &Mark) -> bool
    ensures { result ≡ types_match objects.now a.now b.now }
{
    if a.function {
        b.function && functions_match(objects, a, b)
    } else {
        !b.function && arrays_match(objects, a, b)
    }
}

fn any_differs(objects: &[Object<'_>], first: &Mark, group: &[Mark]) -> bool
    ensures { result ≡ list_any (λ n. not (types_match objects.now first.now n)) group.now }
{
    group.iter().any(|mark| !types_match(objects, first, mark))
}

// ---- the fault of a name

fn count_prevailing(group: &[Mark]) -> usize
    ensures { result ≡ count_by prevails_of group.now }
{
    group.iter().filter(|mark| prevails(mark)).count()
}

fn fault_of_group(objects: &[Object<'_>], group: &[Mark]) -> Option<ResolutionKind>
    ensures { result ≡ group_fault objects.now group.now }
{
    if count_prevailing(group) > 1 {
        return Some(ResolutionKind::TwoPrevailing);
    }
    match first_prevailing(group) {
        None => Some(ResolutionKind::NoPrevailing),
        Some(mark) => {
            if any_differs(objects, &mark, group) {
                Some(ResolutionKind::TypeMismatch)
            } else {
                None
            }
        }
    }
}

fn same_sort(a: bool, b: bool) -> bool
    ensures { result ≡ sorts_equal a b }
{
    if a { b } else { !b }
}

/// Whether the mark is that of the function, or array, of this number of the object.
pub fn is_at(function: bool, object: usize, place: u32, mark: &Mark) -> bool
    ensures { result ≡ is_at function object place mark.now }
{
    same_sort(function, mark.function) && object == mark.object && place == mark.place
}

fn is_first(mark: &Mark, group: &[Mark]) -> bool
    ensures { result ≡ is_first mark.now group.now }
{
    match group.first() {
        Some(first) => is_at(mark.function, mark.object, mark.place, first),
        None => false,
    }
}

fn check_mark(
    objects: &[Object<'_>],
    marks: &NameGroups<'_, Mark>,
    name: &Name,
    mark: &Mark,
) -> Result<(), ResolutionError>
    ensures { GivesFault result (mark_fault objects.now marks.now name.now mark.now) }
{
    let group = marks.group(name.as_str());
    if !is_first(mark, group) {
        return Ok(());
    }
    match fault_of_group(objects, group) {
        None => Ok(()),
        Some(kind) => {
            let name = name.copy()?;
            Err(ResolutionError::AtName { kind, name })
        }
    }
}

fn check_object(
    objects: &[Object<'_>],
    marks: &NameGroups<'_, Mark>,
    object: usize,
    symbols: &[Symbol],
    words: &[Resolved],
) -> Result<(), ResolutionError>
    requires { length symbols.now ≡ length words.now }
    ensures { GivesFault result (names_fault objects.now marks.now (marks_in object symbols.now words.now)) }
{
    for (place, symbol) in symbols.iter().enumerate() {
        let mark = Mark {
            object,
            place: symbol.place,
            function: symbol.function,
            word: words[place].word,
        };
        if let Err(error) = check_mark(objects, marks, &symbol.name, &mark) {
            return Err(error);
        }
    }
    Ok(())
}

/// Checks the names of all symbols, in the order of their first symbols.
pub fn check_names(
    objects: &[Object<'_>],
    marks: &NameGroups<'_, Mark>,
    files: &[ResolvedFile],
) -> Result<(), ResolutionError>
    requires same { length objects.now ≡ length files.now }
    requires counts { HaveWords objects.now files.now }
    ensures { GivesFault result (names_fault objects.now marks.now (marks_from 0 objects.now files.now)) }
{
    for (object, item) in objects.iter().enumerate() {
        let symbols = item.symbols().as_slice();
        let words = files[object].words.as_slice();
        if let Err(error) = check_object(objects, marks, object, symbols, words) {
            return Err(error);
        }
    }
    Ok(())
}

// ---- `main`

fn is_int(returned: ResultType) -> bool
    ensures { result ≡ gives_int returned }
{
    match returned {
        ResultType::Void => false,
        ResultType::Scalar(ty) => ty == ScalarType::Int,
    }
}

fn is_main(function: &Function) -> bool
    ensures { result ≡ is_main_function function.now }
{
    is_int(function.result) && function.parameters == 0
}

fn is_main_at(objects: &[Object<'_>], found: Option<Mark>) -> bool
    ensures { result ≡ is_main_at objects.now found }
{
    match found {
        None => false,
        Some(mark) => {
            mark.function
                && match function(objects, mark.object, mark.place) {
                    Some(function) => is_main(function),
                    None => false,
                }
        }
    }
}

fn name_of_main(alloc: Global) -> Result<Name, NoMemory>
    ensures { IfOk result (λ name. name ≡ codes "main") }
{
    match Name::read(alloc, b"main")? {
        Some(name) => Ok(name),
        None => unreachable!(),
    }
}

/// Checks that a function `int main ()` prevails.
pub fn check_main(
    alloc: Global,
    objects: &[Object<'_>],
    marks: &NameGroups<'_, Mark>,
) -> Result<(), ResolutionError>
    ensures { GivesFault result (main_fault objects.now marks.now) }
{
    if is_main_at(objects, prevailing(marks, "main")) {
        return Ok(());
    }
    let name = name_of_main(alloc)?;
    Err(ResolutionError::AtName {
        kind: ResolutionKind::NoMain,
        name,
    })
}
