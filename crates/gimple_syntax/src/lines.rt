//! The lines of faults of the checks: those of items, which are numbered in the order of the checks, and of statements.
ghost use Rattle.std.specs.Prelude.{◌≡◌, ◌+◌, ◌<◌, ◌^◌, length, slice_get, ◌++◌, false};
ghost use Rattle.std.specs.List.{list_any, list_all};
ghost use Rattle.std.specs.Option.{option_map_or};
ghost use Rattle.gimple_ir.specs.Names.{is_builtin};
ghost use Rattle.gimple_ir.specs.Checks.{knows_struct};
ghost use Rattle.gimple_syntax.specs.Items.{module_of};
ghost use Rattle.gimple_syntax.specs.Reading.{check_fault, is_found_in_statement, is_in_statement, knows_its_names, is_of, items_of_sort, in_order, line_in, statement_line};
ghost use Rattle.gimple_syntax.specs.Found.{HasPlace, option_now};
ghost use Rattle.gimple_syntax.specs.declared.lines.Sort.TheVariants.{Arrays, Functions};
ghost use Rattle.gimple_ir.specs.declared.fault.TypeKind.TheVariants.{UnknownName};

use crate::text::{TextFault, TextKind};
use gimple_grammar::{Item, ItemLine};
use gimple_ir::{Function, Module, Name, TypeFault, TypeKind, VarType, Variable};

/// The sorts of items, in the order in which they are checked.
#[derive(Clone, Copy)]
pub enum Sort {
    Structs,
    Arrays,
    Functions,
}

fn is_of(sort: Sort, item: &Item) -> bool
    ensures { result ≡ is_of sort item.now }
{
    matches!(
        (sort, item),
        (Sort::Structs, Item::Struct(_))
            | (Sort::Arrays, Item::ExternArray(_) | Item::Array(_, _))
            | (
                Sort::Functions,
                Item::ExternFunction(_) | Item::Function(_, _, _)
            )
    )
}

/// An item, or how many more there are to pass over.
enum Found<'b, 't> {
    Item(&'b ItemLine<'t>),
    After(usize),
}

/// The item of a place among those of its sort.
fn place<'b, 't>(items: &'b [ItemLine<'t>], sort: Sort, number: usize) -> Found<'b, 't>
    ensures { HasPlace result (items_of_sort sort items.now) number }
{
    let mut left = number;
    for item in items {
        if is_of(sort, &item.item) {
            if left == 0 {
                return Found::Item(item);
            }
            left -= 1;
        }
    }
    Found::After(left)
}

/// The item of a number, by the order of the checks.
fn item_of<'b, 't>(items: &'b [ItemLine<'t>], number: usize) -> Option<&'b ItemLine<'t>>
    ensures { option_now result ≡ slice_get (in_order items.now) number }
{
    match place(items, Sort::Structs, number) {
        Found::Item(item) => Some(item),
        Found::After(left) => array_or_function(items, left),
    }
}

fn array_or_function<'b, 't>(items: &'b [ItemLine<'t>], number: usize) -> Option<&'b ItemLine<'t>>
    ensures { option_now result ≡ slice_get (items_of_sort Arrays items.now ++ items_of_sort Functions items.now) number }
{
    match place(items, Sort::Arrays, number) {
        Found::Item(item) => Some(item),
        Found::After(left) => function(items, left),
    }
}

fn function<'b, 't>(items: &'b [ItemLine<'t>], number: usize) -> Option<&'b ItemLine<'t>>
    ensures { option_now result ≡ slice_get (items_of_sort Functions items.now) number }
{
    match place(items, Sort::Functions, number) {
        Found::Item(item) => Some(item),
        Found::After(_) => None,
    }
}

fn is_builtin(name: &Name) -> bool
    ensures { result ≡ is_builtin name.now }
{
    name.as_slice().starts_with(b"__builtin_")
}

fn knows_struct(structs: usize, ty: VarType) -> bool
    ensures { result ≡ knows_struct structs ty }
{
    match ty {
        VarType::Scalar(_) => true,
        VarType::Struct(number) => (number as usize) < structs,
    }
}

fn any_builtin(variables: &[Variable]) -> bool
    ensures { result ≡ list_any (λ v. is_builtin v.name) variables.now }
{
    variables.iter().any(|variable| is_builtin(&variable.name))
}

fn knows_structs(structs: usize, variables: &[Variable]) -> bool
    ensures { result ≡ list_all (λ v. knows_struct structs v.ty) variables.now }
{
    variables
        .iter()
        .all(|variable| knows_struct(structs, variable.ty))
}

/// Whether no name of the function itself is unknown.
fn knows_its_names(source: &Module, function: &Function) -> bool
    ensures { result ≡ knows_its_names source.now function.now }
{
    let own = is_builtin(&function.name);
    let any = any_builtin(function.variables.as_slice());
    let structs = knows_structs(source.structs.len(), function.variables.as_slice());
    !own && !any && structs
}

/// Whether the names of the function at a place are known, if it is there.
fn knows_names_of(source: &Module, place: usize) -> bool
    ensures { result ≡ option_map_or (knows_its_names source.now) (slice_get source.now.functions place) false }
{
    match source.functions.as_slice().get(place) {
        Some(function) => knows_its_names(source, function),
        None => false,
    }
}

/// Whether an unknown name is in a statement of the item of this number.
fn is_unknown_in_statement(source: &Module, number: usize) -> bool
    requires { length source.now.structs + length source.now.arrays < 2 ^ 32 }
    ensures { result ≡ is_found_in_statement source.now number UnknownName }
{
    let before = source.structs.len() + source.arrays.len();
    if number < before {
        false
    } else {
        knows_names_of(source, number - before)
    }
}

fn is_in_statement(source: &Module, fault: TypeFault) -> bool
    requires { length source.now.structs + length source.now.arrays < 2 ^ 32 }
    ensures { result ≡ is_in_statement source.now fault }
{
    match fault.kind {
        TypeKind::UnknownName => is_unknown_in_statement(source, fault.item as usize),
        TypeKind::WrongCount | TypeKind::WrongType | TypeKind::NegLiteral | TypeKind::BadCase =>
            true,
        TypeKind::DoubleName | TypeKind::TooMany | TypeKind::BadLabel | TypeKind::OpenEnd => false,
    }
}

/// The line of a statement of an item.
fn statement_line(item: &ItemLine, statement: usize) -> u32
    ensures { result ≡ statement_line item.now statement }
{
    match &item.item {
        Item::Function(_, _, body) => match body.lines.as_slice().get(statement) {
            Some(line) => line.line,
            None => 0,
        },
        _ => 0,
    }
}

fn line_in(within: bool, statement: usize, item: &ItemLine) -> u32
    ensures { result ≡ line_in within statement item.now }
{
    if within {
        statement_line(item, statement)
    } else {
        item.line
    }
}

/// A fault of the checks of the items' module, with its line.
pub fn check_fault(items: &[ItemLine], source: &Module, fault: TypeFault) -> TextFault
    requires module_of_items { source.now ≡ module_of items.now }
    requires few { length source.now.structs + length source.now.arrays < 2 ^ 32 }
    ensures { result ≡ check_fault items.now fault }
{
    let within = is_in_statement(source, fault);
    let line = match item_of(items, fault.item as usize) {
        Some(item) => line_in(within, fault.statement as usize, item),
        None => 0,
    };
    TextFault {
        line,
        kind: TextKind::Check(fault.kind),
    }
}
