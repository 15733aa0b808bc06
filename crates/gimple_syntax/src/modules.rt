//! The module that the items of a text make.
ghost use Rattle.std.specs.Prelude.{◌≡◌, ◌<◌, ◌-◌, ◌^◌, ◌++◌, IfOk, OnOk, length, map};
ghost use Rattle.std.specs.Option.{option_map, option_to_list};
ghost use Rattle.gimple_ir.specs.declared.types.Linkage.TheVariants.{Extern};
ghost use Rattle.gimple_grammar.specs.Streams.{no_body};
ghost use Rattle.gimple_syntax.specs.Items.{field_of, struct_of, array_of, struct_in, array_in, function_in, structs_in, arrays_in, function_of, module_of};
ghost use Rattle.gimple_syntax.specs.Passes.{function_at, functions_from, items_read, read_as, GivesRead, AddsParts, Outlined};

use crate::functions::function_of;
use crate::items::Items;
use crate::literals::initial_of;
use crate::text::{TextError, syntax_fault};
use gimple_grammar::{
    ArrayText, Body, FieldText, FunctionText, Item, ItemLine, StructText, SyntaxError, next_item,
};
use gimple_ir::{Array, Field, Function, Linkage, List, Module, NoMemory, StructDef};
use gimple_tokens::Reader;
use std::alloc::Global;

fn fields_of(alloc: Global, fields: &[FieldText]) -> Result<List<Field>, NoMemory>
    ensures { IfOk result (λ found. found ≡ map field_of fields.now) }
{
    let mut found = List::new(alloc);
    for field in fields {
        found.push(Field {
            name: field.name.copy(alloc)?,
            ty: field.ty,
        })?;
    }
    Ok(found)
}

fn struct_of(alloc: Global, text: &StructText) -> Result<StructDef, NoMemory>
    ensures { IfOk result (λ s. s ≡ struct_of text.now) }
{
    let fields = fields_of(alloc, text.fields.as_slice())?;
    Ok(StructDef {
        name: text.name.copy(alloc)?,
        fields,
    })
}

fn struct_in(alloc: Global, item: &Item) -> Result<Option<StructDef>, NoMemory>
    ensures { IfOk result (λ found. found ≡ option_map struct_of (struct_in item.now)) }
{
    match item {
        Item::Struct(text) => Ok(Some(struct_of(alloc, text)?)),
        _ => Ok(None),
    }
}

fn array_of(alloc: Global, linkage: Linkage, text: &ArrayText) -> Result<Array, NoMemory>
    ensures { IfOk result (λ a. a ≡ array_of (record { linkage = linkage; text = text.now })) }
{
    let initial = initial_of(alloc, text.element, text.initial.as_slice())?;
    Ok(Array {
        name: text.name.copy(alloc)?,
        linkage,
        element: text.element,
        length: text.length,
        initial,
    })
}

fn array_in(alloc: Global, item: &Item) -> Result<Option<Array>, NoMemory>
    ensures { IfOk result (λ found. found ≡ option_map array_of (array_in item.now)) }
{
    match item {
        Item::ExternArray(text) => Ok(Some(array_of(alloc, Linkage::Extern, text)?)),
        Item::Array(linkage, text) => Ok(Some(array_of(alloc, *linkage, text)?)),
        _ => Ok(None),
    }
}

fn defined_function<'t>(
    alloc: Global,
    items: &Items<'_, 't>,
    linkage: Linkage,
    head: &FunctionText<'t>,
    body: &Body<'t>,
) -> Result<Function, NoMemory>
    ensures { IfOk result (λ f. f ≡ function_of items.now (record { linkage = linkage; head = head.now; body = body.now })) }
{
    let locals = body.locals.as_slice();
    let lines = body.lines.as_slice();
    function_of(alloc, items, linkage, head, locals, lines)
}

fn declared_function<'t>(
    alloc: Global,
    items: &Items<'_, 't>,
    head: &FunctionText<'t>,
) -> Result<Function, NoMemory>
    ensures { IfOk result (λ f. f ≡ function_of items.now (record { linkage = Extern; head = head.now; body = no_body })) }
{
    let body = Body {
        locals: List::new(alloc),
        lines: List::new(alloc),
    };
    defined_function(alloc, items, Linkage::Extern, head, &body)
}

fn function_in<'t>(
    alloc: Global,
    items: &Items<'_, 't>,
    item: &Item<'t>,
) -> Result<Option<Function>, NoMemory>
    ensures { IfOk result (λ found. found ≡ option_map (function_of items.now) (function_in item.now)) }
{
    match item {
        Item::ExternFunction(head) => Ok(Some(declared_function(alloc, items, head)?)),
        Item::Function(linkage, head, body) => {
            Ok(Some(defined_function(alloc, items, *linkage, head, body)?))
        }
        _ => Ok(None),
    }
}

fn structs_of(alloc: Global, items: &[ItemLine]) -> Result<List<StructDef>, NoMemory>
    ensures { IfOk result (λ found. found ≡ map struct_of (structs_in items.now)) }
{
    let mut found = List::new(alloc);
    for item in items {
        if let Some(part) = struct_in(alloc, &item.item)? {
            found.push(part)?;
        }
    }
    Ok(found)
}

fn arrays_of(alloc: Global, items: &[ItemLine]) -> Result<List<Array>, NoMemory>
    ensures { IfOk result (λ found. found ≡ map array_of (arrays_in items.now)) }
{
    let mut found = List::new(alloc);
    for item in items {
        if let Some(part) = array_in(alloc, &item.item)? {
            found.push(part)?;
        }
    }
    Ok(found)
}

/// Adds the function of an item, if it is one.
fn push_function<'t>(
    alloc: Global,
    names: &Items<'_, 't>,
    item: &Item<'t>,
    found: &mut List<Function>,
) -> Result<(), NoMemory>
    ensures { OnOk result (found.new ≡ found.old ++ option_to_list (option_map (function_of names.now) (function_in item.now))) }
{
    if let Some(function) = function_in(alloc, names, item)? {
        found.push(function)?;
    }
    Ok(())
}

/// Reads the next item, and adds its function if it is one. Whether an item was left is told.
fn add_function<'t>(
    alloc: Global,
    names: &Items<'_, 't>,
    reader: &mut Reader<'t>,
    found: &mut List<Function>,
) -> Result<bool, TextError>
    ensures { AddsParts (function_at names.now) result found.old found.new reader.old reader.new }
{
    match next_item(alloc, reader) {
        Ok(None) => Ok(false),
        Ok(Some(next)) => match push_function(alloc, names, &next.item, found) {
            Ok(()) => Ok(true),
            Err(_) => Err(TextError::NoMemory),
        },
        Err(SyntaxError::NoMemory) => Err(TextError::NoMemory),
        Err(SyntaxError::Fault(fault)) => Err(TextError::Fault(syntax_fault(fault))),
    }
}

/// The functions of a text. No more than one item stands in memory at once.
fn functions_of<'t>(
    alloc: Global,
    names: &Items<'_, 't>,
    text: &'t [u8],
) -> Result<List<Function>, TextError>
    requires { length text.now < 2 ^ 32 - 1 }
    ensures { GivesRead result (read_as (functions_from names.now) (items_read text.now)) }
{
    let mut reader = Reader::new(text);
    let mut found = List::new(alloc);
    let mut more = true;
    'items: while more {
        more = add_function(alloc, names, &mut reader, &mut found)?;
    }
    Ok(found)
}

/// The module of a text with these outlines, with a number in place of each name; one that names nothing has 2^32 - 1. The
/// time is linear in the text.
pub fn module_of<'t>(
    alloc: Global,
    text: &'t [u8],
    outlines: &[ItemLine<'t>],
) -> Result<Module, TextError>
    requires short { length text.now < 2 ^ 32 - 1 }
    requires outlined { Outlined text.now outlines.now }
    ensures { GivesRead result (read_as module_of (items_read text.now)) }
{
    let names = Items::new(alloc, outlines)?;
    let structs = structs_of(alloc, outlines)?;
    let arrays = arrays_of(alloc, outlines)?;
    let functions = functions_of(alloc, &names, text)?;
    Ok(Module {
        structs,
        arrays,
        functions,
    })
}
