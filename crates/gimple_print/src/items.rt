//! The canonical text of structs, arrays and functions, each in whole lines.
ghost use Rattle.std.specs.Prelude.{◌≡◌, ◌++◌, OnOk, codes, take, drop};
ghost use Rattle.std.specs.List.{flat_map};
ghost use Rattle.std.specs.Fmt.{signed_decimal};
ghost use Rattle.gimple_ir.specs.Checks.{is_extern};
ghost use Rattle.gimple_print.specs.Places.{declaration_text};
ghost use Rattle.gimple_print.specs.Statements.{line_text};
ghost use Rattle.gimple_print.specs.Canonical.{field_text, struct_text, initial_text, declarator_text, array_text, parameters_text, head_text, local_text, body_text, function_text};

use crate::places::put_declaration;
use crate::scope::Scope;
use crate::words::{element_text, linkage_text, put_number, result_text, scalar_text};
use gimple_ir::{
    Array, Field, Function, Linkage, Module, NoMemory, Statement, StructDef, Variable,
};
use std::alloc::Global;

fn put_field(out: &mut Vec<u8>, field: &Field) -> Result<(), NoMemory>
    ensures { OnOk result (out.new.items ≡ out.old.items ++ field_text field.now) }
{
    out.push(b' ')?;
    out.extend_from_slice(scalar_text(field.ty).as_bytes())?;
    out.push(b' ')?;
    out.extend_from_slice(field.name.as_slice())?;
    out.push(b';')?;
    Ok(())
}

fn put_fields(out: &mut Vec<u8>, fields: &[Field]) -> Result<(), NoMemory>
    ensures { OnOk result (out.new.items ≡ out.old.items ++ flat_map field_text fields.now) }
{
    for field in fields {
        put_field(out, field)?;
    }
    Ok(())
}

/// Appends the line of a struct.
pub fn put_struct(out: &mut Vec<u8>, def: &StructDef) -> Result<(), NoMemory>
    ensures { OnOk result (out.new.items ≡ out.old.items ++ struct_text def.now) }
{
    out.extend_from_slice(b"struct ")?;
    out.extend_from_slice(def.name.as_slice())?;
    out.extend_from_slice(b" {")?;
    put_fields(out, def.fields.as_slice())?;
    out.extend_from_slice(b" };\n")?;
    Ok(())
}

fn put_more_numbers(out: &mut Vec<u8>, numbers: &[i128]) -> Result<(), NoMemory>
    ensures { OnOk result (out.new.items ≡ out.old.items ++ flat_map (λ z. codes ", " ++ signed_decimal z) numbers.now) }
{
    for number in numbers {
        out.extend_from_slice(b", ")?;
        put_number(out, *number)?;
    }
    Ok(())
}

fn put_initial(out: &mut Vec<u8>, initial: &[i128]) -> Result<(), NoMemory>
    ensures { OnOk result (out.new.items ≡ out.old.items ++ initial_text initial.now) }
{
    if let Some((first, more)) = initial.split_first() {
        out.extend_from_slice(b" = {")?;
        put_number(out, *first)?;
        put_more_numbers(out, more)?;
        out.push(b'}')?;
    }
    Ok(())
}

fn put_declarator(out: &mut Vec<u8>, array: &Array) -> Result<(), NoMemory>
    ensures { OnOk result (out.new.items ≡ out.old.items ++ declarator_text array.now) }
{
    out.extend_from_slice(array.name.as_slice())?;
    out.push(b'[')?;
    put_number(out, i128::from(array.length))?;
    out.push(b']')?;
    Ok(())
}

/// Appends the line of an array.
pub fn put_array(out: &mut Vec<u8>, array: &Array) -> Result<(), NoMemory>
    ensures { OnOk result (out.new.items ≡ out.old.items ++ array_text array.now) }
{
    out.extend_from_slice(linkage_text(array.linkage).as_bytes())?;
    out.extend_from_slice(element_text(array.element).as_bytes())?;
    out.push(b' ')?;
    put_declarator(out, array)?;
    put_initial(out, array.initial.as_slice())?;
    out.extend_from_slice(b";\n")?;
    Ok(())
}

/// The variables before a place, or all where there are fewer, and those from it on.
#[tactic(auto, using(std::proofs::lemmas::List::take_min, std::proofs::lemmas::List::drop_min))]
fn split(variables: &[Variable], place: u32) -> (&[Variable], &[Variable])
    ensures front { result.0.now ≡ take place variables.now }
    ensures back { result.1.now ≡ drop place variables.now }
{
    let middle = (place as usize).min(variables.len());
    variables.split_at(middle)
}

fn put_more_parameters(
    out: &mut Vec<u8>,
    structs: &[StructDef],
    parameters: &[Variable],
) -> Result<(), NoMemory>
    ensures { OnOk result (out.new.items ≡ out.old.items ++ flat_map (λ v. codes ", " ++ declaration_text structs.now v) parameters.now) }
{
    for parameter in parameters {
        out.extend_from_slice(b", ")?;
        put_declaration(out, structs, parameter)?;
    }
    Ok(())
}

fn put_parameters(
    out: &mut Vec<u8>,
    structs: &[StructDef],
    parameters: &[Variable],
) -> Result<(), NoMemory>
    ensures { OnOk result (out.new.items ≡ out.old.items ++ parameters_text structs.now parameters.now) }
{
    if let Some((first, more)) = parameters.split_first() {
        put_declaration(out, structs, first)?;
        put_more_parameters(out, structs, more)?;
    }
    Ok(())
}

fn put_head(out: &mut Vec<u8>, structs: &[StructDef], function: &Function) -> Result<(), NoMemory>
    ensures { OnOk result (out.new.items ≡ out.old.items ++ head_text structs.now function.now) }
{
    let (parameters, _locals) = split(function.variables.as_slice(), function.parameters);
    out.extend_from_slice(linkage_text(function.linkage).as_bytes())?;
    out.extend_from_slice(result_text(function.result).as_bytes())?;
    out.push(b' ')?;
    out.extend_from_slice(function.name.as_slice())?;
    out.extend_from_slice(b" (")?;
    put_parameters(out, structs, parameters)?;
    out.push(b')')?;
    Ok(())
}

fn put_local(out: &mut Vec<u8>, structs: &[StructDef], local: &Variable) -> Result<(), NoMemory>
    ensures { OnOk result (out.new.items ≡ out.old.items ++ local_text structs.now local.now) }
{
    out.extend_from_slice(b"  ")?;
    put_declaration(out, structs, local)?;
    out.extend_from_slice(b";\n")?;
    Ok(())
}

fn put_locals(out: &mut Vec<u8>, structs: &[StructDef], locals: &[Variable]) -> Result<(), NoMemory>
    ensures { OnOk result (out.new.items ≡ out.old.items ++ flat_map (local_text structs.now) locals.now) }
{
    for local in locals {
        put_local(out, structs, local)?;
    }
    Ok(())
}

fn put_lines(out: &mut Vec<u8>, scope: &Scope, body: &[Statement]) -> Result<(), NoMemory>
    ensures { OnOk result (out.new.items ≡ out.old.items ++ flat_map (line_text scope.now) body.now) }
{
    for statement in body {
        scope.put_line(out, statement)?;
    }
    Ok(())
}

fn put_body(
    alloc: Global,
    out: &mut Vec<u8>,
    source: &Module,
    function: &Function,
) -> Result<(), NoMemory>
    ensures { OnOk result (out.new.items ≡ out.old.items ++ body_text source.now function.now) }
{
    let (_parameters, locals) = split(function.variables.as_slice(), function.parameters);
    let scope = Scope::new(alloc, source, function)?;
    out.extend_from_slice(b"\n{\n")?;
    put_locals(out, source.structs.as_slice(), locals)?;
    put_lines(out, &scope, function.body.as_slice())?;
    out.extend_from_slice(b"}\n")?;
    Ok(())
}

fn is_extern(linkage: Linkage) -> bool
    ensures { result ≡ is_extern linkage }
{
    match linkage {
        Linkage::Extern => true,
        Linkage::Strong | Linkage::Weak | Linkage::Static => false,
    }
}

/// Appends the lines of a function: one of a declaration, and of a definition its head and its body.
pub fn put_function(
    alloc: Global,
    out: &mut Vec<u8>,
    source: &Module,
    function: &Function,
) -> Result<(), NoMemory>
    ensures { OnOk result (out.new.items ≡ out.old.items ++ function_text source.now function.now) }
{
    put_head(out, source.structs.as_slice(), function)?;
    if is_extern(function.linkage) {
        out.extend_from_slice(b";\n")?;
    } else {
        put_body(alloc, out, source, function)?;
    }
    Ok(())
}
