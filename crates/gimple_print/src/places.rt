//! How variables are declared, and the table of places: the text and the type of each component of a function.
ghost use Rattle.std.specs.Prelude.{◌≡◌, ◌++◌, OnOk, IfOk, map};
ghost use Rattle.gimple_print.specs.Places.{struct_name, type_text, declaration_text, place, field_place, fields_of, variable_places, places_of};

use crate::words::scalar_text;
use gimple_ir::{Bytes, Field, List, Name, NoMemory, ScalarType, StructDef, VarType, Variable};
use std::alloc::Global;

/// Where a component stands in its function: `x`, or `s.f` for a field of a struct variable.
#[derive(Drop)]
pub struct Place {
    pub text: Bytes,
    pub ty: ScalarType,
}

fn struct_name(structs: &[StructDef], number: u32) -> &[u8]
    ensures { result.now ≡ struct_name structs.now number }
{
    match structs.get(number as usize) {
        Some(def) => def.name.as_slice(),
        None => &[],
    }
}

fn put_type(out: &mut Vec<u8>, structs: &[StructDef], ty: VarType) -> Result<(), NoMemory>
    ensures { OnOk result (out.new.items ≡ out.old.items ++ type_text structs.now ty) }
{
    match ty {
        VarType::Scalar(scalar) => out.extend_from_slice(scalar_text(scalar).as_bytes())?,
        VarType::Struct(number) => {
            out.extend_from_slice(b"struct ")?;
            out.extend_from_slice(struct_name(structs, number))?;
        }
    }
    Ok(())
}

/// Appends the variable's type and name.
pub fn put_declaration(
    out: &mut Vec<u8>,
    structs: &[StructDef],
    variable: &Variable,
) -> Result<(), NoMemory>
    ensures { OnOk result (out.new.items ≡ out.old.items ++ declaration_text structs.now variable.now) }
{
    put_type(out, structs, variable.ty)?;
    out.push(b' ')?;
    out.extend_from_slice(variable.name.as_slice())?;
    Ok(())
}

fn make_place(alloc: Global, name: &Name, ty: ScalarType) -> Result<Place, NoMemory>
    ensures { IfOk result (λ made. made ≡ place name.now ty) }
{
    let text = Vec::from_slice(alloc, name.as_slice())?;
    Ok(Place {
        text: Bytes::from_vec(text),
        ty,
    })
}

fn field_place(alloc: Global, name: &Name, field: &Field) -> Result<Place, NoMemory>
    ensures { IfOk result (λ made. made ≡ field_place name.now field.now) }
{
    let mut text = Vec::from_slice(alloc, name.as_slice())?;
    text.push(b'.')?;
    text.extend_from_slice(field.name.as_slice())?;
    Ok(Place {
        text: Bytes::from_vec(text),
        ty: field.ty,
    })
}

fn fields_of(structs: &[StructDef], number: u32) -> &[Field]
    ensures { result.now ≡ fields_of structs.now number }
{
    match structs.get(number as usize) {
        Some(def) => def.fields.as_slice(),
        None => &[],
    }
}

fn add_fields(
    alloc: Global,
    places: &mut List<Place>,
    name: &Name,
    fields: &[Field],
) -> Result<(), NoMemory>
    ensures { OnOk result (places.new ≡ places.old ++ map (field_place name.now) fields.now) }
{
    for field in fields {
        places.push(field_place(alloc, name, field)?)?;
    }
    Ok(())
}

fn add_variable(
    alloc: Global,
    places: &mut List<Place>,
    structs: &[StructDef],
    variable: &Variable,
) -> Result<(), NoMemory>
    ensures { OnOk result (places.new ≡ places.old ++ variable_places structs.now variable.now) }
{
    match variable.ty {
        VarType::Scalar(ty) => places.push(make_place(alloc, &variable.name, ty)?)?,
        VarType::Struct(number) => {
            add_fields(alloc, places, &variable.name, fields_of(structs, number))?;
        }
    }
    Ok(())
}

/// The place of each component of these variables.
pub fn places_of(
    alloc: Global,
    structs: &[StructDef],
    variables: &[Variable],
) -> Result<List<Place>, NoMemory>
    ensures { IfOk result (λ places. places ≡ places_of structs.now variables.now) }
{
    let mut places = List::new(alloc);
    for variable in variables {
        add_variable(alloc, &mut places, structs, variable)?;
    }
    Ok(places)
}
