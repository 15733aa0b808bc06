//! The spelling of structs, arrays and functions, without the functions' bodies.
ghost use Rattle.std.specs.Prelude.{◌≡◌, ◌++◌, ◌<◌, take, drop, List, ℕ, ℤ, OnOk};
ghost use Rattle.gimple_ir.specs.Checks.{is_extern};
ghost use Rattle.module_stream.specs.Fields.{counted_of, element_residue, element_of};
ghost use Rattle.module_stream.specs.Declarations.{var_type_of, variable_of, inside_of};

use crate::codes::Coded;
use crate::encode::{Encode, put_counted};
use cursors::put_uleb;
use gimple_ir::{
    Array, ElementType, Field, Function, Linkage, Name, NoMemory, StructDef, VarType, Variable,
};

/// Whether other modules define it.
pub fn is_extern(linkage: Linkage) -> bool
    ensures { result ≡ is_extern linkage }
{
    matches!(linkage, Linkage::Extern)
}

impl Encode for Field {
    ghost use Rattle.module_stream.specs.Declarations.{field_of};

    ghost spelling = { field_of };

    fn encode(&self, out: &mut Vec<u8>) -> Result<(), NoMemory> {
        out.push(self.ty.code())?;
        self.name.encode(out)
    }
}

impl Encode for StructDef {
    ghost use Rattle.module_stream.specs.Declarations.{struct_of};

    ghost spelling = { struct_of };

    fn encode(&self, out: &mut Vec<u8>) -> Result<(), NoMemory> {
        self.name.encode(out)?;
        put_counted(out, self.fields.as_slice())
    }
}

// The value modulo 2^width.
fn element_residue(element: ElementType, num: i128) -> u64
    ensures { result ≡ element_residue element num }
{
    match element {
        ElementType::Scalar(ty) => ty.residue(num),
        ElementType::UnsignedChar => num.rem_euclid(256) as u64,
    }
}

fn put_element(out: &mut Vec<u8>, element: ElementType, num: i128) -> Result<(), NoMemory>
    ensures { OnOk result (out.new.items ≡ out.old.items ++ element_of element num) }
{
    put_uleb(out, element_residue(element, num))
}

fn put_elements(out: &mut Vec<u8>, element: ElementType, nums: &[i128]) -> Result<(), NoMemory>
    ensures { OnOk result (out.new.items ≡ out.old.items ++ counted_of (element_of element) nums.now) }
{
    put_uleb(out, nums.len() as u64)?;
    for num in nums {
        put_element(out, element, *num)?;
    }
    Ok(())
}

impl Encode for Array {
    ghost use Rattle.module_stream.specs.Declarations.{array_of};

    ghost spelling = { array_of };

    fn encode(&self, out: &mut Vec<u8>) -> Result<(), NoMemory> {
        out.push(self.linkage.code())?;
        out.push(self.element.code())?;
        self.name.encode(out)?;
        put_uleb(out, u64::from(self.length))?;
        put_elements(out, self.element, self.initial.as_slice())
    }
}

fn put_var_type(out: &mut Vec<u8>, ty: VarType) -> Result<(), NoMemory>
    ensures { OnOk result (out.new.items ≡ out.old.items ++ var_type_of ty) }
{
    match ty {
        VarType::Scalar(ty) => {
            out.push(ty.code())?;
            Ok(())
        }
        VarType::Struct(number) => {
            out.push(6)?;
            put_uleb(out, u64::from(number))
        }
    }
}

impl Encode for Variable {
    ghost use Rattle.module_stream.specs.Declarations.{variable_of};

    ghost spelling = { variable_of };

    fn encode(&self, out: &mut Vec<u8>) -> Result<(), NoMemory> {
        put_var_type(out, self.ty)?;
        self.name.encode(out)
    }
}

// The first of the variables, and the others.
fn split(variables: &[Variable], count: u32) -> (&[Variable], &[Variable])
    ensures parameters { result.0.now ≡ take count variables.now }
    ensures locals { result.1.now ≡ drop count variables.now }
{
    if (count as usize) < variables.len() {
        variables.split_at(count as usize)
    } else {
        variables.split_at(variables.len())
    }
}

fn put_inside(
    out: &mut Vec<u8>,
    is_declared: bool,
    locals: &[Variable],
    labels: &[Name],
) -> Result<(), NoMemory>
    ensures { OnOk result (out.new.items ≡ out.old.items ++ inside_of is_declared locals.now labels.now) }
{
    if is_declared {
        return Ok(());
    }
    put_counted(out, locals)?;
    put_counted(out, labels)
}

impl Encode for Function {
    ghost use Rattle.module_stream.specs.Declarations.{function_of};

    ghost spelling = { function_of };

    /// Writes the declaration; the body has a stream of its own.
    fn encode(&self, out: &mut Vec<u8>) -> Result<(), NoMemory> {
        let (parameters, locals) = split(self.variables.as_slice(), self.parameters);
        out.push(self.linkage.code())?;
        out.push(self.result.code())?;
        self.name.encode(out)?;
        put_counted(out, parameters)?;
        put_inside(out, is_extern(self.linkage), locals, self.labels.as_slice())
    }
}
