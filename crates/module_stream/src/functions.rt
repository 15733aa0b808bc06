//! Structs, arrays and functions, read from left to right.
ghost use Rattle.std.specs.Prelude.{◌≡◌, ◌^◌, ◌<◌, ◌≤◌, length, List, IfOk, slice_get, map};
ghost use Rattle.gimple_ir.specs.Checks.{is_extern};
ghost use Rattle.module_stream.specs.Fields.{element_modulus, element_from};
ghost use Rattle.module_stream.specs.Declarations.{field_types, types_of};
ghost use Rattle.module_stream.specs.Readers.{Gives, repeated};
ghost use Rattle.module_stream.specs.DeclarationReading.{element_at, last_element_at, elements_at, initial_at, var_type_from, var_type_at, inside_at};

use crate::codes::Coded;
use crate::decode::{Decode, counted, counted_after, repeated};
use crate::fault::StreamError;
use crate::fields::{byte, coded, modulus, number_below, place_below};
use crate::names::Names;
use crate::spelled_declarations::is_extern;
use cursors::ByteCursor;
use gimple_ir::{
    Array, ElementType, Field, Function, Linkage, List, Name, NoMemory, ResultType, ScalarType,
    StructDef, VarType, Variable,
};
use std::alloc::Global;

// ---- structs

/// The fields of a struct.
#[derive(Drop)]
pub struct Fields;

impl Decode for Fields {
    ghost use Rattle.module_stream.specs.DeclarationReading.{field_at};

    type Value = Field;

    ghost reads = { λ _. field_at };

    #[tactic(auto, unfolding(crate::specs::DeclarationReading::field_at))]
    fn decode(&self, alloc: Global, cursor: &mut ByteCursor) -> Result<Field, StreamError> {
        let ty: ScalarType = coded(cursor)?;
        let name = Names.decode(alloc, cursor)?;
        Ok(Field { name, ty })
    }
}

/// The structs of a module.
#[derive(Drop)]
pub struct Structs;

impl Decode for Structs {
    ghost use Rattle.module_stream.specs.DeclarationReading.{struct_at};

    type Value = StructDef;

    ghost reads = { λ _. struct_at };

    #[tactic(auto, unfolding(crate::specs::DeclarationReading::struct_at))]
    fn decode(&self, alloc: Global, cursor: &mut ByteCursor) -> Result<StructDef, StreamError> {
        let name = Names.decode(alloc, cursor)?;
        let fields = counted(alloc, cursor, &Fields)?;
        Ok(StructDef { name, fields })
    }
}

// ---- arrays

// 2^width of the elements.
fn element_modulus(element: ElementType) -> u128
    ensures { result ≡ element_modulus element }
{
    match element {
        ElementType::Scalar(ty) => modulus(ty),
        ElementType::UnsignedChar => 256,
    }
}

fn element_from(element: ElementType, bits: u64) -> i128
    requires { bits < element_modulus element }
    ensures { result ≡ element_from element bits }
{
    match element {
        ElementType::Scalar(ty) => ty.from_residue(bits),
        ElementType::UnsignedChar => i128::from(bits),
    }
}

/// The initial values of an array, but for the last.
#[derive(Drop)]
pub struct Elements {
    pub element: ElementType,
}

impl Decode for Elements {
    ghost use Rattle.module_stream.specs.DeclarationReading.{element_at};

    type Value = i128;

    ghost reads = { λ elements. element_at elements.element };

    #[tactic(auto, unfolding(crate::specs::DeclarationReading::element_at))]
    fn decode(&self, _alloc: Global, cursor: &mut ByteCursor) -> Result<i128, StreamError> {
        let bits = number_below(cursor, element_modulus(self.element))?;
        Ok(element_from(self.element, bits))
    }
}

#[tactic(auto, unfolding(crate::specs::DeclarationReading::last_element_at))]
fn last_element(cursor: &mut ByteCursor, element: ElementType) -> Result<i128, StreamError>
    ensures { Gives result cursor.new (last_element_at element cursor.old) }
{
    let offset = cursor.offset();
    let bits = number_below(cursor, element_modulus(element))?;
    if bits == 0 {
        return Err(StreamError::BadStream { offset });
    }
    Ok(element_from(element, bits))
}

#[tactic(auto, unfolding(crate::specs::DeclarationReading::elements_at))]
fn all_elements(
    alloc: Global,
    cursor: &mut ByteCursor,
    element: ElementType,
    count: u64,
) -> Result<List<i128>, StreamError>
    ensures { Gives result cursor.new (elements_at element count cursor.old) }
{
    if count == 0 {
        return Ok(List::new(alloc));
    }
    let field = Elements { element };
    let mut nums = repeated(alloc, cursor, &field, count - 1)?;
    let last = last_element(cursor, element)?;
    nums.push(last)?;
    Ok(nums)
}

#[tactic(auto, unfolding(crate::specs::DeclarationReading::initial_at))]
fn initial(
    alloc: Global,
    cursor: &mut ByteCursor,
    is_declared: bool,
    element: ElementType,
) -> Result<List<i128>, StreamError>
    ensures { Gives result cursor.new (initial_at is_declared element cursor.old) }
{
    let limit = if is_declared { 1 } else { 1 << 32 };
    let count = number_below(cursor, limit)?;
    all_elements(alloc, cursor, element, count)
}

/// The arrays of a module.
#[derive(Drop)]
pub struct Arrays;

impl Decode for Arrays {
    ghost use Rattle.module_stream.specs.DeclarationReading.{array_at};

    type Value = Array;

    ghost reads = { λ _. array_at };

    #[tactic(auto, unfolding(crate::specs::DeclarationReading::array_at))]
    fn decode(&self, alloc: Global, cursor: &mut ByteCursor) -> Result<Array, StreamError> {
        let linkage: Linkage = coded(cursor)?;
        let element: ElementType = coded(cursor)?;
        let name = Names.decode(alloc, cursor)?;
        let length = place_below(cursor, 1 << 32)?;
        let initial = initial(alloc, cursor, is_extern(linkage), element)?;
        Ok(Array {
            name,
            linkage,
            element,
            length,
            initial,
        })
    }
}

// ---- functions

fn field_types(
    alloc: Global,
    structs: &List<StructDef>,
    number: u32,
) -> Result<List<ScalarType>, NoMemory>
    ensures { IfOk result (λ types. types ≡ field_types structs.now number) }
{
    let mut types = List::new(alloc);
    if (number as usize) < structs.len() {
        for field in structs.get(number as usize).fields.as_slice() {
            types.push(field.ty)?;
        }
    }
    Ok(types)
}

fn types_of(
    alloc: Global,
    structs: &List<StructDef>,
    ty: VarType,
) -> Result<List<ScalarType>, NoMemory>
    ensures { IfOk result (λ types. types ≡ types_of structs.now ty) }
{
    match ty {
        VarType::Scalar(ty) => {
            let mut types = List::new(alloc);
            types.push(ty)?;
            Ok(types)
        }
        VarType::Struct(number) => field_types(alloc, structs, number),
    }
}

// The type of a variable whose first byte, at the offset, was the code; there are so many structs.
#[tactic(auto, unfolding(crate::specs::DeclarationReading::var_type_from))]
fn var_type_after(
    cursor: &mut ByteCursor,
    structs: u64,
    offset: u64,
    code: u8,
) -> Result<VarType, StreamError>
    requires { structs ≤ 2 ^ 32 }
    ensures { Gives result cursor.new (var_type_from structs offset code cursor.old) }
{
    if code == 6 {
        let number = place_below(cursor, structs)?;
        return Ok(VarType::Struct(number));
    }
    match ScalarType::from_code(code) {
        None => Err(StreamError::BadStream { offset }),
        Some(ty) => Ok(VarType::Scalar(ty)),
    }
}

#[tactic(auto, unfolding(crate::specs::DeclarationReading::var_type_at))]
fn var_type(cursor: &mut ByteCursor, structs: u64) -> Result<VarType, StreamError>
    requires { structs ≤ 2 ^ 32 }
    ensures { Gives result cursor.new (var_type_at structs cursor.old) }
{
    let offset = cursor.offset();
    let code = byte(cursor)?;
    var_type_after(cursor, structs, offset, code)
}

/// The parameters or the locals of a function, whose struct types are among these.
#[derive(Drop)]
pub struct Variables<'a> {
    pub structs: &'a List<StructDef>,
    ghost few: { length structs.now ≤ 2 ^ 32 },
}

impl<'a> Decode for Variables<'a> {
    ghost use Rattle.module_stream.specs.DeclarationReading.{variable_at};

    type Value = Variable;

    ghost reads = { λ variables. variable_at variables.structs.now };

    #[tactic(auto, unfolding(crate::specs::DeclarationReading::variable_at))]
    fn decode(&self, alloc: Global, cursor: &mut ByteCursor) -> Result<Variable, StreamError> {
        let ty = var_type(cursor, self.structs.len() as u64)?;
        let name = Names.decode(alloc, cursor)?;
        let types = types_of(alloc, self.structs, ty)?;
        Ok(Variable { name, ty, types })
    }
}

#[tactic(auto, unfolding(crate::specs::DeclarationReading::inside_at))]
fn inside(
    alloc: Global,
    cursor: &mut ByteCursor,
    structs: &List<StructDef>,
    is_declared: bool,
    parameters: List<Variable>,
) -> Result<(List<Variable>, List<Name>), StreamError>
    requires { length structs.now ≤ 2 ^ 32 }
    ensures { Gives result cursor.new (inside_at structs.now is_declared parameters cursor.old) }
{
    if is_declared {
        return Ok((parameters, List::new(alloc)));
    }
    let variables = counted_after(alloc, cursor, &Variables { structs }, parameters)?;
    let labels = counted(alloc, cursor, &Names)?;
    Ok((variables, labels))
}

/// The functions of a module, whose structs are these.
#[derive(Drop)]
pub struct Functions<'a> {
    pub structs: &'a List<StructDef>,
    ghost few: { length structs.now ≤ 2 ^ 32 },
}

impl<'a> Decode for Functions<'a> {
    ghost use Rattle.module_stream.specs.DeclarationReading.{function_at};

    type Value = Function;

    ghost reads = { λ functions. function_at functions.structs.now };

    #[tactic(auto, unfolding(crate::specs::DeclarationReading::function_at))]
    fn decode(&self, alloc: Global, cursor: &mut ByteCursor) -> Result<Function, StreamError> {
        let structs = self.structs;
        let linkage: Linkage = coded(cursor)?;
        let result_type: ResultType = coded(cursor)?;
        let name = Names.decode(alloc, cursor)?;
        let before = counted(alloc, cursor, &Variables { structs })?;
        let parameters = before.len() as u32;
        let (variables, labels) = inside(alloc, cursor, structs, is_extern(linkage), before)?;
        Ok(Function {
            name,
            linkage,
            result: result_type,
            parameters,
            variables,
            labels,
            body: List::new(alloc),
        })
    }
}
