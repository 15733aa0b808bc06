//! Operands, arguments and the cases of a switch, written and read.
ghost use Rattle.std.specs.Prelude.{◌≡◌, ◌++◌, OnOk};
ghost use Rattle.module_stream.specs.Bodies.{component_count, operand_of, type_of};
ghost use Rattle.module_stream.specs.Fields.{value_bytes, typed_value_of, counted_of};
ghost use Rattle.module_stream.specs.Bodies.{arg_of};
ghost use Rattle.module_stream.specs.Readers.{Gives, number_below, repeated, counted};
ghost use Rattle.module_stream.specs.BodyReading.{component_at, operand_from, operand_at, arg_at, case_at};

use crate::bounds::BodyBounds;
use crate::codes::Coded;
use crate::decode::Decode;
use crate::encode::Encode;
use crate::fault::StreamError;
use crate::fields::{byte, number_below, place_below, value};
use cursors::{ByteCursor, put_uleb};
use gimple_ir::{Arg, Args, Case, NoMemory, Operand, ScalarType, Value};
use std::alloc::Global;

// ---- writing

fn put_value(out: &mut Vec<u8>, value: Value) -> Result<(), NoMemory>
    ensures { OnOk result (out.new.items ≡ out.old.items ++ value_bytes value) }
{
    put_uleb(out, value.ty.residue(value.num))
}

/// Writes the code of the value's type, and its residue.
pub fn put_typed_value(out: &mut Vec<u8>, value: Value) -> Result<(), NoMemory>
    ensures { OnOk result (out.new.items ≡ out.old.items ++ typed_value_of value) }
{
    out.push(value.ty.code())?;
    put_value(out, value)
}

pub fn put_operand(out: &mut Vec<u8>, operand: Operand) -> Result<(), NoMemory>
    ensures { OnOk result (out.new.items ≡ out.old.items ++ operand_of operand) }
{
    match operand {
        Operand::Component(place) => {
            out.push(0)?;
            put_uleb(out, u64::from(place))
        }
        Operand::Literal(value) => put_typed_value(out, value),
    }
}

impl Encode for Arg {
    ghost use Rattle.module_stream.specs.Bodies.{arg_of};

    ghost spelling = { arg_of };

    fn encode(&self, out: &mut Vec<u8>) -> Result<(), NoMemory> {
        match *self {
            Arg::One(operand) => put_operand(out, operand),
            Arg::Whole(place) => {
                out.push(6)?;
                put_uleb(out, u64::from(place))
            }
        }
    }
}

impl Encode for Case {
    ghost use Rattle.module_stream.specs.Bodies.{case_of};

    ghost spelling = { case_of };

    fn encode(&self, out: &mut Vec<u8>) -> Result<(), NoMemory> {
        put_value(out, self.value)?;
        put_uleb(out, u64::from(self.label))
    }
}

// ---- reading

/// The number of a component.
pub fn component(cursor: &mut ByteCursor, bounds: &BodyBounds) -> Result<u32, StreamError>
    ensures { Gives result cursor.new (component_at bounds.now cursor.old) }
{
    place_below(cursor, bounds.component_count())
}

// An operand whose first byte, at the offset, was the code.
#[tactic(auto, unfolding(crate::specs::BodyReading::operand_from))]
fn operand_after(
    cursor: &mut ByteCursor,
    bounds: &BodyBounds,
    offset: u64,
    code: u8,
) -> Result<Operand, StreamError>
    ensures { Gives result cursor.new (operand_from bounds.now offset code cursor.old) }
{
    if code == 0 {
        let place = component(cursor, bounds)?;
        return Ok(Operand::Component(place));
    }
    match ScalarType::from_code(code) {
        None => Err(StreamError::BadStream { offset }),
        Some(ty) => {
            let value = value(cursor, ty)?;
            Ok(Operand::Literal(value))
        }
    }
}

/// An operand.
#[tactic(auto, unfolding(crate::specs::BodyReading::operand_at))]
pub fn operand(cursor: &mut ByteCursor, bounds: &BodyBounds) -> Result<Operand, StreamError>
    ensures { Gives result cursor.new (operand_at bounds.now cursor.old) }
{
    let offset = cursor.offset();
    let code = byte(cursor)?;
    operand_after(cursor, bounds, offset, code)
}

/// The type of an operand that stands in a body of these bounds.
pub fn type_of(bounds: &BodyBounds, operand: Operand) -> ScalarType
    ensures { result ≡ type_of bounds.now operand }
{
    match operand {
        Operand::Literal(value) => value.ty,
        Operand::Component(place) => {
            if (place as usize) < bounds.types.len() {
                *bounds.types.get(place as usize)
            } else {
                ScalarType::Int
            }
        }
    }
}

#[tactic(auto, unfolding(crate::specs::BodyReading::arg_at))]
fn arg(cursor: &mut ByteCursor, bounds: &BodyBounds) -> Result<Arg, StreamError>
    ensures { Gives result cursor.new (arg_at bounds.now cursor.old) }
{
    let offset = cursor.offset();
    let code = byte(cursor)?;
    if code == 6 {
        let place = place_below(cursor, u64::from(bounds.variables))?;
        return Ok(Arg::Whole(place));
    }
    let operand = operand_after(cursor, bounds, offset, code)?;
    Ok(Arg::One(operand))
}

// As many arguments as the count says. Four of them take no memory, so they aren't a `List`.
fn repeated_args(
    alloc: Global,
    cursor: &mut ByteCursor,
    bounds: &BodyBounds,
    count: u64,
) -> Result<Args, StreamError>
    ensures { Gives result cursor.new (repeated (arg_at bounds.now) count cursor.old) }
{
    let mut args = Args::new(alloc);
    'more: for _ in 0..count {
        let arg = arg(cursor, bounds)?;
        args.push(arg)?;
    }
    Ok(args)
}

/// A count, and as many arguments.
pub fn args(
    alloc: Global,
    cursor: &mut ByteCursor,
    bounds: &BodyBounds,
) -> Result<Args, StreamError>
    ensures { Gives result cursor.new (counted (arg_at bounds.now) cursor.old) }
{
    let count = number_below(cursor, 1 << 32)?;
    repeated_args(alloc, cursor, bounds, count)
}

/// The cases of a switch on an operand of the type.
#[derive(Drop)]
pub struct Cases<'a> {
    pub bounds: &'a BodyBounds,
    pub ty: ScalarType,
}

impl<'a> Decode for Cases<'a> {
    ghost use Rattle.module_stream.specs.BodyReading.{case_at};

    type Value = Case;

    ghost reads = { λ cases. case_at cases.bounds.now cases.ty };

    #[tactic(auto, unfolding(crate::specs::BodyReading::case_at))]
    fn decode(&self, _alloc: Global, cursor: &mut ByteCursor) -> Result<Case, StreamError> {
        let value = value(cursor, self.ty)?;
        let label = place_below(cursor, u64::from(self.bounds.labels))?;
        Ok(Case { value, label })
    }
}
