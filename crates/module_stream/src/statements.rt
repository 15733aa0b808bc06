//! Statements, read from left to right: what stands after each opcode has a function of its own.
ghost use Rattle.std.specs.Prelude.{◌≡◌, Ok};
ghost use Rattle.module_stream.specs.declared.codes.Opcode.TheVariants as op;
ghost use Rattle.module_stream.specs.Readers.{Gives};
ghost use Rattle.module_stream.specs.BodyReading.{fields_at};

use crate::bounds::BodyBounds;
use crate::codes::Opcode;
use crate::decode::{Decode, counted};
use crate::fault::StreamError;
use crate::fields::{coded, place_below};
use crate::operands::{Cases, args, component, operand, type_of};
use cursors::ByteCursor;
use gimple_ir::{BinaryOp, Statement, UnaryOp};
use std::alloc::Global;

#[tactic(auto, unfolding(crate::specs::BodyReading::fields_at))]
fn label(cursor: &mut ByteCursor, bounds: &BodyBounds) -> Result<Statement, StreamError>
    ensures { Gives result cursor.new (fields_at bounds.now op.Label cursor.old) }
{
    let label = place_below(cursor, u64::from(bounds.labels))?;
    Ok(Statement::Label(label))
}

#[tactic(auto, unfolding(crate::specs::BodyReading::fields_at))]
fn goto(cursor: &mut ByteCursor, bounds: &BodyBounds) -> Result<Statement, StreamError>
    ensures { Gives result cursor.new (fields_at bounds.now op.Goto cursor.old) }
{
    let label = place_below(cursor, u64::from(bounds.labels))?;
    Ok(Statement::Goto(label))
}

#[tactic(auto, unfolding(crate::specs::BodyReading::fields_at))]
fn cond(cursor: &mut ByteCursor, bounds: &BodyBounds) -> Result<Statement, StreamError>
    ensures { Gives result cursor.new (fields_at bounds.now op.Cond cursor.old) }
{
    let op: BinaryOp = coded(cursor)?;
    let left = operand(cursor, bounds)?;
    let right = operand(cursor, bounds)?;
    let yes = place_below(cursor, u64::from(bounds.labels))?;
    let no = place_below(cursor, u64::from(bounds.labels))?;
    Ok(Statement::Cond {
        op,
        left,
        right,
        yes,
        no,
    })
}

#[tactic(auto, unfolding(crate::specs::BodyReading::fields_at))]
fn switch(
    alloc: Global,
    cursor: &mut ByteCursor,
    bounds: &BodyBounds,
) -> Result<Statement, StreamError>
    ensures { Gives result cursor.new (fields_at bounds.now op.Switch cursor.old) }
{
    let on = operand(cursor, bounds)?;
    let ty = type_of(bounds, on);
    let cases = counted(alloc, cursor, &Cases { bounds, ty })?;
    let otherwise = place_below(cursor, u64::from(bounds.labels))?;
    Ok(Statement::Switch {
        on,
        cases,
        otherwise,
    })
}

#[tactic(auto, unfolding(crate::specs::BodyReading::fields_at))]
fn return_value(cursor: &mut ByteCursor, bounds: &BodyBounds) -> Result<Statement, StreamError>
    ensures { Gives result cursor.new (fields_at bounds.now op.Return cursor.old) }
{
    let value = operand(cursor, bounds)?;
    Ok(Statement::Return(value))
}

#[tactic(auto, unfolding(crate::specs::BodyReading::fields_at))]
fn copy(cursor: &mut ByteCursor, bounds: &BodyBounds) -> Result<Statement, StreamError>
    ensures { Gives result cursor.new (fields_at bounds.now op.Copy cursor.old) }
{
    let to = component(cursor, bounds)?;
    let from = operand(cursor, bounds)?;
    Ok(Statement::Copy { to, from })
}

#[tactic(auto, unfolding(crate::specs::BodyReading::fields_at))]
fn unary(cursor: &mut ByteCursor, bounds: &BodyBounds) -> Result<Statement, StreamError>
    ensures { Gives result cursor.new (fields_at bounds.now op.Unary cursor.old) }
{
    let to = component(cursor, bounds)?;
    let op: UnaryOp = coded(cursor)?;
    let from = operand(cursor, bounds)?;
    Ok(Statement::Unary { to, op, from })
}

#[tactic(auto, unfolding(crate::specs::BodyReading::fields_at))]
fn convert(cursor: &mut ByteCursor, bounds: &BodyBounds) -> Result<Statement, StreamError>
    ensures { Gives result cursor.new (fields_at bounds.now op.Convert cursor.old) }
{
    let to = component(cursor, bounds)?;
    let from = operand(cursor, bounds)?;
    Ok(Statement::Convert { to, from })
}

#[tactic(auto, unfolding(crate::specs::BodyReading::fields_at))]
fn binary(cursor: &mut ByteCursor, bounds: &BodyBounds) -> Result<Statement, StreamError>
    ensures { Gives result cursor.new (fields_at bounds.now op.Binary cursor.old) }
{
    let to = component(cursor, bounds)?;
    let op: BinaryOp = coded(cursor)?;
    let left = operand(cursor, bounds)?;
    let right = operand(cursor, bounds)?;
    Ok(Statement::Binary {
        to,
        op,
        left,
        right,
    })
}

#[tactic(auto, unfolding(crate::specs::BodyReading::fields_at))]
fn load(cursor: &mut ByteCursor, bounds: &BodyBounds) -> Result<Statement, StreamError>
    ensures { Gives result cursor.new (fields_at bounds.now op.Load cursor.old) }
{
    let to = component(cursor, bounds)?;
    let array = place_below(cursor, u64::from(bounds.arrays))?;
    let index = operand(cursor, bounds)?;
    Ok(Statement::Load { to, array, index })
}

#[tactic(auto, unfolding(crate::specs::BodyReading::fields_at))]
fn store(cursor: &mut ByteCursor, bounds: &BodyBounds) -> Result<Statement, StreamError>
    ensures { Gives result cursor.new (fields_at bounds.now op.Store cursor.old) }
{
    let array = place_below(cursor, u64::from(bounds.arrays))?;
    let index = operand(cursor, bounds)?;
    let from = operand(cursor, bounds)?;
    Ok(Statement::Store { array, index, from })
}

#[tactic(auto, unfolding(crate::specs::BodyReading::fields_at))]
fn copy_struct(cursor: &mut ByteCursor, bounds: &BodyBounds) -> Result<Statement, StreamError>
    ensures { Gives result cursor.new (fields_at bounds.now op.CopyStruct cursor.old) }
{
    let to = place_below(cursor, u64::from(bounds.variables))?;
    let from = place_below(cursor, u64::from(bounds.variables))?;
    Ok(Statement::CopyStruct { to, from })
}

#[tactic(auto, unfolding(crate::specs::BodyReading::fields_at))]
fn call_void(
    alloc: Global,
    cursor: &mut ByteCursor,
    bounds: &BodyBounds,
) -> Result<Statement, StreamError>
    ensures { Gives result cursor.new (fields_at bounds.now op.CallVoid cursor.old) }
{
    let function = place_below(cursor, u64::from(bounds.functions))?;
    let args = args(alloc, cursor, bounds)?;
    Ok(Statement::Call {
        to: None,
        function,
        args,
    })
}

#[tactic(auto, unfolding(crate::specs::BodyReading::fields_at))]
fn call(
    alloc: Global,
    cursor: &mut ByteCursor,
    bounds: &BodyBounds,
) -> Result<Statement, StreamError>
    ensures { Gives result cursor.new (fields_at bounds.now op.Call cursor.old) }
{
    let to = component(cursor, bounds)?;
    let function = place_below(cursor, u64::from(bounds.functions))?;
    let args = args(alloc, cursor, bounds)?;
    Ok(Statement::Call {
        to: Some(to),
        function,
        args,
    })
}

#[tactic(auto, unfolding(crate::specs::BodyReading::fields_at))]
fn putchar(cursor: &mut ByteCursor, bounds: &BodyBounds) -> Result<Statement, StreamError>
    ensures { Gives result cursor.new (fields_at bounds.now op.Putchar cursor.old) }
{
    let value = operand(cursor, bounds)?;
    Ok(Statement::Putchar(value))
}

#[tactic(auto, unfolding(crate::specs::BodyReading::fields_at))]
fn getchar(cursor: &mut ByteCursor, bounds: &BodyBounds) -> Result<Statement, StreamError>
    ensures { Gives result cursor.new (fields_at bounds.now op.Getchar cursor.old) }
{
    let to = component(cursor, bounds)?;
    Ok(Statement::Getchar(Some(to)))
}

#[tactic(auto, unfolding(crate::specs::BodyReading::fields_at))]
fn exit(cursor: &mut ByteCursor, bounds: &BodyBounds) -> Result<Statement, StreamError>
    ensures { Gives result cursor.new (fields_at bounds.now op.Exit cursor.old) }
{
    let status = operand(cursor, bounds)?;
    Ok(Statement::Exit(status))
}

// What stands after an opcode.
#[tactic(auto, unfolding(crate::specs::BodyReading::fields_at))]
fn fields(
    alloc: Global,
    cursor: &mut ByteCursor,
    bounds: &BodyBounds,
    opcode: Opcode,
) -> Result<Statement, StreamError>
    ensures { Gives result cursor.new (fields_at bounds.now opcode cursor.old) }
{
    match opcode {
        Opcode::Nop => Ok(Statement::Nop),
        Opcode::ReturnVoid => Ok(Statement::ReturnVoid),
        Opcode::GetcharVoid => Ok(Statement::Getchar(None)),
        Opcode::Label => label(cursor, bounds),
        Opcode::Goto => goto(cursor, bounds),
        Opcode::Cond => cond(cursor, bounds),
        Opcode::Switch => switch(alloc, cursor, bounds),
        Opcode::Return => return_value(cursor, bounds),
        Opcode::Copy => copy(cursor, bounds),
        Opcode::Unary => unary(cursor, bounds),
        Opcode::Convert => convert(cursor, bounds),
        Opcode::Binary => binary(cursor, bounds),
        Opcode::Load => load(cursor, bounds),
        Opcode::Store => store(cursor, bounds),
        Opcode::CopyStruct => copy_struct(cursor, bounds),
        Opcode::CallVoid => call_void(alloc, cursor, bounds),
        Opcode::Call => call(alloc, cursor, bounds),
        Opcode::Putchar => putchar(cursor, bounds),
        Opcode::Getchar => getchar(cursor, bounds),
        Opcode::Exit => exit(cursor, bounds),
    }
}

/// The statements of a body with these bounds.
#[derive(Drop)]
pub struct Statements<'a> {
    pub bounds: &'a BodyBounds,
}

impl<'a> Decode for Statements<'a> {
    ghost use Rattle.module_stream.specs.BodyReading.{statement_at};

    type Value = Statement;

    ghost reads = { λ statements. statement_at statements.bounds.now };

    #[tactic(auto, unfolding(crate::specs::BodyReading::statement_at))]
    fn decode(&self, alloc: Global, cursor: &mut ByteCursor) -> Result<Statement, StreamError> {
        let opcode: Opcode = coded(cursor)?;
        fields(alloc, cursor, self.bounds, opcode)
    }
}
