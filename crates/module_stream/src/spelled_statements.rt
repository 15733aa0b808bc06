//! The spelling of a statement: its opcode, and what stands after it by a function for each form with several fields.
ghost use Rattle.std.specs.Prelude.{◌≡◌, ◌++◌, OnOk};
ghost use Rattle.gimple_ir.specs.declared.types.Statement.TheVariants.{Cond, Switch, Copy, Unary, Binary, Load, Store, CopyStruct, Call};
ghost use Rattle.module_stream.specs.Bodies.{opcode_of, fields_of};

use crate::codes::{Coded, Opcode};
use crate::encode::{Encode, put_counted};
use crate::operands::put_operand;
use cursors::put_uleb;
use gimple_ir::{Arg, BinaryOp, Case, NoMemory, Operand, Statement, UnaryOp};

fn opcode(value: &Statement) -> Opcode
    ensures { result ≡ opcode_of value.now }
{
    match value {
        Statement::Nop => Opcode::Nop,
        Statement::Label(_) => Opcode::Label,
        Statement::Goto(_) => Opcode::Goto,
        Statement::Cond { .. } => Opcode::Cond,
        Statement::Switch { .. } => Opcode::Switch,
        Statement::ReturnVoid => Opcode::ReturnVoid,
        Statement::Return(_) => Opcode::Return,
        Statement::Copy { .. } => Opcode::Copy,
        Statement::Unary { .. } => Opcode::Unary,
        Statement::Convert { .. } => Opcode::Convert,
        Statement::Binary { .. } => Opcode::Binary,
        Statement::Load { .. } => Opcode::Load,
        Statement::Store { .. } => Opcode::Store,
        Statement::CopyStruct { .. } => Opcode::CopyStruct,
        Statement::Call { to: None, .. } => Opcode::CallVoid,
        Statement::Call { to: Some(_), .. } => Opcode::Call,
        Statement::Putchar(_) => Opcode::Putchar,
        Statement::Getchar(None) => Opcode::GetcharVoid,
        Statement::Getchar(Some(_)) => Opcode::Getchar,
        Statement::Exit(_) => Opcode::Exit,
    }
}

fn put_cond(
    out: &mut Vec<u8>,
    op: BinaryOp,
    left: Operand,
    right: Operand,
    met: u32,
    missed: u32,
) -> Result<(), NoMemory>
    ensures { OnOk result (out.new.items ≡ out.old.items ++ fields_of (Cond op left right met missed)) }
{
    out.push(op.code())?;
    put_operand(out, left)?;
    put_operand(out, right)?;
    put_uleb(out, u64::from(met))?;
    put_uleb(out, u64::from(missed))
}

fn put_switch(
    out: &mut Vec<u8>,
    on: Operand,
    cases: &[Case],
    otherwise: u32,
) -> Result<(), NoMemory>
    ensures { OnOk result (out.new.items ≡ out.old.items ++ fields_of (Switch on cases.now otherwise)) }
{
    put_operand(out, on)?;
    put_counted(out, cases)?;
    put_uleb(out, u64::from(otherwise))
}

// A copy and a conversion alike.
fn put_copy(out: &mut Vec<u8>, to: u32, from: Operand) -> Result<(), NoMemory>
    ensures { OnOk result (out.new.items ≡ out.old.items ++ fields_of (Copy to from)) }
{
    put_uleb(out, u64::from(to))?;
    put_operand(out, from)
}

fn put_unary(out: &mut Vec<u8>, to: u32, op: UnaryOp, from: Operand) -> Result<(), NoMemory>
    ensures { OnOk result (out.new.items ≡ out.old.items ++ fields_of (Unary to op from)) }
{
    put_uleb(out, u64::from(to))?;
    out.push(op.code())?;
    put_operand(out, from)
}

fn put_binary(
    out: &mut Vec<u8>,
    to: u32,
    op: BinaryOp,
    left: Operand,
    right: Operand,
) -> Result<(), NoMemory>
    ensures { OnOk result (out.new.items ≡ out.old.items ++ fields_of (Binary to op left right)) }
{
    put_uleb(out, u64::from(to))?;
    out.push(op.code())?;
    put_operand(out, left)?;
    put_operand(out, right)
}

fn put_load(out: &mut Vec<u8>, to: u32, array: u32, index: Operand) -> Result<(), NoMemory>
    ensures { OnOk result (out.new.items ≡ out.old.items ++ fields_of (Load to array index)) }
{
    put_uleb(out, u64::from(to))?;
    put_uleb(out, u64::from(array))?;
    put_operand(out, index)
}

fn put_store(out: &mut Vec<u8>, array: u32, index: Operand, from: Operand) -> Result<(), NoMemory>
    ensures { OnOk result (out.new.items ≡ out.old.items ++ fields_of (Store array index from)) }
{
    put_uleb(out, u64::from(array))?;
    put_operand(out, index)?;
    put_operand(out, from)
}

fn put_copy_struct(out: &mut Vec<u8>, to: u32, from: u32) -> Result<(), NoMemory>
    ensures { OnOk result (out.new.items ≡ out.old.items ++ fields_of (CopyStruct to from)) }
{
    put_uleb(out, u64::from(to))?;
    put_uleb(out, u64::from(from))
}

fn put_call(out: &mut Vec<u8>, to: Option<u32>, function: u32, args: &[Arg]) -> Result<(), NoMemory>
    ensures { OnOk result (out.new.items ≡ out.old.items ++ fields_of (Call to function args.now)) }
{
    match to {
        None => {
            put_uleb(out, u64::from(function))?;
            put_counted(out, args)
        }
        Some(to) => {
            put_uleb(out, u64::from(to))?;
            put_uleb(out, u64::from(function))?;
            put_counted(out, args)
        }
    }
}

fn put_fields(out: &mut Vec<u8>, value: &Statement) -> Result<(), NoMemory>
    ensures { OnOk result (out.new.items ≡ out.old.items ++ fields_of value.now) }
{
    match value {
        Statement::Nop | Statement::ReturnVoid | Statement::Getchar(None) => Ok(()),
        Statement::Label(label) | Statement::Goto(label) => put_uleb(out, u64::from(*label)),
        Statement::Cond {
            op,
            left,
            right,
            yes,
            no,
        } => put_cond(out, *op, *left, *right, *yes, *no),
        Statement::Switch {
            on,
            cases,
            otherwise,
        } => put_switch(out, *on, cases.as_slice(), *otherwise),
        Statement::Return(value) | Statement::Putchar(value) | Statement::Exit(value) => {
            put_operand(out, *value)
        }
        Statement::Copy { to, from } | Statement::Convert { to, from } => {
            put_copy(out, *to, *from)
        }
        Statement::Unary { to, op, from } => put_unary(out, *to, *op, *from),
        Statement::Binary {
            to,
            op,
            left,
            right,
        } => put_binary(out, *to, *op, *left, *right),
        Statement::Load { to, array, index } => put_load(out, *to, *array, *index),
        Statement::Store { array, index, from } => put_store(out, *array, *index, *from),
        Statement::CopyStruct { to, from } => put_copy_struct(out, *to, *from),
        Statement::Call { to, function, args } => put_call(out, *to, *function, args.as_slice()),
        Statement::Getchar(Some(to)) => put_uleb(out, u64::from(*to)),
    }
}

impl Encode for Statement {
    ghost use Rattle.module_stream.specs.Bodies.{statement_of};

    ghost spelling = { statement_of };

    fn encode(&self, out: &mut Vec<u8>) -> Result<(), NoMemory> {
        out.push(opcode(self).code())?;
        put_fields(out, self)
    }
}
