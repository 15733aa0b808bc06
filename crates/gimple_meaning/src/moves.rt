//! What the interpreter does at a statement that is no call: a plan, made from the state before any of it changes.
ghost use Rattle.std.specs.Prelude.{◌≡◌, ◌≤ℤ◌, ◌-◌, ◌^◌, pos, All, IfSome, MatchOption, true, slice_get, find, unsigned_abs, option_and_then, Some, if◌then◌else◌};
ghost use Rattle.std.specs.Option.{option_copied, option_map, is_some};
ghost use Rattle.std.specs.Ordering.{int_eq};
ghost use Rattle.gimple_ir.specs.Values.{IsValue, TypesFit, binary_of};
ghost use Rattle.gimple_ir.specs.Statements.{component_types, is_shift};
ghost use Rattle.gimple_ir.specs.Programs.{HasValues, IsElement};
ghost use Rattle.gimple_meaning.specs.Acts.{low_byte, operands_fit, case_label, element_type, element_at, stored};
ghost use Rattle.gimple_meaning.specs.Moves.{on, unary_on, operation_on, converted_on, loaded_on, store_on, move_of, MoveFits, FitsAny, IsCallOf, IsPlain};
ghost use Rattle.gimple_meaning.specs.declared.moves.Move.TheVariants as move;

use crate::arrays::Arrays;
use crate::cells::Cells;
use crate::layout::Layout;
use gimple_ir::{
    Args, BinaryOp, Case, ElementType, Function, List, Operand, ScalarType, Statement, UnaryOp,
    Value, Variable, convert, eval_binary, eval_unary,
};

/// A plan for one statement, which takes no memory.
#[derive(Clone, Copy)]
pub enum Move {
    /// The statement is undefined here.
    Fault,
    Next,
    /// To a label.
    Jump(u32),
    /// Sets a component.
    Assign(u32, Value),
    /// Writes a number into an array at an index.
    Store(u32, usize, i128),
    /// Copies one struct variable to another: to, from.
    CopyStruct(u32, u32),
    Print(u8),
    /// Reads a byte, into a component where there is one.
    Read(Option<u32>),
    Leave(Option<Value>),
    End(u8),
}

/// The low 8 bits.
pub fn low_byte(num: i128) -> u8
    ensures { result ≡ low_byte num }
{
    num.rem_euclid(256) as u8
}

/// The called function and its arguments, where the statement is a call.
pub fn call_of(statement: &Statement) -> Option<(u32, &Args)>
    ensures { MatchOption result (IsPlain statement.now) (λ call. IsCallOf statement.now call.0 call.1.now) }
{
    match statement {
        Statement::Call { function, args, .. } => Some((*function, args)),
        _ => None,
    }
}

fn is_shift(op: BinaryOp) -> bool
    ensures { result ≡ is_shift op }
{
    match op {
        BinaryOp::Shl | BinaryOp::Shr => true,
        _ => false,
    }
}

fn operands_fit(op: BinaryOp, left: Value, right: Value) -> bool
    ensures { result ≡ operands_fit op left right }
{
    is_shift(op) || left.ty == right.ty
}

fn fitting(op: BinaryOp, left: Value, right: Value) -> Option<Value>
    requires left { IsValue left }
    requires right { IsValue right }
    requires fits { operands_fit op left right ≡ true }
    ensures value { result ≡ binary_of op left right }
    ensures well_formed { IfSome result IsValue }
{
    eval_binary(op, left, right)
}

fn operation(op: BinaryOp, left: Option<Value>, right: Option<Value>) -> Option<Value>
    requires left { IfSome left IsValue }
    requires right { IfSome right IsValue }
    ensures value { result ≡ operation_on op left right }
    ensures well_formed { IfSome result IsValue }
{
    let left = left?;
    let right = right?;
    if !operands_fit(op, left, right) {
        return None;
    }
    fitting(op, left, right)
}

fn unary(op: UnaryOp, from: Option<Value>) -> Option<Value>
    requires { IfSome from IsValue }
    ensures value { result ≡ unary_on op from }
    ensures well_formed { IfSome result IsValue }
{
    eval_unary(op, from?)
}

fn converted(layout: &Layout, to: u32, from: Option<Value>) -> Option<Value>
    requires { IfSome from IsValue }
    ensures value { result ≡ converted_on layout.now.variables to from }
    ensures well_formed { IfSome result IsValue }
{
    let value = from?;
    let ty = layout.component_type(to)?;
    Some(convert(ty, value))
}

fn loaded(arrays: &Arrays, array: u32, index: Option<Value>) -> Option<Value>
    requires { IfSome index IsValue }
    ensures value { result ≡ loaded_on arrays.now.declared arrays.now.numbers array index }
    ensures well_formed { IfSome result IsValue }
{
    arrays.load(array, index?.num)
}

fn assign(to: u32, value: Option<Value>) -> Move
    requires { IfSome value IsValue }
    ensures value { result ≡ on value (λ v. move.Assign to v) }
    ensures fits { FitsAny result }
{
    match value {
        Some(value) => Move::Assign(to, value),
        None => Move::Fault,
    }
}

fn is_case(case: &Case, num: i128) -> bool
    ensures { result ≡ int_eq case.now.value.num num }
{
    case.value.num == num
}

fn case_with(cases: &[Case], num: i128) -> Option<&Case>
    ensures { option_copied result ≡ find (λ c. int_eq c.value.num num) cases.now }
{
    cases.iter().find(|case| is_case(case, num))
}

fn case_label(cases: &[Case], num: i128, otherwise: u32) -> u32
    ensures { result ≡ case_label cases.now num otherwise }
{
    match case_with(cases, num) {
        Some(case) => case.label,
        None => otherwise,
    }
}

fn leave(value: Option<Value>) -> Move
    requires { IfSome value IsValue }
    ensures value { result ≡ on value (λ v. move.Leave (Some v)) }
    ensures fits { FitsAny result }
{
    match value {
        Some(value) => Move::Leave(Some(value)),
        None => Move::Fault,
    }
}

fn print(value: Option<Value>) -> Move
    ensures value { result ≡ on value (λ v. move.Print (low_byte v.num)) }
    ensures fits { FitsAny result }
{
    match value {
        Some(value) => Move::Print(low_byte(value.num)),
        None => Move::Fault,
    }
}

fn end(value: Option<Value>) -> Move
    ensures value { result ≡ on value (λ v. move.End (low_byte v.num)) }
    ensures fits { FitsAny result }
{
    match value {
        Some(value) => Move::End(low_byte(value.num)),
        None => Move::Fault,
    }
}

fn branch(value: Option<Value>, met: u32, missed: u32) -> Move
    ensures value { result ≡ on value (λ v. move.Jump (if int_eq v.num (pos 0) then missed else met)) }
    ensures fits { FitsAny result }
{
    match value {
        Some(value) => Move::Jump(if value.num == 0 { missed } else { met }),
        None => Move::Fault,
    }
}

fn switch(value: Option<Value>, cases: &[Case], otherwise: u32) -> Move
    ensures value { result ≡ on value (λ v. move.Jump (case_label cases.now v.num otherwise)) }
    ensures fits { FitsAny result }
{
    match value {
        Some(value) => Move::Jump(case_label(cases, value.num, otherwise)),
        None => Move::Fault,
    }
}

fn stored(element: ElementType, value: Value) -> i128
    requires { IsValue value }
    ensures value { result ≡ stored element value.num }
    ensures well_formed { IsElement element result }
{
    match element {
        ElementType::UnsignedChar => i128::from(low_byte(value.num)),
        ElementType::Scalar(ty) => convert(ty, value).num,
    }
}

fn store(arrays: &Arrays, array: u32, index: Option<Value>, from: Option<Value>) -> Move
    requires index { IfSome index IsValue }
    requires from { IfSome from IsValue }
    ensures value { result ≡ store_on arrays.now.declared arrays.now.numbers array index from }
    ensures fits { MoveFits arrays.now.declared result }
{
    let (Some(index), Some(value)) = (index, from) else {
        return Move::Fault;
    };
    let Some(element) = arrays.element(array) else {
        return Move::Fault;
    };
    if arrays.at(array, index.num).is_none() {
        return Move::Fault;
    }
    Move::Store(array, index.num as usize, stored(element, value))
}

/// The plan for a statement of the function with these components; that of a call is left to the caller.
pub fn planned(layout: &Layout, arrays: &Arrays, cells: &Cells, statement: &Statement) -> Move
    requires { HasValues statement.now }
    ensures value { result ≡ move_of layout.now arrays.now.declared cells.now arrays.now.numbers statement.now }
    ensures fits { MoveFits arrays.now.declared result }
{
    match statement {
        Statement::Nop | Statement::Label(_) => Move::Next,
        Statement::Goto(label) => Move::Jump(*label),
        Statement::Cond {
            op,
            left,
            right,
            yes,
            no,
        } => branch(
            operation(*op, cells.read(*left), cells.read(*right)),
            *yes,
            *no,
        ),
        Statement::Switch {
            on,
            cases,
            otherwise,
        } => switch(cells.read(*on), cases.as_slice(), *otherwise),
        Statement::ReturnVoid => Move::Leave(None),
        Statement::Return(from) => leave(cells.read(*from)),
        Statement::Copy { to, from } => assign(*to, cells.read(*from)),
        Statement::Unary { to, op, from } => assign(*to, unary(*op, cells.read(*from))),
        Statement::Convert { to, from } => assign(*to, converted(layout, *to, cells.read(*from))),
        Statement::Binary {
            to,
            op,
            left,
            right,
        } => assign(*to, operation(*op, cells.read(*left), cells.read(*right))),
        Statement::Load { to, array, index } => {
            assign(*to, loaded(arrays, *array, cells.read(*index)))
        }
        Statement::Store { array, index, from } => {
            store(arrays, *array, cells.read(*index), cells.read(*from))
        }
        Statement::CopyStruct { to, from } => Move::CopyStruct(*to, *from),
        Statement::Call { .. } => Move::Fault,
        Statement::Putchar(from) => print(cells.read(*from)),
        Statement::Getchar(to) => Move::Read(*to),
        Statement::Exit(from) => end(cells.read(*from)),
    }
}
