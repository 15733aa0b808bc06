//! The assignments of a body, each with what it gives over the components that it reads, and how often each component is
//! assigned.
ghost use Rattle.std.specs.Prelude.{◌≡◌, ◌++◌, ◌∷◌, [], map, ℕ, List, IfOk, OnOk, All};
ghost use Rattle.std.specs.List.{range_with_len};
ghost use Rattle.gimple_ir.specs.CodeBound.{components_in, components_of};
ghost use Rattle.func_summary.specs.JumpFunctions.{copied, computed, unary_jump, convert_jump, binary_jump, assigns, copy_of_field, stored, assignments_in, assignments_of};
ghost use Rattle.func_summary.specs.Tables.{assigned_table, assigned_more};
ghost use Rattle.func_summary.specs.Ready.{CanCompute, CanUnary, CanBinary};

use crate::layout::Layout;
use gimple_ir::{
    BinaryOp, JumpFunction, NoMemory, Operand, ScalarType, Statement, UnaryOp, Value, convert,
    eval_binary, eval_unary,
};
use std::alloc::Global;

/// An assignment to a component, with what it gives: `Pass` of a component is a copy of it, and the other jump functions
/// are said over the function's own components likewise.
#[derive(Clone, Copy)]
pub struct Assignment {
    pub to: u32,
    pub value: JumpFunction,
}

/// How often a component is assigned.
#[derive(Clone, Copy)]
pub enum Assigned {
    Never,
    /// By one statement, which gives this.
    Once(JumpFunction),
    Often,
}

fn copied(operand: Operand) -> JumpFunction
    ensures { result ≡ copied operand }
{
    match operand {
        Operand::Component(component) => JumpFunction::Pass(component),
        Operand::Literal(value) => JumpFunction::Const(value),
    }
}

fn computed(value: Option<Value>) -> JumpFunction
    ensures { result ≡ computed value }
{
    match value {
        None => JumpFunction::Unknown,
        Some(value) => JumpFunction::Const(value),
    }
}

fn unary_jump(op: UnaryOp, operand: Operand) -> JumpFunction
    requires { CanUnary operand }
    ensures { result ≡ unary_jump op operand }
{
    match operand {
        Operand::Component(component) => JumpFunction::Unary(op, component),
        Operand::Literal(value) => computed(eval_unary(op, value)),
    }
}

fn convert_jump(ty: Option<ScalarType>, operand: Operand) -> JumpFunction
    requires { CanUnary operand }
    ensures { result ≡ convert_jump ty operand }
{
    match (ty, operand) {
        (None, _) => JumpFunction::Unknown,
        (Some(ty), Operand::Component(component)) => JumpFunction::Convert(ty, component),
        (Some(ty), Operand::Literal(value)) => JumpFunction::Const(convert(ty, value)),
    }
}

fn binary_jump(op: BinaryOp, left: Operand, right: Operand) -> JumpFunction
    requires { CanBinary op left right }
    ensures { result ≡ binary_jump op left right }
{
    match (left, right) {
        (Operand::Component(_), Operand::Component(_)) => JumpFunction::Unknown,
        (Operand::Component(component), Operand::Literal(value)) => {
            JumpFunction::Left(op, component, value)
        }
        (Operand::Literal(value), Operand::Component(component)) => {
            JumpFunction::Right(op, value, component)
        }
        (Operand::Literal(left), Operand::Literal(right)) => computed(eval_binary(op, left, right)),
    }
}

fn push_stored(assignments: &mut Vec<Assignment>, target: Option<u32>) -> Result<(), NoMemory>
    ensures { OnOk result (assignments.new.items ≡ assignments.old.items ++ stored target) }
{
    if let Some(to) = target {
        assignments.push(Assignment {
            to,
            value: JumpFunction::Unknown,
        })?;
    }
    Ok(())
}

fn push(assignments: &mut Vec<Assignment>, to: u32, value: JumpFunction) -> Result<(), NoMemory>
    ensures { OnOk result (assignments.new.items ≡ assignments.old.items ++ assigns to value ∷ []) }
{
    assignments.push(Assignment { to, value })?;
    Ok(())
}

/// A copy of each field of a struct variable.
fn push_fields(
    assignments: &mut Vec<Assignment>,
    layout: &Layout,
    to: u32,
    from: u32,
) -> Result<(), NoMemory>
    ensures { OnOk result (assignments.new.items ≡ assignments.old.items ++ map (copy_of_field layout.now.variables to from) (range_with_len 0 (components_of layout.now.variables from))) }
{
    for field in 0..layout.fields(from) {
        let value = JumpFunction::Pass(layout.field(from, field));
        assignments.push(Assignment {
            to: layout.field(to, field),
            value,
        })?;
    }
    Ok(())
}

fn push_statement(
    assignments: &mut Vec<Assignment>,
    layout: &Layout,
    statement: &Statement,
) -> Result<(), NoMemory>
    requires { CanCompute statement.now }
    ensures { OnOk result (assignments.new.items ≡ assignments.old.items ++ assignments_in layout.now statement.now) }
{
    match statement {
        Statement::Copy { to, from } => push(assignments, *to, copied(*from)),
        Statement::Unary { to, op, from } => push(assignments, *to, unary_jump(*op, *from)),
        Statement::Convert { to, from } => {
            push(assignments, *to, convert_jump(layout.type_of(*to), *from))
        }
        Statement::Binary {
            to,
            op,
            left,
            right,
        } => push(assignments, *to, binary_jump(*op, *left, *right)),
        Statement::Load { to, .. } => push_stored(assignments, Some(*to)),
        Statement::CopyStruct { to, from } => push_fields(assignments, layout, *to, *from),
        Statement::Call { to, .. } | Statement::Getchar(to) => push_stored(assignments, *to),
        Statement::Nop
        | Statement::Label(_)
        | Statement::Goto(_)
        | Statement::Cond { .. }
        | Statement::Switch { .. }
        | Statement::ReturnVoid
        | Statement::Return(_)
        | Statement::Store { .. }
        | Statement::Putchar(_)
        | Statement::Exit(_) => Ok(()),
    }
}

/// The assignments of the body, in order.
fn assignments(alloc: Global, layout: &Layout) -> Result<Vec<Assignment>, NoMemory>
    requires { All CanCompute layout.now.body }
    ensures { IfOk result (λ assignments. assignments.items ≡ assignments_of layout.now) }
{
    let mut assignments = Vec::new(alloc);
    let body = layout.function().body.as_slice();
    for statement in body {
        push_statement(&mut assignments, layout, statement)?;
    }
    Ok(assignments)
}

fn once_more(before: Assigned, value: JumpFunction) -> Assigned
    ensures { result ≡ assigned_more before value }
{
    match before {
        Assigned::Never => Assigned::Once(value),
        Assigned::Once(_) | Assigned::Often => Assigned::Often,
    }
}

/// Counts one more assignment; the table has no row for a number of no component.
fn count_one(table: &mut Vec<Assigned>, assignment: Assignment)
    ensures { (count : ℕ) (before : List Assignment) → table.old.items ≡ assigned_table count before → table.new.items ≡ assigned_table count (before ++ assignment ∷ []) }
{
    let to = assignment.to as usize;
    if to >= table.len() {
        return;
    }
    table[to] = once_more(table[to], assignment.value);
}

/// How often each component below the count is assigned.
fn table(alloc: Global, assignments: &[Assignment], count: usize) -> Result<Vec<Assigned>, NoMemory>
    ensures { IfOk result (λ table. table.items ≡ assigned_table count assignments.now) }
{
    let mut table = vec![in alloc; Assigned::Never; count]?;
    for assignment in assignments {
        count_one(&mut table, *assignment);
    }
    Ok(table)
}

/// How often each component of the function is assigned.
pub fn assignment_table(alloc: Global, layout: &Layout) -> Result<Vec<Assigned>, NoMemory>
    requires { All CanCompute layout.now.body }
    ensures { IfOk result (λ table. table.items ≡ assigned_table (components_in layout.now.variables) (assignments_of layout.now)) }
{
    let assignments = assignments(alloc, layout)?;
    table(alloc, &assignments, layout.total() as usize)
}
