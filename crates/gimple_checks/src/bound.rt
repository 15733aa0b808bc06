//! The code bound of a function, in bytes. Sums stop at the greatest `u64`, far above the limit.
ghost use Rattle.std.specs.Prelude.{◌≡◌, ◌^◌, ◌-◌, ◌+◌, ◌*◌, min, sum_by};
ghost use Rattle.gimple_ir.specs.CodeBound.{components_of, argument_operands, operands_in, code_bound_of};

use crate::counts::parameter_components;
use gimple_ir::{Arg, Args, Function, List, Statement, Variable};

/// The number of components of the variable, or 0 where the number names none.
fn components_of(variables: &List<Variable>, variable: u32) -> u64
    ensures { result ≡ components_of variables.now variable }
{
    let place = variable as usize;
    if place < variables.len() {
        variables.get(place).types.len() as u64
    } else {
        0
    }
}

fn argument_operands(variables: &List<Variable>, argument: Arg) -> u64
    ensures { result ≡ argument_operands variables.now argument }
{
    match argument {
        Arg::One(_) => 1,
        Arg::Whole(variable) => components_of(variables, variable),
    }
}

fn arguments_operands(variables: &List<Variable>, args: &Args) -> u64
    ensures { result ≡ min (sum_by (argument_operands variables.now) args.now) (2 ^ 64 - 1) }
{
    let mut total = 0u64;
    let items = args.as_slice();
    for argument in items {
        total = total.saturating_add(argument_operands(variables, *argument));
    }
    total
}

fn operands_in(variables: &List<Variable>, statement: &Statement) -> u64
    ensures { result ≡ min (operands_in variables.now statement.now) (2 ^ 64 - 1) }
{
    match statement {
        Statement::Nop
        | Statement::Label(_)
        | Statement::Goto(_)
        | Statement::ReturnVoid
        | Statement::Getchar(_) => 0,
        Statement::Return(_)
        | Statement::Copy { .. }
        | Statement::Unary { .. }
        | Statement::Convert { .. }
        | Statement::Load { .. }
        | Statement::Putchar(_)
        | Statement::Exit(_) => 1,
        Statement::Cond { .. } | Statement::Binary { .. } | Statement::Store { .. } => 2,
        Statement::Switch { cases, .. } => 1u64.saturating_add(cases.len() as u64),
        Statement::CopyStruct { from, .. } => components_of(variables, *from),
        Statement::Call { args, .. } => arguments_operands(variables, args),
    }
}

fn statement_bound(variables: &List<Variable>, statement: &Statement) -> u64
    ensures { result ≡ min (7 + 11 * operands_in variables.now statement.now) (2 ^ 64 - 1) }
{
    operands_in(variables, statement)
        .saturating_mul(11)
        .saturating_add(7)
}

fn statements_bound(function: &Function) -> u64
    ensures { result ≡ min (sum_by (λ s. 7 + 11 * operands_in function.now.variables s) function.now.body) (2 ^ 64 - 1) }
{
    let mut total = 0u64;
    let body = function.body.as_slice();
    for statement in body {
        total = total.saturating_add(statement_bound(&function.variables, statement));
    }
    total
}

/// The code bound of the function in bytes, or the greatest `u64` where it is more. A checked function has at most
/// 524,288.
pub fn code_bound(function: &Function) -> u64
    ensures { result ≡ min (code_bound_of function.now) (2 ^ 64 - 1) }
{
    parameter_components(function)
        .saturating_mul(11)
        .saturating_add(6)
        .saturating_add(statements_bound(function))
        .saturating_mul(4)
}
