//! Copies of statements.
ghost use Rattle.std.specs.Prelude.{◌≡◌, IfOk};

use gimple_ir::{List, NoMemory, Statement};
use std::alloc::Global;

fn statement(statement: &Statement) -> Result<Statement, NoMemory>
    ensures { IfOk result (λ copy. copy ≡ statement.now) }
{
    Ok(match statement {
        Statement::Nop => Statement::Nop,
        Statement::Label(label) => Statement::Label(*label),
        Statement::Goto(label) => Statement::Goto(*label),
        Statement::Cond {
            op,
            left,
            right,
            yes,
            no,
        } => Statement::Cond {
            op: *op,
            left: *left,
            right: *right,
            yes: *yes,
            no: *no,
        },
        Statement::Switch {
            on,
            cases,
            otherwise,
        } => Statement::Switch {
            on: *on,
            cases: cases.copy()?,
            otherwise: *otherwise,
        },
        Statement::ReturnVoid => Statement::ReturnVoid,
        Statement::Return(value) => Statement::Return(*value),
        Statement::Copy { to, from } => Statement::Copy {
            to: *to,
            from: *from,
        },
        Statement::Unary { to, op, from } => Statement::Unary {
            to: *to,
            op: *op,
            from: *from,
        },
        Statement::Convert { to, from } => Statement::Convert {
            to: *to,
            from: *from,
        },
        Statement::Binary {
            to,
            op,
            left,
            right,
        } => Statement::Binary {
            to: *to,
            op: *op,
            left: *left,
            right: *right,
        },
        Statement::Load { to, array, index } => Statement::Load {
            to: *to,
            array: *array,
            index: *index,
        },
        Statement::Store { array, index, from } => Statement::Store {
            array: *array,
            index: *index,
            from: *from,
        },
        Statement::CopyStruct { to, from } => Statement::CopyStruct {
            to: *to,
            from: *from,
        },
        Statement::Call { to, function, args } => Statement::Call {
            to: *to,
            function: *function,
            args: args.copy()?,
        },
        Statement::Putchar(value) => Statement::Putchar(*value),
        Statement::Getchar(to) => Statement::Getchar(*to),
        Statement::Exit(status) => Statement::Exit(*status),
    })
}

/// An equal body.
pub fn body(alloc: Global, statements: &[Statement]) -> Result<List<Statement>, NoMemory>
    ensures { IfOk result (λ copies. copies ≡ statements.now) }
{
    let mut copies = Vec::new(alloc);
    for each in statements {
        copies.push(statement(each)?)?;
    }
    Ok(List::from_vec(copies))
}
