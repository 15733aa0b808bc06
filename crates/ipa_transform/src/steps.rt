//! The steps of a member's statements.
ghost use Rattle.std.specs.Prelude.{◌≡◌, ◌<◌, ◌≤◌, ◌^◌, [], ◌∷◌, length, Some, None, IfOk, if◌then◌else◌};
ghost use Rattle.ipa_transform.specs.Versioned.{use_of, kept_of, step_of, calls_in, steps_of};
ghost use Rattle.ipa_transform.specs.Members.{Ascends};

use crate::components::{passed, struct_pairs};
use crate::layout::Layout;
use gimple_ir::{ArrayUse, CallUse, List, NoMemory, Operand, Pair, Statement, Step};
use std::alloc::Global;

/// The place of an array among those that the body names, or their number where it is none of them.
fn use_of(uses: &[ArrayUse], array: u32) -> u32
    requires few { length uses.now < 2 ^ 32 }
    requires ascends { Ascends uses.now }
    ensures { result ≡ use_of uses.now array }
{
    match uses.binary_search_by_key(&array, |named| named.local) {
        Ok(place) => place as u32,
        Err(_) => uses.len() as u32,
    }
}

/// The places of the argument components that a call passes.
fn kept_of(calls: &[CallUse], call: u32) -> &[u32]
    ensures { result.now ≡ kept_of calls.now call }
{
    match calls.get(call as usize) {
        Some(used) => used.kept.as_slice(),
        None => &[],
    }
}

/// The one pair of a copy.
fn one_pair(alloc: Global, to: u32, from: Operand) -> Result<List<Pair>, NoMemory>
    ensures { IfOk result (λ pairs. pairs ≡ record { to = to; from = from } ∷ []) }
{
    let mut pairs = List::new(alloc);
    pairs.push(Pair { to, from })?;
    Ok(pairs)
}

fn kept_result(is_kept: bool, operand: Operand) -> Option<Operand>
    ensures { result ≡ (if is_kept then Some operand else None) }
{
    if is_kept { Some(operand) } else { None }
}

/// The step of a statement before which so many functions were called.
fn step_of(
    alloc: Global,
    layout: &Layout,
    call: u32,
    statement: &Statement,
) -> Result<Step, NoMemory>
    ensures { IfOk result (λ step. step ≡ step_of layout.now call statement.now) }
{
    let member = layout.member();
    let step = match statement {
        Statement::Nop => Step::Nop,
        Statement::Label(label) => Step::Label(*label),
        Statement::Goto(label) => Step::Goto(*label),
        Statement::Cond {
            op,
            left,
            right,
            yes,
            no,
        } => Step::Cond {
            op: *op,
            left: *left,
            right: *right,
            yes: *yes,
            no: *no,
        },
        Statement::Switch {
            on,
            cases,
            otherwise,
        } => Step::Switch {
            on: *on,
            cases: cases.copy()?,
            otherwise: *otherwise,
        },
        Statement::ReturnVoid => Step::Return(None),
        Statement::Return(operand) => Step::Return(kept_result(member.result, *operand)),
        Statement::Copy { to, from } => Step::Copies(one_pair(alloc, *to, *from)?),
        Statement::Unary { to, op, from } => Step::Unary {
            to: *to,
            op: *op,
            from: *from,
        },
        Statement::Convert { to, from } => Step::Convert {
            to: *to,
            from: *from,
        },
        Statement::Binary {
            to,
            op,
            left,
            right,
        } => Step::Binary {
            to: *to,
            op: *op,
            left: *left,
            right: *right,
        },
        Statement::Load { to, array, index } => Step::Load {
            to: *to,
            array: use_of(member.arrays.as_slice(), *array),
            index: *index,
        },
        Statement::Store { array, index, from } => Step::Store {
            array: use_of(member.arrays.as_slice(), *array),
            index: *index,
            from: *from,
        },
        Statement::CopyStruct { to, from } => {
            Step::Copies(struct_pairs(alloc, layout, *to, *from)?)
        }
        Statement::Call { to, args, .. } => Step::Call {
            to: *to,
            call,
            args: passed(alloc, layout, args, kept_of(member.calls.as_slice(), call))?,
        },
        Statement::Putchar(operand) => Step::Putchar(*operand),
        Statement::Getchar(to) => Step::Getchar(*to),
        Statement::Exit(operand) => Step::Exit(*operand),
    };
    Ok(step)
}

fn calls_in(statement: &Statement) -> u32
    ensures value { result ≡ calls_in statement.now }
    ensures small { result ≤ 1 }
{
    match statement {
        Statement::Call { .. } => 1,
        _ => 0,
    }
}

/// The steps of the member's body, in one pass.
pub fn steps(alloc: Global, layout: &Layout) -> Result<List<Step>, NoMemory>
    ensures { IfOk result (λ steps. steps ≡ steps_of layout.now 0 layout.now.body) }
{
    let mut call = 0u32;
    let mut steps = Vec::new(alloc);
    let body = layout.member().body.as_slice();
    for statement in body {
        steps.push(step_of(alloc, layout, call, statement)?)?;
        call += calls_in(statement);
    }
    Ok(List::from_vec(steps))
}
