//! Where labels stand, and where a body ends.
ghost use Rattle.std.specs.Prelude.{◌≡◌, IfOk, nat_lt};
ghost use Rattle.std.specs.List.{list_all};
ghost use Rattle.gimple_ir.specs.Checks.{label_of, labels_in_order, goes_within, goals_stand, labels_stand, ends, ends_closed};

use crate::names::repeats;
use gimple_ir::{Case, Function, List, NoMemory, Statement};
use std::alloc::Global;

fn label_of(statement: &Statement) -> Option<u32>
    ensures { result ≡ label_of statement.now }
{
    match statement {
        Statement::Label(label) => Some(*label),
        _ => None,
    }
}

/// Whether the labels that stand are 0, 1, .. in order, as many as the count.
fn labels_in_order(count: usize, body: &List<Statement>) -> bool
    ensures { result ≡ labels_in_order count body.now }
{
    let mut next = 0usize;
    for place in 0..body.len() {
        if let Some(label) = label_of(body.get(place)) {
            if label as usize != next {
                return false;
            }
            next += 1;
        }
    }
    next == count
}

fn cases_go_within(count: usize, cases: &List<Case>) -> bool
    ensures { result ≡ list_all (λ c. nat_lt c.label count) cases.now }
{
    cases
        .as_slice()
        .iter()
        .all(|case| (case.label as usize) < count)
}

/// Whether the labels that the statement may go to are below the count.
fn goes_within(count: usize, statement: &Statement) -> bool
    ensures { result ≡ goes_within count statement.now }
{
    match statement {
        Statement::Goto(label) => (*label as usize) < count,
        Statement::Cond { yes, no, .. } => (*yes as usize) < count && (*no as usize) < count,
        Statement::Switch {
            cases,
            otherwise,
            ..
        } => { (*otherwise as usize) < count && cases_go_within(count, cases) }
        _ => true,
    }
}

fn goals_stand(count: usize, body: &List<Statement>) -> bool
    ensures { result ≡ goals_stand count body.now }
{
    body.as_slice()
        .iter()
        .all(|statement| goes_within(count, statement))
}

/// Whether each label stands once, in the order of the numbers, and no other is used.
pub fn labels_stand(alloc: Global, function: &Function) -> Result<bool, NoMemory>
    ensures { IfOk result (λ stand. stand ≡ labels_stand function.now) }
{
    let count = function.labels.len();
    let doubled = repeats(alloc, function.labels.as_slice())?;
    Ok(labels_in_order(count, &function.body) && goals_stand(count, &function.body) && !doubled)
}

fn ends(statement: &Statement) -> bool
    ensures { result ≡ ends statement.now }
{
    match statement {
        Statement::Goto(_)
        | Statement::Cond { .. }
        | Statement::Switch { .. }
        | Statement::ReturnVoid
        | Statement::Return(_) => true,
        _ => false,
    }
}

/// Whether the last statement goes on to no next place.
pub fn ends_closed(body: &List<Statement>) -> bool
    ensures { result ≡ ends_closed body.now }
{
    let count = body.len();
    count > 0 && ends(body.get(count - 1))
}
