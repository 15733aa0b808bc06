//! Which fault of a statement is the first.
ghost use Rattle.std.specs.Prelude.{◌≡◌, map, int_lt};
ghost use Rattle.gimple_ir.specs.Statements.{counts_arguments, is_literal, negates_literal, ascends, cases_ascend, statement_kind};

use crate::scope::Scope;
use gimple_ir::{Case, List, Operand, Statement, TypeKind, UnaryOp};

fn is_literal(operand: Operand) -> bool
    ensures { result ≡ is_literal operand }
{
    match operand {
        Operand::Component(_) => false,
        Operand::Literal(_) => true,
    }
}

fn negates_literal(statement: &Statement) -> bool
    ensures { result ≡ negates_literal statement.now }
{
    match statement {
        Statement::Unary {
            op: UnaryOp::Neg,
            from,
            ..
        } => is_literal(*from),
        _ => false,
    }
}

fn is_above(case: &Case, before: &Case) -> bool
    ensures { result ≡ int_lt before.now.value.num case.now.value.num }
{
    before.value.num < case.value.num
}

/// Whether each value is above the one before it.
fn ascends(cases: &List<Case>) -> bool
    ensures { result ≡ ascends (map (λ c. c.value.num) cases.now) }
{
    if cases.len() == 0 {
        return true;
    }
    let mut before = cases.get(0);
    for place in 1..cases.len() {
        let case = cases.get(place);
        if !is_above(case, before) {
            return false;
        }
        before = case;
    }
    true
}

fn cases_ascend(statement: &Statement) -> bool
    ensures { result ≡ cases_ascend statement.now }
{
    match statement {
        Statement::Switch { cases, .. } => ascends(cases),
        _ => true,
    }
}

impl<'a> Scope<'a> {
    /// Whether a called function gets as many arguments as it has parameters.
    fn counts_arguments(&self, statement: &Statement) -> bool
        ensures { result ≡ counts_arguments self.now statement.now }
    {
        let Statement::Call { function, args, .. } = statement else {
            return true;
        };
        let functions = self.functions();
        let place = *function as usize;
        place >= functions.len() || args.len() == functions.get(place).parameters as usize
    }

    /// The kind of the statement's first fault.
    pub fn statement_kind(&self, statement: &Statement) -> Option<TypeKind>
        ensures { result ≡ statement_kind self.now statement.now }
    {
        if !self.knows(statement) {
            Some(TypeKind::UnknownName)
        } else if !self.counts_arguments(statement) {
            Some(TypeKind::WrongCount)
        } else if !self.types_fit(statement) {
            Some(TypeKind::WrongType)
        } else if negates_literal(statement) {
            Some(TypeKind::NegLiteral)
        } else if !cases_ascend(statement) {
            Some(TypeKind::BadCase)
        } else {
            None
        }
    }
}
