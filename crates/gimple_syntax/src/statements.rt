//! Statements with numbers in place of names. Where a struct stands in place of a component, another statement stands
//! for it, of the same labels and with a wrong type.
ghost use Rattle.std.specs.Prelude.{◌≡◌, IfOk, Some, [], ◌∷◌, false, map, nat_eq};
ghost use Rattle.std.specs.List.{list_any};
ghost use Rattle.std.specs.Option.{option_map_or};
ghost use Rattle.gimple_ir.specs.declared.types.Statement.TheVariants.{Unary as UnaryOf, Binary as BinaryOf, Load as LoadOf, Call as CallOf, Getchar as GetcharOf, Putchar as PutcharOf, Exit as ExitOf, Store as StoreOf, Cond as CondOf, Switch as SwitchOf, Return as ReturnOf};
ghost use Rattle.gimple_syntax.specs.Numbers.{at_number};
ghost use Rattle.gimple_syntax.specs.Places.{operand_named};
ghost use Rattle.gimple_syntax.specs.Statements.{unknown, zero_of, other_type, ill_typed, ill_typed_condition, ill_typed_switch, ill_typed_return, component, is_unknown, unknown_statement, argument_of, arguments_of, copied, converted, is_sound_call, call_into, is_getchar, called_into, by_one, by_two, by_three, assigned, builtin_of_one, called, stored, named_statement, condition_of, case_of, switch_of, return_of, statement_of};

use crate::literals::value_of;
use crate::named::Named;
use crate::scope::Scope;
use crate::table::capped;
use gimple_grammar::{Binary, CaseLabel, Choice, Condition, Form, Operand as Written, Right, Tail};
use gimple_ir::{
    Arg, Args, BinaryOp, Case, List, NoMemory, Operand, ResultType, ScalarType, Statement, UnaryOp,
    Value,
};
use gimple_tokens::Identifier;
use std::alloc::Global;

fn unknown() -> Operand
    ensures { result ≡ unknown }
{
    Operand::Component(0xffff_ffff)
}

fn zero_of(ty: ScalarType) -> Operand
    ensures { result ≡ zero_of ty }
{
    Operand::Literal(Value { ty, num: 0 })
}

fn other_type(ty: ScalarType) -> ScalarType
    ensures { result ≡ other_type ty }
{
    match ty {
        ScalarType::Int => ScalarType::LongInt,
        _ => ScalarType::Int,
    }
}

fn ill_typed() -> Statement
    ensures { result ≡ ill_typed }
{
    Statement::Putchar(zero_of(ScalarType::LongInt))
}

fn ill_typed_condition(met: u32, missed: u32) -> Statement
    ensures { result ≡ ill_typed_condition met missed }
{
    Statement::Cond {
        op: BinaryOp::Add,
        left: zero_of(ScalarType::Int),
        right: zero_of(ScalarType::Int),
        yes: met,
        no: missed,
    }
}

fn ill_typed_switch(mut cases: Vec<Case>, otherwise: u32) -> Result<Statement, NoMemory>
    ensures { IfOk result (λ s. s ≡ ill_typed_switch cases.items otherwise) }
{
    cases.push(Case {
        value: Value {
            ty: ScalarType::LongInt,
            num: 0,
        },
        label: otherwise,
    })?;
    Ok(Statement::Switch {
        on: zero_of(ScalarType::Int),
        cases: List::from_vec(cases),
        otherwise,
    })
}

fn ill_typed_return(returned: ResultType) -> Statement
    ensures { result ≡ ill_typed_return returned }
{
    match returned {
        ResultType::Void => Statement::Return(zero_of(ScalarType::Int)),
        ResultType::Scalar(ty) => Statement::Return(zero_of(other_type(ty))),
    }
}

fn unknown_statement() -> Statement
    ensures { result ≡ unknown_statement }
{
    Statement::Putchar(unknown())
}

fn component(operand: Operand) -> u32
    ensures { result ≡ component operand }
{
    match operand {
        Operand::Component(component) => component,
        Operand::Literal(_) => 0xffff_ffff,
    }
}

fn is_unknown(named: Named) -> bool
    ensures { result ≡ is_unknown named }
{
    match named {
        Named::Unknown => true,
        _ => false,
    }
}

fn argument_of(named: Named) -> Arg
    ensures { result ≡ argument_of named }
{
    match named {
        Named::Unknown => Arg::One(unknown()),
        Named::Whole(variable) => Arg::Whole(variable),
        Named::Single(operand) => Arg::One(operand),
    }
}

fn arguments_of(
    alloc: Global,
    scope: &Scope<'_, '_, '_, '_>,
    args: &[Written],
) -> Result<Args, NoMemory>
    ensures { IfOk result (λ found. found ≡ arguments_of scope.now args.now) }
{
    let mut found = Args::new(alloc);
    for argument in args {
        found.push(argument_of(scope.operand(argument)))?;
    }
    Ok(found)
}

fn copied(to: Named, from: Named) -> Statement
    ensures { result ≡ copied to from }
{
    match (to, from) {
        (Named::Unknown, _) | (_, Named::Unknown) => unknown_statement(),
        (Named::Whole(to), Named::Whole(from)) => Statement::CopyStruct { to, from },
        (Named::Single(to), Named::Single(from)) => Statement::Copy {
            to: component(to),
            from,
        },
        _ => ill_typed(),
    }
}

fn unary(to: Named, op: UnaryOp, from: Named) -> Statement
    ensures { result ≡ by_two to from unknown_statement ill_typed (λ x a. UnaryOf (component x) op a) }
{
    match (to, from) {
        (Named::Unknown, _) | (_, Named::Unknown) => unknown_statement(),
        (Named::Single(to), Named::Single(from)) => Statement::Unary {
            to: component(to),
            op,
            from,
        },
        _ => ill_typed(),
    }
}

fn converted(scope: &Scope<'_, '_, '_, '_>, to: Named, ty: ScalarType, from: Named) -> Statement
    ensures { result ≡ by_two to from unknown_statement ill_typed (converted scope.now ty) }
{
    match (to, from) {
        (Named::Unknown, _) | (_, Named::Unknown) => unknown_statement(),
        (Named::Single(to), Named::Single(from)) => {
            if scope.has_type(ty, to) {
                Statement::Convert {
                    to: component(to),
                    from,
                }
            } else {
                ill_typed()
            }
        }
        _ => ill_typed(),
    }
}

fn binary(to: Named, op: BinaryOp, left: Named, right: Named) -> Statement
    ensures { result ≡ by_three to left right unknown_statement ill_typed (λ x l r. BinaryOf (component x) op l r) }
{
    match (to, left, right) {
        (Named::Unknown, _, _) | (_, Named::Unknown, _) | (_, _, Named::Unknown) =>
            unknown_statement(),
        (Named::Single(to), Named::Single(left), Named::Single(right)) => Statement::Binary {
            to: component(to),
            op,
            left,
            right,
        },
        _ => ill_typed(),
    }
}

fn load(to: Named, array: Named, index: Named) -> Statement
    ensures { result ≡ by_three to array index unknown_statement ill_typed (λ x a i. LoadOf (component x) (component a) i) }
{
    match (to, array, index) {
        (Named::Unknown, _, _) | (_, Named::Unknown, _) | (_, _, Named::Unknown) =>
            unknown_statement(),
        (Named::Single(to), Named::Single(array), Named::Single(index)) => Statement::Load {
            to: component(to),
            array: component(array),
            index,
        },
        _ => ill_typed(),
    }
}

fn is_sound_call(scope: &Scope<'_, '_, '_, '_>, function: u32, args: &[Written]) -> bool
    ensures { result ≡ is_sound_call scope.now function args.now }
{
    counts(scope, function, args.len()) && !any_unknown(scope, args)
}

fn counts(scope: &Scope<'_, '_, '_, '_>, function: u32, args: usize) -> bool
    ensures { result ≡ option_map_or (nat_eq args) (at_number scope.now.arities function) false }
{
    match scope.arity(function) {
        Some(arity) => args == arity as usize,
        None => false,
    }
}

fn any_unknown(scope: &Scope<'_, '_, '_, '_>, args: &[Written]) -> bool
    ensures { result ≡ list_any (λ a. is_unknown (operand_named scope.now a)) args.now }
{
    args.iter().any(|a| is_unknown(scope.operand(a)))
}

fn call(
    alloc: Global,
    scope: &Scope<'_, '_, '_, '_>,
    to: Option<u32>,
    function: u32,
    args: &[Written],
) -> Result<Statement, NoMemory>
    ensures { IfOk result (λ s. s ≡ CallOf to function (arguments_of scope.now args.now)) }
{
    let args = arguments_of(alloc, scope, args)?;
    Ok(Statement::Call { to, function, args })
}

fn call_into(
    alloc: Global,
    scope: &Scope<'_, '_, '_, '_>,
    to: Named,
    function: u32,
    args: &[Written],
) -> Result<Statement, NoMemory>
    ensures { IfOk result (λ s. s ≡ call_into scope.now to function args.now) }
{
    match to {
        Named::Unknown => call(alloc, scope, Some(0xffff_ffff), function, args),
        Named::Whole(_) => {
            if is_sound_call(scope, function, args) {
                Ok(ill_typed())
            } else {
                call(alloc, scope, None, function, args)
            }
        }
        Named::Single(x) => call(alloc, scope, Some(component(x)), function, args),
    }
}

fn is_getchar(name: &Identifier, args: &[Written]) -> bool
    ensures { result ≡ is_getchar name.now args.now }
{
    name.as_slice() == b"__builtin_getchar".as_slice() && args.len() == 0
}

fn getchar_into(to: Named) -> Statement
    ensures { result ≡ by_one to unknown_statement ill_typed (λ x. GetcharOf (Some (component x))) }
{
    match to {
        Named::Unknown => unknown_statement(),
        Named::Whole(_) => ill_typed(),
        Named::Single(x) => Statement::Getchar(Some(component(x))),
    }
}

fn called_into(
    alloc: Global,
    scope: &Scope<'_, '_, '_, '_>,
    to: Named,
    name: &Identifier,
    args: &[Written],
) -> Result<Statement, NoMemory>
    ensures { IfOk result (λ s. s ≡ called_into scope.now to name.now args.now) }
{
    if is_getchar(name, args) {
        return Ok(getchar_into(to));
    }
    call_into(alloc, scope, to, scope.function(name), args)
}

#[tactic(auto, unfolding(crate::specs::Statements::assigned))]
fn assigned(
    alloc: Global,
    scope: &Scope<'_, '_, '_, '_>,
    to: Named,
    right: &Right,
) -> Result<Statement, NoMemory>
    ensures { IfOk result (λ s. s ≡ assigned scope.now to right.now) }
{
    match right {
        Right::Value(a) => Ok(copied(to, scope.operand(a))),
        Right::Binary(b) => Ok(binary_of(scope, to, b)),
        Right::Negate(a) => Ok(unary(to, UnaryOp::Neg, scope.operand(a))),
        Right::Complement(a) => Ok(unary(to, UnaryOp::Not, scope.operand(a))),
        Right::Convert(ty, a) => Ok(converted(scope, to, *ty, scope.operand(a))),
        Right::Load(array, index) => Ok(load(to, scope.array(array), scope.operand(index))),
        Right::Call(name, args) => called_into(alloc, scope, to, name, args.as_slice()),
    }
}

fn binary_of(scope: &Scope<'_, '_, '_, '_>, to: Named, b: &Binary) -> Statement
    ensures { result ≡ by_three to (operand_named scope.now b.now.left) (operand_named scope.now b.now.right) unknown_statement ill_typed (λ x l r. BinaryOf (component x) b.now.op l r) }
{
    binary(to, b.op, scope.operand(&b.left), scope.operand(&b.right))
}

fn putchar(named: Named) -> Statement
    ensures { result ≡ by_one named unknown_statement ill_typed PutcharOf }
{
    match named {
        Named::Unknown => unknown_statement(),
        Named::Whole(_) => ill_typed(),
        Named::Single(a) => Statement::Putchar(a),
    }
}

fn exit(named: Named) -> Statement
    ensures { result ≡ by_one named unknown_statement ill_typed ExitOf }
{
    match named {
        Named::Unknown => unknown_statement(),
        Named::Whole(_) => ill_typed(),
        Named::Single(a) => Statement::Exit(a),
    }
}

fn builtin_of_one(
    alloc: Global,
    scope: &Scope<'_, '_, '_, '_>,
    name: &Identifier,
    args: &[Written],
    a: &Written,
) -> Result<Statement, NoMemory>
    requires { args.now ≡ a.now ∷ [] }
    ensures { IfOk result (λ s. s ≡ builtin_of_one scope.now name.now a.now) }
{
    if name.as_slice() == b"__builtin_putchar".as_slice() {
        Ok(putchar(scope.operand(a)))
    } else if name.as_slice() == b"__builtin_exit".as_slice() {
        Ok(exit(scope.operand(a)))
    } else {
        call(alloc, scope, None, scope.function(name), args)
    }
}

fn called(
    alloc: Global,
    scope: &Scope<'_, '_, '_, '_>,
    name: &Identifier,
    args: &[Written],
) -> Result<Statement, NoMemory>
    ensures { IfOk result (λ s. s ≡ called scope.now name.now args.now) }
{
    match args {
        [] if is_getchar(name, args) => Ok(Statement::Getchar(None)),
        [a] => builtin_of_one(alloc, scope, name, args, a),
        _ => call(alloc, scope, None, scope.function(name), args),
    }
}

fn stored(array: Named, index: Named, from: Named) -> Statement
    ensures { result ≡ by_three array index from unknown_statement ill_typed (λ a i b. StoreOf (component a) i b) }
{
    match (array, index, from) {
        (Named::Unknown, _, _) | (_, Named::Unknown, _) | (_, _, Named::Unknown) =>
            unknown_statement(),
        (Named::Single(array), Named::Single(index), Named::Single(from)) => Statement::Store {
            array: component(array),
            index,
            from,
        },
        _ => ill_typed(),
    }
}

#[tactic(auto, unfolding(crate::specs::Statements::named_statement))]
fn named_statement(
    alloc: Global,
    scope: &Scope<'_, '_, '_, '_>,
    labels: usize,
    name: &Identifier,
    tail: &Tail,
) -> Result<Statement, NoMemory>
    ensures { IfOk result (λ s. s ≡ named_statement scope.now labels name.now tail.now) }
{
    match tail {
        Tail::Label => Ok(Statement::Label(capped(labels))),
        Tail::Call(args) => called(alloc, scope, name, args.as_slice()),
        Tail::Store(index, from) => Ok(stored(
            scope.array(name),
            scope.operand(index),
            scope.operand(from),
        )),
        Tail::Assign(right) => assigned(alloc, scope, scope.variable(name, None), right),
        Tail::AssignField(field, right) => {
            assigned(alloc, scope, scope.variable(name, Some(field)), right)
        }
    }
}

fn compared(op: BinaryOp, left: Named, right: Named, met: u32, missed: u32) -> Statement
    ensures { result ≡ by_two left right (CondOf op unknown unknown met missed) (ill_typed_condition met missed) (λ l r. CondOf op l r met missed) }
{
    match (left, right) {
        (Named::Unknown, _) | (_, Named::Unknown) => Statement::Cond {
            op,
            left: unknown(),
            right: unknown(),
            yes: met,
            no: missed,
        },
        (Named::Single(left), Named::Single(right)) => Statement::Cond {
            op,
            left,
            right,
            yes: met,
            no: missed,
        },
        _ => ill_typed_condition(met, missed),
    }
}

fn condition_of(scope: &Scope<'_, '_, '_, '_>, c: &Condition) -> Statement
    ensures { result ≡ condition_of scope.now c.now }
{
    let met = scope.label(&c.met);
    let missed = scope.label(&c.missed);
    compared(
        c.op,
        scope.operand(&c.left),
        scope.operand(&c.right),
        met,
        missed,
    )
}

fn case_of(scope: &Scope<'_, '_, '_, '_>, c: &CaseLabel) -> Case
    ensures { result ≡ case_of scope.now c.now }
{
    Case {
        value: value_of(c.value),
        label: scope.label(&c.label),
    }
}

fn cases_of(
    alloc: Global,
    scope: &Scope<'_, '_, '_, '_>,
    cases: &[CaseLabel],
) -> Result<Vec<Case>, NoMemory>
    ensures { IfOk result (λ found. found.items ≡ map (case_of scope.now) cases.now) }
{
    let mut found = Vec::new(alloc);
    for case in cases {
        found.push(case_of(scope, case))?;
    }
    Ok(found)
}

fn switched(on: Named, cases: Vec<Case>, otherwise: u32) -> Result<Statement, NoMemory>
    ensures { IfOk result (λ s. s ≡ by_one on (SwitchOf unknown cases.items otherwise) (ill_typed_switch cases.items otherwise) (λ a. SwitchOf a cases.items otherwise)) }
{
    match on {
        Named::Unknown => Ok(Statement::Switch {
            on: unknown(),
            cases: List::from_vec(cases),
            otherwise,
        }),
        Named::Whole(_) => ill_typed_switch(cases, otherwise),
        Named::Single(on) => Ok(Statement::Switch {
            on,
            cases: List::from_vec(cases),
            otherwise,
        }),
    }
}

fn switch_of(
    alloc: Global,
    scope: &Scope<'_, '_, '_, '_>,
    c: &Choice,
) -> Result<Statement, NoMemory>
    ensures { IfOk result (λ s. s ≡ switch_of scope.now c.now) }
{
    let cases = cases_of(alloc, scope, c.cases.as_slice())?;
    switched(scope.operand(&c.on), cases, scope.label(&c.otherwise))
}

fn given_back(returned: ResultType, named: Named) -> Statement
    ensures { result ≡ by_one named (ReturnOf unknown) (ill_typed_return returned) ReturnOf }
{
    match named {
        Named::Unknown => Statement::Return(unknown()),
        Named::Whole(_) => ill_typed_return(returned),
        Named::Single(a) => Statement::Return(a),
    }
}

fn return_of(scope: &Scope<'_, '_, '_, '_>, returned: ResultType, a: &Option<Written>) -> Statement
    ensures { result ≡ return_of scope.now returned a.now }
{
    match a {
        None => Statement::ReturnVoid,
        Some(a) => given_back(returned, scope.operand(a)),
    }
}

/// The statement of a function with this result, after so many labels.
#[tactic(auto, unfolding(crate::specs::Statements::statement_of))]
pub fn statement_of(
    alloc: Global,
    scope: &Scope<'_, '_, '_, '_>,
    returned: ResultType,
    labels: usize,
    form: &Form,
) -> Result<Statement, NoMemory>
    ensures { IfOk result (λ s. s ≡ statement_of scope.now returned labels form.now) }
{
    match form {
        Form::Empty => Ok(Statement::Nop),
        Form::Goto(label) => Ok(Statement::Goto(scope.label(label))),
        Form::If(condition) => Ok(condition_of(scope, condition)),
        Form::Switch(choice) => switch_of(alloc, scope, choice),
        Form::Return(a) => Ok(return_of(scope, returned, a)),
        Form::Named(name, tail) => named_statement(alloc, scope, labels, name, tail),
    }
}
