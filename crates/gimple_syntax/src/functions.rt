//! Functions with numbers in place of names.
ghost use Rattle.std.specs.Prelude.{◌≡◌, ◌≤◌, ◌++◌, IfOk, OnOk, map, length};
ghost use Rattle.std.specs.Option.{option_copied};
ghost use Rattle.gimple_syntax.specs.Places.{var_type, variable_of};
ghost use Rattle.gimple_syntax.specs.Statements.{label_name, label_names, labels_at, statements_from};
ghost use Rattle.gimple_syntax.specs.Items.{parameters_of, function_of};

use crate::items::{Items, arity, parameters_of};
use crate::lent::Lent;
use crate::scope::Scope;
use crate::statements::statement_of;
use gimple_grammar::{Declared, Form, FunctionText, Line, Tail, Type};
use gimple_ir::{
    Function, Linkage, List, Name, NoMemory, ResultType, Statement, VarType, Variable,
};
use gimple_tokens::Identifier;
use std::alloc::Global;

fn add_all<'b, 't>(
    into: &mut Vec<Lent<'b, Declared<'t>>>,
    more: &'b [Declared<'t>],
) -> Result<(), NoMemory>
    ensures { OnOk result (into.new.items ≡ into.old.items ++ more.now) }
{
    for declared in more {
        into.push(Lent::new(declared))?;
    }
    Ok(())
}

fn all_variables<'b, 't>(
    alloc: Global,
    parameters: &'b [Declared<'t>],
    locals: &'b [Declared<'t>],
) -> Result<Vec<Lent<'b, Declared<'t>>>, NoMemory>
    ensures { IfOk result (λ all. all.items ≡ parameters.now ++ locals.now) }
{
    let mut all = Vec::new(alloc);
    add_all(&mut all, parameters)?;
    add_all(&mut all, locals)?;
    Ok(all)
}

fn var_type(items: &Items<'_, '_>, ty: &Type) -> VarType
    ensures { result ≡ var_type items.now.structs ty.now }
{
    match ty {
        Type::Scalar(scalar) => VarType::Scalar(*scalar),
        Type::Struct(tag) => VarType::Struct(items.struct_number(tag)),
    }
}

fn variable_of(
    alloc: Global,
    items: &Items<'_, '_>,
    declared: &Declared,
) -> Result<Variable, NoMemory>
    ensures { IfOk result (λ v. v ≡ variable_of items.now.structs declared.now) }
{
    let name = declared.name.copy(alloc)?;
    let mut types = Vec::new(alloc);
    items.add_types(&mut types, &declared.ty)?;
    Ok(Variable {
        name,
        ty: var_type(items, &declared.ty),
        types: List::from_vec(types),
    })
}

fn variables_of(
    alloc: Global,
    items: &Items<'_, '_>,
    all: &[Lent<'_, Declared<'_>>],
) -> Result<List<Variable>, NoMemory>
    ensures { IfOk result (λ found. found ≡ map (variable_of items.now.structs) all.now) }
{
    let mut found = List::new(alloc);
    for declared in all {
        found.push(variable_of(alloc, items, declared.get())?)?;
    }
    Ok(found)
}

fn label_name<'b, 't>(form: &'b Form<'t>) -> Option<&'b Identifier<'t>>
    ensures { option_copied result ≡ label_name form.now }
{
    match form {
        Form::Named(name, Tail::Label) => Some(name),
        _ => None,
    }
}

fn label_names<'t>(alloc: Global, lines: &[Line<'t>]) -> Result<Vec<&'t [u8]>, NoMemory>
    ensures { IfOk result (λ found. map (λ name. name.now) found.items ≡ label_names lines.now) }
{
    let mut found = Vec::new(alloc);
    for line in lines {
        if let Some(name) = label_name(&line.form) {
            found.push(name.as_slice())?;
        }
    }
    Ok(found)
}

fn labels_of(alloc: Global, lines: &[Line]) -> Result<List<Name>, NoMemory>
    ensures { IfOk result (λ found. found ≡ label_names lines.now) }
{
    let mut found = List::new(alloc);
    for line in lines {
        if let Some(name) = label_name(&line.form) {
            found.push(name.copy(alloc)?)?;
        }
    }
    Ok(found)
}

/// How many labels the form is.
fn labels_in(form: &Form) -> usize
    ensures value { result ≡ length (labels_at form.now) }
    ensures bound { result ≤ 1 }
{
    match label_name(form) {
        Some(_) => 1,
        None => 0,
    }
}

fn statements_of(
    alloc: Global,
    scope: &Scope<'_, '_, '_, '_>,
    returned: ResultType,
    lines: &[Line],
) -> Result<List<Statement>, NoMemory>
    ensures { IfOk result (λ found. found ≡ statements_from scope.now returned 0 lines.now) }
{
    let mut found = Vec::with_capacity(alloc, lines.len())?;
    let mut labels = 0usize;
    for line in lines {
        found.push(statement_of(alloc, scope, returned, labels, &line.form)?)?;
        labels += labels_in(&line.form);
    }
    Ok(List::from_vec(found))
}

/// The function with this head and body. No variable has more than 8 components, so it is linear in the text's size.
#[tactic(auto, unfolding(crate::specs::Items::function_of))]
pub fn function_of<'b, 't>(
    alloc: Global,
    items: &Items<'_, 't>,
    linkage: Linkage,
    head: &'b FunctionText<'t>,
    locals: &'b [Declared<'t>],
    lines: &'b [Line<'t>],
) -> Result<Function, NoMemory>
    ensures { IfOk result (λ f. f ≡ function_of items.now (record { linkage = linkage; head = head.now; body = record { locals = locals.now; lines = lines.now } })) }
{
    let all = all_variables(alloc, parameters_of(&head.parameters), locals)?;
    let variables = variables_of(alloc, items, all.as_slice())?;
    let scope = Scope::new(alloc, items, all, label_names(alloc, lines)?)?;
    let body = statements_of(alloc, &scope, head.result, lines)?;
    Ok(Function {
        name: head.name.copy(alloc)?,
        linkage,
        result: head.result,
        parameters: arity(head),
        variables,
        labels: labels_of(alloc, lines)?,
        body,
    })
}
