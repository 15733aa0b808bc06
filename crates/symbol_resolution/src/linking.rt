//! Summaries and bodies with the numbers of the merged program.
ghost use Rattle.std.specs.Prelude.{◌≡◌, ℕ, IfOk, All, Contains, length, map, filter, nat_lt};
ghost use Rattle.std.specs.List.Sorted.{IsStrictlyIncreasing};
ghost use Rattle.symbol_resolution.specs.Numbers.{array_number as number_of_array};
ghost use Rattle.symbol_resolution.specs.Linking.{linked_edge, linked_arrays, linked_summary, linked_statement, linked_function};

use crate::groups::NameGroups;
use crate::numbers::{Numbered, array_number, function_number};
use gimple_ir::{
    Array, Edge, Function, List, Module, Name, NoMemory, Statement, Summary, Variable,
};
use std::alloc::Global;

// ---- summaries

fn linked_edges(
    alloc: Global,
    functions: &NameGroups<'_, Numbered>,
    object: usize,
    source: &Module,
    edges: &[Edge],
) -> Result<List<Edge>, NoMemory>
    ensures { IfOk result (λ linked. linked ≡ map (linked_edge functions.now object source.now) edges.now) }
{
    let mut linked: List<Edge> = List::new(alloc);
    for edge in edges {
        linked.push(Edge {
            statement: edge.statement,
            callee: function_number(functions, object, source, edge.callee),
            assigns: edge.assigns,
            args: edge.args.copy()?,
        })?;
    }
    Ok(linked)
}

/// The numbers of the arrays that are named, of which there are so many, as often as they are named.
fn array_numbers(
    alloc: Global,
    arrays: &NameGroups<'_, Numbered>,
    object: usize,
    source: &Module,
    named: &[u32],
) -> Result<Vec<u32>, NoMemory>
    ensures { IfOk result (λ numbers. numbers.items ≡ filter (λ n. nat_lt n (length arrays.now)) (map (number_of_array arrays.now object source.now) named.now)) }
{
    let count = arrays.len();
    let mut numbers: Vec<u32> = Vec::new(alloc);
    for place in named {
        let number = array_number(arrays, object, source, *place);
        if number as usize >= count {
            continue;
        }
        numbers.push(number)?;
    }
    Ok(numbers)
}

/// The numbers of the list, ascending, each once.
fn ascending(numbers: Vec<u32>) -> Vec<u32>
    ensures ascends { IsStrictlyIncreasing result.items }
    ensures keeps { (x : ℕ) → Contains numbers.items x → Contains result.items x }
    ensures adds_none { (x : ℕ) → Contains result.items x → Contains numbers.items x }
{
    let mut numbers = numbers;
    numbers.sort_unstable();
    numbers.dedup();
    numbers
}

fn linked_arrays(
    alloc: Global,
    arrays: &NameGroups<'_, Numbered>,
    object: usize,
    source: &Module,
    named: &[u32],
) -> Result<List<u32>, NoMemory>
    ensures { IfOk result (λ linked. linked ≡ linked_arrays arrays.now object source.now named.now) }
{
    let numbers = array_numbers(alloc, arrays, object, source, named)?;
    Ok(List::from_vec(ascending(numbers)))
}

/// A summary of a function of an object.
pub fn linked_summary(
    alloc: Global,
    functions: &NameGroups<'_, Numbered>,
    arrays: &NameGroups<'_, Numbered>,
    object: usize,
    source: &Module,
    summary: &Summary,
) -> Result<Summary, NoMemory>
    ensures { IfOk result (λ linked. linked ≡ linked_summary functions.now arrays.now object source.now summary.now) }
{
    Ok(Summary {
        code_bound: summary.code_bound,
        params: summary.params.copy()?,
        arrays: linked_arrays(alloc, arrays, object, source, summary.arrays.as_slice())?,
        edges: linked_edges(alloc, functions, object, source, summary.edges.as_slice())?,
    })
}

// ---- bodies

fn linked_statement(
    functions: &NameGroups<'_, Numbered>,
    arrays: &NameGroups<'_, Numbered>,
    object: usize,
    source: &Module,
    statement: &Statement,
) -> Result<Statement, NoMemory>
    ensures { IfOk result (λ linked. linked ≡ linked_statement functions.now arrays.now object source.now statement.now) }
{
    match statement {
        Statement::Load { to, array, index } => Ok(Statement::Load {
            to: *to,
            array: array_number(arrays, object, source, *array),
            index: *index,
        }),
        Statement::Store { array, index, from } => Ok(Statement::Store {
            array: array_number(arrays, object, source, *array),
            index: *index,
            from: *from,
        }),
        Statement::Call { to, function, args } => Ok(Statement::Call {
            to: *to,
            function: function_number(functions, object, source, *function),
            args: args.copy()?,
        }),
        Statement::Nop => Ok(Statement::Nop),
        Statement::Label(label) => Ok(Statement::Label(*label)),
        Statement::Goto(label) => Ok(Statement::Goto(*label)),
        Statement::Cond {
            op,
            left,
            right,
            yes,
            no,
        } => Ok(Statement::Cond {
            op: *op,
            left: *left,
            right: *right,
            yes: *yes,
            no: *no,
        }),
        Statement::Switch {
            on,
            cases,
            otherwise,
        } => Ok(Statement::Switch {
            on: *on,
            cases: cases.copy()?,
            otherwise: *otherwise,
        }),
        Statement::ReturnVoid => Ok(Statement::ReturnVoid),
        Statement::Return(from) => Ok(Statement::Return(*from)),
        Statement::Copy { to, from } => Ok(Statement::Copy {
            to: *to,
            from: *from,
        }),
        Statement::Unary { to, op, from } => Ok(Statement::Unary {
            to: *to,
            op: *op,
            from: *from,
        }),
        Statement::Convert { to, from } => Ok(Statement::Convert {
            to: *to,
            from: *from,
        }),
        Statement::Binary {
            to,
            op,
            left,
            right,
        } => Ok(Statement::Binary {
            to: *to,
            op: *op,
            left: *left,
            right: *right,
        }),
        Statement::CopyStruct { to, from } => Ok(Statement::CopyStruct {
            to: *to,
            from: *from,
        }),
        Statement::Putchar(from) => Ok(Statement::Putchar(*from)),
        Statement::Getchar(to) => Ok(Statement::Getchar(*to)),
        Statement::Exit(from) => Ok(Statement::Exit(*from)),
    }
}

fn linked_body(
    alloc: Global,
    functions: &NameGroups<'_, Numbered>,
    arrays: &NameGroups<'_, Numbered>,
    object: usize,
    source: &Module,
    body: &[Statement],
) -> Result<List<Statement>, NoMemory>
    ensures { IfOk result (λ linked. linked ≡ map (linked_statement functions.now arrays.now object source.now) body.now) }
{
    let mut linked: List<Statement> = List::new(alloc);
    for statement in body {
        linked.push(linked_statement(functions, arrays, object, source, statement)?)?;
    }
    Ok(linked)
}

fn variables(alloc: Global, all: &[Variable]) -> Result<List<Variable>, NoMemory>
    ensures { IfOk result (λ copied. copied ≡ all.now) }
{
    let mut copied: List<Variable> = List::new(alloc);
    for variable in all {
        copied.push(Variable {
            name: variable.name.copy()?,
            ty: variable.ty,
            types: variable.types.copy()?,
        })?;
    }
    Ok(copied)
}

fn names(alloc: Global, all: &[Name]) -> Result<List<Name>, NoMemory>
    ensures { IfOk result (λ copied. copied ≡ all.now) }
{
    let mut copied: List<Name> = List::new(alloc);
    for name in all {
        copied.push(name.copy()?)?;
    }
    Ok(copied)
}

/// A function of an object.
pub fn linked_function(
    alloc: Global,
    functions: &NameGroups<'_, Numbered>,
    arrays: &NameGroups<'_, Numbered>,
    object: usize,
    source: &Module,
    function: &Function,
) -> Result<Function, NoMemory>
    ensures { IfOk result (λ linked. linked ≡ linked_function functions.now arrays.now object source.now function.now) }
{
    Ok(Function {
        name: function.name.copy()?,
        linkage: function.linkage,
        result: function.result,
        parameters: function.parameters,
        variables: variables(alloc, function.variables.as_slice())?,
        labels: names(alloc, function.labels.as_slice())?,
        body: linked_body(
            alloc,
            functions,
            arrays,
            object,
            source,
            function.body.as_slice(),
        )?,
    })
}

// ---- arrays

/// An equal array.
pub fn array_copy(array: &Array) -> Result<Array, NoMemory>
    ensures { IfOk result (λ copied. copied ≡ array.now) }
{
    Ok(Array {
        name: array.name.copy()?,
        linkage: array.linkage,
        element: array.element,
        length: array.length,
        initial: array.initial.copy()?,
    })
}
