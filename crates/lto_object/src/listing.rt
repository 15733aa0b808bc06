//! The symbols of a module: of its arrays and then of its functions, in order.
ghost use Rattle.std.specs.Prelude.{◌≡◌, ◌++◌, ◌<◌, ◌^◌, ℕ, length, nat_eq, IfOk, OnOk};
ghost use Rattle.std.specs.List.{flat_map, list_any};
ghost use Rattle.std.specs.List.Sorted.{IsNonDecreasing};
ghost use Rattle.func_summary.specs.Summaries.{arrays_in};
ghost use Rattle.lto_object.specs.Objects.{functions_in, named_arrays, named_functions, is_listed, array_symbols, function_symbols, symbols_of};

use crate::symbol::Symbol;
use gimple_ir::{Array, Function, Linkage, List, Module, NoMemory, Statement};
use std::alloc::Global;

// ---- what statements name

fn push_array(named: &mut Vec<u32>, statement: &Statement) -> Result<(), NoMemory>
    ensures { OnOk result (named.new.items ≡ named.old.items ++ arrays_in statement.now) }
{
    match statement {
        Statement::Load { array, .. } | Statement::Store { array, .. } => {
            named.push(*array)?;
            Ok(())
        }
        _ => Ok(()),
    }
}

fn push_function(named: &mut Vec<u32>, statement: &Statement) -> Result<(), NoMemory>
    ensures { OnOk result (named.new.items ≡ named.old.items ++ functions_in statement.now) }
{
    match statement {
        Statement::Call { function, .. } => {
            named.push(*function)?;
            Ok(())
        }
        _ => Ok(()),
    }
}

fn push_arrays(named: &mut Vec<u32>, body: &[Statement]) -> Result<(), NoMemory>
    ensures { OnOk result (named.new.items ≡ named.old.items ++ flat_map arrays_in body.now) }
{
    for statement in body {
        push_array(named, statement)?;
    }
    Ok(())
}

fn push_functions(named: &mut Vec<u32>, body: &[Statement]) -> Result<(), NoMemory>
    ensures { OnOk result (named.new.items ≡ named.old.items ++ flat_map functions_in body.now) }
{
    for statement in body {
        push_function(named, statement)?;
    }
    Ok(())
}

/// The arrays that statements name, as often as they do.
fn named_arrays(alloc: Global, functions: &[Function]) -> Result<Vec<u32>, NoMemory>
    ensures { IfOk result (λ named. named.items ≡ named_arrays functions.now) }
{
    let mut named = Vec::new(alloc);
    for function in functions {
        push_arrays(&mut named, function.body.as_slice())?;
    }
    Ok(named)
}

/// The functions that statements name, as often as they do.
fn named_functions(alloc: Global, functions: &[Function]) -> Result<Vec<u32>, NoMemory>
    ensures { IfOk result (λ named. named.items ≡ named_functions functions.now) }
{
    let mut named = Vec::new(alloc);
    for function in functions {
        push_functions(&mut named, function.body.as_slice())?;
    }
    Ok(named)
}

/// The numbers in ascending order, so that each is found quickly.
fn ascending(numbers: Vec<u32>) -> Vec<u32>
    ensures ascends { IsNonDecreasing result.items }
    ensures same { (x : ℕ) → list_any (nat_eq x) result.items ≡ list_any (nat_eq x) numbers.items }
{
    let mut numbers = numbers;
    numbers.sort_unstable();
    numbers
}

/// Whether the number stands among ascending ones.
fn is_among(numbers: &[u32], number: u32) -> bool
    requires { IsNonDecreasing numbers.now }
    ensures { result ≡ list_any (nat_eq number) numbers.now }
{
    numbers.binary_search(&number).is_ok()
}

// ---- the symbols

fn is_listed(linkage: Linkage, named: bool) -> bool
    ensures { result ≡ is_listed linkage named }
{
    match linkage {
        Linkage::Extern => named,
        Linkage::Strong | Linkage::Weak => true,
        Linkage::Static => false,
    }
}

/// The symbols of the arrays, of which some are named, in ascending order.
fn array_symbols(
    mut symbols: Vec<Symbol>,
    arrays: &[Array],
    named: &[u32],
) -> Result<Vec<Symbol>, NoMemory>
    requires few { length arrays.now < 2 ^ 32 }
    requires ascend { IsNonDecreasing named.now }
    ensures { IfOk result (λ all. all.items ≡ symbols.items ++ array_symbols named.now arrays.now) }
{
    for place in 0..arrays.len() {
        let array = &arrays[place];
        if !is_listed(array.linkage, is_among(named, place as u32)) {
            continue;
        }
        symbols.push(Symbol {
            name: array.name.copy()?,
            function: false,
            linkage: array.linkage,
            place: place as u32,
        })?;
    }
    Ok(symbols)
}

/// The symbols of the functions, of which some are named, in ascending order, after others.
fn function_symbols(
    mut symbols: Vec<Symbol>,
    functions: &[Function],
    named: &[u32],
) -> Result<Vec<Symbol>, NoMemory>
    requires few { length functions.now < 2 ^ 32 }
    requires ascend { IsNonDecreasing named.now }
    ensures { IfOk result (λ all. all.items ≡ symbols.items ++ function_symbols named.now functions.now) }
{
    for place in 0..functions.len() {
        let function = &functions[place];
        if !is_listed(function.linkage, is_among(named, place as u32)) {
            continue;
        }
        symbols.push(Symbol {
            name: function.name.copy()?,
            function: true,
            linkage: function.linkage,
            place: place as u32,
        })?;
    }
    Ok(symbols)
}

/// The symbols of a module.
pub fn symbols(alloc: Global, source: &Module) -> Result<List<Symbol>, NoMemory>
    requires arrays { length source.now.arrays < 2 ^ 32 }
    requires functions { length source.now.functions < 2 ^ 32 }
    ensures { IfOk result (λ symbols. symbols ≡ symbols_of source.now) }
{
    let functions = source.functions.as_slice();
    let named = ascending(named_arrays(alloc, functions)?);
    let called = ascending(named_functions(alloc, functions)?);
    let symbols = array_symbols(Vec::new(alloc), source.arrays.as_slice(), named.as_slice())?;
    let all = function_symbols(symbols, functions, called.as_slice())?;
    Ok(List::from_vec(all))
}
