//! The arrays that the statements of a body name.
ghost use Rattle.std.specs.Prelude.{◌≡◌, ◌++◌, ℕ, IfOk, OnOk, All, Contains};
ghost use Rattle.std.specs.List.Sorted.{IsStrictlyIncreasing};
ghost use Rattle.std.specs.List.{flat_map};
ghost use Rattle.func_summary.specs.Summaries.{arrays_in, arrays_of};
ghost use Rattle.func_summary.specs.Ready.{IsArrayOf};

use gimple_ir::{Function, List, Module, NoMemory, Statement};
use std::alloc::Global;

fn push_statement(named: &mut Vec<u32>, statement: &Statement) -> Result<(), NoMemory>
    ensures { OnOk result (named.new.items ≡ named.old.items ++ arrays_in statement.now) }
{
    match statement {
        Statement::Load { array, .. } | Statement::Store { array, .. } => {
            named.push(*array)?;
            Ok(())
        }
        _ => Ok(()),
    }
}

/// The arrays in the order in which they are named, as often as they are.
fn named(alloc: Global, body: &[Statement]) -> Result<Vec<u32>, NoMemory>
    ensures { IfOk result (λ named. named.items ≡ flat_map arrays_in body.now) }
{
    let mut named = Vec::new(alloc);
    for statement in body {
        push_statement(&mut named, statement)?;
    }
    Ok(named)
}

/// The numbers of the list, ascending, each once.
fn ascending(numbers: Vec<u32>) -> Vec<u32>
    ensures ascends { IsStrictlyIncreasing result.items }
    ensures keeps { (x : ℕ) → Contains numbers.items x → Contains result.items x }
    ensures adds_none { (x : ℕ) → Contains result.items x → Contains numbers.items x }
{
    let mut numbers = numbers;
    numbers.sort_unstable();
    numbers.dedup();
    numbers
}

/// The arrays that the function names, ascending, each once.
pub fn arrays(alloc: Global, source: &Module, function: &Function) -> Result<List<u32>, NoMemory>
    requires { All (IsArrayOf source.now) (flat_map arrays_in function.now.body) }
    ensures { IfOk result (λ arrays. arrays ≡ arrays_of source.now function.now) }
{
    let named = named(alloc, function.body.as_slice())?;
    Ok(List::from_vec(ascending(named)))
}
