//! Modules of generated functions.
ghost use Rattle.std.specs.Prelude.{◌≡◌, ◌+◌, ◌*◌, ◌^◌, ◌<◌, ◌≤◌, ◌++◌, map, All, IfOk, OnOk, length, max};
ghost use Rattle.std.specs.Int.{div_ceil};
ghost use Rattle.gimple_ir.specs.Programs.{IsChecked};
ghost use Rattle.workload_gen.specs.Functions.{declaration};
ghost use Rattle.workload_gen.specs.Modules.{definitions_from, functions_of, main_in, module_of, modules_of, own_choices, place_in};
ghost use Rattle.workload_gen.specs.Places.{AreForward};

use crate::choices::{Choice, choices};
use crate::draws::Draws;
use crate::functions::{declaration, definition, main_function};
use crate::places::Places;
use gimple_ir::{Function, List, Module, NoMemory};
use std::alloc::Global;

/// The modules of so many functions that are drawn from the seed.
///
/// Function `fI` stands in module I / 50, and `main` last in module 0, which is there for no functions too. Up to 22,580
/// functions each module is checked; from there on `main` is longer than the bound of a function's code.
pub fn generate(alloc: Global, seed: u64, count: u32) -> Result<List<Module>, NoMemory>
    ensures modules { IfOk result (λ modules. modules ≡ modules_of seed count) }
    // `main` stays within the bound of code for so many functions.
    ensures checked { IfOk result (λ modules. count ≤ 22580 → All IsChecked modules) }
    ensures many { IfOk result (λ modules. length modules ≡ max 1 (div_ceil count 50)) }
{
    let mut draws = Draws { state: seed };
    let choices = choices(alloc, &mut draws, count)?;
    let many = count.div_ceil(50).max(1);
    let mut modules = Vec::with_capacity(alloc, many as usize)?;
    for number in 0..many {
        modules.push(module_of(alloc, choices.as_slice(), draws, number)?)?;
    }
    Ok(List::from_vec(modules))
}

/// One module; `main` is drawn next.
#[tactic(auto, unfolding(crate::specs::Modules::module_of))]
fn module_of(
    alloc: Global,
    choices: &[Choice],
    draws: Draws,
    module_number: u32,
) -> Result<Module, NoMemory>
    requires numbered { length choices.now < 2 ^ 32 }
    requires forward { AreForward choices.now }
    requires some { 50 * module_number ≤ length choices.now }
    ensures { IfOk result (λ module1. module1 ≡ module_of choices.now draws.state module_number) }
{
    Ok(Module {
        structs: List::new(alloc),
        arrays: List::new(alloc),
        functions: functions_of(alloc, choices, draws, module_number)?,
    })
}

/// The functions of one module: declarations, then definitions, then `main`.
fn functions_of(
    alloc: Global,
    choices: &[Choice],
    draws: Draws,
    module_number: u32,
) -> Result<List<Function>, NoMemory>
    requires numbered { length choices.now < 2 ^ 32 }
    requires forward { AreForward choices.now }
    requires some { 50 * module_number ≤ length choices.now }
    ensures { IfOk result (λ functions. functions ≡ functions_of choices.now draws.state module_number) }
{
    let places = Places::new(alloc, choices, module_number)?;
    let own = places.own();
    let mut functions = Vec::with_capacity(alloc, places.declared.len() + own.len() + 1)?;
    push_declarations(alloc, &mut functions, places.declared.as_slice())?;
    push_definitions(alloc, &mut functions, &places)?;
    push_main(alloc, &mut functions, &places, draws)?;
    Ok(List::from_vec(functions))
}

fn push_declarations(
    alloc: Global,
    functions: &mut Vec<Function>,
    numbers: &[u32],
) -> Result<(), NoMemory>
    ensures { OnOk result (functions.new.items ≡ functions.old.items ++ map declaration numbers.now) }
{
    for number in numbers {
        functions.push(declaration(alloc, *number)?)?;
    }
    Ok(())
}

fn push_definitions(
    alloc: Global,
    functions: &mut Vec<Function>,
    places: &Places<'_>,
) -> Result<(), NoMemory>
    ensures { OnOk result (functions.new.items ≡ functions.old.items ++ definitions_from (place_in places.now.choices.now places.now.module_number) (50 * places.now.module_number) (own_choices places.now.choices.now places.now.module_number)) }
{
    let mut number = 50 * places.module_number;
    for choice in places.own() {
        functions.push(definition(alloc, places, number, *choice)?)?;
        number += 1;
    }
    Ok(())
}

/// Appends `main` if the module is the first.
#[tactic(auto, unfolding(crate::specs::Modules::main_in))]
fn push_main(
    alloc: Global,
    functions: &mut Vec<Function>,
    places: &Places<'_>,
    mut draws: Draws,
) -> Result<(), NoMemory>
    ensures { OnOk result (functions.new.items ≡ functions.old.items ++ main_in places.now.choices.now draws.state places.now.module_number) }
{
    if places.module_number == 0 {
        functions.push(main_function(alloc, places, &mut draws)?)?;
    }
    Ok(())
}
