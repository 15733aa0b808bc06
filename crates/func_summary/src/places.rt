//! The operand places of a body, and what they say of each parameter component.
ghost use Rattle.std.specs.Prelude.{◌≡◌, ◌++◌, ◌∷◌, [], ◌<◌, ◌^◌, ℕ, List, All, false, length, IfOk, OnOk};
ghost use Rattle.std.specs.List.{flat_map};
ghost use Rattle.func_summary.specs.Summaries.{operand_places, whole_places, argument_places, operands_of, places_of, params_of};
ghost use Rattle.func_summary.specs.Tables.{HasRoom, facts_more, facts_table};

use crate::layout::Layout;
use gimple_ir::{Arg, Args, NoMemory, Operand, ParamFacts, Statement};
use std::alloc::Global;

/// A place of a statement that names a component.
#[derive(Clone, Copy)]
pub struct Place {
    pub component: u32,
    /// Whether it is an argument of a call to a function, and none of a builtin.
    pub is_argument: bool,
}

fn push_operand(
    places: &mut Vec<Place>,
    is_argument: bool,
    operand: Operand,
) -> Result<(), NoMemory>
    ensures { OnOk result (places.new.items ≡ places.old.items ++ operand_places is_argument operand) }
{
    if let Operand::Component(component) = operand {
        places.push(Place {
            component,
            is_argument,
        })?;
    }
    Ok(())
}

fn push_operands(places: &mut Vec<Place>, left: Operand, right: Operand) -> Result<(), NoMemory>
    ensures { OnOk result (places.new.items ≡ places.old.items ++ (operand_places false left ++ operand_places false right)) }
{
    push_operand(places, false, left)?;
    push_operand(places, false, right)
}

fn push_whole(
    places: &mut Vec<Place>,
    layout: &Layout,
    is_argument: bool,
    variable: u32,
) -> Result<(), NoMemory>
    ensures { OnOk result (places.new.items ≡ places.old.items ++ whole_places layout.now.variables is_argument variable) }
{
    for field in 0..layout.fields(variable) {
        let component = layout.field(variable, field);
        places.push(Place {
            component,
            is_argument,
        })?;
    }
    Ok(())
}

fn push_argument(places: &mut Vec<Place>, layout: &Layout, argument: Arg) -> Result<(), NoMemory>
    ensures { OnOk result (places.new.items ≡ places.old.items ++ argument_places layout.now.variables argument) }
{
    match argument {
        Arg::One(operand) => push_operand(places, true, operand),
        Arg::Whole(variable) => push_whole(places, layout, true, variable),
    }
}

fn push_arguments(places: &mut Vec<Place>, layout: &Layout, args: &Args) -> Result<(), NoMemory>
    ensures { OnOk result (places.new.items ≡ places.old.items ++ flat_map (argument_places layout.now.variables) args.now) }
{
    let items = args.as_slice();
    for argument in items {
        push_argument(places, layout, *argument)?;
    }
    Ok(())
}

fn push_statement(
    places: &mut Vec<Place>,
    layout: &Layout,
    statement: &Statement,
) -> Result<(), NoMemory>
    ensures { OnOk result (places.new.items ≡ places.old.items ++ operands_of layout.now.variables statement.now) }
{
    match statement {
        Statement::Nop
        | Statement::Label(_)
        | Statement::Goto(_)
        | Statement::ReturnVoid
        | Statement::Getchar(_) => Ok(()),
        Statement::Switch { on: operand, .. }
        | Statement::Return(operand)
        | Statement::Copy { from: operand, .. }
        | Statement::Unary { from: operand, .. }
        | Statement::Convert { from: operand, .. }
        | Statement::Load { index: operand, .. }
        | Statement::Putchar(operand)
        | Statement::Exit(operand) => push_operand(places, false, *operand),
        Statement::Cond { left, right, .. } | Statement::Binary { left, right, .. } => {
            push_operands(places, *left, *right)
        }
        Statement::Store { index, from, .. } => push_operands(places, *index, *from),
        Statement::CopyStruct { from, .. } => push_whole(places, layout, false, *from),
        Statement::Call { args, .. } => push_arguments(places, layout, args),
    }
}

fn places(alloc: Global, layout: &Layout) -> Result<Vec<Place>, NoMemory>
    ensures { IfOk result (λ places. places.items ≡ places_of layout.now) }
{
    let mut places = Vec::new(alloc);
    let body = layout.function().body.as_slice();
    for statement in body {
        push_statement(&mut places, layout, statement)?;
    }
    Ok(places)
}

/// What one more place says of the component that it names.
fn with_place(facts: ParamFacts, place: Place) -> ParamFacts
    requires { HasRoom facts }
    ensures { result ≡ facts_more facts place }
{
    ParamFacts {
        weight: facts.weight + 1,
        used_here: facts.used_here || !place.is_argument,
    }
}

/// Counts one more place; the table has no row for what is no component of a parameter.
fn count_one(table: &mut Vec<ParamFacts>, place: Place)
    requires { All HasRoom table.old.items }
    ensures { (count : ℕ) (before : List Place) → table.old.items ≡ facts_table count before → table.new.items ≡ facts_table count (before ++ place ∷ []) }
{
    let component = place.component as usize;
    if component >= table.len() {
        return;
    }
    table[component] = with_place(table[component], place);
}

fn facts(alloc: Global, places: &[Place], parameters: usize) -> Result<Vec<ParamFacts>, NoMemory>
    requires { length places.now < 2 ^ 32 }
    ensures { IfOk result (λ facts. facts.items ≡ facts_table parameters places.now) }
{
    let unused = ParamFacts {
        weight: 0,
        used_here: false,
    };
    let mut facts = vec![in alloc; unused; parameters]?;
    for place in places {
        count_one(&mut facts, *place);
    }
    Ok(facts)
}

/// The weight of each parameter component, and whether it is used here.
pub fn params(alloc: Global, layout: &Layout) -> Result<Vec<ParamFacts>, NoMemory>
    requires { length (places_of layout.now) < 2 ^ 32 }
    ensures { IfOk result (λ params. params.items ≡ params_of layout.now) }
{
    let places = places(alloc, layout)?;
    facts(alloc, &places, layout.parameters() as usize)
}
