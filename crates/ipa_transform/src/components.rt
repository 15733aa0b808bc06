//! Whole structs, component by component, and the argument components of a call.
ghost use Rattle.std.specs.Prelude.{◌≡◌, ◌++◌, ◌+◌, ◌≤◌, IfOk, OnOk};
ghost use Rattle.std.specs.List.{flat_map};
ghost use Rattle.gimple_meaning.specs.Source.{components_from, pairs_from};
ghost use Rattle.ipa_transform.specs.Versioned.{operands_of, struct_pairs, at_place, picked};

use crate::layout::Layout;
use gimple_ir::{Arg, Args, List, NoMemory, Operand, Pair};
use std::alloc::Global;

fn push_components(operands: &mut Vec<Operand>, first: u32, count: u32) -> Result<(), NoMemory>
    requires { first + count ≤ 2048 }
    ensures { OnOk result (operands.new.items ≡ operands.old.items ++ components_from first count) }
{
    for field in 0..count {
        operands.push(Operand::Component(first + field))?;
    }
    Ok(())
}

fn push_argument(
    operands: &mut Vec<Operand>,
    layout: &Layout,
    argument: Arg,
) -> Result<(), NoMemory>
    ensures { OnOk result (operands.new.items ≡ operands.old.items ++ operands_of layout.now.variables argument) }
{
    match argument {
        Arg::One(operand) => {
            operands.push(operand)?;
            Ok(())
        }
        Arg::Whole(variable) => {
            push_components(operands, layout.first(variable), layout.fields(variable))
        }
    }
}

/// The argument components of the arguments.
fn operands(alloc: Global, layout: &Layout, args: &Args) -> Result<List<Operand>, NoMemory>
    ensures { IfOk result (λ operands. operands ≡ flat_map (operands_of layout.now.variables) args.now) }
{
    let mut operands = Vec::new(alloc);
    let items = args.as_slice();
    for argument in items {
        push_argument(&mut operands, layout, *argument)?;
    }
    Ok(List::from_vec(operands))
}

/// Adds the operand at the place, if there is one.
fn push_at(kept: &mut Vec<Operand>, operands: &List<Operand>, place: u32) -> Result<(), NoMemory>
    ensures { OnOk result (kept.new.items ≡ kept.old.items ++ at_place operands.now place) }
{
    let place = place as usize;
    if place < operands.len() {
        kept.push(*operands.get(place))?;
    }
    Ok(())
}

/// Those of the operands that stand at the places.
fn picked(
    alloc: Global,
    operands: &List<Operand>,
    places: &[u32],
) -> Result<List<Operand>, NoMemory>
    ensures { IfOk result (λ kept. kept ≡ picked operands.now places.now) }
{
    let mut kept = Vec::new(alloc);
    for place in places {
        push_at(&mut kept, operands, *place)?;
    }
    Ok(List::from_vec(kept))
}

/// The argument components that a call passes.
pub fn passed(
    alloc: Global,
    layout: &Layout,
    args: &Args,
    places: &[u32],
) -> Result<List<Operand>, NoMemory>
    ensures { IfOk result (λ kept. kept ≡ picked (flat_map (operands_of layout.now.variables) args.now) places.now) }
{
    let operands = operands(alloc, layout, args)?;
    picked(alloc, &operands, places)
}

fn pairs(alloc: Global, to: u32, from: u32, count: u32) -> Result<List<Pair>, NoMemory>
    requires targets { to + count ≤ 2048 }
    requires sources { from + count ≤ 2048 }
    ensures { IfOk result (λ pairs. pairs ≡ pairs_from to from count) }
{
    let mut pairs = Vec::new(alloc);
    for field in 0..count {
        pairs.push(Pair {
            to: to + field,
            from: Operand::Component(from + field),
        })?;
    }
    Ok(List::from_vec(pairs))
}

/// The pairs of a struct copy.
pub fn struct_pairs(
    alloc: Global,
    layout: &Layout,
    to: u32,
    from: u32,
) -> Result<List<Pair>, NoMemory>
    ensures { IfOk result (λ pairs. pairs ≡ struct_pairs layout.now.variables to from) }
{
    let count = layout.fields(from);
    pairs(alloc, layout.first(to), layout.first(from), count)
}
