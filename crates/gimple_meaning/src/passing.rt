//! What a call hands over: the values of its arguments, and the components of the new frame.
ghost use Rattle.std.specs.Prelude.{◌≡◌, ◌++◌, ◌-◌, All, IfOk, OnOk, None, length, map, replicate};
ghost use Rattle.std.specs.List.{flat_map, list_all};
ghost use Rattle.gimple_ir.specs.CodeBound.{components_in, parameter_components};
ghost use Rattle.gimple_ir.specs.Programs.{IsArgument};
ghost use Rattle.gimple_meaning.specs.Acts.{value_at};
ghost use Rattle.gimple_meaning.specs.Held.{IsCell};
ghost use Rattle.gimple_meaning.specs.Moves.{passes};
ghost use Rattle.gimple_meaning.specs.Source.{can_pass, components_from, operands_of, taken};

use crate::cells::Cells;
use crate::layout::Layout;
use gimple_ir::{Arg, Args, NoMemory, Operand, Value};
use std::alloc::Global;

fn passes(cells: &Cells, arg: Arg) -> bool
    ensures { result ≡ passes cells.now arg }
{
    match arg {
        Arg::One(Operand::Component(component)) => cells.get(component as usize).is_some(),
        Arg::One(Operand::Literal(_)) | Arg::Whole(_) => true,
    }
}

fn all_pass(cells: &Cells, args: &[Arg]) -> bool
    ensures { result ≡ list_all (passes cells.now) args.now }
{
    args.iter().all(|arg| passes(cells, *arg))
}

/// Whether each argument that is an operand is set.
pub fn can_pass(cells: &Cells, args: &Args) -> bool
    ensures { result ≡ can_pass cells.now args.now }
{
    all_pass(cells, args.as_slice())
}

fn pass_whole(
    values: &mut Vec<Option<Value>>,
    cells: &Cells,
    first: usize,
    count: usize,
) -> Result<(), NoMemory>
    requires { All IsCell values.old.items }
    ensures ok { OnOk result (values.new.items ≡ values.old.items ++ map (value_at cells.now) (components_from first count)) }
    ensures well_formed { All IsCell values.new.items }
{
    for place in 0..count {
        let Some(component) = first.checked_add(place) else {
            return Err(NoMemory);
        };
        values.push(cells.get(component))?;
    }
    Ok(())
}

fn pass(
    values: &mut Vec<Option<Value>>,
    layout: &Layout,
    cells: &Cells,
    arg: Arg,
) -> Result<(), NoMemory>
    requires argument { IsArgument arg }
    requires values { All IsCell values.old.items }
    ensures ok { OnOk result (values.new.items ≡ values.old.items ++ map (value_at cells.now) (operands_of layout.now.variables arg)) }
    ensures well_formed { All IsCell values.new.items }
{
    match arg {
        Arg::One(operand) => {
            values.push(cells.read(operand))?;
            Ok(())
        }
        Arg::Whole(variable) => {
            let first = layout.first_component(variable);
            pass_whole(values, cells, first, layout.components_of(variable))
        }
    }
}

/// The values of the arguments, component by component.
pub fn passed(
    alloc: Global,
    layout: &Layout,
    cells: &Cells,
    args: &Args,
) -> Result<Vec<Option<Value>>, NoMemory>
    requires { All IsArgument args.now }
    ensures values { IfOk result (λ values. values.items ≡ map (value_at cells.now) (flat_map (operands_of layout.now.variables) args.now)) }
    ensures well_formed { IfOk result (λ values. All IsCell values.items) }
{
    let mut values = Vec::new(alloc);
    for arg in args.as_slice() {
        pass(&mut values, layout, cells, *arg)?;
    }
    Ok(values)
}

fn fill(values: &mut Vec<Option<Value>>, count: usize) -> Result<(), NoMemory>
    ensures { OnOk result (values.new.items ≡ values.old.items ++ replicate (count - length values.old.items) None) }
{
    if values.len() >= count {
        return Ok(());
    }
    values.resize(count, None)?;
    Ok(())
}

/// The components of a new frame of the function: the arguments, as far as it has parameters, and all else unset.
pub fn opened(layout: &Layout, values: Vec<Option<Value>>) -> Result<Cells, NoMemory>
    requires { All IsCell values.items }
    ensures { IfOk result (λ cells. cells ≡ taken 0 (parameter_components layout.now) values.items ++ replicate (components_in layout.now.variables - parameter_components layout.now) None) }
{
    let mut values = values;
    values.resize(layout.parameter_components(), None)?;
    fill(&mut values, layout.components())?;
    Ok(Cells::from_vec(values))
}
