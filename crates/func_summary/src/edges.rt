//! The calls of a body, with what each argument is.
ghost use Rattle.std.specs.Prelude.{◌≡◌, ◌++◌, ◌≤◌, ◌<◌, [], length, map, IfOk, OnOk, All};
ghost use Rattle.std.specs.List.{flat_map, range_with_len, cons_option};
ghost use Rattle.gimple_ir.specs.CodeBound.{components_in, components_of};
ghost use Rattle.func_summary.specs.Summaries.{component_argument, field_argument, edge_arguments, edge_of, edges_of};
ghost use Rattle.func_summary.specs.Ready.{IsArgumentIn, HasArgumentsIn};

use crate::jumps::Jumps;
use gimple_ir::{Arg, Args, Edge, EdgeArg, JumpFunction, List, NoMemory, Operand, Statement};
use std::alloc::Global;

fn component_argument(jumps: &Jumps, component: u32) -> EdgeArg
    requires { component < components_in jumps.now.variables }
    ensures { result ≡ component_argument jumps.now component }
{
    let source = if jumps.layout().is_parameter(component) {
        Some(component)
    } else {
        None
    };
    EdgeArg {
        jump: jumps.component_jump(component),
        source,
    }
}

/// One argument component for each field of a struct variable.
fn push_whole(arguments: &mut Vec<EdgeArg>, jumps: &Jumps, variable: u32) -> Result<(), NoMemory>
    ensures { OnOk result (arguments.new.items ≡ arguments.old.items ++ map (field_argument jumps.now variable) (range_with_len 0 (components_of jumps.now.variables variable))) }
{
    let layout = jumps.layout();
    for field in 0..layout.fields(variable) {
        let component = layout.field(variable, field);
        arguments.push(component_argument(jumps, component))?;
    }
    Ok(())
}

fn push_argument(arguments: &mut Vec<EdgeArg>, jumps: &Jumps, argument: Arg) -> Result<(), NoMemory>
    requires { IsArgumentIn jumps.now.variables argument }
    ensures { OnOk result (arguments.new.items ≡ arguments.old.items ++ edge_arguments jumps.now argument) }
{
    match argument {
        Arg::One(Operand::Component(component)) => {
            arguments.push(component_argument(jumps, component))?;
            Ok(())
        }
        Arg::One(Operand::Literal(value)) => {
            arguments.push(EdgeArg {
                jump: JumpFunction::Const(value),
                source: None,
            })?;
            Ok(())
        }
        Arg::Whole(variable) => push_whole(arguments, jumps, variable),
    }
}

fn arguments(alloc: Global, jumps: &Jumps, args: &Args) -> Result<List<EdgeArg>, NoMemory>
    requires { All (IsArgumentIn jumps.now.variables) args.now }
    ensures { IfOk result (λ arguments. arguments ≡ flat_map (edge_arguments jumps.now) args.now) }
{
    let mut arguments = Vec::new(alloc);
    let items = args.as_slice();
    for argument in items {
        push_argument(&mut arguments, jumps, *argument)?;
    }
    Ok(List::from_vec(arguments))
}

/// The edge of a statement that calls a function.
fn push_edge(
    edges: &mut Vec<Edge>,
    alloc: Global,
    jumps: &Jumps,
    place: u32,
    statement: &Statement,
) -> Result<(), NoMemory>
    requires { HasArgumentsIn jumps.now.variables statement.now }
    ensures { OnOk result (edges.new.items ≡ edges.old.items ++ cons_option (edge_of jumps.now place statement.now) []) }
{
    match statement {
        Statement::Call { to, function, args } => {
            let args = arguments(alloc, jumps, args)?;
            edges.push(Edge {
                statement: place,
                callee: *function,
                assigns: to.is_some(),
                args,
            })?;
            Ok(())
        }
        _ => Ok(()),
    }
}

/// The edges of the function, in statement order.
pub fn edges(alloc: Global, jumps: &Jumps) -> Result<List<Edge>, NoMemory>
    requires statements { length jumps.now.body ≤ 8192 }
    requires arguments { All (HasArgumentsIn jumps.now.variables) jumps.now.body }
    ensures { IfOk result (λ edges. edges ≡ edges_of jumps.now) }
{
    let mut edges = Vec::new(alloc);
    let body = &jumps.layout().function().body;
    for place in 0..body.len() {
        push_edge(&mut edges, alloc, jumps, place as u32, body.get(place))?;
    }
    Ok(List::from_vec(edges))
}
