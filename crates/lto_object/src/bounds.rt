//! What the numbers in the streams of each function with a body may name.
ghost use Rattle.std.specs.Prelude.{◌≡◌, ◌++◌, ◌<◌, ◌^◌, [], ◌∷◌, length, map, IfOk, OnOk};
ghost use Rattle.gimple_ir.specs.Statements.{component_types};
ghost use Rattle.lto_object.specs.Bounds.{is_defined, defined_of, bounds_of, bounds_in, HasFewNames, HasBounds};

use gimple_ir::{Function, Linkage, List, Module, NoMemory, ScalarType, Variable};
use module_stream::BodyBounds;
use std::alloc::Global;

/// Whether the function has a body.
pub fn is_defined(function: &Function) -> bool
    ensures { result ≡ is_defined function.now }
{
    !matches!(function.linkage, Linkage::Extern)
}

/// The type of each component of the variables.
fn component_types(alloc: Global, variables: &[Variable]) -> Result<List<ScalarType>, NoMemory>
    ensures { IfOk result (λ types. types ≡ component_types variables.now) }
{
    let mut types = Vec::new(alloc);
    for variable in variables {
        types.extend_from_slice(variable.types.as_slice())?;
    }
    Ok(List::from_vec(types))
}

fn bounds_of(alloc: Global, source: &Module, function: &Function) -> Result<BodyBounds, NoMemory>
    requires arrays { length source.now.arrays < 2 ^ 32 }
    requires functions { length source.now.functions < 2 ^ 32 }
    requires names { HasFewNames function.now }
    ensures { IfOk result (λ bounds. bounds ≡ bounds_of source.now function.now) }
{
    let types = component_types(alloc, function.variables.as_slice())?;
    Ok(BodyBounds {
        types,
        variables: function.variables.len() as u32,
        labels: function.labels.len() as u32,
        arrays: source.arrays.len() as u32,
        functions: source.functions.len() as u32,
    })
}

fn push_bounds(
    bounds: &mut Vec<BodyBounds>,
    alloc: Global,
    source: &Module,
    function: &Function,
) -> Result<(), NoMemory>
    requires arrays { length source.now.arrays < 2 ^ 32 }
    requires functions { length source.now.functions < 2 ^ 32 }
    requires names { HasFewNames function.now }
    ensures { OnOk result (bounds.new.items ≡ bounds.old.items ++ map (bounds_of source.now) (defined_of (function.now ∷ []))) }
{
    if is_defined(function) {
        bounds.push(bounds_of(alloc, source, function)?)?;
    }
    Ok(())
}

/// The bounds of each function of the module that has a body, in order.
pub fn bounds_in(alloc: Global, source: &Module) -> Result<Vec<BodyBounds>, NoMemory>
    requires { HasBounds source.now }
    ensures { IfOk result (λ bounds. bounds.items ≡ bounds_in source.now) }
{
    let mut bounds = Vec::new(alloc);
    let functions = source.functions.as_slice();
    for function in functions {
        push_bounds(&mut bounds, alloc, source, function)?;
    }
    Ok(bounds)
}
